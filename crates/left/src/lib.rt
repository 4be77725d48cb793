// What is left of a pool: how many of its addresses are free, and the size of its largest free range. Asking changes nothing: the
// block is lent to be read. A pool has at most 2^64 - 1 addresses, so that both numbers fit; no sum wraps, whatever the block holds.
#![tactic(auto)]

ghost use Rattle.left.specs.Contract.{Tells};
ghost use Rattle.left.specs.Steps.{Passes};

use ranges::Error;

// The number of free addresses and the size of the largest free range.
#[derive(Clone, Copy)]
pub struct Left {
    pub free: u64,
    pub largest: u64,
}

// The two numbers once the range from a to end is passed, which is free where its tag is 0. Refused where there is no such range,
// and where the free addresses would be more than 2^64 - 1.
fn pass(left: Left, a: u64, end: u64, tag: u64) -> Result<Left, Error>
    ensures { Passes left.free left.largest a end tag result }
{
    if end < a {
        return Err(Error::NoState);
    }
    if tag != 0 {
        return Ok(left);
    }
    if u64::MAX - left.free <= end - a {
        return Err(Error::NoState);
    }
    let size = end - a + 1;
    Ok(Left {
        free: left.free + size,
        largest: left.largest.max(size),
    })
}

// How many addresses of the pool are free, and the greatest size for which a window fits at alignment 1. Refused with "no state",
// and only where the block holds no pool. A pool that is all free answers its size twice; one with nothing free answers 0 and 0.
// It asks what stands at the first address of each range, one range after the other.
pub fn ask(mem: &[u64]) -> Result<Left, Error>
    ensures { Tells mem.now result }
{
    let last = addresses::end(mem);
    let mut a = addresses::base(mem);
    let mut left = Left {
        free: 0,
        largest: 0,
    };
    // no `for`: where the next range starts is known only once this one is found
    loop {
        let Ok(stands) = addresses::at(mem, a) else {
            return Err(Error::NoState);
        };
        left = pass(left, a, stands.end, stands.tag)?;
        if last <= stands.end {
            return Ok(left);
        }
        a = stands.end + 1;
    }
}
