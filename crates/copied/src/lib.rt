// A copy of an address allocator in another lent block, to try things on: it holds the same pool, with the same limit or a larger one.
// Made of the public operations alone: the source is walked range by range, and each granted range is asked for in the copy, just so.
#![tactic(auto)]

ghost use Rattle.std.specs.Prelude.{◌≤◌};
ghost use Rattle.copied.specs.Copy.{Copies};
ghost use Rattle.copied.specs.Steps.{Placed, Carries, Fills, Measures};

use ranges::{AllocPolicy, Error};

// What the source's header says of its pool.
#[derive(Clone, Copy)]
struct Extent {
    base: u64,
    size: u64,
    count: usize,
}

// Asks for the range from start to end in the copy.
fn place(dst: &mut [u64], start: u64, end: u64)
    requires { start ≤ end }
    ensures { Placed dst.old start end dst.new }
{
    let more = (end - start).wrapping_add(1);
    let _ = addresses::allocate(dst, more, 1, AllocPolicy::ExactMatch(start));
}

// Takes the range that stands at a in the source over into the copy, if it is granted, and answers where the next one starts.
fn carry(src: &[u64], dst: &mut [u64], a: u64) -> u64
    ensures { Carries src.now dst.old a result dst.new }
{
    let Ok(stands) = addresses::at(src, a) else {
        return a;
    };
    if stands.end < a {
        return a;
    }
    if stands.tag != 0 {
        place(dst, a, stands.end);
    }
    stands.end.wrapping_add(1)
}

// Takes over the n ranges from base on.
fn fill(src: &[u64], dst: &mut [u64], base: u64, n: usize)
    ensures { Fills src.now dst.old base n dst.new }
{
    let mut a = base;
    for _i in 0..n {
        a = carry(src, dst, a);
    }
}

// The source's base, size and number of ranges, or that it holds no pool.
fn measure(src: &[u64]) -> Option<Extent>
    ensures { Measures src.now result }
{
    let count = addresses::count(src);
    let base = addresses::base(src);
    let end = addresses::end(src);
    if count == 0 || end < base {
        return None;
    }
    let size = (end - base).wrapping_add(1);
    if size == 0 {
        return None;
    }
    Some(Extent { base, size, count })
}

// Makes the block dst hold what src holds, with this limit. Refused, in this order: "no state" for a source whose header is no
// allocator's; "no room" for a limit below the source's or above 4,096, and for a block that is too short for it. After a refusal dst
// is word for word as it was; src always is. Both then answer alike for ever where the limits are alike (`copy_alike`).
pub fn copy(src: &[u64], dst: &mut [u64], limit: usize) -> Result<(), Error>
    ensures { Copies src.now limit result dst.old dst.new }
{
    let Some(extent) = measure(src) else {
        return Err(Error::NoState);
    };
    if limit < table::limit(src) {
        return Err(Error::NoRoom);
    }
    if dst.len() < addresses::words(limit) {
        return Err(Error::NoRoom);
    }
    let Ok(()) = addresses::new(dst, extent.base, extent.size, limit) else {
        return Err(Error::NoRoom);
    };
    fill(src, dst, extent.base, extent.count);
    Ok(())
}
