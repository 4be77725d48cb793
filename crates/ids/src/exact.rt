// What judging a claim asks of the allocator: the lowest free id with nothing granted, and a grant of just one id.
ghost use Rattle.ids.specs.Exact.{Asks, Takes};

use crate::head;
use ranges::Error;

// What `allocate` would answer: the lowest id that is not granted. Nothing is granted by this.
// The two tests stand in `allocate` too: one function for both would need clauses on the header and the bit, longer than these lines.
pub fn lowest(mem: &[u64]) -> Result<u32, Error>
    ensures { Asks mem.now result }
{
    let h = head(mem).ok_or(Error::NoState)?;
    let i = bits::find(&mem[4..], h.last);
    if (h.last as u64) < i {
        if h.high == 0xffff_ffff {
            return Err(Error::Overflow);
        }
        return Err(Error::ResourceNotAvailable);
    }
    Ok((h.low + i) as u32)
}

// Grants just this id. Refused, in this order: an id outside the interval; one that is granted.
pub fn take(mem: &mut [u64], id: u32) -> Result<u32, Error>
    ensures { Takes mem.old id result mem.new }
{
    let h = head(mem).ok_or(Error::NoState)?;
    let x = id as u64;
    if x < h.low || h.high < x {
        return Err(Error::OutOfRange);
    }
    let i = (x - h.low) as u32;
    if bits::is_set(&mem[4..], i) {
        return Err(Error::ResourceNotAvailable);
    }
    mem[3] = h.next.max(x + 1);
    bits::flip(&mut mem[4..], h.last, i);
    Ok(id)
}
