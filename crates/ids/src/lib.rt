// Numbers from an interval, the lowest that is free first. The caller lends the memory: four words (the
// mark, low, high and next), then a bit for each id, then summaries, so that the lowest free id is found
// in one step for each level of 64 words. Every public function is total: it has no `requires`.
#![tactic(auto)]

ghost use Rattle.ids.specs.Runs.{Allocate, Release};
ghost use Rattle.ids.specs.Layout.{LastBit, Heads};
ghost use Rattle.ids.specs.Held.{Needs};
ghost use Rattle.ids.specs.Contract.{Makes, Performs, Tells, Describes};

mod count;
mod exact;

pub use count::free_count;
pub use exact::{lowest, take};
use ranges::Error;

// The letters RK-ids01: what stands in the first word of an id allocator's memory and of no other's.
const MARK: u64 = 0x524b_2d69_6473_3031;

// The interval, and the lowest id that was never granted, which is high + 1 where there is none: up to 2^32, so wider than an id.
#[derive(Clone, Copy, PartialEq, Eq)]
pub struct Interval {
    pub low: u32,
    pub high: u32,
    pub next: u64,
}

// The header of an id allocator's memory, and the place of the interval's last bit.
#[derive(Clone, Copy)]
struct Header {
    low: u64,
    high: u64,
    next: u64,
    last: u32,
}

// Whether the header's words are those of an id allocator that has as many words as it needs behind
// the header, and which bit is its last.
fn last_bit(mark: u64, low: u64, high: u64, words: usize) -> Option<u32>
    ensures { LastBit mark low high words result }
{
    if mark != MARK || high < low || 0xffff_ffff < high {
        return None;
    }
    let last = (high - low) as u32;
    if words < bits::room(last) {
        return None;
    }
    Some(last)
}

// The header, where the memory is an id allocator's.
fn head(mem: &[u64]) -> Option<Header>
    ensures { Heads mem.now result }
{
    if mem.len() < 4 {
        return None;
    }
    let low = mem[1];
    let high = mem[2];
    let last = last_bit(mem[0], low, high, mem.len() - 4)?;
    Some(Header {
        low,
        high,
        next: mem[3],
        last,
    })
}

// How many words an allocator for the ids low to high takes; 0 where there are no such ids. A number and no Option: C asks it.
pub fn words_needed(low: u32, high: u32) -> usize
    ensures { Needs low high result }
{
    if high < low {
        return 0;
    }
    4 + bits::room(high - low)
}

// Makes an allocator for the ids low to high. Refused: high below low; too few words.
pub fn new(mem: &mut [u64], low: u32, high: u32) -> Result<(), Error>
    ensures { Makes mem.old low high result mem.new }
{
    if high < low {
        return Err(Error::InvalidRange);
    }
    let n = bits::room(high - low);
    if mem.len() < 4 + n {
        return Err(Error::NoRoom);
    }
    mem[0] = MARK;
    mem[1] = low as u64;
    mem[2] = high as u64;
    mem[3] = low as u64;
    bits::clear(&mut mem[4..], n);
    Ok(())
}

// The lowest id that is not granted, which is granted by this. Of any sequence of calls (`chain_never_twice`): between two grants of
// one id there was a `free` of it that was answered with the id.
pub fn allocate(mem: &mut [u64]) -> Result<u32, Error>
    ensures { Performs mem.old Allocate result mem.new }
{
    let h = head(mem).ok_or(Error::NoState)?;
    let i = bits::find(&mem[4..], h.last);
    if (h.last as u64) < i {
        if h.high == 0xffff_ffff {
            return Err(Error::Overflow);
        }
        return Err(Error::ResourceNotAvailable);
    }
    let id = h.low + i;
    mem[3] = h.next.max(id + 1);
    bits::flip(&mut mem[4..], h.last, i as u32);
    Ok(id as u32)
}

// Takes the id back. Refused, in this order: an id outside the interval; one that was never granted;
// one that is not granted now.
pub fn free(mem: &mut [u64], id: u32) -> Result<u32, Error>
    ensures { Performs mem.old (Release id) result mem.new }
{
    let h = head(mem).ok_or(Error::NoState)?;
    let x = id as u64;
    if x < h.low || h.high < x {
        return Err(Error::OutOfRange);
    }
    if h.next <= x {
        return Err(Error::NeverAllocated);
    }
    let i = (x - h.low) as u32;
    if !bits::is_set(&mem[4..], i) {
        return Err(Error::AlreadyReleased);
    }
    bits::flip(&mut mem[4..], h.last, i);
    Ok(id)
}

// Whether the id is granted now: false of every other number, those outside the interval included, and where there is no allocator.
pub fn is_allocated(mem: &[u64], id: u32) -> bool
    ensures { Tells mem.now id result }
{
    let Some(h) = head(mem) else {
        return false;
    };
    let x = id as u64;
    if h.high < x || x < h.low {
        return false;
    }
    bits::is_set(&mem[4..], (x - h.low) as u32)
}

// The interval's ends and the lowest id that was never granted, or that the memory is no id allocator's.
pub fn bounds(mem: &[u64]) -> Option<Interval>
    ensures { Describes mem.now result }
{
    let h = head(mem)?;
    Some(Interval {
        low: h.low as u32,
        high: h.high as u32,
        next: h.next,
    })
}
