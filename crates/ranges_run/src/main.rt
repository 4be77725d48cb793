// Worked values of ranges, alignment and requests, a line for each answer, held to the stored output.
#![tactic(auto)]

use ranges::{AllocPolicy, Constraint, Error, RangeInclusive};
use std::io;

fn pair(start: u64, end: u64) -> RangeInclusive {
    RangeInclusive { start, end }
}

fn yes(b: bool) -> &'static str {
    if b { "yes" } else { "no" }
}

fn made(rt: &impl Print, start: u64, end: u64) -> io::Result<()> {
    print!(rt; "range {}: ", pair(start, end))?;
    match RangeInclusive::new(start, end) {
        Ok(r) => println!(rt; "length {:#x}", r.len()),
        Err(e) => println!(rt; "{e}"),
    }
}

fn both(rt: &impl Print, a: RangeInclusive, b: RangeInclusive) -> io::Result<()> {
    println!(rt; "{a} overlaps {b}: {}", yes(a.overlaps(b)))
}

fn within(rt: &impl Print, a: RangeInclusive, b: RangeInclusive) -> io::Result<()> {
    println!(rt; "{a} contains {b}: {}", yes(a.contains(b)))
}

fn rounded(rt: &impl Print, r: Result<u64, Error>) -> io::Result<()> {
    match r {
        Ok(x) => println!(rt; "{x:#x}"),
        Err(e) => println!(rt; "{e}"),
    }
}

fn round(rt: &impl Print, a: u64, k: u64) -> io::Result<()> {
    print!(rt; "align {a:#x} to {k:#x} down: ")?;
    rounded(rt, ranges::align_down(a, k))?;
    print!(rt; "align {a:#x} to {k:#x} up: ")?;
    rounded(rt, ranges::align_up(a, k))
}

fn request(rt: &impl Print, size: u64, align: u64, policy: AllocPolicy) -> io::Result<()> {
    print!(rt; "request of {size:#x} at {align:#x}: ")?;
    match Constraint::new(size, align, policy) {
        Ok(_) => println!(rt; "in order"),
        Err(e) => println!(rt; "{e}"),
    }
}

fn policy(rt: &impl Print, kind: u32) -> io::Result<()> {
    print!(rt; "policy {kind:#x}: ")?;
    match AllocPolicy::from_number(kind, 0x1000) {
        Ok(AllocPolicy::FirstMatch) => println!(rt; "first"),
        Ok(AllocPolicy::LastMatch) => println!(rt; "last"),
        Ok(AllocPolicy::ExactMatch(a)) => println!(rt; "exact at {a:#x}"),
        Err(e) => println!(rt; "{e}"),
    }
}

fn numbered(rt: &impl Print, e: Error) -> io::Result<()> {
    println!(rt; "{:#x} {e}", e.number())
}

fn main(rt: HostRuntime) -> io::Result<()> {
    made(&rt, 2, 1)?;
    made(&rt, 0, u64::MAX)?;
    made(&rt, 1, 4)?;
    made(&rt, 3, 3)?;
    made(&rt, 0, u64::MAX - 1)?;
    made(&rt, 1, u64::MAX)?;
    both(&rt, pair(1, 4), pair(4, 6))?;
    both(&rt, pair(4, 6), pair(1, 4))?;
    both(&rt, pair(1, 4), pair(2, 3))?;
    both(&rt, pair(1, 4), pair(5, 6))?;
    both(&rt, pair(5, 6), pair(1, 4))?;
    within(&rt, pair(2, 6), pair(2, 3))?;
    within(&rt, pair(2, 6), pair(3, 4))?;
    within(&rt, pair(2, 6), pair(5, 6))?;
    within(&rt, pair(2, 6), pair(1, 2))?;
    within(&rt, pair(2, 6), pair(1, 3))?;
    within(&rt, pair(2, 6), pair(1, 7))?;
    within(&rt, pair(2, 6), pair(6, 7))?;
    within(&rt, pair(2, 6), pair(7, 8))?;
    round(&rt, 2, 0)?;
    round(&rt, 2, 1)?;
    round(&rt, 2, 2)?;
    round(&rt, 2, 4)?;
    round(&rt, 2, 3)?;
    round(&rt, 0xffff_ffff_ffff_fffd, 2)?;
    round(&rt, 0xffff_ffff_ffff_fffd, 4)?;
    round(&rt, u64::MAX, 1)?;
    round(&rt, 1, 0x8000_0000_0000_0000)?;
    request(&rt, 0, 3, AllocPolicy::ExactMatch(1))?;
    request(&rt, 0x1000, 3, AllocPolicy::ExactMatch(1))?;
    request(&rt, 0x1000, 0, AllocPolicy::LastMatch)?;
    request(&rt, 0x1000, 0x1000, AllocPolicy::ExactMatch(0xc))?;
    request(&rt, 0x1000, 0x1000, AllocPolicy::ExactMatch(0xc000))?;
    request(&rt, 0x1000, 0x1000, AllocPolicy::FirstMatch)?;
    policy(&rt, 0)?;
    policy(&rt, 1)?;
    policy(&rt, 2)?;
    policy(&rt, 3)?;
    numbered(&rt, Error::Overflow)?;
    numbered(&rt, Error::OutOfRange)?;
    numbered(&rt, Error::AlreadyReleased)?;
    numbered(&rt, Error::NeverAllocated)?;
    numbered(&rt, Error::ResourceNotAvailable)?;
    numbered(&rt, Error::InvalidRange)?;
    numbered(&rt, Error::InvalidAlignment)?;
    numbered(&rt, Error::UnalignedAddress)?;
    numbered(&rt, Error::Underflow)?;
    numbered(&rt, Error::InvalidSize)?;
    numbered(&rt, Error::NoRoom)?;
    numbered(&rt, Error::InvalidPolicy)?;
    numbered(&rt, Error::NoState)
}
