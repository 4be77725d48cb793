// The worked run of an address allocator with the free and granted ranges after each step, then the sequences at which
// vm-allocator 0.1.4 departs from its documentation, then the ends of the numbers and a full table: a line for each answer, held to
// the stored output.
#![tactic(auto)]

use ranges::{AllocPolicy, RangeInclusive};
use std::io;

const M: u64 = u64::MAX;

// The range that a lies in, a granted one in brackets; answers the address past it.
fn tile(rt: &impl Print, mem: &[u64], a: u64) -> io::Result<u64> {
    let Ok(s) = addresses::at(mem, a) else {
        return Ok(a);
    };
    let r = RangeInclusive {
        start: s.start,
        end: s.end,
    };
    if s.tag == 0 {
        print!(rt; "  {r}")?;
    } else {
        print!(rt; "  [{r}]")?;
    }
    Ok(s.end.wrapping_add(1))
}

// The ranges of the pool in order.
fn row(rt: &impl Print, mem: &[u64]) -> io::Result<()> {
    let mut a = addresses::base(mem);
    for _ in 0..addresses::count(mem) {
        a = tile(rt, mem, a)?;
    }
    println!(rt; "")
}

fn pool(rt: &impl Print, mem: &mut [u64], base: u64, size: u64, limit: usize) -> io::Result<()> {
    print!(rt; "pool {base:#x} size {size:#x}: ")?;
    say::answer(rt, addresses::new(mem, base, size, limit).map(|_| "ready"))
}

fn ask(
    rt: &impl Print,
    mem: &mut [u64],
    size: u64,
    align: u64,
    policy: AllocPolicy,
) -> io::Result<()> {
    print!(rt; "allocate {size:#x} align {align:#x} ")?;
    match policy {
        AllocPolicy::FirstMatch => print!(rt; "first: ")?,
        AllocPolicy::LastMatch => print!(rt; "last: ")?,
        AllocPolicy::ExactMatch(a) => print!(rt; "exact {a:#x}: ")?,
    }
    say::answer(rt, addresses::allocate(mem, size, align, policy))?;
    row(rt, mem)
}

fn first(rt: &impl Print, mem: &mut [u64], size: u64, align: u64) -> io::Result<()> {
    ask(rt, mem, size, align, AllocPolicy::FirstMatch)
}

fn last(rt: &impl Print, mem: &mut [u64], size: u64, align: u64) -> io::Result<()> {
    ask(rt, mem, size, align, AllocPolicy::LastMatch)
}

fn exact(rt: &impl Print, mem: &mut [u64], size: u64, align: u64, a: u64) -> io::Result<()> {
    ask(rt, mem, size, align, AllocPolicy::ExactMatch(a))
}

fn back(rt: &impl Print, mem: &mut [u64], start: u64, end: u64) -> io::Result<()> {
    print!(rt; "free {}: ", RangeInclusive { start, end })?;
    match addresses::free(mem, start, end) {
        Ok(r) => println!(rt; "{r} freed")?,
        Err(e) => println!(rt; "{e}")?,
    }
    row(rt, mem)
}

fn worked(rt: &impl Print) -> io::Result<()> {
    let mut mem = [0u64; 329];
    pool(rt, &mut mem, 0x1000, 0x10000, 16)?;
    first(rt, &mut mem, 0x800, 0x100)?;
    first(rt, &mut mem, 0x400, 0x1000)?;
    last(rt, &mut mem, 0x400, 0x100)?;
    exact(rt, &mut mem, 0x100, 0x100, 0x1800)?;
    exact(rt, &mut mem, 0x100, 0x100, 0x1850)?;
    back(rt, &mut mem, 0x1000, 0x17fe)?;
    back(rt, &mut mem, 0x1000, 0x17ff)?;
    back(rt, &mut mem, 0x1800, 0x18ff)?;
    back(rt, &mut mem, 0x2000, 0x23ff)?;
    back(rt, &mut mem, 0x10c00, 0x10fff)
}

fn inside_a_granted_range(rt: &impl Print) -> io::Result<()> {
    let mut mem = [0u64; 329];
    pool(rt, &mut mem, 0, 0x1000, 16)?;
    first(rt, &mut mem, 0x1000, 1)?;
    exact(rt, &mut mem, 0x10, 1, 0x100)?;
    exact(rt, &mut mem, 0x1000, 1, 0)
}

fn the_whole_from_zero(rt: &impl Print) -> io::Result<()> {
    let mut mem = [0u64; 329];
    pool(rt, &mut mem, 0, 0x1000, 16)?;
    last(rt, &mut mem, 0x1000, 1)
}

fn freed_from_one(rt: &impl Print) -> io::Result<()> {
    let mut mem = [0u64; 329];
    pool(rt, &mut mem, 1, 0x1000, 16)?;
    first(rt, &mut mem, 0x10, 1)?;
    back(rt, &mut mem, 1, 0x10)
}

fn freed_before_the_end(rt: &impl Print) -> io::Result<()> {
    let mut mem = [0u64; 329];
    pool(rt, &mut mem, M - 0xfff, 0x1000, 16)?;
    exact(rt, &mut mem, 0x10, 1, M - 0x10)?;
    back(rt, &mut mem, M - 0x10, M - 1)
}

fn melted_with_one_address(rt: &impl Print) -> io::Result<()> {
    let mut mem = [0u64; 329];
    pool(rt, &mut mem, 0x10, 0x10, 16)?;
    exact(rt, &mut mem, 1, 1, 0x10)?;
    exact(rt, &mut mem, 4, 1, 0x11)?;
    back(rt, &mut mem, 0x10, 0x10)?;
    back(rt, &mut mem, 0x11, 0x14)?;
    first(rt, &mut mem, 0x10, 1)
}

fn exact_at_the_last_address(rt: &impl Print) -> io::Result<()> {
    let mut mem = [0u64; 329];
    pool(rt, &mut mem, 0x10, 0x10, 16)?;
    exact(rt, &mut mem, 1, 1, 0x1f)
}

fn granted_to_the_end(rt: &impl Print) -> io::Result<()> {
    let mut mem = [0u64; 329];
    pool(rt, &mut mem, M - 0xfff, 0x1000, 16)?;
    last(rt, &mut mem, 0x10, 1)?;
    pool(rt, &mut mem, M - 0xfff, 0x1000, 16)?;
    first(rt, &mut mem, 0x1000, 1)?;
    pool(rt, &mut mem, M - 0xfff, 0x1000, 16)?;
    exact(rt, &mut mem, 0x10, 1, M - 0xf)
}

fn exact_outside(rt: &impl Print) -> io::Result<()> {
    let mut mem = [0u64; 329];
    pool(rt, &mut mem, 0, 0x1000, 16)?;
    exact(rt, &mut mem, 1, 1, M)
}

fn freed_what_is_free(rt: &impl Print) -> io::Result<()> {
    let mut mem = [0u64; 329];
    pool(rt, &mut mem, 0x10, 0x10, 16)?;
    back(rt, &mut mem, 0x10, 0x1f)
}

fn pools(rt: &impl Print) -> io::Result<()> {
    let mut mem = [0u64; 329];
    pool(rt, &mut mem, 5, 0, 16)?;
    pool(rt, &mut mem, 2, M, 16)?;
    pool(rt, &mut mem, 1, M, 0)?;
    pool(rt, &mut mem, 1, M, 4097)?;
    pool(rt, &mut mem, 1, M, 4096)?;
    pool(rt, &mut mem, 1, M, 16)
}

fn ends(rt: &impl Print) -> io::Result<()> {
    let mut mem = [0u64; 329];
    pool(rt, &mut mem, M - 0xfff, 0x1000, 16)?;
    exact(rt, &mut mem, 0x11, 1, M - 0xf)?;
    exact(rt, &mut mem, 2, 1, M)?;
    exact(rt, &mut mem, M, 1, 7)?;
    exact(rt, &mut mem, 1, 1, M)?;
    exact(rt, &mut mem, 2, 1, M)
}

fn pairs_and_requests(rt: &impl Print) -> io::Result<()> {
    let mut mem = [0u64; 329];
    pool(rt, &mut mem, 0, 0x1000, 16)?;
    back(rt, &mut mem, 0, M)?;
    back(rt, &mut mem, 2, 1)?;
    first(rt, &mut mem, 0, 3)?;
    first(rt, &mut mem, 1, 3)?;
    first(rt, &mut mem, 1, 0)?;
    last(rt, &mut mem, 1, 0x8000_0000_0000_0000)?;
    first(rt, &mut mem, 1, 0x8000_0000_0000_0000)
}

fn full(rt: &impl Print) -> io::Result<()> {
    let mut mem = [0u64; 329];
    pool(rt, &mut mem, 16, 16, 2)?;
    exact(rt, &mut mem, 1, 1, 20)?;
    first(rt, &mut mem, 1, 1)?;
    first(rt, &mut mem, 1, 1)?;
    first(rt, &mut mem, 15, 1)
}

fn no_allocator(rt: &impl Print) -> io::Result<()> {
    let mut mem = [0u64; 329];
    first(rt, &mut mem, 1, 1)?;
    last(rt, &mut mem, 1, 1)?;
    exact(rt, &mut mem, 1, 1, 16)?;
    back(rt, &mut mem, 16, 16)
}

fn main(rt: HostRuntime) -> io::Result<()> {
    worked(&rt)?;
    inside_a_granted_range(&rt)?;
    the_whole_from_zero(&rt)?;
    freed_from_one(&rt)?;
    freed_before_the_end(&rt)?;
    melted_with_one_address(&rt)?;
    exact_at_the_last_address(&rt)?;
    granted_to_the_end(&rt)?;
    exact_outside(&rt)?;
    freed_what_is_free(&rt)?;
    pools(&rt)?;
    ends(&rt)?;
    pairs_and_requests(&rt)?;
    full(&rt)?;
    no_allocator(&rt)
}
