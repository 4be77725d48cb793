// A copy to try things on, and several things or none: a line for each answer, held to the stored output.
#![tactic(auto)]

use both::{PairError, TripleError};
use ranges::{AllocPolicy, Constraint, Error, RangeInclusive};
use std::io;

fn pair(rt: &impl Print, a: Result<(RangeInclusive, RangeInclusive), PairError>) -> io::Result<()> {
    match a {
        Ok((r, s)) => println!(rt; "{r} {s}"),
        Err(PairError::First(e)) => println!(rt; "first: {e}"),
        Err(PairError::Second(e)) => println!(rt; "second: {e}"),
    }
}

fn triple(
    rt: &impl Print,
    a: Result<(RangeInclusive, RangeInclusive, u32), TripleError>,
) -> io::Result<()> {
    match a {
        Ok((r, s, id)) => println!(rt; "{r} {s} {id:#x}"),
        Err(TripleError::First(e)) => println!(rt; "first: {e}"),
        Err(TripleError::Second(e)) => println!(rt; "second: {e}"),
        Err(TripleError::Third(e)) => println!(rt; "third: {e}"),
    }
}

fn copy(rt: &impl Print, done: Result<(), Error>) -> io::Result<()> {
    say::answer(rt, done.map(|_| "copied"))
}

fn first_of(size: u64) -> Constraint {
    Constraint {
        size,
        align: 16,
        policy: AllocPolicy::FirstMatch,
    }
}

// A window, or why there is none.
fn window(rt: &impl Print, mem: &mut [u64], size: u64, policy: AllocPolicy) -> io::Result<()> {
    say::answer(rt, addresses::allocate(mem, size, 16, policy))
}

// A pool with two ranges is copied; what is done to the copy is not done to the pool.
fn copies(rt: &impl Print) -> io::Result<()> {
    let mut mem = [0u64; 329];
    let mut tried = [0u64; 329];
    let mut short = [0u64; 328];
    if addresses::new(&mut mem, 0x1000, 0x100, 4).is_ok() {
        window(rt, &mut mem, 0x10, AllocPolicy::FirstMatch)?;
        window(rt, &mut mem, 0x20, AllocPolicy::ExactMatch(0x1040))?;
        copy(rt, copied::copy(&mem, &mut short, 4))?;
        copy(rt, copied::copy(&mem, &mut tried, 3))?;
        copy(rt, copied::copy(&short, &mut tried, 4))?;
        copy(rt, copied::copy(&mem, &mut tried, 8))?;
        window(rt, &mut tried, 0x10, AllocPolicy::ExactMatch(0x1080))?;
        window(rt, &mut mem, 0x10, AllocPolicy::ExactMatch(0x1080))?;
        say::answer(rt, addresses::free(&mut tried, 0x1000, 0x100f))?;
        window(rt, &mut mem, 0x10, AllocPolicy::ExactMatch(0x1000))?;
    }
    Ok(())
}

// A window and ports for a card.
fn two(
    rt: &impl Print,
    windows: &mut [u64; 329],
    ports: &mut [u64; 329],
    size: u64,
    count: u64,
) -> io::Result<()> {
    pair(
        rt,
        both::two(windows, first_of(size), ports, first_of(count)),
    )
}

// And an interrupt with them.
fn three(
    rt: &impl Print,
    windows: &mut [u64; 329],
    ports: &mut [u64; 329],
    irqs: &mut [u64; 8],
    size: u64,
    count: u64,
) -> io::Result<()> {
    triple(
        rt,
        both::three(windows, first_of(size), ports, first_of(count), irqs),
    )
}

// What was refused has left no trace: the next window and port are those behind the last that were granted.
fn cards(rt: &impl Print) -> io::Result<()> {
    let mut windows = [0u64; 329];
    let mut ports = [0u64; 329];
    let mut irqs = [0u64; 8];
    let _ = addresses::new(&mut windows, 0xd000_0000, 0x1000, 8);
    let _ = addresses::new(&mut ports, 0xc000, 0x100, 8);
    let _ = ids::new(&mut irqs, 5, 5);
    two(rt, &mut windows, &mut ports, 0x100, 0x80)?;
    two(rt, &mut windows, &mut ports, 0x100, 0x100)?;
    two(rt, &mut windows, &mut ports, 0x2000, 0x10)?;
    three(rt, &mut windows, &mut ports, &mut irqs, 0x100, 0x40)?;
    three(rt, &mut windows, &mut ports, &mut irqs, 0x100, 0x40)?;
    three(rt, &mut windows, &mut ports, &mut irqs, 0x100, 0)?;
    window(rt, &mut windows, 0x10, AllocPolicy::FirstMatch)?;
    window(rt, &mut ports, 0x40, AllocPolicy::FirstMatch)
}

fn main(rt: HostRuntime) -> io::Result<()> {
    copies(&rt)?;
    cards(&rt)
}
