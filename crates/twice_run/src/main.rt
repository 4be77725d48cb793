// Two sequences that must never grant the same thing twice: an id that is given back before it was granted, and an exact request inside a
// granted range. A line for each answer, held to the stored output.
#![tactic(auto)]

use ranges::{AllocPolicy, Error};
use std::io;

fn id(rt: &impl Print, a: Result<u32, Error>) -> io::Result<()> {
    match a {
        Ok(i) => println!(rt; "{i:#x}"),
        Err(e) => println!(rt; "{e}"),
    }
}

// Asks for a window at an address, or for the whole pool.
fn window(rt: &impl Print, mem: &mut [u64], size: u64, policy: AllocPolicy) -> io::Result<()> {
    say::answer(rt, addresses::allocate(mem, size, 1, policy))
}

// Gives a window back.
fn back(rt: &impl Print, mem: &mut [u64], start: u64, end: u64) -> io::Result<()> {
    match addresses::free(mem, start, end) {
        Ok(r) => println!(rt; "{r} freed"),
        Err(e) => println!(rt; "{e}"),
    }
}

// The id that would be granted next is given back; the two grants after that are of two ids.
fn numbers(rt: &impl Print) -> io::Result<()> {
    let mut mem = [0u64; 8];
    if ids::new(&mut mem, 5, 23).is_ok() {
        id(rt, ids::allocate(&mut mem))?;
        id(rt, ids::free(&mut mem, 6))?;
        id(rt, ids::allocate(&mut mem))?;
        id(rt, ids::allocate(&mut mem))?;
        id(rt, ids::free(&mut mem, 6))?;
        id(rt, ids::allocate(&mut mem))?;
    }
    Ok(())
}

// A window inside a granted range is granted only after the whole range is given back.
fn windows(rt: &impl Print) -> io::Result<()> {
    let mut mem = [0u64; 329];
    if addresses::new(&mut mem, 0, 0x1000, 8).is_ok() {
        window(rt, &mut mem, 0x1000, AllocPolicy::FirstMatch)?;
        window(rt, &mut mem, 0x10, AllocPolicy::ExactMatch(0x100))?;
        back(rt, &mut mem, 0x100, 0x10f)?;
        window(rt, &mut mem, 0x10, AllocPolicy::ExactMatch(0x100))?;
        back(rt, &mut mem, 0, 0xfff)?;
        window(rt, &mut mem, 0x10, AllocPolicy::ExactMatch(0x100))?;
    }
    Ok(())
}

fn main(rt: HostRuntime) -> io::Result<()> {
    numbers(&rt)?;
    windows(&rt)
}
