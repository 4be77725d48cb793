// Runs of the id allocator, a line for each answer: every answer that there is, on small intervals and at
// the end of the 32-bit numbers; memory that holds no allocator; and 10,000 ids, which take three levels.
#![tactic(auto)]

use Call::{Free, New};
use std::io;

// An operation of a run.
#[derive(Clone, Copy)]
enum Call {
    New,
    Free(u32),
}

// Makes an allocator, and says whether it was made.
fn make(rt: &impl Print, mem: &mut [u64], low: u32, high: u32) -> io::Result<()> {
    let words = ids::words_needed(low, high);
    print!(rt; "ids {low} to {high}, words {words}: ")?;
    say::answer(rt, ids::new(mem, low, high).map(|_| "ready"))
}

fn step(rt: &impl Print, mem: &mut [u64], what: Call) -> io::Result<()> {
    match what {
        New => {
            print!(rt; "allocate: ")?;
            say::answer(rt, ids::allocate(mem))
        }
        Free(id) => {
            print!(rt; "free {id}: ")?;
            say::answer(rt, ids::free(mem, id))
        }
    }
}

fn run(rt: &impl Print, mem: &mut [u64], steps: &[Call]) -> io::Result<()> {
    for what in steps {
        step(rt, mem, *what)?;
    }
    Ok(())
}

// How many of the next n grants are from, from + 1 and so on.
fn grants(mem: &mut [u64], from: u32, n: u32) -> u32 {
    let mut good = 0;
    for k in 0..n {
        if ids::allocate(mem) == Ok(from.wrapping_add(k)) {
            good += 1;
        }
    }
    good
}

// Nine grants, two given back, the lower of which comes first; then each refusal, and all 19 ids.
fn small(rt: &impl Print) -> io::Result<()> {
    let mut mem = [0u64; 5];
    make(rt, &mut mem, 7, 6)?;
    make(rt, &mut mem, 23, 5)?;
    make(rt, &mut mem, 0, 64)?;
    make(rt, &mut mem, 5, 23)?;
    run(
        rt,
        &mut mem,
        &[
            Free(5),
            New,
            New,
            New,
            Free(8),
            New,
            New,
            New,
            New,
            New,
            New,
            Free(10),
            Free(10),
            Free(9),
            New,
            Free(21),
            Free(14),
            Free(3),
            Free(24),
        ],
    )?;
    run(
        rt,
        &mut mem,
        &[
            New,
            New,
            New,
            New,
            New,
            New,
            New,
            New,
            New,
            New,
            New,
            New,
            Free(23),
            New,
            New,
        ],
    )?;
    make(rt, &mut mem, 7, 7)?;
    run(rt, &mut mem, &[New, New, Free(7), Free(7), New])
}

// Up to 2^32 - 1, where there is no next number.
fn end(rt: &impl Print) -> io::Result<()> {
    let mut mem = [0u64; 5];
    make(rt, &mut mem, 0xffff_fffe, 0xffff_ffff)?;
    run(
        rt,
        &mut mem,
        &[
            New,
            New,
            New,
            Free(0xffff_ffff),
            Free(0xffff_ffff),
            New,
            New,
            Free(0xffff_fffd),
        ],
    )
}

// Memory that holds no allocator: too short for a header, zeros, another mark, and too short for its interval.
fn none(rt: &impl Print) -> io::Result<()> {
    let mut short = [0u64; 3];
    run(rt, &mut short, &[New, Free(5)])?;
    let mut mem = [0u64; 8];
    run(rt, &mut mem, &[New, Free(0)])?;
    make(rt, &mut mem, 0, 64)?;
    mem[2] = 1000;
    run(rt, &mut mem, &[New, Free(0)])?;
    mem[2] = 64;
    run(rt, &mut mem, &[New, Free(0)])?;
    mem[0] = 1;
    run(rt, &mut mem, &[New, Free(0)])
}

fn main(rt: HostRuntime) -> io::Result<()> {
    small(&rt)?;
    end(&rt)?;
    none(&rt)?;
    let mut many = [0u64; 165];
    make(&rt, &mut many, 100, 10099)?;
    let good = grants(&mut many, 100, 10000);
    println!(rt; "{good}")?;
    run(
        &rt,
        &mut many,
        &[
            New,
            Free(5100),
            Free(10099),
            Free(4196),
            Free(164),
            Free(163),
            Free(4195),
            New,
            New,
            New,
            New,
            New,
            New,
            New,
        ],
    )
}
