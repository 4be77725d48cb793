// A small table, driven through a run of searches, cuts and melts, with the row after each step; then its limit, a pool at
// the end of the addresses, and blocks that hold no table.
#![tactic(auto)]

use std::io;
use table::{ChangeError, MakeError, PlaceError};

// The ranges of a table in order: first and last address, and the tag.
fn row(rt: &impl Print, mem: &[u64]) -> io::Result<()> {
    let last = table::last(mem);
    let mut a = table::base(mem);
    for _ in 0..table::count(mem) {
        let Ok(s) = table::at(mem, a) else {
            return Ok(());
        };
        let state = if s.tag == 0 { "free" } else { "granted" };
        println!(rt; "    {:#x}..{:#x} {state}", s.start, s.end)?;
        if last <= s.end {
            return Ok(());
        }
        a = s.end + 1;
    }
    Ok(())
}

fn place(rt: &impl Print, p: Result<u64, PlaceError>) -> io::Result<()> {
    match p {
        Ok(a) => println!(rt; "at {a:#x}"),
        Err(PlaceError::Nowhere) => println!(rt; "nowhere"),
        Err(PlaceError::Unfit) => println!(rt; "unfit"),
        Err(PlaceError::NoTable) => println!(rt; "no table"),
    }
}

fn changed(c: Result<(), ChangeError>) -> &'static str {
    match c {
        Ok(()) => "done",
        Err(ChangeError::Absent) => "absent",
        Err(ChangeError::Full) => "full",
        Err(ChangeError::Unfit) => "unfit",
        Err(ChangeError::NoTable) => "no table",
    }
}

fn made(m: Result<(), MakeError>) -> &'static str {
    match m {
        Ok(()) => "made",
        Err(MakeError::Unfit) => "unfit",
        Err(MakeError::Short) => "short",
    }
}

fn lowest(rt: &impl Print, mem: &[u64], size: u64, align: u64) -> io::Result<()> {
    print!(rt; "lowest {size:#x}, alignment {align:#x}: ")?;
    place(rt, table::lowest(mem, size, align))
}

fn highest(rt: &impl Print, mem: &[u64], size: u64, align: u64) -> io::Result<()> {
    print!(rt; "highest {size:#x}, alignment {align:#x}: ")?;
    place(rt, table::highest(mem, size, align))
}

fn cut(rt: &impl Print, mem: &mut [u64], a: u64, size: u64) -> io::Result<()> {
    let done = table::cut(mem, a, size, 1);
    println!(rt; "cut {size:#x} at {a:#x}: {}", changed(done))?;
    row(rt, mem)
}

fn melt(rt: &impl Print, mem: &mut [u64], s: u64) -> io::Result<()> {
    let done = table::melt(mem, s);
    println!(rt; "melt {s:#x}: {}", changed(done))?;
    row(rt, mem)
}

fn make(rt: &impl Print, mem: &mut [u64], base: u64, last: u64, limit: usize) -> io::Result<()> {
    let done = table::make(mem, base, last, limit);
    println!(rt; "make {base:#x}..{last:#x}: {}", made(done))?;
    row(rt, mem)
}

fn main(rt: HostRuntime) -> io::Result<()> {
    let mut mem = [0u64; 329];
    println!(rt; "words for 8 ranges: {:#x}", table::words(8))?;

    lowest(&rt, &mem, 1, 1)?;
    make(&rt, &mut mem, 0x1000, 0x10fff, 8)?;
    lowest(&rt, &mem, 0x800, 0x100)?;
    cut(&rt, &mut mem, 0x1000, 0x800)?;
    lowest(&rt, &mem, 0x400, 0x1000)?;
    cut(&rt, &mut mem, 0x2000, 0x400)?;
    highest(&rt, &mem, 0x400, 0x100)?;
    cut(&rt, &mut mem, 0x10c00, 0x400)?;
    cut(&rt, &mut mem, 0x1800, 0x100)?;
    lowest(&rt, &mem, 0x700, 0x1000)?;
    highest(&rt, &mem, 0xe800, 0x1000)?;
    melt(&rt, &mut mem, 0x1900)?;
    melt(&rt, &mut mem, 0x1850)?;
    melt(&rt, &mut mem, 0x1000)?;
    melt(&rt, &mut mem, 0x1800)?;
    melt(&rt, &mut mem, 0x2000)?;
    melt(&rt, &mut mem, 0x10c00)?;

    make(&rt, &mut mem, 0, 0xf, 3)?;
    cut(&rt, &mut mem, 4, 4)?;
    cut(&rt, &mut mem, 9, 1)?;
    cut(&rt, &mut mem, 8, 8)?;
    cut(&rt, &mut mem, 0, 4)?;
    cut(&rt, &mut mem, 0, 1)?;
    lowest(&rt, &mem, 1, 1)?;

    make(
        &rt,
        &mut mem,
        0xffff_ffff_ffff_f000,
        0xffff_ffff_ffff_ffff,
        8,
    )?;
    lowest(&rt, &mem, 0x10, 0x2000)?;
    highest(&rt, &mem, 0x10, 1)?;
    cut(&rt, &mut mem, 0xffff_ffff_ffff_fff0, 0x10)?;
    cut(&rt, &mut mem, 0xffff_ffff_ffff_ffe0, 0x20)?;
    lowest(&rt, &mem, 0xff1, 1)?;
    melt(&rt, &mut mem, 0xffff_ffff_ffff_fff0)?;
    lowest(&rt, &mem, 0x1000, 0x1000)?;
    lowest(&rt, &mem, 0, 1)?;
    lowest(&rt, &mem, 1, 3)?;

    make(&rt, &mut mem, 2, 1, 8)?;
    make(&rt, &mut mem, 1, 2, 0)?;
    make(&rt, &mut mem, 1, 2, 33)?;
    mem[1] = 9;
    lowest(&rt, &mem, 1, 1)?;
    melt(&rt, &mut mem, 0)
}
