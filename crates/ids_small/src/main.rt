// Every operation from every reachable state of every interval of up to 5 ids, at 0, across the middle of
// the 32-bit numbers and up to 2^32 - 1, against a model of sets of bits that shares nothing with `ids`.
//
// A state of the model is how many ids were ever granted, and which of those are granted now. Each is
// reached by `allocate` and `free`, and the model leads from the listed states to listed states alone, so
// that they are all. After the operation each id is given back, which shows the whole state.
#![tactic(auto)]

use ranges::Error;
use std::io;

// The ids low to low + n - 1, how many of them were ever granted, and which are granted now, a bit for each.
#[derive(Clone, Copy)]
struct State {
    low: u32,
    n: u32,
    ever: u32,
    granted: u32,
}

#[derive(Clone, Copy)]
enum Operation {
    Allocate,
    // of the id that is so much above the lowest; u32::MAX stands for the one below it
    Free(u32),
}

#[derive(Clone, Copy)]
struct Count {
    states: u64,
    operations: u64,
    comparisons: u64,
    wrong: u64,
}

// ---- the model

fn one(i: u32) -> u32 {
    1u32 << (i % 32)
}

impl State {
    fn id(self, i: u32) -> u32 {
        self.low.wrapping_add(i)
    }

    fn high(self) -> u32 {
        self.id(self.n.wrapping_sub(1))
    }

    fn has(self, i: u32) -> bool {
        self.granted & one(i) != 0
    }

    // The lowest that is not granted.
    fn lowest(self) -> Option<u32> {
        (0..self.n).find(|i| !self.has(*i))
    }

    fn right(self, o: Operation) -> Result<u32, Error> {
        match o {
            Operation::Allocate => match self.lowest() {
                Some(i) => Ok(self.id(i)),
                None if self.high() == u32::MAX => Err(Error::Overflow),
                None => Err(Error::ResourceNotAvailable),
            },
            Operation::Free(i) if self.n <= i => Err(Error::OutOfRange),
            Operation::Free(i) if self.ever <= i => Err(Error::NeverAllocated),
            Operation::Free(i) if !self.has(i) => Err(Error::AlreadyReleased),
            Operation::Free(i) => Ok(self.id(i)),
        }
    }

    // The state after the operation.
    fn after(self, o: Operation) -> State {
        match o {
            Operation::Allocate => match self.lowest() {
                Some(i) => State {
                    ever: self.ever.max(i.wrapping_add(1)),
                    granted: self.granted | one(i),
                    ..self
                },
                None => self,
            },
            Operation::Free(i) if i < self.ever => State {
                granted: self.granted & !one(i),
                ..self
            },
            Operation::Free(_) => self,
        }
    }

    // Whether the states of which every one is tried have this one among them.
    fn listed(self) -> bool {
        self.ever <= self.n && self.granted < one(self.ever)
    }
}

// ---- the allocator

fn act(mem: &mut [u64], low: u32, o: Operation) -> Result<u32, Error> {
    match o {
        Operation::Allocate => ids::allocate(mem),
        Operation::Free(i) => ids::free(mem, low.wrapping_add(i)),
    }
}

// An allocator in the state, from nothing.
fn reach(mem: &mut [u64], s: State) {
    let _ = ids::new(mem, s.low, s.high());
    for _ in 0..s.ever {
        let _ = ids::allocate(mem);
    }
    for i in 0..s.ever {
        if !s.has(i) {
            let _ = ids::free(mem, s.id(i));
        }
    }
}

// ---- the comparison

// Gives each id back, and counts the answers that are not the model's.
fn probe(mem: &mut [u64], s: State) -> u64 {
    let mut wrong: u64 = 0;
    for i in 0..s.n {
        let back = Operation::Free(i);
        if act(mem, s.low, back) != s.right(back) {
            wrong = wrong.wrapping_add(1);
        }
    }
    wrong
}

// How many of the comparisons of one operation are wrong: the answer, the block after a refusal, the next state, and each id
// given back.
fn wrong_in(s: State, o: Operation) -> u64 {
    let mut mem = [0u64; 5];
    reach(&mut mem, s);
    let old = mem;
    let got = act(&mut mem, s.low, o);
    let next = s.after(o);
    let wrong = u64::from(got != s.right(o))
        + u64::from(got.is_err() && mem != old)
        + u64::from(!next.listed());
    probe(&mut mem, next).wrapping_add(wrong)
}

impl Count {
    fn tried(self, s: State, o: Operation) -> Count {
        let comparisons = s.n as u64 + 2 + u64::from(s.right(o).is_err());
        Count {
            operations: self.operations.wrapping_add(1),
            comparisons: self.comparisons.wrapping_add(comparisons),
            wrong: self.wrong.wrapping_add(wrong_in(s, o)),
            ..self
        }
    }

    // Each operation from the state: frees of the ids from the one below the lowest to the one above the highest.
    fn tried_all(self, s: State) -> Count {
        let mut sum = self.tried(s, Operation::Allocate);
        sum = sum.tried(s, Operation::Free(u32::MAX));
        for i in 0..=s.n {
            sum = sum.tried(s, Operation::Free(i));
        }
        sum.states = sum.states.wrapping_add(1);
        sum
    }
}

fn all() -> Count {
    let mut sum = Count {
        states: 0,
        operations: 0,
        comparisons: 0,
        wrong: 0,
    };
    for n in 1..6u32 {
        for low in [0, 0x7fff_fffe, 0u32.wrapping_sub(n)] {
            for ever in 0..=n {
                for granted in 0..one(ever) {
                    sum = sum.tried_all(State {
                        low,
                        n,
                        ever,
                        granted,
                    });
                }
            }
        }
    }
    sum
}

fn main(rt: HostRuntime) -> io::Result<()> {
    let sum = all();
    println!(rt; "{} states", sum.states)?;
    println!(rt; "{} operations", sum.operations)?;
    println!(rt; "{} comparisons", sum.comparisons)?;
    println!(rt; "{} wrong", sum.wrong)
}
