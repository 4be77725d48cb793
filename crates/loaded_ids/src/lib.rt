// An id allocator read from bytes into a lent block. All bytes are looked at before the first word of the block is changed; then the
// allocator is made, its ids up to the next new one are granted, and the freed ones given back. Every public function is total.
#![tactic(auto)]

ghost use Rattle.std.specs.Prelude.{◌≡◌, ℕ, ◌+◌, ◌*◌, ◌^◌, ◌<◌, ◌≤◌, length};
ghost use Rattle.octets.specs.Octets.{word};
ghost use Rattle.frame.specs.Frame.{Frame};
ghost use Rattle.saved_ids.specs.Format.{kind};
ghost use Rattle.loaded_ids.specs.Contract.{Loads};
ghost use Rattle.loaded_ids.specs.Steps.{Heads, Good, AllGood, Sensible, Tests, Grants, Gives};

use frame::{Fault, Flaw, LoadError, Opened};
use saved_ids::KIND;

// The k freed ids of a frame, of ids from `low` up to, not including, `next`.
#[derive(Clone, Copy)]
struct FreedIds<'a> {
    bs: &'a [u8],
    low: u64,
    next: u64,
    k: usize,
    ghost long: { 64 + 8 * k ≤ length bs.now },
    ghost heads: { Heads (word bs.now) low next k },
}

impl FreedIds<'_> {
    // Whether freed id i is as it is to be.
    fn freed(&self, i: usize) -> Result<(), Fault>
        requires { i < self.now.k }
        ensures { Tests (word self.now.bs.now) result (Good (word self.now.bs.now) self.now.low self.now.next self.now.k i) }
    {
        let id = octets::get(self.bs, 7 + i);
        if id < self.low {
            return Err(Fault::at(Flaw::Order, 8 * (7 + i)));
        }
        if self.next <= id {
            return Err(Fault::at(Flaw::Outside, 8 * (7 + i)));
        }
        if i + 1 < self.k && octets::get(self.bs, 8 + i) <= id {
            return Err(Fault::at(Flaw::Order, 8 * (8 + i)));
        }
        Ok(())
    }

    // Whether all freed ids are.
    fn all_freed(&self) -> Result<(), Fault>
        ensures { Tests (word self.now.bs.now) result (AllGood (word self.now.bs.now) self.now.low self.now.next self.now.k) }
    {
        for i in 0..self.k {
            self.freed(i)?;
        }
        Ok(())
    }

    // Gives the freed ids back.
    fn give(&self, mem: &mut [u64])
        requires { (i : ℕ) → i < self.now.k → word self.now.bs.now (7 + i) < 2 ^ 32 }
        ensures { Gives (word self.now.bs.now) self.now.k mem.old mem.new }
    {
        for i in 0..self.k {
            let _ = ids::free(mem, octets::get(self.bs, 7 + i) as u32);
        }
    }
}

// Whether an allocator is made of the numbers and the words of a frame.
fn examine(bs: &[u8], opened: Opened) -> Result<(), Fault>
    requires { Frame kind opened.first opened.second opened.third opened.words bs.now }
    ensures { Tests (word bs.now) result (Sensible (word bs.now) opened.first opened.second opened.third opened.words) }
{
    let Opened {
        first: low,
        second: high,
        third: next,
        words: k,
    } = opened;
    if high < low || 0xffff_ffff < high {
        return Err(Fault::at(Flaw::Bounds, 24));
    }
    if next < low || high + 1 < next {
        return Err(Fault::at(Flaw::Bounds, 32));
    }
    FreedIds { bs, low, next, k }.all_freed()
}

// Grants the n lowest ids.
fn grant(mem: &mut [u64], n: u64)
    ensures { Grants mem.old n mem.new }
{
    for _ in 0..n {
        let _ = ids::allocate(mem);
    }
}

// Makes the allocator, which the bytes say, in the block.
fn remake(bs: &[u8], mem: &mut [u64], opened: Opened) -> Result<usize, LoadError>
    requires frame { Frame kind opened.first opened.second opened.third opened.words bs.now }
    requires sensible { Sensible (word bs.now) opened.first opened.second opened.third opened.words }
    ensures { Loads bs.now mem.old result mem.new }
{
    let Opened {
        first: low,
        second: high,
        third: next,
        words: k,
    } = opened;
    if ids::new(mem, low as u32, high as u32).is_err() {
        return Err(LoadError::NoRoom);
    }
    grant(mem, next - low);
    FreedIds { bs, low, next, k }.give(mem);
    Ok(64 + 8 * k)
}

// Makes the block hold the id allocator with which the bytes begin, and answers how many bytes those are; what is behind them is not
// looked at. Refused where they begin with none that any sequence of operations could have made, with what is wrong and where; "no
// room" where the block is too short. After a refusal the block is word for word as it was.
pub fn load(bs: &[u8], mem: &mut [u64]) -> Result<usize, LoadError>
    ensures { Loads bs.now mem.old result mem.new }
{
    let opened = frame::read(bs, KIND)?;
    examine(bs, opened)?;
    remake(bs, mem, opened)
}
