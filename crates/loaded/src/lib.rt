// An address allocator read from bytes into a lent block. All bytes are looked at before the first word of the block is changed; then
// the pool is made, and each granted range is asked for in it, just so. Every public function is total: it demands nothing of its caller.
#![tactic(auto)]

ghost use Rattle.std.specs.Prelude.{◌≡◌, ◌+◌, ◌-◌, ◌*◌, ◌<◌, ◌≤◌, length};
ghost use Rattle.octets.specs.Octets.{word};
ghost use Rattle.frame.specs.Frame.{Frame};
ghost use Rattle.saved.specs.Format.{kind};
ghost use Rattle.loaded.specs.Contract.{Loads};
ghost use Rattle.loaded.specs.Steps.{Good, AllGood, Sensible, Tests, Ends, Places, Fills};

use frame::{Fault, Flaw, LoadError, Opened};
use ranges::AllocPolicy;
use saved::KIND;

// The n ranges of a frame, up to the address `last`.
#[derive(Clone, Copy)]
struct Rows<'a> {
    bs: &'a [u8],
    last: u64,
    n: usize,
    ghost long: { 8 * (7 + 2 * n) ≤ length bs.now },
    ghost last_value: { last ≡ word bs.now 3 },
    ghost count: { word bs.now 5 ≡ 2 * n },
}

impl Rows<'_> {
    // Whether range i is as it is to be.
    fn tile(&self, i: usize) -> Result<(), Fault>
        requires { i < self.now.n }
        ensures { Tests (word self.now.bs.now) result (Good (word self.now.bs.now) self.now.last (7 + 2 * i) (self.now.n - i - 1)) }
    {
        let k = 7 + 2 * i;
        let start = octets::get(self.bs, k);
        let tag = octets::get(self.bs, k + 1);
        if 1 < tag {
            return Err(Fault::at(Flaw::State, 8 * (k + 1)));
        }
        if self.last < start {
            return Err(Fault::at(Flaw::Outside, 8 * k));
        }
        if i + 1 == self.n {
            return Ok(());
        }
        if octets::get(self.bs, k + 2) <= start {
            return Err(Fault::at(Flaw::Order, 8 * (k + 2)));
        }
        if tag == 0 && octets::get(self.bs, k + 3) == 0 {
            return Err(Fault::at(Flaw::Touching, 8 * (k + 2)));
        }
        Ok(())
    }

    // Whether all ranges are as they are to be.
    fn tiles(&self) -> Result<(), Fault>
        ensures { Tests (word self.now.bs.now) result (AllGood (word self.now.bs.now) self.now.last 7 self.now.n) }
    {
        for i in 0..self.n {
            self.tile(i)?;
        }
        Ok(())
    }

    // The address past range i, which is 0 for 2^64.
    fn next_start(&self, i: usize) -> u64
        requires { i < self.now.n }
        ensures { Ends (word self.now.bs.now) self.now.last self.now.n i result }
    {
        if i + 1 < self.n {
            return octets::get(self.bs, 9 + 2 * i);
        }
        self.last.wrapping_add(1)
    }

    // Asks for range i in the block where it is granted.
    fn place(&self, mem: &mut [u64], i: usize)
        requires { i < self.now.n }
        ensures { Places (word self.now.bs.now) self.now.last self.now.n i mem.old mem.new }
    {
        if octets::get(self.bs, 8 + 2 * i) == 0 {
            return;
        }
        let start = octets::get(self.bs, 7 + 2 * i);
        let next = self.next_start(i);
        let size = next.wrapping_sub(start);
        let _ = addresses::allocate(mem, size, 1, AllocPolicy::ExactMatch(start));
    }

    // Asks for all granted ranges.
    fn fill(&self, mem: &mut [u64])
        ensures { Fills (word self.now.bs.now) self.now.last self.now.n mem.old mem.new }
    {
        for i in 0..self.n {
            self.place(mem, i);
        }
    }
}

// Whether a pool is made of the numbers and the words of a frame.
fn examine(bs: &[u8], opened: Opened) -> Result<(), Fault>
    requires { Frame kind opened.first opened.second opened.third opened.words bs.now }
    ensures { Tests (word bs.now) result (Sensible (word bs.now) opened.first opened.second opened.third opened.words) }
{
    let Opened {
        first: base,
        second: last,
        third: limit,
        words,
    } = opened;
    if last < base || last - base == u64::MAX {
        return Err(Fault::at(Flaw::Bounds, 24));
    }
    if 4096 < limit {
        return Err(Fault::at(Flaw::Limit, 32));
    }
    let n = words / 2;
    if words % 2 != 0 || n == 0 || limit < n as u64 {
        return Err(Fault::at(Flaw::Count, 40));
    }
    if octets::get(bs, 7) != base {
        return Err(Fault::at(Flaw::Order, 56));
    }
    Rows { bs, last, n }.tiles()
}

// Makes the pool, which the bytes say, in the block.
fn remake(bs: &[u8], mem: &mut [u64], opened: Opened) -> Result<usize, LoadError>
    requires frame { Frame kind opened.first opened.second opened.third opened.words bs.now }
    requires sensible { Sensible (word bs.now) opened.first opened.second opened.third opened.words }
    ensures { Loads bs.now mem.old result mem.new }
{
    let Opened {
        first: base,
        second: last,
        third: limit,
        words,
    } = opened;
    if addresses::new(mem, base, last - base + 1, limit as usize).is_err() {
        return Err(LoadError::NoRoom);
    }
    let n = words / 2;
    Rows { bs, last, n }.fill(mem);
    Ok(64 + 8 * words)
}

// Makes the block hold the address allocator with which the bytes begin, and answers how many bytes those are; what is behind them is
// not looked at. Refused where they begin with none that any sequence of operations could have made, with what is wrong and where; "no
// room" where the block is too short. After a refusal the block is word for word as it was.
pub fn load(bs: &[u8], mem: &mut [u64]) -> Result<usize, LoadError>
    ensures { Loads bs.now mem.old result mem.new }
{
    let opened = frame::read(bs, KIND)?;
    examine(bs, opened)?;
    remake(bs, mem, opened)
}
