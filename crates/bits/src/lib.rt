// Bits in 64-bit words, with summaries behind them in steps of 64: a bit of a level says that a word of
// the level below is full. The lowest bit that is 0 is found in one step a level. What the bits stand
// for is not known here. Every function is total: the words may hold anything and be too few.
#![tactic(auto)]

ghost use Rattle.std.specs.Prelude.{◌≡◌, ℕ, ◌%◌, ◌≤◌, ◌<◌, ◌+◌, length, get_or};
ghost use Rattle.ranges.specs.Align.{Decides};
ghost use Rattle.bits.specs.Bits.{bit, LowOnes, Toggled, Finds, Flips, Takes, Clears, Zeros};

// How many ones stand below the lowest zero of a word: its place, or 64 where there is none.
fn low_ones(w: u64) -> u64
    ensures { LowOnes 64 w result }
{
    w.trailing_ones() as u64
}

// The word with its digit t % 64 changed.
fn toggled(w: u64, t: u32) -> u64
    ensures { Toggled w result (t % 64) }
{
    w ^ (1u64 << (t % 64))
}

// The lowest bit that is 0 among the bits 0 to last, or a number above last.
pub fn find(mem: &[u64], last: u32) -> u64
    ensures { Finds mem.now last result }
{
    let above = last / 64;
    let top = above as usize;
    if mem.len() <= top {
        return u64::MAX;
    }
    if top == 0 {
        return low_ones(mem[0]);
    }
    let i = find(&mem[top + 1..], above);
    if (above as u64) < i {
        return u64::MAX;
    }
    i * 64 + low_ones(mem[i as usize])
}

// Changes bit i of the bits 0 to last, and the summaries where its word becomes full or ceases to be.
pub fn flip(mem: &mut [u64], last: u32, i: u32)
    ensures { Flips mem.old last i mem.new }
{
    let above = last / 64;
    let top = above as usize;
    let up = i / 64;
    let w = up as usize;
    if mem.len() <= top || top < w {
        return;
    }
    let old = mem[w];
    let new = toggled(old, i);
    mem[w] = new;
    if top == 0 {
        return;
    }
    if old != u64::MAX && new != u64::MAX {
        return;
    }
    flip(&mut mem[top + 1..], above, up);
}

// Whether bit i is 1. Past the last word every bit is 0.
pub fn is_set(mem: &[u64], i: u32) -> bool
    ensures { Decides result (bit mem.now i ≡ 1) }
{
    let w = (i / 64) as usize;
    w < mem.len() && (mem[w] >> (i % 64)) % 2 == 1
}

// How many words hold the bits 0 to last and their summaries.
pub fn room(last: u32) -> usize
    ensures { Takes last result }
{
    let above = last / 64;
    let n = above as usize + 1;
    if above == 0 {
        return n;
    }
    n + room(above)
}

// Sets the first n words to 0, where there are as many.
pub fn clear(mem: &mut [u64], n: usize)
    ensures { Clears mem.old n mem.new }
{
    if n <= mem.len() {
        mem[..n].fill(0);
    }
}

// How many of the bits 0 to last are 0, where the words are there: a word at a time, and the last word bit by bit.
pub fn zeros(mem: &[u64], last: u32) -> u64
    ensures { Zeros mem.now last result }
{
    let top = (last / 64) as usize;
    if mem.len() <= top {
        return 0;
    }
    let mut n: u64 = 0;
    for w in &mem[..top] {
        n += w.count_zeros() as u64;
    }
    for i in (last / 64 * 64) as u64..last as u64 + 1 {
        if !is_set(mem, i as u32) {
            n += 1;
        }
    }
    n
}
