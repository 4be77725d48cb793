// A granted range given back: it becomes free, and one with the free ranges beside it, across a block's border too. The table alone calls this.
#![tactic(auto)]

ghost use Rattle.std.specs.Prelude.{◌≡◌, ◌+◌, ◌<◌, ◌≤◌, get_or};
ghost use Rattle.blocks.specs.Blocks.{blocks_of, size_at, starts_at, past_at, index, Sound, Ready};
ghost use Rattle.melting.specs.Melting.{FreeBefore, Almost, Given, Absorbed, Melted};

// Whether the range before range i of block b is there, and free.
fn free_before(mem: &[u64], b: usize, i: usize) -> bool
    requires { Sound mem.now × (b < blocks_of mem.now) × (i < size_at b mem.now) }
    ensures { FreeBefore mem.now b i result }
{
    if 0 < i {
        return mem[201 + b * 129 + (i - 1)] == 0;
    }
    if b == 0 {
        return false;
    }
    let n = blocks::size_of(mem, b - 1);
    n != 0 && mem[201 + (b - 1) * 129 + (n - 1)] == 0
}

// The first block that ends elsewhere if range i of block b is given up.
fn lowest(b: usize, i: usize) -> usize
    ensures { (result ≤ b) × (b ≤ result + 1) × (i ≡ 0 → 0 < b → result < b) }
{
    if i == 0 { b.saturating_sub(1) } else { b }
}

// Gives range i of block b up, or makes it free where the one before it is not.
fn give(mem: &mut [u64], nb: usize, b: usize, i: usize, hi: usize)
    requires { Sound mem.old × (nb ≡ blocks_of mem.old) × (b < hi) × (hi ≤ nb) × (i < size_at b mem.old) }
    ensures { Almost mem.old b hi → Given mem.old mem.new (index b i mem.old) }
{
    if free_before(mem, b, i) {
        splice::shrink(mem, b, i, 1);
    } else {
        let s = blocks::start_of(mem, b, i);
        splice::put(mem, b, i, s, 0);
    }
    spread::finish(mem, nb, b, lowest(b, i), hi);
}

// Gives the range behind range i of block b up, if it is free, and answers which block is the first that is as it was.
fn absorb(mem: &mut [u64], nb: usize, b: usize, i: usize) -> usize
    requires { Sound mem.old × (nb ≡ blocks_of mem.old) × (b < nb) × (i < size_at b mem.old) }
    ensures { Absorbed mem.old mem.new b i result }
{
    let j = i + 1;
    let c = b + 1;
    if j < blocks::size_of(mem, b) {
        if mem[201 + b * 129 + j] == 0 {
            splice::shrink(mem, b, j, 1);
        }
        return c;
    }
    if nb <= c || mem[201 + c * 129] != 0 || blocks::size_of(mem, c) == 0 {
        return c;
    }
    splice::shrink(mem, c, 0, 1);
    c + 1
}

// The last address of range j of block b: the next range starts at most one further.
fn last_of(mem: &[u64], nb: usize, b: usize, j: usize) -> u64
    requires { Sound mem.now × (nb ≡ blocks_of mem.now) × (b < nb) × (j < size_at b mem.now) }
    ensures { get_or (starts_at b mem.now) (j + 1) (past_at b mem.now) ≤ result + 1 }
{
    let k = j + 1;
    if k < blocks::size_of(mem, b) {
        return blocks::start_of(mem, b, k).saturating_sub(1);
    }
    blocks::end_of_block(mem, nb, b)
}

// Gives range i of block b back, which is neither the first nor the last of its block. That block alone changes, and its other ranges keep
// their ends: so its bound is raised to the length of the free range that there is then, with no look at the others.
fn inside(mem: &mut [u64], nb: usize, b: usize, i: usize)
    requires { Sound mem.old × (nb ≡ blocks_of mem.old) × (b < nb) × (0 < i) × (i + 1 < size_at b mem.old) }
    ensures { Ready mem.old → Melted mem.old mem.new (index b i mem.old) }
{
    let p = i - 1;
    let q = i + 1;
    let f = blocks::start_of(mem, b, p);
    let s = blocks::start_of(mem, b, i);
    let before = blocks::tag_of(mem, b, p);
    let behind = blocks::tag_of(mem, b, q);
    if behind == 0 {
        let e = last_of(mem, nb, b, q);
        if before != 0 {
            splice::shrink(mem, b, q, 1);
            splice::put(mem, b, i, s, 0);
            spread::raise(mem, b, e.saturating_sub(s));
            return;
        }
        splice::shrink(mem, b, i, 2);
        spread::raise(mem, b, e.saturating_sub(f));
        return;
    }
    let e = last_of(mem, nb, b, i);
    if before != 0 {
        splice::put(mem, b, i, s, 0);
        spread::raise(mem, b, e.saturating_sub(s));
        return;
    }
    splice::shrink(mem, b, i, 1);
    spread::raise(mem, b, e.saturating_sub(f));
}

// Gives range i of block b back.
pub fn melt(mem: &mut [u64], nb: usize, b: usize, i: usize)
    requires { Sound mem.old × (nb ≡ blocks_of mem.old) × (b < nb) × (i < size_at b mem.old) }
    ensures { Ready mem.old → Melted mem.old mem.new (index b i mem.old) }
{
    if 0 < i && i + 1 < blocks::size_of(mem, b) {
        inside(mem, nb, b, i);
        return;
    }
    let hi = absorb(mem, nb, b, i);
    give(mem, nb, b, i, hi);
}
