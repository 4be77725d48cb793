// Changes of one block: a range written, ranges put in or taken out, and a window cut out of a free range. The table's other parts alone call this.
#![tactic(auto)]

ghost use Rattle.std.specs.Prelude.{◌≡◌, [], ◌∷◌, ◌+◌, ◌-◌, ◌<◌, ◌≤◌, length};
ghost use Rattle.blocks.specs.Blocks.{count_of, blocks_of, limit_of, size_at, Sound};
ghost use Rattle.splice.specs.Splice.{Widened, Narrowed, Spliced, Grown, Window, Carved, Cut};

// Makes room for `by` ranges at range i of a block of n, whose starts lie from p on. What the room holds is what was there.
fn widen(mem: &mut [u64], p: usize, n: usize, i: usize, by: usize)
    requires { (i ≤ n) × (n + by ≤ 64) × (p + 128 ≤ length mem.old) }
    ensures { Widened mem.old mem.new p n i by }
{
    // A loop and not copy_within: that tests the direction and is not inlined, and cutting and melting take up to a tenth longer.
    for k in (i..n).rev() {
        mem[p + k + by] = mem[p + k];
        mem[p + 64 + k + by] = mem[p + 64 + k];
    }
}

// Takes the `by` ranges at range i out; `end` are left.
fn narrow(mem: &mut [u64], p: usize, end: usize, i: usize, by: usize)
    requires { (i ≤ end) × (end + by ≤ 64) × (p + 128 ≤ length mem.old) }
    ensures { Narrowed mem.old mem.new p end i by }
{
    // A loop and not copy_within: that tests the direction and is not inlined, and cutting and melting take up to a tenth longer.
    for k in i..end {
        mem[p + k] = mem[p + k + by];
        mem[p + 64 + k] = mem[p + 64 + k + by];
    }
}

// Writes range i of block b.
pub fn put(mem: &mut [u64], b: usize, i: usize, s: u64, t: u64)
    requires { Sound mem.old × (b < blocks_of mem.old) × (i < size_at b mem.old) }
    ensures { Spliced mem.old mem.new b i 1 (s ∷ []) (t ∷ []) }
{
    mem[137 + b * 129 + i] = s;
    mem[201 + b * 129 + i] = t;
}

// Makes room for `by` ranges at range i of block b, which hold whatever was there, and counts them.
fn grow(mem: &mut [u64], b: usize, i: usize, by: usize)
    requires { Sound mem.old × (b < blocks_of mem.old) × (i ≤ size_at b mem.old) × (size_at b mem.old + by ≤ 63) × (count_of mem.old + by ≤ limit_of mem.old) }
    ensures { Grown mem.old mem.new b i by }
{
    let n = blocks::size_of(mem, b);
    let all = mem[1];
    widen(mem, 137 + b * 129, n, i, by);
    mem[136 + b * 129] = (n + by) as u64;
    mem[1] = all + (by as u64);
}

// Takes the `by` ranges at range i of block b out.
pub fn shrink(mem: &mut [u64], b: usize, i: usize, by: usize)
    requires { Sound mem.old × (b < blocks_of mem.old) × (i + by ≤ size_at b mem.old) }
    ensures { Spliced mem.old mem.new b i by [] [] }
{
    let n = blocks::size_of(mem, b);
    let all = mem[1].saturating_sub(by as u64);
    narrow(mem, 137 + b * 129, n - by, i, by);
    mem[136 + b * 129] = (n - by) as u64;
    mem[1] = all;
}

// Cuts a window of `size` addresses from a out of range i of block b, with the tag `tag`. False, and nothing is changed, where there
// is no room for so many ranges. A bool and no Result: whether there was room is all that there is to say.
fn carve(mem: &mut [u64], nb: usize, b: usize, i: usize, a: u64, size: u64, tag: u64) -> bool
    requires { Sound mem.old × (nb ≡ blocks_of mem.old) × Window mem.old b i a size × (size_at b mem.old ≤ 61) }
    ensures { Carved mem.old mem.new b i a size tag result }
{
    let j = i + 1;
    let s = blocks::start_of(mem, b, i);
    let e = blocks::end_of(mem, nb, b, i);
    let z = a + (size - 1);
    let left = mem[5] - mem[1];
    if s < a {
        if z < e {
            if left < 2 {
                return false;
            }
            grow(mem, b, j, 2);
            put(mem, b, j, a, tag);
            put(mem, b, j + 1, z + 1, 0);
        } else {
            if left < 1 {
                return false;
            }
            grow(mem, b, j, 1);
            put(mem, b, j, a, tag);
        }
    } else if z < e {
        if left < 1 {
            return false;
        }
        put(mem, b, i, a, tag);
        grow(mem, b, j, 1);
        put(mem, b, j, z + 1, 0);
    } else {
        put(mem, b, i, a, tag);
    }
    true
}

// The same, and then new bounds, or the ranges spread anew. Where the range was not the longest of its block, the block's bound stays, since no
// piece is longer than the range was.
pub fn cut(mem: &mut [u64], nb: usize, b: usize, i: usize, a: u64, size: u64, tag: u64) -> bool
    requires { Sound mem.old × (nb ≡ blocks_of mem.old) × Window mem.old b i a size × (size_at b mem.old ≤ 61) }
    ensures { Cut mem.old mem.new b i a size tag result }
{
    let s = blocks::start_of(mem, b, i);
    let e = blocks::end_of(mem, nb, b, i);
    let wide = mem[8 + b];
    if !carve(mem, nb, b, i, a, size, tag) {
        return false;
    }
    if e - s < wide {
        spread::raise(mem, b, 0);
    } else {
        spread::finish(mem, nb, b, b, b + 1);
    }
    true
}
