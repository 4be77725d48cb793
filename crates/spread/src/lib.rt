// The bounds of blocks, and spreading the ranges over the blocks anew. The table's other parts alone call this.
#![tactic(auto)]

ghost use Rattle.std.specs.Prelude.{◌≡◌, ◌+◌, ◌*◌, ◌<◌, ◌≤◌, ◌↔◌, ◌⊎◌, IsTrue, length};
ghost use Rattle.blocks.specs.Blocks.{room_of, count_of, blocks_of, sizes, starts_of, tags_of, Within, Sound};
ghost use Rattle.spread.specs.Spread.{Tightened, Trimmed, Copied, Apart, Gathered, Dealt, Laid, Turned, Nearly, Covered};

// How far it is from s to last, where the range is free.
fn reach(s: u64, last: u64, t: u64) -> u64
    ensures { t ≡ 0 → last ≤ s + result }
{
    if t == 0 { last.saturating_sub(s) } else { 0 }
}

// A bound of the free ranges: from the first address of each to its last it is at most this far.
// Starts and tags are two stretches of a block, and this alone asks for both.
fn widest(starts: &[u64], tags: &[u64], last: u64) -> u64
    requires { length starts.now ≡ length tags.now }
    ensures { Within (last + 1) starts.now tags.now result }
{
    let n = starts.len();
    if n == 0 {
        return 0;
    }
    let m = n - 1;
    let mut w: u64 = 0;
    for i in 0..m {
        w = w.max(places::likely(starts[i], starts[i + 1], tags[i]));
    }
    w.saturating_sub(1).max(reach(starts[m], last, tags[m]))
}

// Makes the bound of block b as low as it may be.
fn tighten(mem: &mut [u64], nb: usize, b: usize)
    requires { Sound mem.old × (nb ≡ blocks_of mem.old) × (b < nb) }
    ensures { Tightened mem.old mem.new b }
{
    let at = 137 + b * 129;
    let n = blocks::size_of(mem, b);
    let e = blocks::end_of_block(mem, nb, b);
    let w = widest(&mem[at..at + n], &mem[at + 64..at + 64 + n], e);
    mem[8 + b] = w;
}

// The same of the blocks from lo on and before hi.
fn trim(mem: &mut [u64], nb: usize, lo: usize, hi: usize)
    requires { Sound mem.old × (nb ≡ blocks_of mem.old) × (lo ≤ hi) × (hi ≤ nb) }
    ensures { Trimmed mem.old mem.new lo hi }
{
    for b in lo..hi {
        tighten(mem, nb, b);
    }
}

// Copies n words from `from` to `to`; the two parts have no word in common. No `copy_within`: it tests which way to go and goes by either, and
// where changes fall in one place, so that ranges are spread again and again, all together takes a twentieth longer.
fn copy(mem: &mut [u64], from: usize, to: usize, n: usize)
    requires { Apart from to n × (from + n ≤ length mem.old) × (to + n ≤ length mem.old) }
    ensures { Copied mem.old mem.new from to n }
{
    for i in 0..n {
        mem[to + i] = mem[from + i];
    }
}

// Copies the ranges of all blocks, one after another, into the room behind the blocks.
fn gather(mem: &mut [u64], room: usize, nb: usize)
    requires { Sound mem.old × (room ≡ room_of mem.old) × (nb ≡ blocks_of mem.old) × (sizes 0 (blocks_of mem.old) mem.old ≡ count_of mem.old) }
    ensures { Gathered mem.old mem.new room nb (count_of mem.old) }
{
    let mut off: usize = 0;
    for b in 0..nb {
        let n = (mem[136 + b * 129] % 64) as usize;
        copy(mem, 137 + b * 129, 136 + room * 129 + off, n);
        copy(mem, 201 + b * 129, 136 + room * 161 + off, n);
        off += n;
    }
}

// How many of the ranges that are left go into the next block: 32, but the last two blocks share what is left for them, so that
// no block but a lone one has fewer than 16.
fn share(left: usize) -> usize
    requires { 0 < left }
    ensures { (0 < result) × (result ≤ left) × (result ≤ 32) × (left ≤ 32 → result ≡ left) × (result < 32 → left ≤ result + 32) }
{
    if left <= 32 {
        left
    } else if left < 64 {
        left / 2
    } else {
        32
    }
}

// Copies n ranges from the room behind the blocks into the blocks.
fn scatter(mem: &mut [u64], room: usize, n: usize)
    requires { (0 < n) × (n ≤ room * 32) × (room ≤ 128) × (136 + room * 193 ≤ length mem.old) }
    ensures { Dealt mem.old mem.new room (blocks_of mem.new) n × (0 < blocks_of mem.new) × (blocks_of mem.new ≤ room) }
{
    let mut off: usize = 0;
    let mut b: usize = 0;
    // no `for`: how many blocks there are is known only when the last range is placed
    while off < n {
        let c = share(n - off);
        copy(mem, 136 + room * 129 + off, 137 + b * 129, c);
        copy(mem, 136 + room * 161 + off, 201 + b * 129, c);
        mem[136 + b * 129] = c as u64;
        off += c;
        b += 1;
    }
    mem[4] = b as u64;
}

// How many ranges the blocks have.
fn total(mem: &[u64], nb: usize) -> usize
    requires { Sound mem.now × (nb ≡ blocks_of mem.now) }
    ensures { result ≡ sizes 0 (blocks_of mem.now) mem.now }
{
    let mut s: usize = 0;
    for b in 0..nb {
        s += (mem[136 + b * 129] % 64) as usize;
    }
    s
}

fn deal(mem: &mut [u64], room: usize, nb: usize, n: usize)
    requires { Sound mem.old × (room ≡ room_of mem.old) × (nb ≡ blocks_of mem.old) × (n ≡ count_of mem.old) × (sizes 0 (blocks_of mem.old) mem.old ≡ count_of mem.old) × (0 < n) }
    ensures { Laid mem.old mem.new (starts_of mem.old) (tags_of mem.old) }
{
    gather(mem, room, nb);
    scatter(mem, room, n);
}

// Spreads the ranges over the blocks anew, where there are some and the header counts them right.
fn spread(mem: &mut [u64])
    requires { Sound mem.old }
    ensures { 0 < count_of mem.old → sizes 0 (blocks_of mem.old) mem.old ≡ count_of mem.old → Turned mem.old mem.new (starts_of mem.old) (tags_of mem.old) }
{
    let (room, n, nb) = (mem[0] as usize, mem[1] as usize, mem[4] as usize);
    if n == 0 || total(mem, nb) != n {
        return;
    }
    deal(mem, room, nb, n);
    let k = mem[4] as usize;
    trim(mem, k, 0, k);
}

// Whether a block of n ranges is empty or full.
fn uneven(n: usize) -> bool
    ensures { IsTrue result ↔ (n ≡ 0) ⊎ (61 < n) }
{
    n == 0 || 61 < n
}

// After a change of block b, and of others before block hi: new bounds for the blocks from lo on and before hi, or all ranges spread anew,
// where block b is empty or full or the last of them is empty.
pub fn finish(mem: &mut [u64], nb: usize, b: usize, lo: usize, hi: usize)
    requires { Sound mem.old × (nb ≡ blocks_of mem.old) × (lo ≤ b) × (b < hi) × (hi ≤ nb) }
    ensures { Nearly mem.old lo b hi → Turned mem.old mem.new (starts_of mem.old) (tags_of mem.old) }
{
    if uneven(blocks::size_of(mem, b)) || blocks::size_of(mem, hi - 1) == 0 {
        spread(mem);
    } else {
        trim(mem, nb, lo, hi);
    }
}

// After a change of block b alone: its bound becomes w where that is more, with no look at its ranges; or all ranges are spread anew, where
// block b is empty or full.
pub fn raise(mem: &mut [u64], b: usize, w: u64)
    requires { Sound mem.old × (b < blocks_of mem.old) }
    ensures { Nearly mem.old b b (b + 1) → Covered mem.old b w → Turned mem.old mem.new (starts_of mem.old) (tags_of mem.old) }
{
    if uneven(blocks::size_of(mem, b)) {
        spread(mem);
    } else {
        mem[8 + b] = mem[8 + b].max(w);
    }
}
