// The bar of a picture of a pool: a cell for each part of the pool, painted a stretch at a time.
// Both functions are total: they demand nothing of their caller.
#![tactic(auto)]

ghost use Rattle.std.specs.Prelude.{◌≡◌, ℕ, ◌+◌, ◌≤◌, ◌<◌, ◌^◌};
ghost use Rattle.picture.specs.Bar.{Painted, Cleared, joined, size_of, Touched};

// Clears every cell. A `for` and no `fill`, which sets the last cell apart: a bar is short, and clearing it took a third longer.
pub fn clear(bar: &mut [u8])
    ensures { Cleared bar.new }
{
    for cell in bar.iter_mut() {
        *cell = b' ';
    }
}

// Paints the stretch from `start` to `end`, both included, granted or free, into the bar of the pool
// from `base` to `last`. A pair that is no pool changes nothing.
// The pool and the stretch stay single numbers: C passes them so (`rk_bar_paint`), and `Painted` speaks of them so.
pub fn paint(bar: &mut [u8], base: u64, last: u64, start: u64, end: u64, granted: bool)
    ensures { Painted base last start end granted bar.old bar.new }
{
    if last < base || last - base == u64::MAX || end < start || bar.is_empty() {
        return;
    }
    let n = last - base + 1;
    let w = bar.len() as u64;
    let mut off = 0;
    for (i, mark) in bar.iter_mut().enumerate() {
        let size = cell_size(n / w, n % w, i as u64);
        *mark = touch(*mark, base, off, size, start, end, granted);
        off += size;
    }
}

// How many addresses cell i stands for, where each has q and the first r have one more.
fn cell_size(q: u64, r: u64, i: u64) -> u64
    requires { i < r → q + 1 < 2 ^ 64 }
    ensures { result ≡ size_of q r i }
{
    if i < r { q + 1 } else { q }
}

// The mark of a cell of `size` addresses from base + off on, once the stretch is painted.
fn touch(m: u8, base: u64, off: u64, size: u64, start: u64, end: u64, granted: bool) -> u8
    requires size_bound { base + off + size ≤ 2 ^ 64 }
    requires start_le_end { start ≤ end }
    ensures { Touched m (base + off) (base + off + size) start end granted result }
{
    if size == 0 {
        return m;
    }
    let lo = base + off;
    let hi = lo + (size - 1);
    if hi < start || end < lo {
        return m;
    }
    join(m, granted)
}

// A mark with one more kind of stretch in its cell.
#[tactic(auto, unfolding(crate::specs::Bar::joined))]
fn join(m: u8, granted: bool) -> u8
    ensures { result ≡ joined granted m }
{
    match (m, granted) {
        (b' ', true) => b'#',
        (b' ', false) => b'.',
        (b'.', true) | (b'#', false) => b'+',
        _ => m,
    }
}
