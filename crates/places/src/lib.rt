// Where a window of addresses fits: into one free range, and into the lowest or the highest of a row of ranges that has room.
// A window has more + 1 addresses and starts at a multiple of mask + 1, a power of two: so no number here can be out of bounds.
#![tactic(auto)]

ghost use Rattle.places.specs.Places.{FitsLow, FitsHigh, SearchUp, SearchDown, Spans, LowAt, HighAt, Narrow};
ghost use Rattle.std.specs.Prelude.{◌≡◌, ◌+◌, ◌<◌, ◌≤◌, length};

// The first place for the window in the range from s to e, both its own addresses.
#[tactic(auto, unfolding(crate::specs::Places::FitsLow))]
pub fn fits_low(s: u64, e: u64, more: u64, mask: u64) -> Option<u64>
    ensures { FitsLow s e more mask result }
{
    let spare = e.checked_sub(s)?.checked_sub(more)?;
    let over = s & mask;
    if over == 0 {
        return Some(s);
    }
    let pad = mask - over;
    if pad < spare {
        return Some(s + pad + 1);
    }
    None
}

// The last place for the window in the range from s to e, both its own addresses.
#[tactic(auto, unfolding(crate::specs::Places::FitsHigh))]
pub fn fits_high(s: u64, e: u64, more: u64, mask: u64) -> Option<u64>
    ensures { FitsHigh s e more mask result }
{
    let spare = e.checked_sub(s)?.checked_sub(more)?;
    let top = s + spare;
    let over = top & mask;
    if spare < over {
        return None;
    }
    Some(top - over)
}

// How far it is from s to next, of a free range, where next is not below s; of a granted one any number, 0 where its tag is 1.
// With no branch: what is free and what is granted cannot be foreseen.
pub fn likely(s: u64, next: u64, t: u64) -> u64
    ensures { t ≡ 0 → next ≤ s + result }
{
    next.wrapping_sub(s) & t.wrapping_sub(1)
}

// A row of ranges: their starts, and as many tags, 0 for a free range. Each ends before the next one starts, the last one with `last`.
#[derive(Clone, Copy)]
struct Row<'a> {
    starts: &'a [u64],
    tags: &'a [u64],
    last: u64,
    ghost alike: { length starts.now ≡ length tags.now },
}

impl<'a> Row<'a> {
    // Both ends of range i, where it is free.
    #[tactic(auto, unfolding(crate::specs::Places::Spans))]
    fn span_at(&self, i: usize) -> Option<(u64, u64)>
        requires { i < length self.now.starts.now }
        ensures { Spans self.now.starts.now self.now.tags.now self.now.last i result }
    {
        if self.tags[i] != 0 {
            return None;
        }
        let Some(next) = self.starts.get(i + 1) else {
            return Some((self.starts[i], self.last));
        };
        let end = next.checked_sub(1)?;
        Some((self.starts[i], end))
    }

    fn low_at(&self, i: usize, more: u64, mask: u64) -> Option<u64>
        requires { i < length self.now.starts.now }
        ensures { LowAt self.now.starts.now self.now.tags.now self.now.last more mask i result }
    {
        let (s, e) = self.span_at(i)?;
        fits_low(s, e, more, mask)
    }

    fn high_at(&self, i: usize, more: u64, mask: u64) -> Option<u64>
        requires { i < length self.now.starts.now }
        ensures { HighAt self.now.starts.now self.now.tags.now self.now.last more mask i result }
    {
        let (s, e) = self.span_at(i)?;
        fits_high(s, e, more, mask)
    }

    // From range `from` on, the first that may have more than `more` addresses, or the last of all.
    #[tactic(auto, unfolding(crate::specs::Places::Narrow))]
    fn skip_up(&self, from: usize, more: u64) -> usize
        requires { from ≤ length self.now.starts.now }
        ensures { (from ≤ result) × (result ≤ length self.now.starts.now) × Narrow self.now.starts.now self.now.tags.now more from result }
    {
        let n = self.starts.len();
        for i in from..n {
            if i + 1 == n || more < likely(self.starts[i], self.starts[i + 1], self.tags[i]) {
                return i;
            }
        }
        n
    }

    // One more than the last range before range `from` that may have more than `more` addresses; or 0.
    #[tactic(auto, unfolding(crate::specs::Places::Narrow))]
    fn skip_down(&self, from: usize, more: u64) -> usize
        requires { from < length self.now.starts.now }
        ensures { (result ≤ from) × Narrow self.now.starts.now self.now.tags.now more result from }
    {
        for i in (0..from).rev() {
            if more < likely(self.starts[i], self.starts[i + 1], self.tags[i]) {
                return i + 1;
            }
        }
        0
    }
}

// The lowest place in a row of ranges, given by their starts and their tags, 0 for a free one. The last range ends with `last`.
// Two lists and no `Row`: any two are answered, those of different lengths too. Up and down are written out each, since the window that is
// wanted and what is promised of it differ (`LowestIn`, `HighestIn`), not a constant.
pub fn scan_up(starts: &[u64], tags: &[u64], last: u64, more: u64, mask: u64) -> Option<u64>
    ensures { SearchUp starts.now tags.now last more mask result }
{
    let n = starts.len();
    if tags.len() != n {
        return None;
    }
    let row = Row { starts, tags, last };
    let mut i = row.skip_up(0, more);
    // no `for`: each turn leaps over the ranges that are too short
    while i < n {
        if let Some(a) = row.low_at(i, more, mask) {
            return Some(a);
        }
        i = row.skip_up(i + 1, more);
    }
    None
}

// The highest place in a row of ranges.
pub fn scan_down(starts: &[u64], tags: &[u64], last: u64, more: u64, mask: u64) -> Option<u64>
    ensures { SearchDown starts.now tags.now last more mask result }
{
    let n = starts.len();
    if tags.len() != n {
        return None;
    }
    let row = Row { starts, tags, last };
    let mut i = n;
    // no `for`: each turn leaps over the ranges that are too short
    while 0 < i {
        let j = i - 1;
        if let Some(a) = row.high_at(j, more, mask) {
            return Some(a);
        }
        i = row.skip_down(j, more);
    }
    None
}
