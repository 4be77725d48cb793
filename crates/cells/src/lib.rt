// Looking an address up in a stretch of starts: eight at a time, then one by one, and with no branch that goes by what is read.
#![tactic(auto)]

ghost use Rattle.std.specs.Prelude.{◌≡◌, ◌≤◌, ◌<◌, length, get_or};
ghost use Rattle.cells.specs.Cells.{Stepped, Passed, Locates};

// hi where x is at most a, else lo.
pub fn step(x: u64, a: u64, lo: usize, hi: usize) -> usize
    ensures { Stepped x a lo hi result }
{
    if x <= a { hi } else { lo }
}

// Of the starts at `from`, from + by, from + 2 by .. before `to`: the last that is at most a. `blocks` has a twin that reads the blocks' first
// starts: one over a closure would have to be public here and demand that it may be called, and no function demands anything outside the engine.
fn pass(starts: &[u64], from: usize, to: usize, by: usize, a: u64) -> usize
    requires { (0 < by) × (by ≤ 8) × (from < to) × (to ≤ length starts.now) × (get_or starts.now from 0 ≤ a) }
    ensures { Passed (λ p. get_or starts.now p 0) a to by result }
{
    let mut last = from;
    let mut k = from + by;
    // no `for` in steps: it tests twice each turn, and looking up among 60 blocks takes a tenth longer
    while k < to {
        last = step(starts[k], a, last, k);
        k += by;
    }
    last
}

// The index of the start at a or last below it, where the starts rise. Every eighth is looked at and then those between two of them, so that
// no look waits for the one before it: up to 64 starts that is sooner done than halving.
#[tactic(auto, unfolding(crate::specs::Cells::Locates))]
pub fn locate(starts: &[u64], a: u64) -> Option<usize>
    ensures { Locates starts.now a result }
{
    if a < *starts.first()? {
        return None;
    }
    let n = starts.len();
    let near = pass(starts, 0, n, 8, a);
    let to = (near + 8).min(n);
    Some(pass(starts, near, to, 1, a))
}
