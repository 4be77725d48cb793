// A copy of an id allocator in another lent block: it holds the same state. The words that the interval needs are taken over;
// that they are all that counts is a law of `ids` (`holds_words`), and nothing else of how they lie is known here.
#![tactic(auto)]

ghost use Rattle.std.specs.Prelude.{◌≤◌, ◌≡◌, length};
ghost use Rattle.copied_ids.specs.Copy.{Begins, Copies};

use ranges::Error;

// Takes the first n words over. A `for` and no `copy_from_slice`, which would make the archive for C call `memmove`.
fn put(src: &[u64], dst: &mut [u64], n: usize)
    requires n_in_bounds { n ≤ length src.now }
    requires n_in_bounds_2 { n ≤ length dst.old }
    ensures long { length dst.new ≡ length dst.old }
    ensures begins { Begins n src.now dst.new }
{
    for k in 0..n {
        dst[k] = src[k];
    }
}

// Makes the block dst hold what src holds. Refused, in this order: "no state" for a source whose header is no id allocator's; "no room"
// for a block that is too short for the interval. After a refusal dst is word for word as it was; src always is. Both then answer alike
// for ever (`copy_alike`).
pub fn copy(src: &[u64], dst: &mut [u64]) -> Result<(), Error>
    ensures { Copies src.now result dst.old dst.new }
{
    let interval = ids::bounds(src).ok_or(Error::NoState)?;
    let n = ids::words_needed(interval.low, interval.high);
    if src.len() < n {
        return Err(Error::NoState);
    }
    if dst.len() < n {
        return Err(Error::NoRoom);
    }
    put(src, dst, n);
    Ok(())
}
