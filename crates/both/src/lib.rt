// Several things or none: a range of each of two pools, and with them an id. Where the last cannot be had, the earlier ones are given
// back, so that every block holds just the state from before; the answer says which was refused, and why. The id is asked for last:
// an id that was granted once leaves a trace (it is no longer "never allocated"), a range that is given back leaves none.
#![tactic(auto)]

ghost use Rattle.std.specs.Prelude.{◌≡◌};
ghost use Rattle.both.specs.Both.{Asks, Returns, Pairs, Triples, among_three};

use ranges::{Constraint, Error, RangeInclusive};

// Which of two requests was refused, and why.
#[derive(Clone, Copy, PartialEq, Eq)]
pub enum PairError {
    First(Error),
    Second(Error),
}

// Which of three requests was refused, and why.
#[derive(Clone, Copy, PartialEq, Eq)]
pub enum TripleError {
    First(Error),
    Second(Error),
    Third(Error),
}

impl From<PairError> for TripleError {
    ghost from_gives = { λ e t. t ≡ among_three e };

    fn from(e: PairError) -> TripleError {
        match e {
            PairError::First(e) => TripleError::First(e),
            PairError::Second(e) => TripleError::Second(e),
        }
    }
}

// Asks one pool.
fn ask(mem: &mut [u64], q: Constraint) -> Result<RangeInclusive, Error>
    ensures { Asks mem.old q result mem.new }
{
    addresses::allocate(mem, q.size, q.align, q.policy)
}

// Gives a range back.
fn give_back(mem: &mut [u64], r: RangeInclusive)
    ensures { Returns mem.old r mem.new }
{
    let _ = addresses::free(mem, r.start, r.end);
}

// A range of each of two pools, or of neither: q of the first, then w of the second.
pub fn two(
    a: &mut [u64],
    q: Constraint,
    b: &mut [u64],
    w: Constraint,
) -> Result<(RangeInclusive, RangeInclusive), PairError>
    ensures { Pairs a.old q b.old w result a.new b.new }
{
    let r = ask(a, q).map_err(PairError::First)?;
    match ask(b, w) {
        Ok(s) => Ok((r, s)),
        Err(e) => {
            give_back(a, r);
            Err(PairError::Second(e))
        }
    }
}

// A range of each of two pools and the lowest free id, or nothing of the three.
pub fn three(
    a: &mut [u64],
    q: Constraint,
    b: &mut [u64],
    w: Constraint,
    c: &mut [u64],
) -> Result<(RangeInclusive, RangeInclusive, u32), TripleError>
    ensures { Triples a.old q b.old w c.old result a.new b.new c.new }
{
    let (x, y) = two(a, q, b, w)?;
    match ids::allocate(c) {
        Ok(i) => Ok((x, y, i)),
        Err(e) => {
            give_back(b, y);
            give_back(a, x);
            Err(TripleError::Third(e))
        }
    }
}
