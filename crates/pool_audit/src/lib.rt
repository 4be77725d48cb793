// Judges what a monitor claims that an address allocator answered. A right claim is carried out. Of a wrong one the right answer is
// told, and the block goes on from the claimed state where that can be, and otherwise from the state before.
// Every function is total: any numbers, any claim and any contents of the block are answered.
#![tactic(auto)]

ghost use Rattle.addresses.specs.Contract.{asking, granted, returning};
ghost use Rattle.pool_audit.specs.Verdicts.{Audits};
ghost use Rattle.pool_audit.specs.Steps.{GrantsJust, Follows, Undoes, Settles};

use addresses::Answer;
use ranges::{AllocPolicy, Error, RangeInclusive};
use verdict::Verdict;

// Grants just the range r.
fn grant_just(mem: &mut [u64], r: RangeInclusive) -> Result<RangeInclusive, Error>
    ensures { GrantsJust mem.old r.start r.end (granted result) mem.new }
{
    let range = RangeInclusive::new(r.start, r.end)?;
    addresses::allocate(mem, range.len(), 1, AllocPolicy::ExactMatch(range.start))
}

// Goes on from a claim: grants the claimed range, frees it, or, of a refusal, does nothing.
fn follow(mem: &mut [u64], claim: Answer) -> Result<(), Error>
    ensures { Follows mem.old claim result mem.new }
{
    match claim {
        Answer::Granted(r) => {
            grant_just(mem, r)?;
        }
        Answer::Freed(r) => {
            addresses::free(mem, r.start, r.end)?;
        }
        Answer::Refused(_) => {}
    }
    Ok(())
}

// Goes back to the state before an answer.
fn undo(mem: &mut [u64], answer: Answer)
    ensures { Undoes mem.old answer mem.new }
{
    match answer {
        Answer::Granted(r) => {
            let _ = addresses::free(mem, r.start, r.end);
        }
        Answer::Freed(r) => {
            let _ = grant_just(mem, r);
        }
        Answer::Refused(_) => {}
    }
}

// The verdict on a claim, once the right answer was given.
fn settle(mem: &mut [u64], answer: Answer, claim: Answer) -> Verdict<Answer>
    ensures { Settles mem.old answer claim result mem.new }
{
    if answer == claim {
        return Verdict::Right;
    }
    undo(mem, answer);
    match follow(mem, claim) {
        Ok(()) => Verdict::Followed(answer),
        Err(e) => Verdict::Stayed(answer, e),
    }
}

// Judges the claimed answer of a request.
pub fn allocate(
    mem: &mut [u64],
    size: u64,
    align: u64,
    policy: AllocPolicy,
    claim: Answer,
) -> Verdict<Answer>
    ensures { Audits mem.old (asking size align policy) claim result mem.new }
{
    let answer = Answer::granted(addresses::allocate(mem, size, align, policy));
    settle(mem, answer, claim)
}

// Judges the claimed answer of a give-back.
pub fn free(mem: &mut [u64], start: u64, end: u64, claim: Answer) -> Verdict<Answer>
    ensures { Audits mem.old (returning start end) claim result mem.new }
{
    let answer = Answer::freed(addresses::free(mem, start, end));
    settle(mem, answer, claim)
}
