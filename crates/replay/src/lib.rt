// Carries a line's operation out on a lent block: with no claim it is answered, with a claim the claim is judged.
// Every function is total: a line that is wrong, is no operation of the block's kind, or claims what its operation cannot answer, changes
// nothing.
#![tactic(auto)]

ghost use Rattle.replay.specs.Wanted.{pool_wants, pool_allocates, pool_frees, id_wants, id_allocates, id_frees};
ghost use Rattle.replay.specs.Replayed.{OnPool, OnIds};

use addresses::Answer;
use claims::Claim;
use fields::Wrong;
use lines::Line;
use ranges::{AllocPolicy, Error, RangeInclusive};
use verdict::Verdict;

// What became of a line on a block that answers with an A.
#[derive(Clone, Copy)]
pub enum Outcome<A> {
    // it is wrong, no operation on such a block, or claims what its operation cannot answer
    Unfit,
    Answered(A),
    Judged(Verdict<A>),
}

// Carries a line out on an address pool.
pub fn on_pool(mem: &mut [u64], line: Result<Line, Wrong>) -> Outcome<Answer>
    ensures { OnPool mem.old (pool_wants line) result mem.new }
{
    match line {
        Ok(
            Line::Allocate {
                size,
                align,
                policy,
                claim,
                ..
            },
        ) => pool_allocate(mem, size, align, policy, claim),
        Ok(
            Line::Free {
                start,
                end,
                claim,
                ..
            },
        ) => pool_free(mem, start, end, claim),
        _ => Outcome::Unfit,
    }
}

fn pool_allocate(
    mem: &mut [u64],
    size: u64,
    align: u64,
    policy: AllocPolicy,
    claim: Claim,
) -> Outcome<Answer>
    ensures { OnPool mem.old (pool_allocates size align policy claim) result mem.new }
{
    let said = match claim {
        Claim::Unsaid => {
            return Outcome::Answered(Answer::granted(addresses::allocate(
                mem, size, align, policy,
            )));
        }
        Claim::Window(start, end) => Answer::Granted(RangeInclusive { start, end }),
        Claim::Refused(e) => Answer::Refused(e),
        _ => return Outcome::Unfit,
    };
    Outcome::Judged(pool_audit::allocate(mem, size, align, policy, said))
}

fn pool_free(mem: &mut [u64], start: u64, end: u64, claim: Claim) -> Outcome<Answer>
    ensures { OnPool mem.old (pool_frees start end claim) result mem.new }
{
    let said = match claim {
        Claim::Unsaid => return Outcome::Answered(Answer::freed(addresses::free(mem, start, end))),
        Claim::Freed => Answer::Freed(RangeInclusive { start, end }),
        Claim::Refused(e) => Answer::Refused(e),
        _ => return Outcome::Unfit,
    };
    Outcome::Judged(pool_audit::free(mem, start, end, said))
}

// Carries a line out on an interval of ids.
pub fn on_ids(mem: &mut [u64], line: Result<Line, Wrong>) -> Outcome<Result<u32, Error>>
    ensures { OnIds mem.old (id_wants line) result mem.new }
{
    match line {
        Ok(Line::AllocateId { claim, .. }) => id_allocate(mem, claim),
        Ok(Line::FreeId { id, claim, .. }) => id_free(mem, id, claim),
        _ => Outcome::Unfit,
    }
}

fn id_allocate(mem: &mut [u64], claim: Claim) -> Outcome<Result<u32, Error>>
    ensures { OnIds mem.old (id_allocates claim) result mem.new }
{
    let said = match claim {
        Claim::Unsaid => return Outcome::Answered(ids::allocate(mem)),
        Claim::Id(n) => Ok(n),
        Claim::Refused(e) => Err(e),
        _ => return Outcome::Unfit,
    };
    Outcome::Judged(id_audit::allocate(mem, said))
}

// That an id is freed is claimed by `freed` or by the id.
fn id_free(mem: &mut [u64], id: u32, claim: Claim) -> Outcome<Result<u32, Error>>
    ensures { OnIds mem.old (id_frees id claim) result mem.new }
{
    let said = match claim {
        Claim::Unsaid => return Outcome::Answered(ids::free(mem, id)),
        Claim::Freed => Ok(id),
        Claim::Id(n) => Ok(n),
        Claim::Refused(e) => Err(e),
        _ => return Outcome::Unfit,
    };
    Outcome::Judged(id_audit::free(mem, id, said))
}
