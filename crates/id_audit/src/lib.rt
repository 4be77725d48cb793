// Judges what a monitor claims that an id allocator answered. A right claim is carried out. Of a wrong one the right answer is told,
// and the block goes on from the claimed state where that can be, and otherwise from the state before.
// Every function is total: any id, any claim and any contents of the block are answered.
#![tactic(auto)]

ghost use Rattle.ids.specs.Runs.{Allocate, Release};
ghost use Rattle.id_audit.specs.Verdicts.{Audits};
ghost use Rattle.id_audit.specs.Steps.{FollowsGrant, FollowsRelease, Undoes, Settles};

use ranges::Error;
use verdict::Verdict;

// Goes on from a claimed grant: grants just the claimed id, or, of a refusal, does nothing. Refused where the block cannot go on from it.
fn follow_grant(mem: &mut [u64], claim: Result<u32, Error>) -> Result<(), Error>
    ensures { FollowsGrant mem.old claim result mem.new }
{
    if let Ok(id) = claim {
        ids::take(mem, id)?;
    }
    Ok(())
}

// Goes on from a claimed give-back: takes the claimed id back, or, of a refusal, does nothing. Refused where the block cannot go on from it.
// It differs from `follow_grant` in the call alone; one function over a closure would have to say in clauses what each call does.
fn follow_release(mem: &mut [u64], claim: Result<u32, Error>) -> Result<(), Error>
    ensures { FollowsRelease mem.old claim result mem.new }
{
    if let Ok(id) = claim {
        ids::free(mem, id)?;
    }
    Ok(())
}

// Goes back to the state before a give-back's answer.
fn undo(mem: &mut [u64], answer: Result<u32, Error>)
    ensures { Undoes mem.old answer mem.new }
{
    if let Ok(id) = answer {
        let _ = ids::take(mem, id);
    }
}

// The verdict on a claimed give-back, once the right answer was given.
fn settle(
    mem: &mut [u64],
    right: Result<u32, Error>,
    claim: Result<u32, Error>,
) -> Verdict<Result<u32, Error>>
    ensures { Settles mem.old right claim result mem.new }
{
    if right == claim {
        return Verdict::Right;
    }
    undo(mem, right);
    match follow_release(mem, claim) {
        Ok(()) => Verdict::Followed(right),
        Err(e) => Verdict::Stayed(right, e),
    }
}

// Judges the claimed answer of a request for an id.
pub fn allocate(mem: &mut [u64], claim: Result<u32, Error>) -> Verdict<Result<u32, Error>>
    ensures { Audits mem.old Allocate claim result mem.new }
{
    let answer = ids::lowest(mem);
    if answer == claim {
        let _ = ids::allocate(mem);
        return Verdict::Right;
    }
    match follow_grant(mem, claim) {
        Ok(()) => Verdict::Followed(answer),
        Err(e) => Verdict::Stayed(answer, e),
    }
}

// Judges the claimed answer of a give-back.
pub fn free(mem: &mut [u64], id: u32, claim: Result<u32, Error>) -> Verdict<Result<u32, Error>>
    ensures { Audits mem.old (Release id) claim result mem.new }
{
    let answer = ids::free(mem, id);
    settle(mem, answer, claim)
}
