// Asks whether an id is granted now, as a line wants it: with no claim it is told, with a claim the claim is judged. Nothing changes.
#![tactic(auto)]

ghost use Rattle.asked.specs.Asked.{asks_for, use_wants, OnUse};

use claims::Claim;
use fields::Wrong;
use lines::Line;

// What became of a line.
#[derive(Clone, Copy)]
pub enum Outcome {
    // it is wrong, asks nothing of the kind, or claims what it cannot answer
    Unfit,
    Told(bool),
    // whether the id is granted, and whether the claim is right
    Judged(bool, bool),
}

// Asks as a line wants it.
pub fn in_use(mem: &[u64], line: Result<Line, Wrong>) -> Outcome
    ensures { OnUse mem.now (use_wants line) result }
{
    match line {
        Ok(Line::InUse { id, claim, .. }) => ask(mem, id, claim),
        _ => Outcome::Unfit,
    }
}

fn ask(mem: &[u64], id: u32, claim: Claim) -> Outcome
    ensures { OnUse mem.now (asks_for id claim) result }
{
    let used = ids::is_allocated(mem, id);
    match claim {
        Claim::Unsaid => Outcome::Told(used),
        Claim::Yes => Outcome::Judged(used, used),
        Claim::No => Outcome::Judged(used, !used),
        _ => Outcome::Unfit,
    }
}
