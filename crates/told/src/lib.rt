// What became of a line on a block, in five words for C: what happened, the right answer, and why the block did not go on from a claim.
#![tactic(auto)]

ghost use Rattle.std.specs.Prelude.{◌≡◌};
ghost use Rattle.told.specs.Told.{answer_of, id_answer_of, refusal_of, verdict_of, outcome_of, pool_of, ids_of, use_of, yes_of};

use addresses::Answer;
use ranges::Error;
use replay::Outcome;
use verdict::Verdict;

// A number that names a case, and two numbers that it holds.
#[derive(Clone, Copy)]
pub struct Case {
    pub kind: u64,
    pub a: u64,
    pub b: u64,
}

// An answer that is told by a case.
trait Told: Copy {
    ghost use Rattle.told.specs.declared.Case.{Case};

    ghost case_of: { Self → Case };

    fn case(self) -> Case
        ensures { result ≡ case_of self };
}

impl Told for Answer {
    ghost case_of = { answer_of };

    fn case(self) -> Case {
        match self {
            Answer::Granted(r) => Case {
                kind: 1,
                a: r.start,
                b: r.end,
            },
            Answer::Freed(r) => Case {
                kind: 3,
                a: r.start,
                b: r.end,
            },
            Answer::Refused(e) => refusal(e),
        }
    }
}

impl Told for Result<u32, Error> {
    ghost case_of = { id_answer_of };

    fn case(self) -> Case {
        match self {
            Ok(n) => Case {
                kind: 2,
                a: n as u64,
                b: 0,
            },
            Err(e) => refusal(e),
        }
    }
}

fn refusal(e: Error) -> Case
    ensures { result ≡ refusal_of e }
{
    Case {
        kind: 4,
        a: e.number() as u64,
        b: 0,
    }
}

fn verdict<A: Told>(v: Verdict<A>) -> [u64; 5]
    ensures { result ≡ verdict_of A.case_of v }
{
    match v {
        Verdict::Right => [2, 0, 0, 0, 0],
        Verdict::Followed(x) => {
            let w = x.case();
            [3, w.kind, w.a, w.b, 0]
        }
        Verdict::Stayed(x, e) => {
            let w = x.case();
            [4, w.kind, w.a, w.b, e.number() as u64]
        }
    }
}

// What became of a line on a block.
fn outcome<A: Told>(o: Outcome<A>) -> [u64; 5]
    ensures { result ≡ outcome_of A.case_of o }
{
    match o {
        Outcome::Unfit => [0, 0, 0, 0, 0],
        Outcome::Answered(x) => {
            let w = x.case();
            [1, w.kind, w.a, w.b, 0]
        }
        Outcome::Judged(v) => verdict(v),
    }
}

// What became of a line on a pool.
pub fn pool(o: Outcome<Answer>) -> [u64; 5]
    ensures { result ≡ pool_of o }
{
    outcome(o)
}

// What became of a line on an interval of ids.
pub fn interval(o: Outcome<Result<u32, Error>>) -> [u64; 5]
    ensures { result ≡ ids_of o }
{
    outcome(o)
}

// What became of a question whether an id is granted: the answer is 5 for yes, 6 for no.
pub fn used(o: asked::Outcome) -> [u64; 5]
    ensures { result ≡ use_of o }
{
    match o {
        asked::Outcome::Unfit => [0, 0, 0, 0, 0],
        asked::Outcome::Told(b) => [1, yes(b), 0, 0, 0],
        asked::Outcome::Judged(_, true) => [2, 0, 0, 0, 0],
        asked::Outcome::Judged(b, false) => [3, yes(b), 0, 0, 0],
    }
}

fn yes(b: bool) -> u64
    ensures { result ≡ yes_of b }
{
    if b { 5 } else { 6 }
}
