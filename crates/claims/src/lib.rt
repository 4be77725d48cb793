// The claim at the end of a line: nothing, or `=>` and an answer.
#![tactic(auto)]

ghost use Rattle.std.specs.Prelude.{◌≡◌};
ghost use Rattle.claims.specs.Claims.{reason_at, claim_at, said_at, answer_at};

use fields::{Flaw, Wrong};
use ranges::Error;
use vocabulary::Word;

// The answer that some monitor claims to have given.
#[derive(Clone, Copy)]
pub enum Claim {
    Unsaid,
    Window(u64, u64),
    Id(u32),
    Freed,
    Refused(Error),
    Yes,
    No,
}

// The reasons that a claim can name, in the order of their numbers.
const REASONS: [Error; 13] = [
    Error::Overflow,
    Error::OutOfRange,
    Error::AlreadyReleased,
    Error::NeverAllocated,
    Error::ResourceNotAvailable,
    Error::InvalidRange,
    Error::InvalidAlignment,
    Error::UnalignedAddress,
    Error::Underflow,
    Error::InvalidSize,
    Error::NoRoom,
    Error::InvalidPolicy,
    Error::NoState,
];

// The claim that the rest of the line makes; nothing stands behind it.
#[tactic(auto, unfolding(crate::specs::Claims::claim_at))]
pub fn take_claim(s: &[u8], at: usize) -> Result<Claim, Wrong>
    ensures { result ≡ claim_at s.now at }
{
    if text::no_word(s, at) {
        return Ok(Claim::Unsaid);
    }
    if vocabulary::next_is(s, at, Word::Arrow) {
        return take_said(s, text::end(s, at));
    }
    Err(Flaw::LeftOver.at(text::start(s, at)))
}

#[tactic(auto, unfolding(crate::specs::Claims::said_at, crate::specs::Claims::closed_at))]
fn take_said(s: &[u8], at: usize) -> Result<Claim, Wrong>
    ensures { result ≡ said_at s.now at }
{
    if text::no_word(s, at) {
        return Err(Flaw::ClaimExpected.at(text::start(s, at)));
    }
    let e = text::end(s, at);
    if vocabulary::next_is(s, at, Word::Freed) {
        fields::take_end(s, e)?;
        return Ok(Claim::Freed);
    }
    if vocabulary::next_is(s, at, Word::Refused) {
        let reason = take_reason(s, e)?;
        fields::take_end(s, text::end(s, e))?;
        return Ok(Claim::Refused(reason));
    }
    take_answer(s, at)
}

// `yes`, `no`, a window or an id.
#[tactic(auto, unfolding(crate::specs::Claims::answer_at, crate::specs::Claims::closed_at))]
fn take_answer(s: &[u8], at: usize) -> Result<Claim, Wrong>
    ensures { result ≡ answer_at s.now at }
{
    let (claim, next) = if vocabulary::next_is(s, at, Word::Yes) {
        (Claim::Yes, text::end(s, at))
    } else if vocabulary::next_is(s, at, Word::No) {
        (Claim::No, text::end(s, at))
    } else if text::has_dot(s, at) {
        let (low, high, next) = fields::take_window(s, at)?;
        (Claim::Window(low, high), next)
    } else {
        let (n, next) = fields::take_id(s, at)?;
        (Claim::Id(n), next)
    };
    fields::take_end(s, next)?;
    Ok(claim)
}

fn take_reason(s: &[u8], at: usize) -> Result<Error, Wrong>
    ensures { result ≡ reason_at s.now at }
{
    for reason in REASONS {
        if vocabulary::reason_is(s, at, reason) {
            return Ok(reason);
        }
    }
    Err(Flaw::ReasonExpected.at(text::start(s, at)))
}
