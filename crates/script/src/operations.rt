// The operations, behind the word that names each.
ghost use Rattle.std.specs.Prelude.{◌≡◌};
ghost use Rattle.script.specs.Grammar.{allocate_at, free_at, in_use_at};

use fields::{Flaw, Wrong};
use lines::Line;
use vocabulary::Word;

// NAME, of an id; or NAME SIZE, `align` A and a policy, of a range.
#[tactic(auto, unfolding(crate::specs::Grammar::allocate_at, crate::specs::Grammar::grant_at, crate::specs::Grammar::range_at, crate::specs::Grammar::aligned_at))]
pub fn allocate(s: &[u8], at: usize) -> Result<Line, Wrong>
    ensures { result ≡ allocate_at s.now at }
{
    let (name, at) = fields::take_name(s, at)?;
    if text::no_word(s, at) || vocabulary::next_is(s, at, Word::Arrow) {
        let claim = claims::take_claim(s, at)?;
        return Ok(Line::AllocateId { name, claim });
    }
    let (size, at) = fields::take_number(s, at)?;
    if !vocabulary::next_is(s, at, Word::Align) {
        return Err(Flaw::AlignExpected.at(text::start(s, at)));
    }
    let (align, at) = fields::take_number(s, text::end(s, at))?;
    let (policy, at) = fields::take_policy(s, at)?;
    let claim = claims::take_claim(s, at)?;
    Ok(Line::Allocate {
        name,
        size,
        align,
        policy,
        claim,
    })
}

// NAME and a window, or NAME and an id.
#[tactic(auto, unfolding(crate::specs::Grammar::free_at, crate::specs::Grammar::free_window_at, crate::specs::Grammar::free_id_at))]
pub fn free(s: &[u8], at: usize) -> Result<Line, Wrong>
    ensures { result ≡ free_at s.now at }
{
    let (name, at) = fields::take_name(s, at)?;
    if text::has_dot(s, at) {
        let (start, end, at) = fields::take_window(s, at)?;
        let claim = claims::take_claim(s, at)?;
        Ok(Line::Free {
            name,
            start,
            end,
            claim,
        })
    } else {
        let (id, at) = fields::take_id(s, at)?;
        let claim = claims::take_claim(s, at)?;
        Ok(Line::FreeId { name, id, claim })
    }
}

// NAME ID.
#[tactic(auto, unfolding(crate::specs::Grammar::in_use_at, crate::specs::Grammar::asked_at))]
pub fn in_use(s: &[u8], at: usize) -> Result<Line, Wrong>
    ensures { result ≡ in_use_at s.now at }
{
    let (name, at) = fields::take_name(s, at)?;
    let (id, at) = fields::take_id(s, at)?;
    let claim = claims::take_claim(s, at)?;
    Ok(Line::InUse { name, id, claim })
}
