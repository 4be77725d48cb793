// What a line says, and the lines that are no operation: they declare something, show it, or speak of the lines that follow.
// Nothing is demanded of the line, nor of the place.
#![tactic(auto)]

ghost use Rattle.std.specs.Prelude.{◌≡◌};
ghost use Rattle.lines.specs.Lines.{pool_at, ids_at, show_at, together_at, other_of};

use claims::Claim;
use fields::{Flaw, Name, Wrong};
use ranges::AllocPolicy;
use vocabulary::Word;

// What a line says.
#[derive(Clone, Copy)]
pub enum Line {
    Blank,
    Pool {
        name: Name,
        base: u64,
        size: u64,
        // how many ranges its table may hold, where the line says it
        limit: Option<u64>,
    },
    Ids {
        name: Name,
        low: u32,
        high: u32,
    },
    Allocate {
        name: Name,
        size: u64,
        align: u64,
        policy: AllocPolicy,
        claim: Claim,
    },
    AllocateId {
        name: Name,
        claim: Claim,
    },
    Free {
        name: Name,
        start: u64,
        end: u64,
        claim: Claim,
    },
    FreeId {
        name: Name,
        id: u32,
        claim: Claim,
    },
    Show {
        name: Name,
    },
    // Whether an id is granted now.
    InUse {
        name: Name,
        id: u32,
        claim: Claim,
    },
    // So many of the lines that follow are done together: all or none.
    Together {
        count: u64,
    },
}

// Reads a line that is no operation; its first word says which.
#[tactic(auto, unfolding(crate::specs::Lines::other_of))]
pub fn other(s: &[u8]) -> Result<Line, Wrong>
    ensures { result ≡ other_of s.now }
{
    let next = text::end(s, 0);
    // one `if` a word: each reads the rest in its own way, and a table of words and functions would say no more
    if vocabulary::next_is(s, 0, Word::Pool) {
        return pool(s, next);
    }
    if vocabulary::next_is(s, 0, Word::Ids) {
        return ids(s, next);
    }
    if vocabulary::next_is(s, 0, Word::Show) {
        return show(s, next);
    }
    if vocabulary::next_is(s, 0, Word::Together) {
        return together(s, next);
    }
    Err(Flaw::UnknownWord.at(text::start(s, 0)))
}

// NAME BASE SIZE, and `limit N` or nothing.
#[tactic(auto, unfolding(crate::specs::Lines::pool_at, crate::specs::Lines::limit_at, crate::specs::Lines::ended_at))]
fn pool(s: &[u8], at: usize) -> Result<Line, Wrong>
    ensures { result ≡ pool_at s.now at }
{
    let (name, at) = fields::take_name(s, at)?;
    let (base, at) = fields::take_number(s, at)?;
    let (size, at) = fields::take_number(s, at)?;
    let (limit, at) = if vocabulary::next_is(s, at, Word::Limit) {
        let (n, at) = fields::take_number(s, text::end(s, at))?;
        (Some(n), at)
    } else {
        (None, at)
    };
    fields::take_end(s, at)?;
    Ok(Line::Pool {
        name,
        base,
        size,
        limit,
    })
}

// NAME LOW HIGH.
#[tactic(auto, unfolding(crate::specs::Lines::ids_at, crate::specs::Lines::ended_at))]
fn ids(s: &[u8], at: usize) -> Result<Line, Wrong>
    ensures { result ≡ ids_at s.now at }
{
    let (name, at) = fields::take_name(s, at)?;
    let (low, at) = fields::take_id(s, at)?;
    let (high, at) = fields::take_id(s, at)?;
    fields::take_end(s, at)?;
    Ok(Line::Ids { name, low, high })
}

// NAME.
#[tactic(auto, unfolding(crate::specs::Lines::show_at, crate::specs::Lines::ended_at))]
fn show(s: &[u8], at: usize) -> Result<Line, Wrong>
    ensures { result ≡ show_at s.now at }
{
    let (name, at) = fields::take_name(s, at)?;
    fields::take_end(s, at)?;
    Ok(Line::Show { name })
}

// 2 or 3.
#[tactic(auto, unfolding(crate::specs::Lines::together_at, crate::specs::Lines::ended_at))]
fn together(s: &[u8], at: usize) -> Result<Line, Wrong>
    ensures { result ≡ together_at s.now at }
{
    let (count, next) = fields::take_number(s, at)?;
    if count < 2 || count > 3 {
        return Err(Flaw::CountExpected.at(text::start(s, at)));
    }
    fields::take_end(s, next)?;
    Ok(Line::Together { count })
}
