// A line of a script: the operation that it asks for, what else it says, or what is wrong with it and where.
// Nothing is demanded of the line: any bytes say something or are refused.
#![tactic(auto)]

ghost use Rattle.std.specs.Prelude.{◌≡◌};
ghost use Rattle.script.specs.Grammar.{line_of};

mod operations;

use fields::{Flaw, Wrong};
use lines::Line;
use vocabulary::Word;

// Reads a line, without the byte that ends it.
#[tactic(auto, unfolding(crate::specs::Grammar::line_of))]
pub fn parse(s: &[u8]) -> Result<Line, Wrong>
    ensures { result ≡ line_of s.now }
{
    if s.len() > 1000 {
        return Err(Flaw::LineTooLong.at(1000));
    }
    if text::no_word(s, 0) {
        return Ok(Line::Blank);
    }
    let next = text::end(s, 0);
    // one `if` a word: each reads the rest in its own way, and a table of words and functions would say no more
    if vocabulary::next_is(s, 0, Word::Allocate) {
        return operations::allocate(s, next);
    }
    if vocabulary::next_is(s, 0, Word::Free) {
        return operations::free(s, next);
    }
    if vocabulary::next_is(s, 0, Word::InUse) {
        return operations::in_use(s, next);
    }
    lines::other(s)
}
