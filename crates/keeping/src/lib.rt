// The lines that save an allocator to a file or load it from one.
// Nothing is demanded of the line, nor of the place.
#![tactic(auto)]

ghost use Rattle.std.specs.Prelude.{◌≡◌};
ghost use Rattle.keeping.specs.Keeping.{way_text, join_text, file_at, named_at, kept_of};
ghost use Rattle.keeping.specs.declared.Unkept.{Unkept};

use fields::{Name, Wrong};

// Which of the two a line wants.
#[derive(Clone, Copy)]
pub enum Way {
    Save,
    Load,
}

impl Way {
    // The first word of such a line.
    fn first_word(self) -> &'static [u8]
        ensures { result.now ≡ way_text self }
    {
        match self {
            Way::Save => b"save",
            Way::Load => b"load",
        }
    }

    // The word before the file. (A table beside the other: one function for both would be a match in a match.)
    fn join_word(self) -> &'static [u8]
        ensures { result.now ≡ join_text self }
    {
        match self {
            Way::Save => b"to",
            Way::Load => b"from",
        }
    }
}

// What a line says of files: the allocator, and the place of the file's name in the line.
#[derive(Clone, Copy)]
pub struct Files {
    pub way: Way,
    pub name: Name,
    pub file: Name,
}

// What is wrong with a line of files.
#[derive(Clone, Copy)]
pub enum Unkept {
    // what can be wrong with any line
    Wrong(Wrong),
    // `to` or `from` is missing
    Unjoined { way: Way, at: usize },
    // the file is missing
    Unfiled { at: usize },
}

impl From<Wrong> for Unkept {
    ghost from_gives = { λ w u. u ≡ Unkept.Wrong w };

    fn from(wrong: Wrong) -> Unkept {
        Unkept::Wrong(wrong)
    }
}

// Reads a line; its first word says whether it is one of these.
#[tactic(auto, unfolding(crate::specs::Keeping::kept_of))]
pub fn read(s: &[u8]) -> Option<Result<Files, Unkept>>
    ensures { result ≡ kept_of s.now }
{
    if s.len() > 1000 {
        return None;
    }
    let next = text::end(s, 0);
    if text::word_is(s, 0, Way::Save.first_word()) {
        return Some(named(s, Way::Save, next));
    }
    if text::word_is(s, 0, Way::Load.first_word()) {
        return Some(named(s, Way::Load, next));
    }
    None
}

// NAME, `to` or `from`, and FILE.
#[tactic(auto, unfolding(crate::specs::Keeping::named_at, crate::specs::Keeping::joined_at))]
fn named(s: &[u8], way: Way, at: usize) -> Result<Files, Unkept>
    ensures { result ≡ named_at s.now way at }
{
    let (name, at) = fields::take_name(s, at)?;
    if !text::word_is(s, at, way.join_word()) {
        return Err(Unkept::Unjoined {
            way,
            at: text::start(s, at),
        });
    }
    file(s, way, name, text::end(s, at))
}

// FILE, one word with nothing behind it.
#[tactic(auto, using(text::proofs::Scans::word_order), unfolding(crate::specs::Keeping::file_at))]
fn file(s: &[u8], way: Way, name: Name, at: usize) -> Result<Files, Unkept>
    ensures { result ≡ file_at s.now way name at }
{
    let start = text::start(s, at);
    let end = text::end(s, at);
    if text::no_word(s, at) {
        return Err(Unkept::Unfiled { at: start });
    }
    fields::take_end(s, end)?;
    Ok(Files {
        way,
        name,
        file: Name {
            start,
            len: end - start,
        },
    })
}
