// The words of the language of scripts: whether the next word of a line is one of them.
#![tactic(auto)]

ghost use Rattle.std.specs.Prelude.{◌≡◌};
ghost use Rattle.text.specs.Words.{word_is};
ghost use Rattle.vocabulary.specs.Spelling.{word_text, reason_text};

use ranges::Error;

// The words that have a meaning of their own; `=>` is the arrow.
#[derive(Clone, Copy)]
pub enum Word {
    Pool,
    Ids,
    Allocate,
    Free,
    Show,
    Limit,
    Align,
    First,
    Last,
    Exact,
    Arrow,
    Freed,
    Refused,
    InUse,
    Yes,
    No,
    Together,
}

impl Word {
    // The bytes of the word.
    fn spelling(self) -> &'static [u8]
        ensures { result.now ≡ word_text self }
    {
        match self {
            Word::Pool => b"pool",
            Word::Ids => b"ids",
            Word::Allocate => b"allocate",
            Word::Free => b"free",
            Word::Show => b"show",
            Word::Limit => b"limit",
            Word::Align => b"align",
            Word::First => b"first",
            Word::Last => b"last",
            Word::Exact => b"exact",
            Word::Arrow => b"=>",
            Word::Freed => b"freed",
            Word::Refused => b"refused",
            Word::InUse => b"in-use",
            Word::Yes => b"yes",
            Word::No => b"no",
            Word::Together => b"together",
        }
    }
}

// The bytes of a reason's word.
fn reason_spelling(reason: Error) -> &'static [u8]
    ensures { result.now ≡ reason_text reason }
{
    match reason {
        Error::Overflow => b"overflow",
        Error::OutOfRange => b"out-of-range",
        Error::AlreadyReleased => b"already-released",
        Error::NeverAllocated => b"never-allocated",
        Error::ResourceNotAvailable => b"not-available",
        Error::InvalidRange => b"invalid-range",
        Error::InvalidAlignment => b"invalid-alignment",
        Error::UnalignedAddress => b"unaligned",
        Error::Underflow => b"underflow",
        Error::InvalidSize => b"invalid-size",
        Error::NoRoom => b"no-room",
        Error::InvalidPolicy => b"invalid-policy",
        Error::NoState => b"no-state",
    }
}

// Whether the next word from `at` on is this one.
pub fn next_is(s: &[u8], at: usize, word: Word) -> bool
    ensures { result ≡ word_is s.now at (word_text word) }
{
    text::word_is(s, at, word.spelling())
}

// Whether the next word from `at` on is the word of this reason.
pub fn reason_is(s: &[u8], at: usize, reason: Error) -> bool
    ensures { result ≡ word_is s.now at (reason_text reason) }
{
    text::word_is(s, at, reason_spelling(reason))
}
