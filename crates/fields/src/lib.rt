// The fields of a line: names, numbers, ids, windows and policies, each with the place behind it, or
// what is wrong and where; and a window as text, which reads back as itself.
// Nothing is demanded of the line, nor of the place.
#![tactic(auto)]

ghost use Rattle.std.specs.Prelude.{◌≡◌, ◌≤◌, length};
ghost use Rattle.fields.specs.Fields.{wrong, name_at, number_in, number_at, id_at, window_at, policy_at, end_at};

mod print;

use numerals::NoNumber;
pub use print::put_window;
use ranges::AllocPolicy;
use text::Class;
use vocabulary::Word;

// The place of a name in the line.
#[derive(Clone, Copy)]
pub struct Name {
    pub start: usize,
    pub len: usize,
}

// What can be wrong with a line.
#[derive(Clone, Copy)]
pub enum Flaw {
    LineTooLong,
    UnknownWord,
    NameExpected,
    NameTooLong,
    NumberExpected,
    NumberTooLarge,
    WindowExpected,
    AlignExpected,
    PolicyExpected,
    ClaimExpected,
    ReasonExpected,
    LeftOver,
    CountExpected,
}

// What is wrong, and where.
#[derive(Clone, Copy)]
pub struct Wrong {
    pub why: Flaw,
    pub at: usize,
}

impl Flaw {
    // The flaw at a place of the line.
    pub fn at(self, place: usize) -> Wrong
        ensures { result ≡ wrong self place }
    {
        Wrong {
            why: self,
            at: place,
        }
    }
}

// A word of letters, digits, `-` and `_`, of 31 bytes at most.
#[tactic(auto, unfolding(crate::specs::Fields::name_at))]
pub fn take_name(s: &[u8], at: usize) -> Result<(Name, usize), Wrong>
    ensures { result ≡ name_at s.now at }
{
    let a = text::start(s, at);
    let e = text::end(s, at);
    let m = text::scan(s, a, Class::Named);
    if a == m {
        return Err(Flaw::NameExpected.at(a));
    }
    if m != e {
        return Err(Flaw::NameExpected.at(m));
    }
    let len = e - a;
    if len > 31 {
        return Err(Flaw::NameTooLong.at(a));
    }
    Ok((Name { start: a, len }, e))
}

// The number that stands from a to e.
#[tactic(auto, unfolding(crate::specs::Fields::number_in))]
fn number_in(s: &[u8], a: usize, e: usize) -> Result<(u64, usize), Wrong>
    requires a_le_e { a ≤ e }
    requires e_in_bounds { e ≤ length s.now }
    ensures { result ≡ number_in s.now a e }
{
    match numerals::read(&s[a..e]) {
        Ok(n) => Ok((n, e)),
        Err(NoNumber::NoDigit(i)) => Err(Flaw::NumberExpected.at(a + i)),
        Err(NoNumber::TooLarge) => Err(Flaw::NumberTooLarge.at(a)),
    }
}

// A word that is a numeral.
#[tactic(auto, unfolding(crate::specs::Fields::number_at))]
pub fn take_number(s: &[u8], at: usize) -> Result<(u64, usize), Wrong>
    ensures { result ≡ number_at s.now at }
{
    number_in(s, text::start(s, at), text::end(s, at))
}

// A number of 32 bits.
#[tactic(auto, unfolding(crate::specs::Fields::id_at))]
pub fn take_id(s: &[u8], at: usize) -> Result<(u32, usize), Wrong>
    ensures { result ≡ id_at s.now at }
{
    let (n, next) = take_number(s, at)?;
    if n > u32::MAX as u64 {
        return Err(Flaw::NumberTooLarge.at(text::start(s, at)));
    }
    Ok((n as u32, next))
}

// Two numbers with two dots between them, in one word.
#[tactic(auto, unfolding(crate::specs::Fields::window_at))]
pub fn take_window(s: &[u8], at: usize) -> Result<(u64, u64, usize), Wrong>
    ensures { result ≡ window_at s.now at }
{
    let a = text::start(s, at);
    let e = text::end(s, at);
    let m = text::scan(s, a, Class::Undotted);
    if e < m + 2 {
        return Err(Flaw::WindowExpected.at(a));
    }
    if s[m + 1] != b'.' {
        return Err(Flaw::WindowExpected.at(m));
    }
    let (low, _) = number_in(s, a, m)?;
    let (high, next) = number_in(s, m + 2, e)?;
    Ok((low, high, next))
}

// `first`, `last`, or `exact` and a number.
#[tactic(auto, unfolding(crate::specs::Fields::policy_at))]
pub fn take_policy(s: &[u8], at: usize) -> Result<(AllocPolicy, usize), Wrong>
    ensures { result ≡ policy_at s.now at }
{
    let e = text::end(s, at);
    if vocabulary::next_is(s, at, Word::First) {
        return Ok((AllocPolicy::FirstMatch, e));
    }
    if vocabulary::next_is(s, at, Word::Last) {
        return Ok((AllocPolicy::LastMatch, e));
    }
    if vocabulary::next_is(s, at, Word::Exact) {
        let (start, next) = take_number(s, e)?;
        return Ok((AllocPolicy::ExactMatch(start), next));
    }
    Err(Flaw::PolicyExpected.at(text::start(s, at)))
}

// Nothing more: no word stands from `at` on.
pub fn take_end(s: &[u8], at: usize) -> Result<(), Wrong>
    ensures { result ≡ end_at s.now at }
{
    if text::no_word(s, at) {
        Ok(())
    } else {
        Err(Flaw::LeftOver.at(text::start(s, at)))
    }
}
