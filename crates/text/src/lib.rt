// Text in bytes: the words of a line, and a text put into lent bytes.
// Every function is total: it demands nothing of its caller, and no place is beyond the end.
#![tactic(auto)]

ghost use Rattle.std.specs.Prelude.{◌≡◌, ℕ, ◌+◌, ◌≤◌, ◌<◌, length, take, drop, ◌++◌};
ghost use Rattle.text.specs.Words.{is_in, is_blank, is_solid, is_undotted, is_named, Scanned, start_of, end_of, no_word, word_is, dotted};
ghost use Rattle.text.specs.Words.{same as same_of};
ghost use Rattle.text.specs.Stored.{Puts};

// Kinds of bytes: what separates words; what words are made of, where `#` ends the line; what names
// are made of; and what stands before the first dot of a word.
#[derive(Clone, Copy)]
pub enum Class {
    Blank,
    Solid,
    Named,
    Undotted,
}

// The first place from `at` on whose byte is not of the class, or the end.
pub fn scan(s: &[u8], at: usize, class: Class) -> usize
    ensures { Scanned class s.now at result }
{
    for i in at..s.len() {
        if !is_in(class, s[i]) {
            return i;
        }
    }
    s.len()
}

// Whether a byte is of a class.
fn is_in(class: Class, c: u8) -> bool
    ensures { result ≡ is_in class c }
{
    match class {
        Class::Blank => is_blank(c),
        Class::Solid => is_solid(c),
        Class::Named => is_named(c),
        Class::Undotted => is_undotted(c),
    }
}

#[tactic(auto, unfolding(crate::specs::Words::is_blank))]
fn is_blank(c: u8) -> bool
    ensures { result ≡ is_blank c }
{
    matches!(c, b' ' | b'\t' | b'\r')
}

#[tactic(auto, unfolding(crate::specs::Words::is_solid))]
fn is_solid(c: u8) -> bool
    ensures { result ≡ is_solid c }
{
    !is_blank(c) && c != b'#'
}

#[tactic(auto, unfolding(crate::specs::Words::is_undotted))]
fn is_undotted(c: u8) -> bool
    ensures { result ≡ is_undotted c }
{
    is_solid(c) && c != b'.'
}

#[tactic(auto, unfolding(crate::specs::Words::is_named, crate::specs::Words::is_from))]
fn is_named(c: u8) -> bool
    ensures { result ≡ is_named c }
{
    matches!(c, b'a'..=b'z' | b'A'..=b'Z' | b'0'..=b'9' | b'-' | b'_')
}

// Whether two texts are the same.
pub fn same(s: &[u8], t: &[u8]) -> bool
    ensures { result ≡ same_of s.now t.now }
{
    s == t
}

// Where the next word from `at` on starts; where there is none, where the line's text ends.
pub fn start(s: &[u8], at: usize) -> usize
    ensures { result ≡ start_of s.now at }
{
    scan(s, at, Class::Blank)
}

// The place behind the next word from `at` on.
pub fn end(s: &[u8], at: usize) -> usize
    ensures { result ≡ end_of s.now at }
{
    scan(s, start(s, at), Class::Solid)
}

// Whether there is no word from `at` on.
#[tactic(auto, unfolding(crate::specs::Words::no_word))]
pub fn no_word(s: &[u8], at: usize) -> bool
    ensures { result ≡ no_word s.now at }
{
    start(s, at) == end(s, at)
}

// Whether the next word from `at` on is this one.
#[tactic(auto, unfolding(crate::specs::Words::word_is))]
pub fn word_is(s: &[u8], at: usize, key: &[u8]) -> bool
    ensures { result ≡ word_is s.now at key.now }
{
    let a = scan(s, at, Class::Blank);
    let e = scan(s, a, Class::Solid);
    same(&s[a..e], key)
}

// Whether the next word from `at` on has a dot in it.
#[tactic(auto, unfolding(crate::specs::Words::dotted))]
pub fn has_dot(s: &[u8], at: usize) -> bool
    ensures { result ≡ dotted s.now at }
{
    let a = start(s, at);
    scan(s, a, Class::Undotted) != scan(s, a, Class::Solid)
}

// Puts a text into `out` from `at` on, and answers the place behind it; None where it does not fit,
// when nothing is changed.
pub fn put(out: &mut [u8], at: usize, t: &[u8]) -> Option<usize>
    ensures { Puts t.now at out.old out.new result }
{
    let end = at.checked_add(t.len())?;
    if out.len() < end {
        return None;
    }
    out[at..end].copy_from_slice(t);
    Some(end)
}
