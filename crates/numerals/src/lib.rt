// Numerals: a text to the 64-bit number that it means, and a number to its text.
// Every public function is total: it demands nothing of its caller.
#![tactic(auto)]

ghost use Rattle.std.specs.Prelude.{◌≡◌, ◌<◌, ◌≤◌, ◌++◌, length, drop, SomeIff};
ghost use Rattle.numerals.specs.Numeral.{digits, fitted, read as read_of};
ghost use Rattle.numerals.specs.Numeral.{digit as digit_of};
ghost use Rattle.text.specs.Stored.{Puts};
ghost use Rattle.numerals.specs.Spelled.{spell};
ghost use Rattle.numerals.specs.Spelled.{glyph as glyph_of, decimal as decimal_of, hexadecimal as hexadecimal_of};
ghost use Rattle.numerals.specs.Steps.{Counted, added};

// Why a text says no number.
#[derive(Clone, Copy)]
pub enum NoNumber {
    // It is no numeral: a digit is wanted at this place.
    NoDigit(usize),
    // It is a numeral, and what it means does not fit 64 bits.
    TooLarge,
}

// The number that the text means: decimal digits, or 0x and hexadecimal ones of either case, with
// `_` anywhere after the first digit.
pub fn read(s: &[u8]) -> Result<u64, NoNumber>
    ensures { result ≡ read_of s.now }
{
    if s.starts_with(b"0x") {
        read_digits(s, 2, 16)
    } else {
        read_digits(s, 0, 10)
    }
}

fn read_digits(s: &[u8], from: usize, base: u32) -> Result<u64, NoNumber>
    requires lt_base { 1 < base }
    requires base_bound { base ≤ 16 }
    ensures { result ≡ fitted (digits base from (drop from s.now)) }
{
    if s.len() <= from {
        return Err(NoNumber::NoDigit(from));
    }
    let first = digit(s[from], base).ok_or(NoNumber::NoDigit(from))?;
    // None once it does not fit 64 bits.
    let mut sum = Some(u64::from(first));
    for i in from + 1..s.len() {
        if s[i] != b'_' {
            let d = digit(s[i], base).ok_or(NoNumber::NoDigit(i))?;
            sum = with_digit(sum, base, d);
        }
    }
    sum.ok_or(NoNumber::TooLarge)
}

// The sum with one more digit.
fn with_digit(sum: Option<u64>, base: u32, d: u32) -> Option<u64>
    ensures { result ≡ added sum base d }
{
    sum?.checked_mul(u64::from(base))?.checked_add(u64::from(d))
}

// The digit that a byte stands for.
fn digit(c: u8, base: u32) -> Option<u32>
    requires lt_base { 1 < base }
    requires base_bound { base ≤ 16 }
    ensures { SomeIff result (digit_of c < base) (digit_of c) }
{
    (c as char).to_digit(base)
}

// Puts n's decimal digits into `out` from `at` on, and answers the place behind them; None where they
// do not fit, when nothing is changed.
#[tactic(auto, unfolding(crate::specs::Spelled::decimal))]
pub fn decimal(out: &mut [u8], at: usize, n: u64) -> Option<usize>
    ensures { Puts (decimal_of n) at out.old out.new result }
{
    put_digits(out, at, b"", n, 10)
}

// Puts 0x and n's hexadecimal digits, as `decimal` does.
#[tactic(auto, unfolding(crate::specs::Spelled::hexadecimal))]
pub fn hexadecimal(out: &mut [u8], at: usize, n: u64) -> Option<usize>
    ensures { Puts (hexadecimal_of n) at out.old out.new result }
{
    put_digits(out, at, b"0x", n, 16)
}

// How many bytes `hexadecimal` puts for n.
#[tactic(auto, unfolding(crate::specs::Spelled::hexadecimal))]
pub fn hexadecimal_len(n: u64) -> usize
    ensures { result ≡ length (hexadecimal_of n) }
{
    width(n, 16) + 2
}

// Puts n's digits behind a prefix.
fn put_digits(out: &mut [u8], at: usize, prefix: &[u8], n: u64, base: u64) -> Option<usize>
    requires le_base { 10 ≤ base }
    requires base_bound { base ≤ 16 }
    ensures { Puts (prefix.now ++ spell base 20 n) at out.old out.new result }
{
    let end = at.checked_add(prefix.len() + width(n, base))?;
    if out.len() < end {
        return None;
    }
    let start = text::put(out, at, prefix)?;
    fill(&mut out[start..end], n, base);
    Some(end)
}

// How many digits n has.
fn width(n: u64, base: u64) -> usize
    requires { 10 ≤ base }
    ensures { Counted base n result }
{
    let mut k = 1;
    let mut rest = n;
    // A while: what ends it is the rest, and no index runs.
    while rest >= base {
        rest /= base;
        k += 1;
    }
    k
}

// Puts n's digits into as many bytes, the last one first.
fn fill(out: &mut [u8], n: u64, base: u64)
    requires le_base { 10 ≤ base }
    requires base_bound { base ≤ 16 }
    requires counted { Counted base n (length out.old) }
    ensures { out.new ≡ spell base 20 n }
{
    let mut rest = n;
    for i in (0..out.len()).rev() {
        out[i] = glyph(rest % base);
        rest /= base;
    }
}

fn glyph(d: u64) -> u8
    requires { d < 16 }
    ensures { result ≡ glyph_of d }
{
    if d < 10 {
        b'0' + d as u8
    } else {
        b'a' - 10 + d as u8
    }
}
