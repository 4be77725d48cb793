// What the command's C links against: a line of a script as nine words, a line carried out on a lent block with what became of it in five
// words, a window as text, and the bar of a picture.
// Every function is total, as in the crates that it calls.
#![tactic(auto)]

ghost use Rattle.std.specs.Prelude.{◌≡◌};
ghost use Rattle.script.specs.Grammar.{line_of};
ghost use Rattle.fields.specs.Answers.{window_text};
ghost use Rattle.picture.specs.Bar.{Cleared, Painted};
ghost use Rattle.command.specs.Encoded.{kind_of, words_of, Placing};
ghost use Rattle.command.specs.Lines.{PoolLine, IdLine, UseLine};
ghost use Rattle.command.specs.Encoded.{claim_of, limit_of, policy_of, three, nine};
ghost use Rattle.command.specs.Files.{kind_with, words_with};
ghost use Rattle.keeping.specs.Keeping.{kept_of};

mod files;

use claims::Claim;
use fields::{Name, Wrong};
use lines::Line;
use ranges::AllocPolicy;
use told::Case;

// Reads a line: answers its kind, and `words` becomes what it says. A line of files is one first; any other is what the script's grammar says.
#[unsafe(no_mangle)]
pub extern "C" fn rk_line(s: &[u8], words: &mut [u64; 9]) -> u32
    ensures { (result ≡ kind_with (kept_of s.now) (kind_of (line_of s.now))) × (words.new ≡ words_with (kept_of s.now) (words_of (line_of s.now))) }
{
    let kept = keeping::read(s);
    let line = script::parse(s);
    *words = files::words(kept, words_of(line));
    files::kind(kept, kind_of(line))
}

// The numbers by which C knows the kinds of lines.
fn kind_of(line: Result<Line, Wrong>) -> u32
    ensures { result ≡ kind_of line }
{
    match line {
        Ok(Line::Blank) => 0,
        Ok(Line::Pool { .. }) => 1,
        Ok(Line::Ids { .. }) => 2,
        Ok(Line::Allocate { .. }) => 3,
        Ok(Line::AllocateId { .. }) => 4,
        Ok(Line::Free { .. }) => 5,
        Ok(Line::FreeId { .. }) => 6,
        Ok(Line::Show { .. }) => 7,
        Err(_) => 8,
        Ok(Line::InUse { .. }) => 9,
        Ok(Line::Together { .. }) => 10,
    }
}

fn words_of(line: Result<Line, Wrong>) -> [u64; 9]
    ensures { result ≡ words_of line }
{
    let line = match line {
        Ok(line) => line,
        Err(wrong) => return files::flawed(files::flaw_number(wrong.why), wrong.at),
    };
    let nowhere = Name { start: 0, len: 0 };
    let nothing = three(0, 0, 0);
    match line {
        Line::Blank => nine(nowhere, 0, 0, nothing, nothing),
        Line::Pool {
            name,
            base,
            size,
            limit,
        } => nine(name, base, size, limit_words(limit), nothing),
        Line::Ids { name, low, high } => nine(name, low as u64, high as u64, nothing, nothing),
        Line::Allocate {
            name,
            size,
            align,
            policy,
            claim,
        } => nine(name, size, align, policy_words(policy), claim_words(claim)),
        Line::AllocateId { name, claim } => nine(name, 0, 0, nothing, claim_words(claim)),
        Line::Free {
            name,
            start,
            end,
            claim,
        } => nine(name, start, end, nothing, claim_words(claim)),
        Line::FreeId { name, id, claim } | Line::InUse { name, id, claim } => nine(
            name,
            id as u64,
            0,
            nothing,
            claim_words(claim),
        ),
        Line::Show { name } => nine(name, 0, 0, nothing, nothing),
        Line::Together { count } => nine(nowhere, count, 0, nothing, nothing),
    }
}

// Nine words: the name's place, two numbers, a policy or a limit, and a claim.
fn nine(name: Name, a: u64, b: u64, p: Case, c: Case) -> [u64; 9]
    ensures { result ≡ nine name a b p c }
{
    [
        name.start as u64,
        name.len as u64,
        a,
        b,
        p.kind,
        p.a,
        c.kind,
        c.a,
        c.b,
    ]
}

// A case, by the number that C knows, with two numbers.
fn three(kind: u64, a: u64, b: u64) -> Case
    ensures { result ≡ three kind a b }
{
    Case { kind, a, b }
}

fn limit_words(limit: Option<u64>) -> Case
    ensures { result ≡ limit_of limit }
{
    match limit {
        None => three(0, 0, 0),
        Some(n) => three(1, n, 0),
    }
}

fn policy_words(policy: AllocPolicy) -> Case
    ensures { result ≡ policy_of policy }
{
    match policy {
        AllocPolicy::FirstMatch => three(0, 0, 0),
        AllocPolicy::LastMatch => three(1, 0, 0),
        AllocPolicy::ExactMatch(x) => three(2, x, 0),
    }
}

fn claim_words(claim: Claim) -> Case
    ensures { result ≡ claim_of claim }
{
    match claim {
        Claim::Unsaid => three(0, 0, 0),
        Claim::Window(x, y) => three(1, x, y),
        Claim::Id(n) => three(2, n as u64, 0),
        Claim::Freed => three(3, 0, 0),
        Claim::Refused(e) => three(4, e.number() as u64, 0),
        Claim::Yes => three(5, 0, 0),
        Claim::No => three(6, 0, 0),
    }
}

// Carries a line out on the pool in `mem`: with no claim it is answered, with a claim the claim is judged. `told` becomes what became of it.
#[unsafe(no_mangle)]
pub extern "C" fn rk_pool_line(s: &[u8], mem: &mut [u64], told: &mut [u64; 5])
    ensures { PoolLine s.now mem.old mem.new told.new }
{
    let outcome = replay::on_pool(mem, script::parse(s));
    *told = told::pool(outcome);
}

// The same on the interval of ids in `mem`; a function of its own, since C calls each by its name.
#[unsafe(no_mangle)]
pub extern "C" fn rk_id_line(s: &[u8], mem: &mut [u64], told: &mut [u64; 5])
    ensures { IdLine s.now mem.old mem.new told.new }
{
    let outcome = replay::on_ids(mem, script::parse(s));
    *told = told::interval(outcome);
}

// Asks whether an id of the interval in `mem` is granted, as the line wants it.
#[unsafe(no_mangle)]
pub extern "C" fn rk_use_line(s: &[u8], mem: &[u64], told: &mut [u64; 5])
    ensures { UseLine s.now mem.now told.new }
{
    let outcome = asked::in_use(mem, script::parse(s));
    *told = told::used(outcome);
}

// Puts a window into `out` from its first byte on: the number of bytes, or 0 where it does not fit, since C has no Option.
#[unsafe(no_mangle)]
pub extern "C" fn rk_window(out: &mut [u8], low: u64, high: u64) -> usize
    ensures { Placing (window_text low high) out.old out.new result }
{
    fields::put_window(out, 0, low, high).unwrap_or(0)
}

// Clears the bar of a picture.
#[unsafe(no_mangle)]
pub extern "C" fn rk_bar_clear(bar: &mut [u8])
    ensures { Cleared bar.new }
{
    picture::clear(bar);
}

// Paints a stretch into the bar of the pool from `base` to `last`.
#[unsafe(no_mangle)]
pub extern "C" fn rk_bar_paint(
    bar: &mut [u8],
    base: u64,
    last: u64,
    start: u64,
    end: u64,
    granted: bool,
)
    ensures { Painted base last start end granted bar.old bar.new }
{
    picture::paint(bar, base, last, start, end, granted);
}
