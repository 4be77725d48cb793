// The lines of files as a kind and words, beside those of the script's other lines; and the number of a flaw.
ghost use Rattle.std.specs.Prelude.{◌≡◌};
ghost use Rattle.command.specs.Encoded.{flaw_of};
ghost use Rattle.command.specs.Files.{way_kind, join_flaw, flawed, kind_with, words_with};

use fields::Flaw;
use keeping::{Files, Unkept, Way};

// The kind of a line, where `other` is the kind that it has if it says nothing of files.
pub fn kind(kept: Option<Result<Files, Unkept>>, other: u32) -> u32
    ensures { result ≡ kind_with kept other }
{
    match kept {
        None => other,
        Some(Ok(files)) => way_kind(files.way),
        Some(Err(_)) => 8,
    }
}

// The number by which C knows the kind.
fn way_kind(way: Way) -> u32
    ensures { result ≡ way_kind way }
{
    match way {
        Way::Save => 11,
        Way::Load => 12,
    }
}

// The words of a line, where `other` are those that it has if it says nothing of files.
pub fn words(kept: Option<Result<Files, Unkept>>, other: [u64; 9]) -> [u64; 9]
    ensures { result ≡ words_with kept other }
{
    match kept {
        None => other,
        Some(Ok(Files { name, file, .. })) => [
            name.start as u64,
            name.len as u64,
            file.start as u64,
            file.len as u64,
            0,
            0,
            0,
            0,
            0,
        ],
        Some(Err(Unkept::Wrong(wrong))) => flawed(flaw_number(wrong.why), wrong.at),
        Some(Err(Unkept::Unjoined { way, at })) => flawed(join_flaw(way), at),
        Some(Err(Unkept::Unfiled { at })) => flawed(16, at),
    }
}

// A flaw and its place.
pub fn flawed(flaw: u64, at: usize) -> [u64; 9]
    ensures { result ≡ flawed flaw at }
{
    [0, 0, flaw, at as u64, 0, 0, 0, 0, 0]
}

// The number by which C knows a line without `to` or `from`.
fn join_flaw(way: Way) -> u64
    ensures { result ≡ join_flaw way }
{
    match way {
        Way::Save => 14,
        Way::Load => 15,
    }
}

// The number by which C knows a flaw.
pub fn flaw_number(why: Flaw) -> u64
    ensures { result ≡ flaw_of why }
{
    match why {
        Flaw::LineTooLong => 1,
        Flaw::UnknownWord => 2,
        Flaw::NameExpected => 3,
        Flaw::NameTooLong => 4,
        Flaw::NumberExpected => 5,
        Flaw::NumberTooLarge => 6,
        Flaw::WindowExpected => 7,
        Flaw::AlignExpected => 8,
        Flaw::PolicyExpected => 9,
        Flaw::ClaimExpected => 10,
        Flaw::ReasonExpected => 11,
        Flaw::LeftOver => 12,
        Flaw::CountExpected => 13,
    }
}
