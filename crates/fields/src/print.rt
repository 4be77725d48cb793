// Windows as text, in the form of the claims.
ghost use Rattle.std.specs.Prelude.{◌≡◌};
ghost use Rattle.text.specs.Stored.{Puts};
ghost use Rattle.fields.specs.Answers.{window_text};

// Puts a window, as `0x100..0x1ff`, into `out` from `at` on, and answers the place behind it; None
// where it does not fit, when nothing is changed.
pub fn put_window(out: &mut [u8], at: usize, low: u64, high: u64) -> Option<usize>
    ensures { Puts (window_text low high) at out.old out.new result }
{
    let k = numerals::hexadecimal_len(low) + numerals::hexadecimal_len(high) + 2;
    if out.len() < at.saturating_add(k) {
        return None;
    }
    let dots = numerals::hexadecimal(out, at, low)?;
    let second = text::put(out, dots, b"..")?;
    numerals::hexadecimal(out, second, high)
}
