// What saving and loading answer, as C knows it: a number, 0 for done, and an out-parameter.
ghost use Rattle.std.specs.Prelude.{◌≡◌};
ghost use Rattle.rangekeeper_saved.specs.Numbers.{saved_number, written_or, loaded_number, place_or};

use frame::{LoadError, SaveError};
use ranges::Error;

// The number of a save's answer, and how many bytes it wrote.
pub fn of_save(answer: Result<usize, SaveError>, written: &mut usize) -> u32
    ensures number { result ≡ saved_number answer }
    ensures out { written.new ≡ written_or written.old answer }
{
    match answer {
        Ok(n) => {
            *written = n;
            0
        }
        Err(SaveError::NoRoom) => Error::NoRoom.number(),
        Err(SaveError::NoState) => Error::NoState.number(),
    }
}

// The number of a load's answer, and how many bytes it read, or where a flaw stands.
pub fn of_load(answer: Result<usize, LoadError>, at: &mut usize) -> u32
    ensures number { result ≡ loaded_number answer }
    ensures out { at.new ≡ place_or at.old answer }
{
    match answer {
        Ok(n) => {
            *at = n;
            0
        }
        Err(LoadError::NoRoom) => Error::NoRoom.number(),
        Err(LoadError::Bad(fault)) => {
            *at = fault.place;
            fault.flaw.number()
        }
    }
}
