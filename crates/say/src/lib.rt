// A line for an answer, for the programs that print them.
#![tactic(auto)]

use ranges::Error;
use std::fmt::Display;
use std::io;

// Writes what was answered, or the reason of the refusal; where that fails, answers why.
pub fn answer<T: Display + Copy>(rt: &impl Print, x: Result<T, Error>) -> io::Result<()> {
    match x {
        Ok(t) => println!(rt; "{t}"),
        Err(e) => println!(rt; "{e}"),
    }
}
