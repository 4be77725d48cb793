// The names for copies and for several things at once that C and Rust link against: thin, total, and each with the contract of what it
// calls. They go into the same archive as those of `rangekeeper`, and keep its rules: numbers and out-parameters and no Result, since C
// reads them.
#![tactic(auto)]

pub mod copies;
pub mod together;
