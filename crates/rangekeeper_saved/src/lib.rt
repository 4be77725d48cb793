// The names for saving and loading both allocators that C and Rust link against: thin, total, and each with the contract of what it calls.
// They go into the same archive as those of `rangekeeper`, and keep its rules, but that a load says in its out-parameter where a flaw
// of the bytes stands.
#![tactic(auto)]

mod answers;
pub mod saved_address;
pub mod saved_id;
