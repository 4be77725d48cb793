// What C and Rust link against: a thin name for each operation of the address allocator; `rangekeeper_ids` and the other crates of that name
// have the rest of the archive. A block is lent as a pointer and a number of 64-bit words. Every function is total: any numbers and any contents
// of the block are answered or refused. A function that changes anything returns a reason, 0 for done, and writes to an out-parameter only
// then: after a refusal block and out-parameters are as they were. Numbers and out-parameters and no Result: C reads them.
#![tactic(auto)]

pub mod address;
