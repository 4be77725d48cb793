// What is said of an answer that somebody claims to have been given, whichever allocator it is of.
#![tactic(auto)]

use ranges::Error;

// What is said of a claim.
#[derive(Clone, Copy)]
pub enum Verdict<A> {
    // it is the answer
    Right,
    // it is not: the right answer; the block goes on from the claim
    Followed(A),
    // it is not: the right answer, and why the block cannot go on from the claim
    Stayed(A, Error),
}
