#![tactic(auto)]
// Answers in words that more than one end gives.
pub mod lent;
pub mod packets;

// The k-th call of an end, in the n-th line of a script; its answer goes to a place of the page. `k` is a number,
// the place in the list of calls, since the promises of the ends' calls name it so (`seen_by`, `Called`).
#[derive(Clone, Copy, Debug, PartialEq, Eq)]
pub struct Call {
    pub k: usize,
    pub n: u64,
    pub at: usize,
}
