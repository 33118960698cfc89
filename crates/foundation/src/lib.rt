// Intervals of instants, by value.
#![tactic(auto)]

// The instants from `start` to `end`, both ends included.
#[derive(Clone, Copy, PartialEq, Eq)]
pub struct Interval {
    pub start: u32,
    pub end: u32,
}
