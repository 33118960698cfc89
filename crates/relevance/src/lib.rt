// The authorizations and rules that matter to a question, and a window of the instants at which they change.
#![tactic(auto)]

mod ahead;
mod choice;
mod distance;
mod filling;

pub use ahead::{Edges, Near, near_at, next_of, nothing_near};
pub use choice::{Cell, cell_of, choose, counted, forget, sign_of};
pub use filling::{Filled, fill};

// How many authorizations matter, their numbers standing in a list; of how many rules, and which of them
// matter, a bit a rule.
#[derive(Clone, Copy)]
pub struct Chosen {
    pub authorizations: usize,
    pub rules: usize,
    pub needed: u64,
}
