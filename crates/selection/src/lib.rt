// The rules that matter to a question: their strata among themselves, and how far back they look.
#![tactic(auto)]

mod history;
mod ranking;

pub use history::{history_start, lasting_of};
pub use ranking::{counts_some, strata_of};
