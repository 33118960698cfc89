// The intervals of WHEN, written down while the instants are asked about one after the other.
#![tactic(auto)]

mod runs;

pub use runs::{finish_runs, note, note_word};

// What is known of the intervals while they are written down: how many are done, and where the one began
// that the instants are inside of.
#[derive(Clone, Copy)]
pub struct Track {
    pub count: usize,
    pub began: Option<u32>,
}
