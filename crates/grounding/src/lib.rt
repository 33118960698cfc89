// The grounding of rules: what they derive over a window, each in its turn, is given to the tables.
#![tactic(auto)]

mod pairs;
mod turns;

use model::Operator;
use places::Region;
use tables::Frame;
pub use turns::{close, derive_rules, mark_broken};

// The turn of a rule: its number, its operator and the instants of its interval; its right side, whether that
// is a denial, and where the table that it looks at starts and which places that has; its left side, with its
// sign, and where its broken bits start; the rules whose tables it gives to; and how many words the fields
// have, behind which the broken bits lie.
#[derive(Clone, Copy)]
pub struct RuleTurn {
    pub rule: u32,
    pub operator: Operator,
    pub active: u64,
    pub right: Region,
    pub denied: bool,
    pub first: u32,
    pub table: Region,
    pub left: Region,
    pub sign: u32,
    pub bits: u64,
    pub takers: u64,
    pub words: usize,
}

// The tables of numbers from `from` up to, and without, `to`.
#[derive(Clone, Copy)]
pub struct Range {
    pub from: u32,
    pub to: u32,
}

// The end of a window: the frame of its tables, the number of its last instant in it, and that instant.
#[derive(Clone, Copy)]
pub struct Ending {
    pub frame: Frame,
    pub last: u32,
    pub mark: u32,
}
