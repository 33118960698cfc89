// The table of refusals: the rows before 13, asked of the bytes of a sound base and a request. Row 13 is
// asked of what the request would leave.
#![tactic(auto)]

use model::{Reply, Row};

mod circles;
mod grants;
mod ranges;
mod rows;
mod table;

pub use circles::not_stratified;
pub use grants::first_uncovered;
pub use ranges::{bad_interval, out_of_range};
pub use rows::{already_there, behind_clock, no_label, no_object, not_held, not_permitted};
pub use table::refuse_early;

// What a request is refused with before row 13: a row; or row 9, with the earliest uncovered instant.
#[derive(Clone, Copy, PartialEq, Eq)]
pub enum Refusal {
    Row(Row),
    Uncovered(u32),
}

// The reply that says so.
impl From<Refusal> for Reply {
    ghost use Rattle.std.specs.Prelude.{◌≡◌};
    ghost use Rattle.refusals.specs.Early.{reply_of};

    ghost from_gives = { λ e r. r ≡ reply_of e };

    fn from(e: Refusal) -> Reply {
        match e {
            Refusal::Row(row) => Reply::Refused(row as u32),
            Refusal::Uncovered(t) => Reply::Unsupported(t),
        }
    }
}
