// Questions over the bytes of a sound base: the tables of a question, drawn and laid out, and what the engine
// finds by them, before it becomes a reply.
#![tactic(auto)]

mod ask;
mod asked;
mod outlining;
mod prepared;
mod sizes;

pub use ask::{holds_at, list_runs};
use model::Access;
pub use prepared::{holds_prepared, prepare};

// How many authorizations there are, and rules.
#[derive(Clone, Copy)]
pub struct Totals {
    pub authorizations: usize,
    pub rules: usize,
}

// What is asked: MAY of an access at an instant, or else WHEN.
#[derive(Clone, Copy)]
pub struct AccessQuery {
    pub access: Access,
    pub instant: Option<u32>,
}

// What is drawn of the rules besides tables: how many coordinates there are, and which rules are choosy.
#[derive(Clone, Copy)]
pub struct Extent {
    pub subjects: u32,
    pub objects: u32,
    pub choosy: u64,
}

// What is asked, with the coordinates of the subject and the object, and the access that coordinate 0 stands
// for; of how many authorizations and rules, and by what was drawn of the rules.
#[derive(Clone, Copy)]
pub struct Inquiry {
    pub asked: AccessQuery,
    pub own: Access,
    pub subject: u32,
    pub object: u32,
    pub totals: Totals,
    pub extent: Extent,
}
