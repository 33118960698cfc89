// The question engine: walks over the instants of a question, a window at a time, by the tables drawn for it.
#![tactic(auto)]

mod walking;
mod window;

use model::Access;
use relevance::Chosen;
use scan::Track;
use tables::{Frame, Place};
pub use walking::walk_windows;

// What is asked: the access that coordinate 0 stands for, the place of the asked access, from which instant
// to which, and whether the intervals are written down.
#[derive(Clone, Copy)]
pub struct Query {
    pub own: Access,
    pub place: Place,
    pub from: u32,
    pub to: u32,
    pub listing: bool,
}

// What was found: the intervals so far, and the answer at the last instant.
#[derive(Clone, Copy)]
pub struct Found {
    pub track: Track,
    pub yes: bool,
}

// A walk: what was chosen, where the bytes of the rules start behind those of the authorizations, the rules
// that look back and how many broken bits they have, what is asked, and the frame of the tables.
#[derive(Clone, Copy)]
pub struct WindowWalk {
    pub chosen: Chosen,
    pub offset: usize,
    pub lasting: u64,
    pub bits: u32,
    pub query: Query,
    pub frame: Frame,
}
