// What a withdrawal takes out of an authorization, and the pieces that are left of it, put into the body
// under construction.
#![tactic(auto)]

mod body;
mod cut;
mod cuts;
mod granting;

pub use body::{Body, Full};
pub use cut::{Cut, Named, Stretch};
pub use cuts::taken_stretch;
