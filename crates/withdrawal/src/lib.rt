// The authorizations that a withdrawal leaves, built in a lent body without an intermediate base.
#![tactic(auto)]

mod rounds;

pub use rounds::withdraw;
