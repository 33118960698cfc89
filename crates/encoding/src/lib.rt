// The base in bytes: its heading, and its records read and written by value.
#![tactic(auto)]

mod bodies;
mod flags;
mod heading;
mod insertion;
mod records;
mod terms;

pub use bodies::{
    authorization_at, authorization_clean, privilege_at, put_authorization, put_privilege,
    put_rule, rule_at, rule_clean,
};
pub use flags::{
    has_option, head_flags, head_flags_known, is_negative, option_of, rule_flags, rule_flags_known,
};
pub use heading::{
    administrators_at, authorizations_at, counts_fit, counts_of, create, end_at, heading_fits,
    put_counts, referrers_at, rules_at,
};
pub use insertion::{insert_in_body, insertion_index};
pub use records::{Record, Records};
pub use terms::{new_rule, number_of};

// How many records each body has.
#[derive(Clone, Copy)]
pub struct Counts {
    pub objects: u16,
    pub administrators: u16,
    pub referrers: u16,
    pub authorizations: u16,
    pub rules: u16,
}
