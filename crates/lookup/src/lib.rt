// Looking things up in a base: who owns, administers, refers or controls, who is denied, which objects and
// labels exist; and what such questions rest on: ranges of numbers, kinds of requests, the order of records.
#![tactic(auto)]

mod bodies;
mod denials;
mod kinds;
mod order;
mod ranges;
mod sound;

pub use bodies::{has_label, has_object, is_listed, is_root};
pub use kinds::{
    is_grant, is_kind, is_labelling, is_privilege_request, names_interval, names_label, names_mode,
    names_object, names_subject, unknown_kind,
};
pub use order::{is_before, object_rises, rule_rises};
pub use ranges::{
    access_in, has_instant, instant_in, label_in, mode_in, object_in, option_fits, subject_in,
};
pub use sound::SoundBase;
