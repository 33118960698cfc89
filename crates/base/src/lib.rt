// The library: what callers use of the access base. None of these functions has a requires, and every
// contract is an equation with the definitions of crate model (Answers, for text Session, for the rights
// sheet Report, for a round's questions Batch, for the simple engine Simple, for records crate records): the
// reply and every byte of base, list, page and buffer, for refusals too.
#![tactic(auto)]

pub use answers::{may, when};
pub use batch::{batch, batch_words};
pub use encoding::create;
pub use records::records;
pub use report::report;
pub use requests::request;
pub use simple::simple_may;
pub use soundness::is_sound;
pub use text::text;
