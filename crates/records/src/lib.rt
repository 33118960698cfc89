// The records of a base as numbers, a page at a time, for callers that show or join them, as a database does.
#![tactic(auto)]

ghost use Rattle.std.specs.Prelude.{◌≡◌};
ghost use Rattle.model.specs.Answers.{answering};
ghost use Rattle.records.specs.Records.{body_of, records_answer};

mod page;
mod rows;

use lookup::SoundBase;
use model::{Reply, Row};

// The heading of a base, and its five bodies.
#[derive(Clone, Copy)]
pub enum Body {
    Heading,
    Objects,
    Administrators,
    Referrers,
    Authorizations,
    Rules,
}

// The body with a number.
fn body_of(n: u32) -> Body
    ensures { result ≡ body_of n }
{
    match n {
        0 => Body::Heading,
        1 => Body::Objects,
        2 => Body::Administrators,
        3 => Body::Referrers,
        4 => Body::Authorizations,
        _ => Body::Rules,
    }
}

// The records of a body over bytes of any length, from a record on as many as the lent list has room for, as
// numbers at its front. The reply is how many.
pub fn records(s: &[u8], source: u32, first: u32, list: &mut [u32]) -> Reply
    ensures { answering result list.new
        ≡ records_answer s.now source first list.old }
{
    if !soundness::is_sound(s) {
        return Reply::Refused(Row::NotSound as u32);
    }
    if 5 < source {
        return Reply::Refused(Row::OutOfRange as u32);
    }
    page::page(
        &SoundBase { bytes: s },
        body_of(source),
        first as usize,
        list,
    )
}
