// The questions MAY and WHEN over lent bytes.
#![tactic(auto)]

ghost use Rattle.std.specs.Prelude.{◌≡◌};
ghost use Rattle.model.specs.Answers.{answering, may_answer, when_answer};

mod asking;

pub use asking::{may_prepared, may_sound, when_sound};
use model::{Access, Question, Reply};

// MAY over bytes of any length: may the subject do it to the object at the instant?
pub fn may(s: &[u8], q: Question) -> Reply
    ensures { result ≡ may_answer s.now q }
{
    if !soundness::is_sound(s) {
        return Reply::Refused(2);
    }
    may_sound(s, q)
}

// WHEN over bytes of any length: the maximal intervals at which the subject may do it to the object, written
// as pairs at the front of the lent list.
pub fn when(s: &[u8], x: Access, list: &mut [u32]) -> Reply
    ensures { answering result list.new ≡ when_answer s.now x list.old }
{
    if !soundness::is_sound(s) {
        return Reply::Refused(2);
    }
    when_sound(s, x, list)
}
