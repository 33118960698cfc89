// MAY and WHEN over the bytes of a sound base: their refusals, and their replies.
ghost use Rattle.std.specs.Prelude.{◌≡◌, true, Some, None};
ghost use Rattle.model.specs.Encoding.{decode};
ghost use Rattle.model.specs.Soundness.{sound_bytes};
ghost use Rattle.model.specs.Step.{refused_or};
ghost use Rattle.model.specs.Answers.{answering, may_reply, may_answer, when_answer};
ghost use Rattle.queries.specs.HandedOn.{HandedOn};
ghost use Rattle.answers.specs.AskingRows.{access_rows};

use lookup::SoundBase;
use model::{Access, Question, Reply};
use queries::{holds_at, holds_prepared, list_runs};

// The number of the first of rows 3 and 6 that applies, if one does.
fn refusal_of(s: &[u8], x: Access) -> Option<u32>
    requires { sound_bytes s.now ≡ true }
    ensures { result ≡ refused_or (access_rows (decode s.now) x) Some None }
{
    if !lookup::access_in(x) {
        return Some(3);
    }
    if !(SoundBase { bytes: s }).exists(x.object) {
        return Some(6);
    }
    None
}

// The reply to MAY, where the rules say `yes`.
fn may_reply(yes: bool) -> Reply
    ensures { result ≡ may_reply yes }
{
    if yes {
        return Reply::Yes;
    }
    Reply::No
}

// MAY over a base that is known to be sound.
pub fn may_sound(s: &[u8], q: Question) -> Reply
    requires { sound_bytes s.now ≡ true }
    ensures { result ≡ may_answer s.now q }
{
    match refusal_of(s, q.access) {
        Some(n) => Reply::Refused(n),
        None => may_reply(holds_at(s, q.access, q.instant)),
    }
}

// The same, by what was prepared of the base.
pub fn may_prepared(s: &[u8], prepared: &[u64], q: Question) -> Reply
    requires { (sound_bytes s.now ≡ true) × HandedOn s.now prepared.now }
    ensures { result ≡ may_answer s.now q }
{
    match refusal_of(s, q.access) {
        Some(n) => Reply::Refused(n),
        None => may_reply(holds_prepared(s, prepared, q.access, q.instant)),
    }
}

// WHEN over a base that is known to be sound.
pub fn when_sound(s: &[u8], x: Access, list: &mut [u32]) -> Reply
    requires { sound_bytes s.now ≡ true }
    ensures { answering result list.new ≡ when_answer s.now x list.old }
{
    if let Some(n) = refusal_of(s, x) {
        return Reply::Refused(n);
    }
    let pairs = list.len() / 2;
    let count = list_runs(s, x, list);
    if pairs < count {
        return Reply::Refused(13);
    }
    Reply::Runs(count as u32)
}
