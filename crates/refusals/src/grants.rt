// Rows 14 and 9 of the table of refusals: what bars a new grant or denial, and what it lacks.
ghost use Rattle.std.specs.Prelude.{◌≡◌, false};
ghost use Rattle.model.specs.Encoding.{decode};
ghost use Rattle.model.specs.Step as model;
ghost use Rattle.model.specs.Step.{out_of_range};
ghost use Rattle.refusals.specs.Asked.{UncoveredIs};

use cover::Want;
use lookup::{SoundBase, is_grant};
use model::{GRANT, Request};

// Row 14: the requester of a grant or denial is denied the object and mode at some instant of the interval,
// and neither owns nor administers the object.
pub fn barred(base: &SoundBase<'_>, q: Request) -> bool
    ensures { result ≡ model.barred (decode base.now.bytes.now) q }
{
    is_grant(q) && !base.controls(q.object, q.requester) && base.is_denied(q)
}

// Row 9: the earliest instant of a new grant or denial that no authorization covers which may support it,
// unless the requester owns or administers the object.
pub fn first_uncovered(base: &SoundBase<'_>, q: Request) -> Option<u32>
    requires { out_of_range q ≡ false }
    ensures { UncoveredIs (decode base.now.bytes.now) q result }
{
    if !is_grant(q) || base.controls(q.object, q.requester) {
        return None;
    }
    let w = Want {
        object: q.object as u16,
        mode: q.mode as u8,
        grantor: q.requester as u16,
        option: (q.kind == GRANT) & q.option,
        before: q.now,
    };
    cover::first_gap(&base.authorizations(), w, q.interval.start, q.interval.end)
}
