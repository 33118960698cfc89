// Whether an authorization denies a request's own requester what the request names.
ghost use Rattle.std.specs.Prelude.{◌≡◌};
ghost use Rattle.model.specs.Step.{bars};

use model::{Authorization, Request};

// It denies the requester the object and mode, at some instant of the request's interval.
pub fn bars(q: Request, a: Authorization) -> bool
    ensures { result ≡ bars q a }
{
    let h = a.head;
    let i = a.interval;
    let j = q.interval;
    h.negative
        & (h.subject as u32 == q.requester)
        & (h.object as u32 == q.object)
        & (h.mode as u32 == q.mode)
        & ((i.start <= j.end) & (j.start <= i.end))
}
