// Rows 4, 6, 7, 8, 10 and 11 of the table of refusals: what the base says of a request. Only what the
// request's kind names is looked for.
ghost use Rattle.std.specs.Prelude.{◌≡◌};
ghost use Rattle.model.specs.Encoding.{decode};
ghost use Rattle.model.specs.Step.{behind_clock, no_object, no_label, not_permitted, already_there, not_held};

use encoding::number_of;
use lookup::{SoundBase, names_object};
use model::{ADDRULE, DROPRULE, GRANTADM, GRANTREF, NEW, REVOKE, REVOKEADM, REVOKEREF, Request};

// Row 4: now is below the clock.
pub fn behind_clock(base: &SoundBase<'_>, q: Request) -> bool
    ensures { result ≡ behind_clock (decode base.now.bytes.now) q }
{
    q.now < base.clock()
}

// Row 6: the object, or one of a rule's objects, does not exist. It is not asked of starred objects.
pub fn no_object(base: &SoundBase<'_>, q: Request) -> bool
    ensures { result ≡ no_object (decode base.now.bytes.now) q }
{
    match q.kind {
        NEW => false,
        ADDRULE => {
            let left = number_of(q.rule.left.object);
            let right = number_of(q.rule.right.object);
            left != 0 && !(base.exists(left) && base.exists(right))
        }
        _ => names_object(q) && !base.exists(q.object),
    }
}

// Row 7: no authorization (REVOKE) or rule (DROPRULE) has the label.
pub fn no_label(base: &SoundBase<'_>, q: Request) -> bool
    ensures { result ≡ no_label (decode base.now.bytes.now) q }
{
    match q.kind {
        REVOKE => !base.has_authorization(q.label),
        DROPRULE => !base.has_rule(q.label),
        _ => false,
    }
}

// Row 8: the requester is not the grantor or author of what it withdraws, not the owner, or may not set up
// the rule, which is not asked where its objects are starred.
pub fn not_permitted(base: &SoundBase<'_>, q: Request) -> bool
    ensures { result ≡ not_permitted (decode base.now.bytes.now) q }
{
    match q.kind {
        REVOKE => base.is_granted_by_other(q.label, q.requester),
        DROPRULE => base.is_set_up_by_other(q.label, q.requester),
        ADDRULE => {
            let left = number_of(q.rule.left.object);
            let right = number_of(q.rule.right.object);
            left != 0 && !base.may_rule(q.requester, left, right)
        }
        GRANTADM | REVOKEADM | GRANTREF | REVOKEREF => !base.owns(q.object, q.requester),
        _ => false,
    }
}

// Row 10: the object, or the privilege, is there already, or the subject owns the object.
pub fn already_there(base: &SoundBase<'_>, q: Request) -> bool
    ensures { result ≡ already_there (decode base.now.bytes.now) q }
{
    match q.kind {
        NEW => base.exists(q.object),
        GRANTADM => base.controls(q.object, q.subject),
        GRANTREF => base.owns(q.object, q.subject) || base.refers(q.object, q.subject),
        _ => false,
    }
}

// Row 11: the privilege to withdraw is not there.
pub fn not_held(base: &SoundBase<'_>, q: Request) -> bool
    ensures { result ≡ not_held (decode base.now.bytes.now) q }
{
    match q.kind {
        REVOKEADM => !base.administers(q.object, q.subject),
        REVOKEREF => !base.refers(q.object, q.subject),
        _ => false,
    }
}
