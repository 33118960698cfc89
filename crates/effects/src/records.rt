// The records that a request puts into a base. Its numbers fit their bytes, as they are in their ranges.
ghost use Rattle.std.specs.Prelude.{◌≡◌};
ghost use Rattle.model.specs.Base.{privilege};
ghost use Rattle.model.specs.Withdrawal.{authorization};
ghost use Rattle.model.specs.Requests.{new_head};
ghost use Rattle.model.specs.FitsFacts.{PrivilegeFits, AuthorizationFits};
ghost use Rattle.effects.specs.EffectRecords.{privilege_body_of};

use edits::PrivilegeBody;
use model::{Authorization, DENY, GRANT, GRANTADM, Head, Privilege, REVOKEADM, Request};

// The authorization that a grant or denial makes under a label.
pub fn new_authorization(q: Request, label: u16) -> Authorization
    requires { AuthorizationFits (authorization (new_head label q) q.interval) }
    ensures { result ≡ authorization (new_head label q) q.interval }
{
    Authorization {
        head: Head {
            label,
            grantor: q.requester as u16,
            subject: q.subject as u16,
            object: q.object as u16,
            mode: q.mode as u8,
            negative: q.kind == DENY,
            option: (q.kind == GRANT) & q.option,
            granted: q.now,
        },
        interval: q.interval,
    }
}

// The privilege that a request names.
pub fn named_privilege(q: Request) -> Privilege
    requires { PrivilegeFits (privilege q.object q.subject) }
    ensures { result ≡ privilege q.object q.subject }
{
    Privilege {
        object: q.object as u16,
        subject: q.subject as u16,
    }
}

// An object with the requester, its owner.
pub fn owner_of(q: Request) -> Privilege
    requires { PrivilegeFits (privilege q.object q.requester) }
    ensures { result ≡ privilege q.object q.requester }
{
    Privilege {
        object: q.object as u16,
        subject: q.requester as u16,
    }
}

// The body that a request on privileges changes.
pub fn privilege_body_of(kind: u32) -> PrivilegeBody
    ensures { result ≡ privilege_body_of kind }
{
    match kind {
        GRANTADM | REVOKEADM => PrivilegeBody::Administrators,
        _ => PrivilegeBody::Referrers,
    }
}
