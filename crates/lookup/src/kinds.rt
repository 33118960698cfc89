// Of which kinds a request is. A kind is a number, 1 to 12, and no enum: document 01 wants a request of an
// unknown kind to be said, and refused with 3.
ghost use Rattle.std.specs.Prelude.{◌≡◌, [], ◌∷◌};
ghost use Rattle.model.specs.Requests.{GRANTADM, REVOKEADM, GRANTREF, REVOKEREF, is, grants, labels};
ghost use Rattle.model.specs.Step.{unknown_kind, names_object, names_subject, names_mode, names_interval};
ghost use Rattle.model.specs.Step.{names_label};

use model::{
    ADDRULE, DENY, DROPRULE, GRANT, GRANTADM, GRANTREF, NEW, REVOKE, REVOKEADM, REVOKEN, REVOKEP,
    REVOKEREF, Request,
};

// Not one of the twelve kinds.
pub fn unknown_kind(q: Request) -> bool
    ensures { result ≡ unknown_kind q }
{
    !(NEW..=REVOKEREF).contains(&q.kind)
}

// The kinds that name an object.
pub fn names_object(q: Request) -> bool
    ensures { result ≡ names_object q }
{
    q.kind == NEW || names_subject(q)
}

// The kinds that name a subject.
pub fn names_subject(q: Request) -> bool
    ensures { result ≡ names_subject q }
{
    names_mode(q) || is_privilege_request(q)
}

// The kinds that name a mode.
pub fn names_mode(q: Request) -> bool
    ensures { result ≡ names_mode q }
{
    matches!(q.kind, GRANT | DENY | REVOKEP | REVOKEN)
}

// The kinds that name an interval.
pub fn names_interval(q: Request) -> bool
    ensures { result ≡ names_interval q }
{
    matches!(q.kind, GRANT | DENY | REVOKEP | REVOKEN | ADDRULE)
}

// The kinds that name a label.
pub fn names_label(q: Request) -> bool
    ensures { result ≡ names_label q }
{
    matches!(q.kind, REVOKE | DROPRULE)
}

// GRANT and DENY.
pub fn is_grant(q: Request) -> bool
    ensures { result ≡ grants q }
{
    matches!(q.kind, GRANT | DENY)
}

// The kinds that take a new label: GRANT, DENY and ADDRULE.
pub fn is_labelling(q: Request) -> bool
    ensures { result ≡ labels q }
{
    matches!(q.kind, GRANT | DENY | ADDRULE)
}

// The four requests about privileges.
pub fn is_privilege_request(q: Request) -> bool
    ensures { result ≡ is q (GRANTADM ∷ REVOKEADM ∷ GRANTREF ∷ REVOKEREF ∷ []) }
{
    matches!(q.kind, GRANTADM | REVOKEADM | GRANTREF | REVOKEREF)
}

// One kind.
pub fn is_kind(q: Request, k: u32) -> bool
    ensures { result ≡ is q (k ∷ []) }
{
    q.kind == k
}
