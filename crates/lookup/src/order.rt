// The order of records in their bodies.
ghost use Rattle.std.specs.Prelude.{◌≡◌, ltb};
ghost use Rattle.model.specs.Requests.{before};

use model::{Privilege, Rule};

// By object.
pub fn object_rises(p: Privilege, q: Privilege) -> bool
    ensures { result ≡ ltb p.object q.object }
{
    p.object < q.object
}

// By object, then subject.
pub fn is_before(p: Privilege, q: Privilege) -> bool
    ensures { result ≡ before p q }
{
    (p.object < q.object) | ((p.object == q.object) & (p.subject < q.subject))
}

// By label.
pub fn rule_rises(r: Rule, u: Rule) -> bool
    ensures { result ≡ ltb r.label u.label }
{
    r.label < u.label
}
