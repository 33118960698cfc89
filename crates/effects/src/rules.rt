// The rules of a base: those that a request removes.
ghost use Rattle.std.specs.Prelude.{◌≡◌, not};
ghost use Rattle.foundation.specs.Lists.{keep_if};
ghost use Rattle.model.specs.Encoding.{encode, decode};
ghost use Rattle.edits.specs.Edits.{Written};
ghost use Rattle.model.specs.Effects.{with_rules};
ghost use Rattle.effects.specs.EffectRecords.{drops_by};

use edits::WrittenBase;
use model::{DROPRULE, REVOKEADM, REVOKEREF, Request, Rule};

// Whether a request removes a rule: DROPRULE that of its label; REVOKEADM and REVOKEREF those that their
// subject may no longer have, who refers to the object, or administers it, as is told.
fn is_dropped(q: Request, refers: bool, administers: bool, r: Rule) -> bool
    ensures { result ≡ drops_by refers administers q r }
{
    let left = r.left;
    let right = r.right;
    let by = r.author as u32 == q.subject;
    let on = right.object as u32 == q.object;
    match q.kind {
        DROPRULE => r.label as u32 == q.label,
        REVOKEADM => by & ((left.object as u32 == q.object) | (on & !refers)),
        REVOKEREF => by & on & !administers,
        _ => false,
    }
}

// Takes the rules out that a request removes, from the last to the first.
pub fn drop_rules(s: &mut [u8], q: Request, refers: bool, administers: bool)
    requires { Written s.old }
    ensures { s.new
        ≡ encode (with_rules (keep_if (λ r. not (drops_by refers administers q r))
        (decode s.old).rules) (decode s.old)) }
{
    let n = WrittenBase { bytes: s }.rules().len();
    for i in (0..n).rev() {
        let rules = WrittenBase { bytes: s }.rules();
        if is_dropped(q, refers, administers, rules.get(i)) {
            edits::remove_rule(s, i);
        }
    }
}
