// What an accepted request does to the bytes of a sound base, for the requests that withdraw no instants, and
// of REVOKEADM what is not about authorizations.
#![tactic(auto)]

ghost use Rattle.std.specs.Prelude.{◌≡◌, true, ◌∷◌, [], ◌+◌, ◌<◌};
ghost use Rattle.model.specs.Ranges.{last_label};
ghost use Rattle.model.specs.Base.{privilege, listed};
ghost use Rattle.model.specs.FitsFacts.{PrivilegeFits};
ghost use Rattle.model.specs.Soundness.{chained};
ghost use Rattle.model.specs.Requests.{NEW, GRANT, DENY, ADDRULE, DROPRULE, GRANTADM, GRANTREF, REVOKEREF};
ghost use Rattle.model.specs.Requests.{before, without};
ghost use Rattle.model.specs.Encoding.{encode, decode};
ghost use Rattle.model.specs.Means.{plainly};
ghost use Rattle.model.specs.Step.{effect};
ghost use Rattle.edits.specs.Edits.{Written, with_stamp};
ghost use Rattle.model.specs.Effects.{with_administrators};
ghost use Rattle.effects.specs.EffectRecords.{Allowed};

mod privileges;
mod records;
mod rules;

use edits::{PrivilegeBody, WrittenBase};
use encoding::new_rule;
use lookup::SoundBase;
use model::Request;
use privileges::{insert_in_order, take_privilege};
use records::{named_privilege, new_authorization, owner_of, privilege_body_of};
pub use rules::drop_rules;

// Sets the clock and the last label.
fn stamp(s: &mut [u8], clock: u32, last: u16)
    requires { Written s.old }
    ensures { s.new ≡ encode (with_stamp clock last (decode s.old)) }
{
    edits::set_clock(s, clock);
    edits::set_last(s, last);
}

// The label that a new authorization or rule gets.
fn next_label(base: &WrittenBase<'_>) -> u16
    requires { (decode base.now.bytes.now).last < last_label }
    ensures { result ≡ (decode base.now.bytes.now).last + 1 }
{
    base.last() + 1
}

// GRANT and DENY: a new authorization behind the others, under the next label.
pub fn grant(s: &mut [u8], q: Request)
    requires { Allowed (GRANT ∷ DENY ∷ []) s.old q }
    ensures { s.new ≡ encode (effect plainly (decode s.old) q) }
{
    let c = encoding::counts_of(s);
    let label = next_label(&WrittenBase { bytes: s });
    stamp(s, q.now, label);
    edits::insert_authorization(s, c.authorizations as usize, new_authorization(q, label));
}

// ADDRULE: a new rule behind the others, under the next label.
pub fn add_rule(s: &mut [u8], q: Request)
    requires { Allowed (ADDRULE ∷ []) s.old q }
    ensures { s.new ≡ encode (effect plainly (decode s.old) q) }
{
    let c = encoding::counts_of(s);
    let label = next_label(&WrittenBase { bytes: s });
    stamp(s, q.now, label);
    edits::insert_rule(s, c.rules as usize, new_rule(q, label));
}

// DROPRULE: the rule of the label is taken out.
pub fn drop_rule(s: &mut [u8], q: Request)
    requires { Allowed (DROPRULE ∷ []) s.old q }
    ensures { s.new ≡ encode (effect plainly (decode s.old) q) }
{
    edits::set_clock(s, q.now);
    drop_rules(s, q, false, false);
}

// NEW: the object gets its owner, the requester.
pub fn new_object(s: &mut [u8], q: Request)
    requires { Allowed (NEW ∷ []) s.old q }
    ensures { s.new ≡ encode (effect plainly (decode s.old) q) }
{
    edits::set_clock(s, q.now);
    insert_in_order(s, PrivilegeBody::Objects, owner_of(q));
}

// GRANTADM and GRANTREF: the privilege is put in its place.
pub fn grant_privilege(s: &mut [u8], q: Request)
    requires { Allowed (GRANTADM ∷ GRANTREF ∷ []) s.old q }
    ensures { s.new ≡ encode (effect plainly (decode s.old) q) }
{
    edits::set_clock(s, q.now);
    insert_in_order(s, privilege_body_of(q.kind), named_privilege(q));
}

// REVOKEREF: the privilege is taken out, and with it the subject's rules with the object on the right, unless
// he administers it.
pub fn revoke_referrer(s: &mut [u8], q: Request)
    requires { Allowed (REVOKEREF ∷ []) s.old q }
    ensures { s.new ≡ encode (effect plainly (decode s.old) q) }
{
    let p = named_privilege(q);
    let administers = SoundBase { bytes: s }.administers(q.object, q.subject);
    edits::set_clock(s, q.now);
    take_privilege(s, PrivilegeBody::Referrers, p);
    drop_rules(s, q, false, administers);
}

// REVOKEADM, of the privileges: that of the subject is taken out. The rules go by `drop_rules`. Nothing is
// asked of the authorizations, so that this may be done before it is known whether they find room.
pub fn remove_administrator(s: &mut [u8], q: Request)
    requires { Written s.old × PrivilegeFits (privilege q.object q.subject)
        × (chained before (decode s.old).administrators ≡ true)
        × (listed (decode s.old).administrators q.object q.subject ≡ true) }
    ensures { s.new
        ≡ encode (with_administrators (without q.object q.subject
        (decode s.old).administrators) (decode s.old)) }
{
    take_privilege(s, PrivilegeBody::Administrators, named_privilege(q));
}
