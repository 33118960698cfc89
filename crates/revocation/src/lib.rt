// The requests that withdraw instants: REVOKE, REVOKEP, REVOKEN and REVOKEADM.
#![tactic(auto)]

ghost use Rattle.std.specs.Prelude.{◌≡◌, true, false, ◌∷◌, []};
ghost use Rattle.model.specs.Encoding.{decode};
ghost use Rattle.model.specs.Requests.{REVOKE, REVOKEP, REVOKEN, REVOKEADM, is, withdraws};
ghost use Rattle.model.specs.Requests.{objects_after, administrators_after};
ghost use Rattle.model.specs.Means.{plainly};
ghost use Rattle.model.specs.Step.{out_of_range, bad_interval, effect};
ghost use Rattle.pieces.specs.Cuts.{CutOf, CutOrdered};
ghost use Rattle.pieces.specs.Puts.{Makes};
ghost use Rattle.revocation.specs.CarriedOut.{PassesEarly, CarriedOut};

use edits::{PrivilegeBody, WrittenBase};
use lookup::SoundBase;
use model::{BASE_BYTES, REVOKE, REVOKEADM, REVOKEN, Reply, Request};
use pieces::{Body, Cut, Full, Named};
use support::Roots;

// What REVOKEP and REVOKEN take out: the interval, of the requester's authorizations or denials for the
// subject, object and mode.
fn cut_by_name(q: Request) -> Cut
    requires { (out_of_range q ≡ false) × (bad_interval q ≡ false) × (is q (REVOKEP ∷ REVOKEN ∷ []) ≡ true) }
    ensures { CutOf q result × CutOrdered result }
{
    Cut::Name(Named {
        grantor: q.requester as u16,
        subject: q.subject as u16,
        object: q.object as u16,
        mode: q.mode as u8,
        negative: q.kind == REVOKEN,
        interval: q.interval,
    })
}

// What REVOKE takes out: the authorizations of its label.
fn cut_by_label(q: Request) -> Cut
    requires { (out_of_range q ≡ false) × (is q (REVOKE ∷ []) ≡ true) }
    ensures { CutOf q result × CutOrdered result }
{
    Cut::Label(q.label as u16)
}

// What REVOKEADM takes out: the authorizations on its object that its subject granted.
fn cut_by_grantor(q: Request) -> Cut
    requires { (out_of_range q ≡ false) × (is q (REVOKEADM ∷ []) ≡ true) }
    ensures { CutOf q result × CutOrdered result }
{
    Cut::Grantor {
        object: q.object as u16,
        grantor: q.subject as u16,
    }
}

// What a withdrawing request takes out. Its numbers fit, as they are in their ranges.
fn cut_of(q: Request) -> Cut
    requires { (out_of_range q ≡ false) × (bad_interval q ≡ false) × (withdraws q ≡ true) }
    ensures { CutOf q result × CutOrdered result }
{
    match q.kind {
        REVOKE => cut_by_label(q),
        REVOKEADM => cut_by_grantor(q),
        _ => cut_by_name(q),
    }
}

// The authorizations that the request leaves, built in `body`. `after` is a base with the owners and
// administrators that there are after it.
fn build_remaining(
    after: &WrittenBase<'_>,
    base: &SoundBase<'_>,
    q: Request,
    body: &mut Body,
) -> Result<(), Full>
    requires passes_early { PassesEarly base.now.bytes.now q × (withdraws q ≡ true) }
    requires roots_value { ((decode after.now.bytes.now).objects
        ≡ objects_after q (decode base.now.bytes.now).objects)
        × ((decode after.now.bytes.now).administrators
        ≡ administrators_after q (decode base.now.bytes.now).administrators) }
    ensures { Makes (effect plainly (decode base.now.bytes.now) q).authorizations result body.new }
{
    let roots = Roots {
        owners: after.privileges(PrivilegeBody::Objects),
        administrators: after.privileges(PrivilegeBody::Administrators),
    };
    withdrawal::withdraw(&roots, &base.authorizations(), cut_of(q), body)
}

// REVOKE, REVOKEP and REVOKEN.
pub fn revoke(s: &mut [u8], q: Request) -> Reply
    requires { PassesEarly s.old q × (is q (REVOKE ∷ REVOKEP ∷ REVOKEN ∷ []) ≡ true) }
    ensures { CarriedOut s.old q result s.new }
{
    let mut body = Body::new();
    let remaining = build_remaining(
        &WrittenBase { bytes: s },
        &SoundBase { bytes: s },
        q,
        &mut body,
    );
    let Ok(()) = remaining else {
        return Reply::Refused(13);
    };
    let m = body.len();
    edits::replace_authorizations(s, body.bytes(), m);
    edits::set_clock(s, q.now);
    Reply::Done {
        label: 0,
        count: m as u32,
    }
}

// REVOKEADM: the privilege, the rules and the authorizations. What remains of these is asked of a copy of the
// base without the privilege, so that 13 leaves the base alone.
pub fn revoke_administrator(s: &mut [u8], q: Request) -> Reply
    requires { PassesEarly s.old q × (is q (REVOKEADM ∷ []) ≡ true) }
    ensures { CarriedOut s.old q result s.new }
{
    let mut after = [0u8; BASE_BYTES];
    fields::copy(&mut after, s);
    effects::remove_administrator(&mut after, q);
    let mut body = Body::new();
    let built = build_remaining(
        &WrittenBase { bytes: &after },
        &SoundBase { bytes: s },
        q,
        &mut body,
    );
    let Ok(()) = built else {
        return Reply::Refused(13);
    };
    let refers = SoundBase { bytes: s }.refers(q.object, q.subject);
    let n = body.len();
    effects::remove_administrator(s, q);
    effects::drop_rules(s, q, refers, false);
    edits::replace_authorizations(s, body.bytes(), n);
    edits::set_clock(s, q.now);
    Reply::Done {
        label: 0,
        count: n as u32,
    }
}
