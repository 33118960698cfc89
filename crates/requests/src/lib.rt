// Requests over lent bytes: the table of refusals, then the effect.
#![tactic(auto)]

ghost use Rattle.std.specs.Prelude.{◌≡◌, true, false, ◌≤◌, length};
ghost use Rattle.foundation.specs.Tests.{pick};
ghost use Rattle.model.specs.declared.Reply.TheVariants.{Done};
ghost use Rattle.model.specs.Requests.{labels, withdraws};
ghost use Rattle.model.specs.Encoding.{encode, decode};
ghost use Rattle.model.specs.Soundness.{sound_bytes};
ghost use Rattle.model.specs.Answers.{answering, request};
ghost use Rattle.model.specs.Means.{plainly};
ghost use Rattle.model.specs.Step.{effect};
ghost use Rattle.effects.specs.EffectRecords.{Allowed};
ghost use Rattle.revocation.specs.CarriedOut.{PassesEarly, CarriedOut};
ghost use Rattle.requests.specs.KeepingKinds.{keeping_kinds};

mod room;

use lookup::SoundBase;
use model::{
    ADDRULE, DENY, DROPRULE, GRANT, GRANTADM, GRANTREF, NEW, REVOKE, REVOKEADM, REVOKEN, REVOKEP,
    Reply, Request, Row,
};
use room::no_room;

// The effect of a request that withdraws no instants.
fn apply(s: &mut [u8], q: Request)
    requires { Allowed keeping_kinds s.old q }
    ensures { s.new ≡ encode (effect plainly (decode s.old) q) }
{
    match q.kind {
        NEW => effects::new_object(s, q),
        GRANT | DENY => effects::grant(s, q),
        ADDRULE => effects::add_rule(s, q),
        DROPRULE => effects::drop_rule(s, q),
        GRANTADM | GRANTREF => effects::grant_privilege(s, q),
        _ => effects::revoke_referrer(s, q),
    }
}

// The reply to an accepted request, by the bytes that it left: the label if it took one, and how many
// authorizations are in the base.
fn done(s: &[u8], q: Request) -> Reply
    requires { 32 ≤ length s.now }
    ensures { result ≡ Done (pick (labels q) (decode s.now).last 0)
        (length (decode s.now).authorizations) }
{
    let c = encoding::counts_of(s);
    let count = c.authorizations as u32;
    if lookup::is_labelling(q) {
        return Reply::Done {
            label: fields::le16(s, 8) as u32,
            count,
        };
    }
    Reply::Done { label: 0, count }
}

// A request that withdraws no instants, once the rows before 13 let it pass.
fn add_or_drop(s: &mut [u8], q: Request) -> Reply
    requires { PassesEarly s.old q × (withdraws q ≡ false) }
    ensures { CarriedOut s.old q result s.new }
{
    if no_room(s, q) {
        return Reply::Refused(Row::Full as u32);
    }
    apply(s, q);
    done(s, q)
}

// A request that the rows before 13 let pass: row 13, then the effect.
fn carry_out(s: &mut [u8], q: Request) -> Reply
    requires { PassesEarly s.old q }
    ensures { CarriedOut s.old q result s.new }
{
    match q.kind {
        REVOKE | REVOKEP | REVOKEN => revocation::revoke(s, q),
        REVOKEADM => revocation::revoke_administrator(s, q),
        _ => add_or_drop(s, q),
    }
}

// A request over a base that is known to be sound.
pub fn step(s: &mut [u8], q: Request) -> Reply
    requires { sound_bytes s.old ≡ true }
    ensures { answering result s.new ≡ request s.old q }
{
    match refusals::refuse_early(&SoundBase { bytes: s }, q) {
        Err(refusal) => Reply::from(refusal),
        Ok(()) => carry_out(s, q),
    }
}

// A request over lent bytes, of any length.
pub fn request(s: &mut [u8], q: Request) -> Reply
    ensures { answering result s.new ≡ request s.old q }
{
    if !soundness::is_sound(s) {
        return Reply::Refused(Row::NotSound as u32);
    }
    step(s, q)
}
