// A simple engine for the question MAY, to be read, and to compare the main one with.
//
// It looks at one instant at a time and keeps nothing. Whether something is held depends on the rules that
// may give it (`held`), and whether a rule gives it depends on what is held and not denied (`gives`,
// `in_force`): they call each other. That ends where no rule feeds itself in the end, links counting as
// feeding, since the rules that may give a right side feed the rule that looks at it, and those that may give
// a denial of it link to that rule: the longest path left falls at each turn. Where one does, the reply is
// 15, behind 2, 3 and 6.
//
// Below, `base` is the base, `p` what is looked for, `t` an instant. The lines `requires`, `ensures` and
// `ghost` are what is proved of a function or a type, in the words of specs/Engine.antt, which `ghost use`
// names; they make no code, and a reader of the engine can pass over them.
#![tactic(auto)]

ghost use Rattle.std.specs.Prelude.{◌≡◌, ◌≤◌, false};
ghost use Rattle.model.specs.Circles.{circular};
ghost use Rattle.model.specs.Encoding.{decode};
ghost use Rattle.model.specs.Simple.{simple_answer};
ghost use Rattle.simple.specs.Engine.{RuleOfBase, held_at, in_force_at, given_at, wanted_from};

mod sides;

use lookup::{SoundBase, has_instant};
use model::{Operator, Pattern, Question, Reply, Row, Rule};
use sides::{asked, is_granted, may_give, right_of};

// A base that the engine serves: it is sound, and feeding, links counting as feeding, leads from no rule back
// to it.
#[derive(Clone, Copy)]
struct ServedBase<'a> {
    sound: SoundBase<'a>,
    ghost uncircular: { circular (decode sound.bytes.now).rules ≡ false },
}

// MAY: yes if the access is held and no denial of it is.
pub fn simple_may(s: &[u8], q: Question) -> Reply
    ensures { result ≡ simple_answer s.now q }
{
    let x = q.access;
    let t = q.instant;
    if !soundness::is_sound(s) {
        return Reply::Refused(Row::NotSound as u32);
    }
    if !lookup::access_in(x) {
        return Reply::Refused(Row::OutOfRange as u32);
    }
    let base = SoundBase { bytes: s };
    if !base.exists(x.object) {
        return Reply::Refused(Row::NoObject as u32);
    }
    if rules::is_circular(&base.rules()) {
        return Reply::Refused(Row::Circular as u32);
    }
    let base = ServedBase { sound: base };
    if !held(&base, asked(x, false), t) {
        return Reply::No;
    }
    if held(&base, asked(x, true), t) {
        return Reply::No;
    }
    Reply::Yes
}

// Whether p is held at t: an authorization gives it, or one of the rules does.
#[cycle(gives_held_in_force_throughout)]
fn held(base: &ServedBase<'_>, p: Pattern, t: u32) -> bool
    ensures { result ≡ held_at base.now.sound.bytes.now p t }
{
    if is_granted(&base.sound, p, t) {
        return true;
    }
    let rules = base.sound.rules();
    for i in 0..rules.len() {
        if gives(base, rules.get(i), p, t) {
            return true;
        }
    }
    false
}

// Whether p counts as held on a right side at t: it is held, and, if it is no denial itself, no denial of its
// access is, whoever gave it.
#[cycle(gives_held_in_force_throughout)]
fn in_force(base: &ServedBase<'_>, p: Pattern, t: u32) -> bool
    ensures { result ≡ in_force_at base.now.sound.bytes.now p t }
{
    if !held(base, p, t) {
        return false;
    }
    if p.negative {
        return true;
    }
    !held(base, asked(p.access, true), t)
}

// Whether a rule gives p at t: its left side is p, t is in its interval, and its right side is in force, or
// not, as its operator says, at t or at all instants from the rule's start to t.
#[cycle(gives_held_in_force_throughout)]
fn gives(base: &ServedBase<'_>, r: Rule, p: Pattern, t: u32) -> bool
    requires { RuleOfBase base.now.sound.bytes.now r }
    ensures { result ≡ given_at base.now.sound.bytes.now r p t }
{
    let i = r.interval;
    if !may_give(&base.sound, r, p) | !has_instant(i, t) {
        return false;
    }
    let right = right_of(r, p.access);
    match r.operator {
        Operator::Whenever => in_force(base, right, t),
        Operator::AsLongAs => throughout(base, right, i.start, t, true),
        Operator::WheneverNot => !in_force(base, right, t),
        Operator::Unless => throughout(base, right, i.start, t, false),
    }
}

// Whether p is in force (wanted: true), or not (wanted: false), at every single instant from one to another.
#[cycle(gives_held_in_force_throughout)]
fn throughout(base: &ServedBase<'_>, p: Pattern, from: u32, to: u32, wanted: bool) -> bool
    requires { from ≤ to }
    ensures { result ≡ wanted_from base.now.sound.bytes.now p from to wanted }
{
    for u in from..=to {
        if in_force(base, p, u) != wanted {
            return false;
        }
    }
    true
}
