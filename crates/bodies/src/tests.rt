// The tests of single records and of neighbours, by value.
ghost use Rattle.std.specs.Prelude.{◌≡◌};
ghost use Rattle.model.specs.Soundness.{privilege_in, interval_in, authorization_in, side_in, rule_in, same_head};
ghost use Rattle.model.specs.Soundness.{stars_meet};
ghost use Rattle.bodies.specs.BodyTests.{neighbours};

use foundation::Interval;
use lookup::{instant_in, label_in, mode_in, object_in, subject_in};
use model::{Authorization, Head, Privilege, Rule, Side};

// Object 1 to 128, subject 1 to 1,023.
pub fn privilege_in(p: Privilege) -> bool
    ensures { result ≡ privilege_in p }
{
    object_in(p.object as u32) & subject_in(p.subject as u32)
}

fn interval_in(i: Interval) -> bool
    ensures { result ≡ interval_in i }
{
    instant_in(i.start) & instant_in(i.end)
}

// Every number of an authorization is in its range.
pub fn authorization_in(a: Authorization) -> bool
    ensures { result ≡ authorization_in a }
{
    let h = a.head;
    label_in(h.label as u32)
        & subject_in(h.grantor as u32)
        & subject_in(h.subject as u32)
        & object_in(h.object as u32)
        & mode_in(h.mode as u32)
        & instant_in(h.granted)
        & interval_in(a.interval)
}

// One side of a rule: 0 is the star.
fn side_in(s: Side) -> bool
    ensures { result ≡ side_in s }
{
    ((s.subject == 0) | subject_in(s.subject as u32))
        & ((s.mode == 0) | mode_in(s.mode as u32))
        & ((s.object == 0) | object_in(s.object as u32))
}

// Every number of a rule is in its range, or the star where one may stand.
pub fn rule_in(r: Rule) -> bool
    ensures { result ≡ rule_in r }
{
    label_in(r.label as u32)
        & subject_in(r.author as u32)
        & side_in(r.left)
        & side_in(r.right)
        & ((r.grantor == 0) | subject_in(r.grantor as u32))
        & interval_in(r.interval)
}

// All that the authorizations of one label share.
fn same_head(h: Head, k: Head) -> bool
    ensures { result ≡ same_head h k }
{
    (h.label == k.label)
        & (h.grantor == k.grantor)
        & (h.subject == k.subject)
        & (h.object == k.object)
        & (h.mode == k.mode)
        & (h.negative == k.negative)
        & (h.option == k.option)
        & (h.granted == k.granted)
}

// Two authorizations next to each other: they rise by label, then start; those of one label share the rest,
// and an instant is missing between them.
pub fn neighbour_test(a: Authorization, b: Authorization) -> bool
    ensures { result ≡ neighbours a b }
{
    let la = a.head.label;
    let lb = b.head.label;
    let apart = (a.interval.end as u64) + 1 < (b.interval.start as u64);
    ((la < lb) | ((la == lb) & (a.interval.start < b.interval.start)))
        & ((la != lb) | (same_head(a.head, b.head) & apart))
}

// A star of subject, mode or object stands on both sides of a rule or on neither.
pub fn stars_meet(r: Rule) -> bool
    ensures { result ≡ stars_meet r }
{
    ((r.left.subject == 0) == (r.right.subject == 0))
        & ((r.left.mode == 0) == (r.right.mode == 0))
        & ((r.left.object == 0) == (r.right.object == 0))
}
