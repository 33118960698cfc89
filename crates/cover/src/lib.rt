// Which authorizations may stand directly before another in a chain, how far they cover from an instant on,
// and the earliest instant that they do not cover.
#![tactic(auto)]

ghost use Rattle.std.specs.Prelude.{◌≡◌};
ghost use Rattle.foundation.specs.Intervals.{interval};
ghost use Rattle.cover.specs.Cover.{wanted, covers, gap_in};
ghost use Rattle.cover.specs.Sweep.{end_from, sweep_of};
ghost use Rattle.cover.specs.Gaps.{FirstGap};

use encoding::Records;
use model::{Authorization, Head};

// What is wanted of an authorization that is to stand directly before another in a chain: it is to `grantor`,
// on an object and mode, and was granted before an instant.
#[derive(Clone, Copy)]
pub struct Want {
    pub object: u16,
    pub mode: u8,
    pub grantor: u16,
    // the other's own option, false for a denial: nothing looks at it while an option is yes or no, but once
    // options are digits a chain compares both
    pub option: bool,
    pub before: u32,
}

// What is wanted of one that is to stand directly before an authorization of that head.
impl From<Head> for Want {
    ghost use Rattle.std.specs.Prelude.{◌≡◌};
    ghost use Rattle.cover.specs.Cover.{want_of};

    ghost from_gives = { λ h w. w ≡ want_of h };

    fn from(h: Head) -> Want {
        Want {
            object: h.object,
            mode: h.mode,
            grantor: h.grantor,
            option: h.option,
            before: h.granted,
        }
    }
}

// Whether an authorization is what is wanted: positive, with the option, to the grantor, granted strictly
// before.
pub fn may_support(w: Want, a: Authorization) -> bool
    ensures { result ≡ wanted w a.head }
{
    let h = a.head;
    // most are to another subject
    if h.subject != w.grantor {
        return false;
    }
    (h.object == w.object) & (h.mode == w.mode) & !h.negative & h.option & (h.granted < w.before)
}

// Whether an authorization is what is wanted, and covers an instant.
fn covers_at(w: Want, t: u64, a: Authorization) -> bool
    ensures { result ≡ covers w t a }
{
    let i = a.interval;
    (i.start as u64 <= t) & (t <= i.end as u64) & may_support(w, a)
}

// Where an authorization gets from an instant that it covers, if it is wanted: behind its end.
pub fn end_from(w: Want, a: Authorization, t: u64) -> u64
    ensures { result ≡ end_from w a t }
{
    if covers_at(w, t, a) {
        return a.interval.end as u64 + 1;
    }
    t
}

// Where one pass over authorizations gets from an instant. It ends once b is reached.
pub fn sweep(authorizations: &Records<'_, Authorization>, w: Want, t: u64, b: u64) -> u64
    ensures { result ≡ sweep_of w b authorizations.now t }
{
    let mut u = t;
    for i in 0..authorizations.len() {
        u = end_from(w, authorizations.get(i), u);
        if b <= u {
            return u;
        }
    }
    u
}

// The first instant from a on, below b, that none of the authorizations covers that are wanted; b if there is
// none.
pub fn gap_from(authorizations: &Records<'_, Authorization>, w: Want, a: u64, b: u64) -> u64
    ensures { result ≡ gap_in w authorizations.now a b }
{
    let mut t = a;
    while t < b {
        let u = sweep(authorizations, w, t, b);
        if u == t {
            return t;
        }
        t = u;
    }
    b
}

// The earliest instant of a to e that none of the authorizations covers that are wanted.
pub fn first_gap(
    authorizations: &Records<'_, Authorization>,
    w: Want,
    a: u32,
    e: u32,
) -> Option<u32>
    ensures { FirstGap w authorizations.now (interval a e) result }
{
    let b = e as u64 + 1;
    let t = gap_from(authorizations, w, a as u64, b);
    if t < b { Some(t as u32) } else { None }
}
