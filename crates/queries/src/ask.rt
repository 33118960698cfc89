// MAY and WHEN over the bytes of a sound base. Where no rule stands for the access, the authorizations alone
// are asked.
ghost use Rattle.std.specs.Prelude.{◌≡◌, true};
ghost use Rattle.model.specs.Base.{Base};
ghost use Rattle.model.specs.Answers.{access_in};
ghost use Rattle.model.specs.Encoding.{decode};
ghost use Rattle.model.specs.Rules.{may, when};
ghost use Rattle.model.specs.Soundness.{sound_bytes};
ghost use Rattle.scan.specs.Runs.{ScannedTo};
ghost use Rattle.scan.specs.Listing.{Filling, Listing};
ghost use Rattle.queries.specs.AskedBases.{Asked, IsAsked};

use crate::AccessQuery;
use crate::asked::AskedBase;
use crate::outlining::with_outline;
use direct::walk_directly;
use model::Access;
use scan::Track;

// Whether MAY says yes at t.
pub fn holds_at(s: &[u8], x: Access, t: u32) -> bool
    requires { (sound_bytes s.now ≡ true) × (access_in x ≡ true) }
    ensures { result ≡ may (decode s.now) x t }
{
    let base = AskedBase::new(s);
    if let Some(yes) = base.held_alone(x, t) {
        return yes;
    }
    let mut none = [0u32; 0];
    let a = AccessQuery {
        access: x,
        instant: Some(t),
    };
    with_outline(&base, a, &mut none).yes
}

// Writes the intervals down at which MAY says yes, as far as there is room, but for one that is open at the
// end. Few authorizations without rules are gone through as they are: clearing the tables would take longer.
fn track_of(base: &AskedBase<'_>, x: Access, list: &mut [u32]) -> Track
    requires { (access_in x ≡ true) × IsAsked base.now }
    ensures { (b : Base) → Asked base.now b →
        ScannedTo (may b x) 4294967295 list.old 4294967296 result list.new }
{
    let n = base.totals;
    if (n.rules == 0) & (n.authorizations <= 64) {
        return walk_directly(base.records, n.authorizations, x, list);
    }
    let a = AccessQuery {
        access: x,
        instant: None,
    };
    with_outline(base, a, list).track
}

// Counts the maximal intervals where MAY says yes, and puts them at the front of the list, as many as there
// is room for.
fn runs_in(base: &AskedBase<'_>, x: Access, list: &mut [u32]) -> usize
    requires { (access_in x ≡ true) × IsAsked base.now }
    ensures { (b : Base) → Asked base.now b → Filling (when b x) result list.old list.new }
{
    let w = track_of(base, x, list);
    scan::finish_runs(list, w, 4294967295)
}

// Counts the maximal intervals where MAY says yes, and puts them at the front of the list, if there is room
// for all. A list that may be too short is not lent before they are counted; the list lent first has no
// numbers.
fn runs_if_room(base: &AskedBase<'_>, x: Access, list: &mut [u32]) -> usize
    requires { (access_in x ≡ true) × IsAsked base.now }
    ensures { (b : Base) → Asked base.now b → Listing (when b x) result list.old list.new }
{
    let n = base.totals;
    let pairs = list.len() / 2;
    if pairs <= n.authorizations + n.rules {
        let mut none = [0u32; 0];
        let r = runs_in(base, x, &mut none);
        if pairs < r {
            return r;
        }
    }
    runs_in(base, x, list)
}

// Counts the maximal intervals where MAY says yes, and puts them at the front of the list, if there is room
// for all; else the list is as it was. The rules are left out where none stands for the access.
pub fn list_runs(s: &[u8], x: Access, list: &mut [u32]) -> usize
    requires { (sound_bytes s.now ≡ true) × (access_in x ≡ true) }
    ensures { Listing (when (decode s.now) x) result list.old list.new }
{
    let base = AskedBase::new(s);
    if base.stands_some(x) {
        return runs_if_room(&base, x, list);
    }
    runs_if_room(&base.without_rules(), x, list)
}
