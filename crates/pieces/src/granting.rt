// From where on one of some authorizations covers what is wanted. A body in rising start makes a look quick;
// in any other order it is right too.
ghost use Rattle.std.specs.Prelude.{◌≡◌, ◌≤◌};
ghost use Rattle.cover.specs.First.{first};
ghost use Rattle.cover.specs.Cover.{covered_by};
ghost use Rattle.pieces.specs.Nearest.{near_of};

use cover::Want;
use encoding::Records;
use model::Authorization;

// The first instant from a on that an authorization covers, if it is wanted and that is before d; else d.
fn nearest(x: Authorization, w: Want, a: u64, d: u64) -> u64
    ensures { result ≡ near_of w a d x }
{
    let i = x.interval;
    let t = (i.start as u64).max(a);
    if (t <= i.end as u64) & (t < d) & cover::may_support(w, x) {
        return t;
    }
    d
}

// The first instant from a on, before b, that one of the authorizations covers that are wanted; b if there is
// none.
pub fn cover_from(authorizations: &Records<'_, Authorization>, w: Want, a: u64, b: u64) -> u64
    requires { a ≤ b }
    ensures { result ≡ first (covered_by w authorizations.now) a b }
{
    let mut d = b;
    for i in 0..authorizations.len() {
        d = nearest(authorizations.get(i), w, a, d);
        // no other can be nearer
        if d <= a {
            return d;
        }
    }
    d
}
