// Questions that no rule can answer: only authorizations count then.
#![tactic(auto)]

mod intervals;

ghost use Rattle.std.specs.Prelude.{◌≡◌, true, ℕ, ◌*◌, ◌≤◌, ◌<◌, length};
ghost use Rattle.foundation.specs.Lists.{anyb};
ghost use Rattle.model.specs.Base.{Base, controls};
ghost use Rattle.model.specs.Encoding.{decode};
ghost use Rattle.model.specs.Rules.{stands_for};
ghost use Rattle.encoding.specs.Format.{authorizations_in, rules_in};
ghost use Rattle.direct.specs.Direct.{held_directly, live_for};

pub use intervals::walk_directly;
use lookup::{SoundBase, has_instant};
use model::{AUTHORIZATION_BYTES, Access, Authorization, RULE_BYTES};

// Whether some rule stands for one that derives the access, in a base that has these rules, and the owners
// and administrators of a sound base.
pub fn stands_some(base: &SoundBase<'_>, body: &[u8], n: usize, x: Access) -> bool
    requires { n * 28 ≤ length body.now }
    ensures { (b : Base) → b.rules ≡ rules_in n body.now →
        ((o u : ℕ) → controls b o u ≡ controls (decode base.now.bytes.now) o u) →
        result ≡ anyb (λ q. stands_for b q x) b.rules }
{
    for i in 0..n {
        if base.stands_for(encoding::rule_at(body, i * RULE_BYTES), x) {
            return true;
        }
    }
    false
}

// Whether an authorization has t and is for an access, its sign aside.
fn is_live_for(a: Authorization, x: Access, t: u32) -> bool
    ensures { result ≡ live_for x t a }
{
    let h = a.head;
    let i = a.interval;
    (h.subject as u32 == x.subject)
        & (h.mode as u32 == x.mode)
        & (h.object as u32 == x.object)
        & has_instant(i, t)
}

// Whether MAY says yes by the authorizations alone. Most of them are for another subject or object, and these
// stand next to each other. A denial that has t decides.
pub fn holds_directly(lines: &[u8], total: usize, x: Access, t: u32) -> bool
    requires { (total * 24 ≤ length lines.now) × (x.subject < 65536) × (x.object < 65536) }
    ensures { result ≡ held_directly (authorizations_in total lines.now) x t }
{
    let both = x.subject + 65536 * x.object;
    let mut granted = false;
    for i in 0..total {
        if fields::le32(lines, i * AUTHORIZATION_BYTES + 4) == both {
            let a = encoding::authorization_at(lines, i * AUTHORIZATION_BYTES);
            if is_live_for(a, x, t) {
                if a.head.negative {
                    return false;
                }
                granted = true;
            }
        }
    }
    granted
}
