// From where on the engine looks: what an answer at an instant rests on.
ghost use Rattle.std.specs.Prelude.{◌≡◌, ◌⊎◌, true, false, ◌&&◌, ℕ, ◌+◌, ◌*◌, ◌≤◌, ◌<◌};
ghost use Rattle.foundation.specs.BitMasks.{bit};
ghost use Rattle.foundation.specs.Intervals.{in_interval};
ghost use Rattle.masks.specs.RuleMasks.{RulesIn};
ghost use Rattle.model.specs.Stratification.{lasting};
ghost use Rattle.encoding.specs.Format.{rule_at};

use encoding::rule_at;
use evaluation::is_lasting;
use masks::those;
use model::RULE_BYTES;
use words::ones;

// Of some rules those that look back.
pub fn lasting_of(body: &[u8], rules: u64) -> u64
    requires { RulesIn rules body.now }
    ensures { (r : ℕ) → bit r result ≡ bit r rules && lasting (rule_at body.now r).operator }
{
    those(
        rules,
        |r| is_lasting(rule_at(body, (r as usize) * RULE_BYTES).operator),
    )
}

// The instant from which on the answer at t can be found: t, if none of some rules that look back is at work
// before t; else where the first of them starts.
pub fn history_start(body: &[u8], lasting: u64, t: u32) -> u32
    requires { RulesIn lasting body.now }
    ensures { (result ≤ t) × ((r : ℕ) → bit r lasting ≡ true →
        (result ≤ (rule_at body.now r).interval.start)
        ⊎ (in_interval (rule_at body.now r).interval result ≡ false)) }
{
    let mut least = t;
    let mut back = false;
    for r in ones(lasting) {
        let q = rule_at(body, (r as usize) * RULE_BYTES);
        least = least.min(q.interval.start);
        back = back | ((q.interval.start < t) & (t <= q.interval.end));
    }
    if back { least } else { t }
}
