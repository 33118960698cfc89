// Row 12 of the table of refusals: whether a new rule would close a forbidden circle.
ghost use Rattle.std.specs.Prelude.{◌≡◌, false};
ghost use Rattle.model.specs.Encoding.{decode};
ghost use Rattle.model.specs.Step.{out_of_range, not_stratified};

use encoding::{Records, new_rule};
use lookup::SoundBase;
use model::{ADDRULE, RULE_BYTES, Request};

// Row 12: the base's rules with the new one behind them have a forbidden circle. They are tested in a copy,
// where the new rule has the label 1: the next one may be too large for its bytes, and labels do not matter
// for circles.
pub fn not_stratified(base: &SoundBase<'_>, q: Request) -> bool
    requires { out_of_range q ≡ false }
    ensures { result ≡ not_stratified (decode base.now.bytes.now) q }
{
    if q.kind != ADDRULE {
        return false;
    }
    let s = base.bytes;
    let c = encoding::counts_of(s);
    let at = encoding::rules_at(c);
    let n = c.rules as usize;
    let body = &s[at..];
    let mut all = [0u8; 65 * RULE_BYTES];
    fields::copy(&mut all[..n * RULE_BYTES], &body[..n * RULE_BYTES]);
    encoding::put_rule(&mut all, n * RULE_BYTES, new_rule(q, 1));
    !rules::is_stratified(&Records::new(&all, n + 1))
}
