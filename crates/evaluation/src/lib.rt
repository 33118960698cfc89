// The evaluation of one rule at one place, over a window at once.
#![tactic(auto)]

ghost use Rattle.std.specs.Prelude.{◌≡◌, ◌<◌};
ghost use Rattle.model.specs.Stratification.{lasting};
ghost use Rattle.derivation.specs.Words.{wanted_word};
ghost use Rattle.derivation.specs.Derive.{Derived};

use model::Operator;
use rules::is_negating;
use words::{ones, ones_from};

// Whether an operator looks back to the rule's start.
pub fn is_lasting(o: Operator) -> bool
    ensures { result ≡ lasting o }
{
    match o {
        Operator::Whenever => false,
        Operator::AsLongAs => true,
        Operator::WheneverNot => false,
        Operator::Unless => true,
    }
}

// The active instants at which the right side is as the operator wants.
fn wanted_word(o: Operator, held: u64, active: u64) -> u64
    ensures { result ≡ wanted_word o held active }
{
    if is_negating(o) {
        return active - (active & held);
    }
    active & held
}

// What a rule derives over a window: `active` are the instants of its interval, `held` those at which its
// right side is held. `broken`: it looks back, started before the window and gave nothing at the instant
// before.
pub fn derive(o: Operator, held: u64, active: u64, broken: bool) -> u64
    requires { active < 9223372036854775808 }
    ensures { Derived o held active broken result }
{
    let x = wanted_word(o, held, active);
    if !is_lasting(o) {
        return x;
    }
    if broken {
        return 0;
    }
    match ones(active).next() {
        Some(first) => ones_from(x, first),
        None => 0,
    }
}
