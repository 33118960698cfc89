// The rule that a request names, as the base has it. Its numbers fit their bytes, as they are in their
// ranges.
ghost use Rattle.std.specs.Prelude.{◌≡◌, ◌<◌};
ghost use Rattle.model.specs.Requests.{new_rule, number_of, side_of};
ghost use Rattle.model.specs.FitsFacts.{SideFits, RuleFits};

use model::{Operator, Request, Rule, Side, SideTerms, Term};

// A number, or 0 for a star.
pub fn number_of(t: Term) -> u32
    ensures { result ≡ number_of t }
{
    match t {
        Term::Any => 0,
        Term::Number(n) => n,
    }
}

// A side of a rule as the base has it.
fn side_of(t: SideTerms) -> Side
    requires { SideFits (side_of t) }
    ensures { result ≡ side_of t }
{
    let subject = t.subject;
    let mode = t.mode;
    let object = t.object;
    Side {
        subject: number_of(subject) as u16,
        mode: number_of(mode) as u8,
        object: number_of(object) as u16,
        negative: t.negative,
    }
}

// The rule that ADDRULE makes under a label.
pub fn new_rule(q: Request, label: u16) -> Rule
    requires { RuleFits (new_rule label q) × (q.rule.operator < 256) }
    ensures { result ≡ new_rule label q }
{
    let rule = q.rule;
    let left = rule.left;
    let right = rule.right;
    let grantor = rule.grantor;
    let option = rule.option;
    let interval = q.interval;
    Rule {
        label: label,
        author: q.requester as u16,
        left: side_of(left),
        operator: Operator::from(rule.operator as u8),
        right: side_of(right),
        grantor: number_of(grantor) as u16,
        option: option,
        interval: interval,
    }
}
