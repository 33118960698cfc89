// Row 3 of the table of refusals: fields outside their ranges. Row 5: intervals.
ghost use Rattle.std.specs.Prelude.{◌≡◌, Bool, ℕ};
ghost use Rattle.model.specs.Step.{term_in, stars_agree, side_terms_in, rule_terms_in, out_of_range, bad_interval};

use lookup::{
    instant_in, is_kind, is_labelling, label_in, mode_in, names_interval, names_label, names_mode,
    names_object, names_subject, object_in, option_fits, subject_in, unknown_kind,
};
use model::{ADDRULE, Request, RuleTerms, SideTerms, Term};

// A number in its range, or the star. (Callers wrap the functions of lookup in closures: the check takes no
// function of another crate by its name alone.)
fn term_in<F: Fn(u32) -> bool>(in_range: F, t: Term) -> bool
    requires { F.IsAlwaysCallable in_range }
    ensures { (p : ℕ → Bool) → ((n : ℕ) (b : Bool) → F.post in_range n b → b ≡ p n) →
        result ≡ term_in p t }
{
    match t {
        Term::Any => true,
        Term::Number(n) => in_range(n),
    }
}

// Both are stars, or neither.
fn stars_agree(a: Term, b: Term) -> bool
    ensures { result ≡ stars_agree a b }
{
    matches!(a, Term::Any) == matches!(b, Term::Any)
}

// One side of a rule.
fn side_terms_in(s: SideTerms) -> bool
    ensures { result ≡ side_terms_in s }
{
    term_in(|n| subject_in(n), s.subject)
        & term_in(|n| mode_in(n), s.mode)
        & term_in(|n| object_in(n), s.object)
}

// The fields of a rule, its stars, and the option of a denial on the right.
fn rule_terms_in(u: RuleTerms) -> bool
    ensures { result ≡ rule_terms_in u }
{
    let left = u.left;
    let right = u.right;
    side_terms_in(left)
        & side_terms_in(right)
        & (1..=4).contains(&u.operator)
        & term_in(|n| subject_in(n), u.grantor)
        & stars_agree(left.subject, right.subject)
        & stars_agree(left.mode, right.mode)
        & stars_agree(left.object, right.object)
        & option_fits(right.negative, u.option)
}

// Row 3: the kind is unknown, or a field that it names is outside its range, or a star or option of a rule is
// out of place.
pub fn out_of_range(q: Request) -> bool
    ensures { result ≡ out_of_range q }
{
    let i = q.interval;
    unknown_kind(q)
        | !instant_in(q.now)
        | !subject_in(q.requester)
        | (names_object(q) & !object_in(q.object))
        | (names_subject(q) & !subject_in(q.subject))
        | (names_mode(q) & !mode_in(q.mode))
        | (names_interval(q) & !(instant_in(i.start) & instant_in(i.end)))
        | (names_label(q) & !label_in(q.label))
        | (is_kind(q, ADDRULE) & !rule_terms_in(q.rule))
}

// Row 5: the interval ends before it starts, or what would be new starts before now.
pub fn bad_interval(q: Request) -> bool
    ensures { result ≡ bad_interval q }
{
    let i = q.interval;
    (names_interval(q) & (i.end < i.start)) | (is_labelling(q) & (i.start < q.now))
}
