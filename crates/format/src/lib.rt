// The format of a base's bytes.
#![tactic(auto)]

ghost use Rattle.std.specs.Prelude.{◌≡◌};
ghost use Rattle.encoding.specs.Format.{format_fits};

use encoding::{
    authorization_clean, authorizations_at, counts_fit, counts_of, end_at, heading_fits,
    rule_clean, rules_at,
};
use model::{AUTHORIZATION_BYTES, BASE_BYTES, RULE_BYTES};

// Bytes of any length have the format: the length, the counts, the heading, the records and the zeros behind
// them. Of each record, the bits and bytes without a meaning are clear, and the operator is known.
pub fn format_fits(s: &[u8]) -> bool
    ensures { result ≡ format_fits s.now }
{
    if s.len() != BASE_BYTES {
        return false;
    }
    let c = counts_of(s);
    if !counts_fit(c) {
        return false;
    }
    let authorizations = authorizations_at(c);
    let rules = rules_at(c);
    let end = end_at(c);
    heading_fits(s)
        & (0..c.authorizations as usize).all(|i| authorization_clean(
            s,
            authorizations + i * AUTHORIZATION_BYTES,
        ))
        & (0..c.rules as usize).all(|i| rule_clean(s, rules + i * RULE_BYTES))
        & fields::zeros(&s[end..])
}
