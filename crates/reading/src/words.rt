// What one field says: a number, an instant, a number or star, or a fixed word. An empty field says nothing.
ghost use Rattle.std.specs.Prelude.{◌≡◌, option_map, if◌then◌else◌, ◌-◌};
ghost use Rattle.model.specs.Text.{is_digit, leading_zero, number, instant, term, option, option_term};
ghost use Rattle.model.specs.Text.{sign, operator, one_of, grammar};
ghost use Rattle.reading.specs.LineFields.{told, words_of};
ghost use Rattle.reading.specs.ParsedLines.{reader_for};

use model::{
    ADDRULE, DENY, DROPRULE, GRANT, GRANTADM, GRANTREF, NEW, OptionTerm, REVOKE, REVOKEADM,
    REVOKEN, REVOKEP, REVOKEREF, Term,
};

// A digit's value.
#[inline(always)]
fn digit(c: u8) -> Option<u32>
    ensures { result ≡ (if is_digit c then Some (c - 48) else None) }
{
    match c {
        b'0'..=b'9' => Some(u32::from(c - b'0')),
        _ => None,
    }
}

// Whether a 0 stands in front of other bytes.
fn leading_zero(s: &[u8]) -> bool
    ensures { result ≡ leading_zero s.now }
{
    matches!(s, [b'0', _, ..])
}

// A number: 1 to 10 digits with no leading zero, up to the last instant.
#[inline(always)]
#[tactic(auto, using(crate::proofs::DigitValues::digits))]
pub fn read_number(s: &[u8]) -> Option<u32>
    ensures { told result ≡ number s.now }
{
    if s.is_empty() || 10 < s.len() || leading_zero(s) {
        return None;
    }
    let mut n: u64 = 0;
    for c in s {
        n = 10 * n + u64::from(digit(*c)?);
        if u64::from(u32::MAX) < n {
            return None;
        }
    }
    Some(n as u32)
}

// A number, or `inf` for the last instant.
#[inline(always)]
pub fn read_instant(s: &[u8]) -> Option<u32>
    ensures { told result ≡ instant s.now }
{
    if s == b"inf".as_slice() {
        return Some(u32::MAX);
    }
    read_number(s)
}

// A number, or `*` for any.
pub fn read_term(s: &[u8]) -> Option<Term>
    ensures { told result ≡ term s.now }
{
    if s == b"*".as_slice() {
        return Some(Term::Any);
    }
    read_number(s).map(Term::Number)
}

// What goes with the first of these words that the field is.
#[inline(always)]
#[tactic(auto, using(crate::proofs::WordSearch::word_is, crate::proofs::WordSearch::word_is_not))]
fn one_of<T: Copy>(words: &[(&[u8], T)], s: &[u8]) -> Option<T>
    ensures { told result ≡ one_of (words_of words.now) s.now }
{
    for (word, value) in words {
        if s == *word {
            return Some(*value);
        }
    }
    None
}

// The grant option: `y` or `n`.
#[inline(always)]
pub fn read_option(s: &[u8]) -> Option<bool>
    ensures { told result ≡ option s.now }
{
    one_of(&[(b"y", true), (b"n", false)], s)
}

// A sign, whether it is that of a denial: `-`, or not: `+`.
pub fn read_sign(s: &[u8]) -> Option<bool>
    ensures { told result ≡ sign s.now }
{
    one_of(&[(b"+", false), (b"-", true)], s)
}

// The option of a rule's right side: `y`, `n` or `*`.
pub fn read_option_term(s: &[u8]) -> Option<OptionTerm>
    ensures { told result ≡ option_term s.now }
{
    one_of(
        &[
            (b"y", OptionTerm::With),
            (b"n", OptionTerm::Without),
            (b"*", OptionTerm::Either),
        ],
        s,
    )
}

// An operator's word, by its number.
pub fn read_operator(s: &[u8]) -> Option<u32>
    ensures { told result ≡ operator s.now }
{
    one_of(
        &[
            (b"WHENEVER", 1),
            (b"ASLONGAS", 2),
            (b"WHENEVERNOT", 3),
            (b"UNLESS", 4),
        ],
        s,
    )
}

// A request's word, by the number of its kind.
pub fn read_kind(s: &[u8]) -> Option<u32>
    ensures { told (option_map reader_for result) ≡ one_of grammar s.now }
{
    one_of(
        &[
            (b"NEW", NEW),
            (b"GRANT", GRANT),
            (b"DENY", DENY),
            (b"REVOKE", REVOKE),
            (b"REVOKEP", REVOKEP),
            (b"REVOKEN", REVOKEN),
            (b"ADDRULE", ADDRULE),
            (b"DROPRULE", DROPRULE),
            (b"GRANTADM", GRANTADM),
            (b"REVOKEADM", REVOKEADM),
            (b"GRANTREF", GRANTREF),
            (b"REVOKEREF", REVOKEREF),
        ],
        s,
    )
}
