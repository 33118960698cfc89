// The records of the bodies, read and written by value at a place of a byte slice.
ghost use Rattle.std.specs.Prelude.{◌≡◌, ◌++◌, ◌∷◌, [], ◌+◌, ◌≤◌, length, drop};
ghost use Rattle.foundation.specs.Bytes.{le, bytes_of};
ghost use Rattle.foundation.specs.Intervals.{interval};
ghost use Rattle.fields.specs.Field.{splice};
ghost use Rattle.model.specs.Encoding.{contents_entry, operator_number, rule_flags, privilege_of, privilege_bytes};
ghost use Rattle.model.specs.Encoding.{authorization_of, authorization_bytes, rule_of, rule_bytes};
ghost use Rattle.encoding.specs.Format.{authorization_clean, rule_clean};

use crate::flags::{
    has_option, head_flags, head_flags_known, is_negative, option_of, rule_flags, rule_flags_known,
};
use foundation::Interval;
use model::{Authorization, Head, Operator, Privilege, Rule, Side};

// Writes two 16-bit numbers at a place, one behind the other.
pub fn put_pair(s: &mut [u8], at: usize, first: u16, second: u16)
    requires { at + 4 ≤ length s.old }
    ensures { s.new ≡ splice at (contents_entry first second) s.old }
{
    fields::put16(s, at, first);
    fields::put16(s, at + 2, second);
}

// The object with a subject at a place.
pub fn privilege_at(s: &[u8], at: usize) -> Privilege
    requires { at + 4 ≤ length s.now }
    ensures { result ≡ privilege_of (drop at s.now) }
{
    Privilege {
        object: fields::le16(s, at),
        subject: fields::le16(s, at + 2),
    }
}

// Writes an object with a subject at a place.
pub fn put_privilege(s: &mut [u8], at: usize, p: Privilege)
    requires { at + 4 ≤ length s.old }
    ensures { s.new ≡ splice at (privilege_bytes p) s.old }
{
    put_pair(s, at, p.object, p.subject);
}

// The interval at a place.
fn interval_at(s: &[u8], at: usize) -> Interval
    requires { at + 8 ≤ length s.now }
    ensures { result ≡ interval (le 4 (drop at s.now)) (le 4 (drop (at + 4) s.now)) }
{
    Interval {
        start: fields::le32(s, at),
        end: fields::le32(s, at + 4),
    }
}

// Writes an interval at a place.
fn put_interval(s: &mut [u8], at: usize, i: Interval)
    requires { at + 8 ≤ length s.old }
    ensures { s.new ≡ splice at (bytes_of 4 i.start ++ bytes_of 4 i.end) s.old }
{
    fields::put32(s, at, i.start);
    fields::put32(s, at + 4, i.end);
}

// The authorization at a place.
pub fn authorization_at(s: &[u8], at: usize) -> Authorization
    requires { at + 24 ≤ length s.now }
    ensures { result ≡ authorization_of (drop at s.now) }
{
    let flags = s[at + 9];
    Authorization {
        head: Head {
            label: fields::le16(s, at),
            grantor: fields::le16(s, at + 2),
            subject: fields::le16(s, at + 4),
            object: fields::le16(s, at + 6),
            mode: s[at + 8],
            negative: is_negative(flags),
            option: has_option(flags),
            granted: fields::le32(s, at + 12),
        },
        interval: interval_at(s, at + 16),
    }
}

// Writes an authorization at a place.
pub fn put_authorization(s: &mut [u8], at: usize, a: Authorization)
    requires { at + 24 ≤ length s.old }
    ensures { s.new ≡ splice at (authorization_bytes a) s.old }
{
    let h = a.head;
    let i = a.interval;
    put_pair(s, at, h.label, h.grantor);
    put_pair(s, at + 4, h.subject, h.object);
    s[at + 8..at + 12].copy_from_slice(&[h.mode, head_flags(h.negative, h.option), 0, 0]);
    fields::put32(s, at + 12, h.granted);
    put_interval(s, at + 16, i);
}

// Whether the unused flag bits and the zero bytes of the authorization at a place are clear.
pub fn authorization_clean(s: &[u8], at: usize) -> bool
    requires { at + 24 ≤ length s.now }
    ensures { result ≡ authorization_clean (drop at s.now) }
{
    head_flags_known(s[at + 9]) & (fields::le16(s, at + 10) == 0)
}

// The rule at a place.
pub fn rule_at(s: &[u8], at: usize) -> Rule
    requires { at + 28 ≤ length s.now }
    ensures { result ≡ rule_of (drop at s.now) }
{
    let flags = s[at + 17];
    Rule {
        label: fields::le16(s, at),
        author: fields::le16(s, at + 2),
        left: Side {
            subject: fields::le16(s, at + 4),
            mode: s[at + 14],
            object: fields::le16(s, at + 6),
            negative: flags & 1 == 1,
        },
        operator: Operator::from(s[at + 16]),
        right: Side {
            subject: fields::le16(s, at + 8),
            mode: s[at + 15],
            object: fields::le16(s, at + 10),
            negative: flags & 2 == 2,
        },
        grantor: fields::le16(s, at + 12),
        option: option_of(flags),
        interval: interval_at(s, at + 20),
    }
}

// Writes the modes, the operator, the flags and the zero bytes of a rule at a place.
fn put_modes(s: &mut [u8], at: usize, r: Rule)
    requires { at + 6 ≤ length s.old }
    ensures { s.new ≡ splice at (r.left.mode ∷ r.right.mode ∷ operator_number r.operator
        ∷ rule_flags r.left.negative r.right.negative r.option ∷ 0 ∷ 0 ∷ []) s.old }
{
    let left = r.left;
    let right = r.right;
    let operator = r.operator;
    let option = r.option;
    let flags = rule_flags(left.negative, right.negative, option);
    s[at..at + 6].copy_from_slice(&[left.mode, right.mode, u8::from(operator), flags, 0, 0]);
}

// Writes a rule at a place.
pub fn put_rule(s: &mut [u8], at: usize, r: Rule)
    requires { at + 28 ≤ length s.old }
    ensures { s.new ≡ splice at (rule_bytes r) s.old }
{
    let left = r.left;
    let right = r.right;
    let i = r.interval;
    put_pair(s, at, r.label, r.author);
    put_pair(s, at + 4, left.subject, left.object);
    put_pair(s, at + 8, right.subject, right.object);
    fields::put16(s, at + 12, r.grantor);
    put_modes(s, at + 14, r);
    put_interval(s, at + 20, i);
}

// Whether the operator's number, the unused flag bits and the zero bytes of the rule at a place are in order.
pub fn rule_clean(s: &[u8], at: usize) -> bool
    requires { at + 28 ≤ length s.now }
    ensures { result ≡ rule_clean (drop at s.now) }
{
    let operator = s[at + 16];
    (1 <= operator)
        & (operator <= 4)
        & rule_flags_known(s[at + 17])
        & (fields::le16(s, at + 18) == 0)
}
