// Edits of a base in bytes: one record put into a body or taken out of it, the authorizations replaced, the
// clock and the last label set. Each leaves the bytes of the base so edited. They start from the bytes of a
// base that fits.
#![tactic(auto)]

ghost use Rattle.std.specs.Prelude.{◌≡◌, true, ◌+◌, ◌*◌, ◌≤◌, ◌<◌, length, take};
ghost use Rattle.foundation.specs.Lists.{each, insert_at};
ghost use Rattle.foundation.specs.Bytes.{records};
ghost use Rattle.model.specs.Ranges.{most_objects, most_authorizations, most_rules};
ghost use Rattle.model.specs.Encoding.{encode, decode, authorization_of, authorization_bytes};
ghost use Rattle.fields.specs.Field.{splice};
ghost use Rattle.encoding.specs.Format.{contents_of, counts_fit};
ghost use Rattle.edits.specs.Edits.{resized, Written, with_stamp};
ghost use Rattle.model.specs.Effects.{with_authorizations, with_rules};
ghost use Rattle.edits.specs.Edits.{with_privileges, privileges_of, privileges_at, privilege_count};
ghost use Rattle.edits.specs.Edits.{with_privilege_count};
ghost use Rattle.edits.specs.Edits.{remove_at};

mod reading;

use encoding::{Counts, Record};
use model::{AUTHORIZATION_BYTES, Authorization, PRIVILEGE_BYTES, Privilege, RULE_BYTES, Rule};
pub use reading::WrittenBase;

// The bodies that hold privileges.
#[derive(Clone, Copy)]
pub enum PrivilegeBody {
    Objects,
    Administrators,
    Referrers,
}

// Makes the `old` bytes at a place `new` ones: what stands behind them is moved, and the end is cut or filled
// with zeros.
#[inline(always)]
fn resize(s: &mut [u8], at: usize, old: usize, new: usize)
    requires { (at + old ≤ length s.old) × (at + new ≤ length s.old) }
    ensures { s.new ≡ resized at old new s.old }
{
    let end = s.len();
    if old < new {
        fields::open_gap(s, at + old, end, new - old);
    } else {
        fields::close_gap(s, at + new, end, old - new);
    }
}

// The same with the contents rewritten for the counts that the base then has.
#[inline(always)]
fn reshape(s: &mut [u8], at: usize, old: usize, new: usize, c: Counts)
    requires { (at + old ≤ length s.old) × (at + new ≤ length s.old)
        × (32 ≤ length s.old) × (counts_fit c ≡ true) }
    ensures { s.new ≡ splice 12 (contents_of c) (resized at old new s.old) }
{
    resize(s, at, old, new);
    encoding::put_counts(s, c);
}

// Where the privileges of a body start.
pub fn privileges_at(c: Counts, k: PrivilegeBody) -> usize
    ensures { result ≡ privileges_at k c }
{
    match k {
        PrivilegeBody::Objects => 32,
        PrivilegeBody::Administrators => encoding::administrators_at(c),
        PrivilegeBody::Referrers => encoding::referrers_at(c),
    }
}

// How many privileges a body has.
pub fn privilege_count(c: Counts, k: PrivilegeBody) -> u16
    ensures { result ≡ privilege_count k c }
{
    match k {
        PrivilegeBody::Objects => c.objects,
        PrivilegeBody::Administrators => c.administrators,
        PrivilegeBody::Referrers => c.referrers,
    }
}

// The counts with n privileges in a body.
fn with_privilege_count(c: Counts, k: PrivilegeBody, n: u16) -> Counts
    ensures { result ≡ with_privilege_count k n c }
{
    match k {
        PrivilegeBody::Objects => Counts { objects: n, ..c },
        PrivilegeBody::Administrators => Counts {
            administrators: n,
            ..c
        },
        PrivilegeBody::Referrers => Counts { referrers: n, ..c },
    }
}

// Puts a record in at its place in a body; `c` are the counts with it.
fn insert<R: Record>(s: &mut [u8], at: usize, r: R, c: Counts)
    requires { (at + R.BYTES ≤ length s.old) × (32 ≤ length s.old) × (counts_fit c ≡ true) }
    ensures { s.new ≡ splice at (R.bytes r) (splice 12 (contents_of c) (resized at 0 R.BYTES s.old)) }
{
    reshape(s, at, 0, R::BYTES, c);
    r.put(s, at);
}

// Takes the record at a place out; `c` are the counts without it.
fn remove<R: Record>(s: &mut [u8], at: usize, c: Counts)
    requires { (at + R.BYTES ≤ length s.old) × (32 ≤ length s.old) × (counts_fit c ≡ true) }
    ensures { s.new ≡ splice 12 (contents_of c) (resized at R.BYTES 0 s.old) }
{
    reshape(s, at, R::BYTES, 0, c);
}

// Puts a rule before the one at i, or behind the last.
pub fn insert_rule(s: &mut [u8], i: usize, r: Rule)
    requires { Written s.old × (i ≤ length (decode s.old).rules)
        × (length (decode s.old).rules < most_rules) }
    ensures { s.new
        ≡ encode (with_rules (insert_at i r (decode s.old).rules) (decode s.old)) }
{
    let c = encoding::counts_of(s);
    let at = encoding::rules_at(c) + RULE_BYTES * i;
    let rules = c.rules + 1;
    insert(s, at, r, Counts { rules, ..c });
}

// Takes the rule at i out.
pub fn remove_rule(s: &mut [u8], i: usize)
    requires { Written s.old × (i < length (decode s.old).rules) }
    ensures { s.new
        ≡ encode (with_rules (remove_at i (decode s.old).rules) (decode s.old)) }
{
    let c = encoding::counts_of(s);
    let at = encoding::rules_at(c) + RULE_BYTES * i;
    let rules = c.rules - 1;
    remove::<Rule>(s, at, Counts { rules, ..c });
}

// Puts an authorization before the one at i, or behind the last.
pub fn insert_authorization(s: &mut [u8], i: usize, a: Authorization)
    requires { Written s.old × (i ≤ length (decode s.old).authorizations)
        × (length (decode s.old).authorizations < most_authorizations) }
    ensures { s.new
        ≡ encode (with_authorizations (insert_at i a (decode s.old).authorizations)
        (decode s.old)) }
{
    let c = encoding::counts_of(s);
    let at = encoding::authorizations_at(c) + AUTHORIZATION_BYTES * i;
    let authorizations = c.authorizations + 1;
    insert(
        s,
        at,
        a,
        Counts {
            authorizations,
            ..c
        },
    );
}

// Puts a privilege before the one at i of a body, or behind the last.
pub fn insert_privilege(s: &mut [u8], k: PrivilegeBody, i: usize, p: Privilege)
    requires { Written s.old × (i ≤ length (privileges_of k (decode s.old)))
        × (length (privileges_of k (decode s.old)) < most_objects) }
    ensures { s.new
        ≡ encode (with_privileges k (insert_at i p (privileges_of k (decode s.old)))
        (decode s.old)) }
{
    let c = encoding::counts_of(s);
    let at = privileges_at(c, k) + PRIVILEGE_BYTES * i;
    let n = privilege_count(c, k) + 1;
    insert(s, at, p, with_privilege_count(c, k, n));
}

// Takes the privilege at i of a body out.
pub fn remove_privilege(s: &mut [u8], k: PrivilegeBody, i: usize)
    requires { Written s.old × (i < length (privileges_of k (decode s.old))) }
    ensures { s.new
        ≡ encode (with_privileges k (remove_at i (privileges_of k (decode s.old)))
        (decode s.old)) }
{
    let c = encoding::counts_of(s);
    let at = privileges_at(c, k) + PRIVILEGE_BYTES * i;
    let n = privilege_count(c, k) - 1;
    remove::<Privilege>(s, at, with_privilege_count(c, k, n));
}

// Makes the m authorizations that were built those of the base.
pub fn replace_authorizations(s: &mut [u8], built: &[u8], m: usize)
    requires { Written s.old × (m ≤ most_authorizations) × (m * 24 ≤ length built.now)
        × (take (24 * m) built.now ≡ each (records 24 authorization_of m built.now) authorization_bytes) }
    ensures { s.new
        ≡ encode (with_authorizations (records 24 authorization_of m built.now)
        (decode s.old)) }
{
    let c = encoding::counts_of(s);
    let at = encoding::authorizations_at(c);
    let authorizations = m as u16;
    reshape(
        s,
        at,
        AUTHORIZATION_BYTES * (c.authorizations as usize),
        AUTHORIZATION_BYTES * m,
        Counts {
            authorizations,
            ..c
        },
    );
    fields::copy(
        &mut s[at..at + AUTHORIZATION_BYTES * m],
        &built[..AUTHORIZATION_BYTES * m],
    );
}

// Sets the clock.
pub fn set_clock(s: &mut [u8], clock: u32)
    requires { Written s.old }
    ensures { s.new ≡ encode
        (with_stamp clock (decode s.old).last (decode s.old)) }
{
    fields::put32(s, 4, clock);
}

// Sets the last label given.
pub fn set_last(s: &mut [u8], last: u16)
    requires { Written s.old }
    ensures { s.new ≡ encode
        (with_stamp (decode s.old).clock last (decode s.old)) }
{
    fields::put16(s, 8, last);
}
