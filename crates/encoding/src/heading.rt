// The heading of a base: the mark, the counts with where the bodies start, and an empty base.
ghost use Rattle.std.specs.Prelude.{◌≡◌, true, ◌+◌, ◌≤◌, length, take};
ghost use Rattle.foundation.specs.Bytes.{eq_list};
ghost use Rattle.fields.specs.Field.{splice};
ghost use Rattle.model.specs.Encoding.{mark};
ghost use Rattle.model.specs.Answers.{create};
ghost use Rattle.encoding.specs.Format.{counts_of, contents_of, counts_fit, heading_fits, administrators_at};
ghost use Rattle.encoding.specs.Format.{referrers_at, authorizations_at, rules_at, end_at};

use crate::Counts;
use crate::bodies::put_pair;
use model::{AUTHORIZATION_BYTES, BASE_BYTES, PRIVILEGE_BYTES, RULE_BYTES, Reply};

// Whether a base begins with the mark.
fn marked(s: &[u8]) -> bool
    requires { 4 ≤ length s.now }
    ensures { result ≡ eq_list (take 4 s.now) mark }
{
    &s[..4] == b"MRB1".as_slice()
}

// Writes the mark of a base.
fn put_mark(s: &mut [u8])
    requires { 4 ≤ length s.old }
    ensures { s.new ≡ splice 0 mark s.old }
{
    s[..4].copy_from_slice(b"MRB1");
}

// The counts that the contents of a base name.
pub fn counts_of(s: &[u8]) -> Counts
    requires { 32 ≤ length s.now }
    ensures { result ≡ counts_of s.now }
{
    Counts {
        objects: fields::le16(s, 14),
        administrators: fields::le16(s, 18),
        referrers: fields::le16(s, 22),
        authorizations: fields::le16(s, 26),
        rules: fields::le16(s, 30),
    }
}

// Whether no count is above its most.
pub fn counts_fit(c: Counts) -> bool
    ensures { result ≡ counts_fit c }
{
    (c.objects <= 128)
        & (c.administrators <= 128)
        & (c.referrers <= 128)
        & (c.authorizations <= 1024)
        & (c.rules <= 64)
}

// Where the administrators start: behind the objects.
pub fn administrators_at(c: Counts) -> usize
    ensures { result ≡ administrators_at c }
{
    32 + PRIVILEGE_BYTES * (c.objects as usize)
}

// Where the referrers start.
pub fn referrers_at(c: Counts) -> usize
    ensures { result ≡ referrers_at c }
{
    administrators_at(c) + PRIVILEGE_BYTES * (c.administrators as usize)
}

// Where the authorizations start.
pub fn authorizations_at(c: Counts) -> usize
    ensures { result ≡ authorizations_at c }
{
    referrers_at(c) + PRIVILEGE_BYTES * (c.referrers as usize)
}

// Where the rules start.
pub fn rules_at(c: Counts) -> usize
    ensures { result ≡ rules_at c }
{
    authorizations_at(c) + AUTHORIZATION_BYTES * (c.authorizations as usize)
}

// Where the last body ends.
pub fn end_at(c: Counts) -> usize
    ensures { result ≡ end_at c }
{
    rules_at(c) + RULE_BYTES * (c.rules as usize)
}

// Writes the contents at a place: for each body where it starts and how many records it has.
fn put_contents(s: &mut [u8], at: usize, c: Counts)
    requires { (at + 20 ≤ length s.old) × (counts_fit c ≡ true) }
    ensures { s.new ≡ splice at (contents_of c) s.old }
{
    put_pair(s, at, 32, c.objects);
    put_pair(s, at + 4, administrators_at(c) as u16, c.administrators);
    put_pair(s, at + 8, referrers_at(c) as u16, c.referrers);
    put_pair(s, at + 12, authorizations_at(c) as u16, c.authorizations);
    put_pair(s, at + 16, rules_at(c) as u16, c.rules);
}

// Writes the contents of a base with these counts.
pub fn put_counts(s: &mut [u8], c: Counts)
    requires { (32 ≤ length s.old) × (counts_fit c ≡ true) }
    ensures { s.new ≡ splice 12 (contents_of c) s.old }
{
    put_contents(s, 12, c);
}

// Whether the mark, the zero bytes and the contents of a base are as its counts want them.
pub fn heading_fits(s: &[u8]) -> bool
    requires { (32 ≤ length s.now) × (counts_fit (counts_of s.now) ≡ true) }
    ensures { result ≡ heading_fits s.now }
{
    let mut wanted = [0u8; 20];
    put_contents(&mut wanted, 0, counts_of(s));
    marked(s) & (fields::le16(s, 10) == 0) & (s[12..32] == wanted[..])
}

// Makes an empty base in a lent buffer; one of another length is refused with 2.
pub fn create(s: &mut [u8]) -> Reply
    ensures { (result ≡ (create s.old).reply)
        × (s.new ≡ (create s.old).lent) }
{
    if s.len() != BASE_BYTES {
        return Reply::Refused(2);
    }
    s.fill(0);
    put_mark(s);
    put_counts(
        s,
        Counts {
            objects: 0,
            administrators: 0,
            referrers: 0,
            authorizations: 0,
            rules: 0,
        },
    );
    Reply::Done { label: 0, count: 0 }
}
