// What is near: the next mark of each kind, kept from mark to mark, so that only the kinds whose mark was
// reached are looked at again.
ghost use Rattle.std.specs.Prelude.{◌≡◌, ℕ, ◌*◌, ◌≤◌, List, length};
ghost use Rattle.foundation.specs.Marks.{next};
ghost use Rattle.model.specs.declared.Authorization.{Authorization};
ghost use Rattle.model.specs.declared.Rule.{Rule};
ghost use Rattle.model.specs.Means.{marks};
ghost use Rattle.encoding.specs.Format.{rules_in};
ghost use Rattle.marks.specs.Least.{NextMark};
ghost use Rattle.relevance.specs.Chosen.{Picks, picked, selected, Matters};
ghost use Rattle.relevance.specs.Distance.{line_edges, rule_edges};
ghost use Rattle.relevance.specs.Ahead.{IsNext, NearAt, Standing};

use crate::Chosen;
use crate::distance::{nearest_line, nearest_rule};

// The next start, and the next instant behind an end; 2^32 where there is none. That is a number, and no
// Option: it is the instant behind the last one, which an end at the last one has as its mark, and the next of
// all marks is the least number.
#[derive(Clone, Copy)]
pub struct Edges {
    pub starts: u64,
    pub ends: u64,
}

// Those of the authorizations and of the rules that matter.
#[derive(Clone, Copy)]
pub struct Near {
    pub lines: Edges,
    pub rules: Edges,
}

// Nothing is known yet: numbers that lie above no instant.
pub fn nothing_near() -> Near
    ensures { (xs : List Authorization) (rs : List Rule) (t : ℕ) → Standing xs rs t result }
{
    let none = Edges { starts: 0, ends: 0 };
    Near {
        lines: none,
        rules: none,
    }
}

// The next mark of one kind of n authorizations: the known one, if it is above t.
fn line_ahead(lines: &[u8], which: &[u16], n: usize, ends: bool, t: u32, known: u64) -> u64
    requires { Picks lines.now which.now n
        × IsNext t (line_edges ends (picked lines.now which.now n)) known }
    ensures { result
        ≡ next t (line_edges ends (picked lines.now which.now n)) 4294967296 }
{
    if (t as u64) < known {
        return known;
    }
    nearest_line(lines, which, n, ends, t)
}

// The same of the rules of k that are needed.
fn rule_ahead(body: &[u8], k: usize, needed: u64, ends: bool, t: u32, known: u64) -> u64
    requires { (k * 28 ≤ length body.now) × (k ≤ 64)
        × IsNext t (rule_edges ends (selected needed (rules_in k body.now))) known }
    ensures { result
        ≡ next t (rule_edges ends (selected needed (rules_in k body.now))) 4294967296 }
{
    if (t as u64) < known {
        return known;
    }
    nearest_rule(body, k, needed, ends, t)
}

// What is near at t, from what was near before.
pub fn near_at(lines: &[u8], which: &[u16], body: &[u8], c: Chosen, known: Near, t: u32) -> Near
    requires { Matters lines.now which.now body.now c
        × Standing (picked lines.now which.now c.authorizations)
        (selected c.needed (rules_in c.rules body.now)) t known }
    ensures { NearAt (picked lines.now which.now c.authorizations)
        (selected c.needed (rules_in c.rules body.now)) t result }
{
    let n = c.authorizations;
    let l = known.lines;
    let r = known.rules;
    Near {
        lines: Edges {
            starts: line_ahead(lines, which, n, false, t, l.starts),
            ends: line_ahead(lines, which, n, true, t, l.ends),
        },
        rules: Edges {
            starts: rule_ahead(body, c.rules, c.needed, false, t, r.starts),
            ends: rule_ahead(body, c.rules, c.needed, true, t, r.ends),
        },
    }
}

// The least mark above the instant t at which n is near, or 2^32 where there is none. What of n lies above
// that mark stands there too.
pub fn next_of(n: Near) -> u64
    ensures { (xs : List Authorization) (rs : List Rule) (t : ℕ) → NearAt xs rs t n →
        (result ≡ next t (marks xs rs) 4294967296) × NextMark xs rs t result × Standing xs rs result n }
{
    let l = n.lines;
    let r = n.rules;
    l.starts.min(l.ends.min(r.starts.min(r.ends)))
}
