// The next mark of one kind, the starts or the ends of authorizations or of rules, by distances: how far
// behind the instant after t a mark lies, modulo 2^32. What is not behind t is then farther than what is, so
// that the least distance is all that is looked for.
ghost use Rattle.std.specs.Prelude.{◌≡◌, ◌*◌, ◌≤◌, length};
ghost use Rattle.foundation.specs.Marks.{next};
ghost use Rattle.encoding.specs.Format.{rules_in};
ghost use Rattle.marks.specs.NextMarks.{sooner};
ghost use Rattle.relevance.specs.Chosen.{Picks, picked, selected};
ghost use Rattle.relevance.specs.Distance.{edge, line_edges, rule_edges, Away, reached};

use encoding::{authorization_at, rule_at};
use foundation::Interval;
use model::{AUTHORIZATION_BYTES, RULE_BYTES};
use words::ones;

// The distance of an interval's start, or of the instant behind its end.
fn distance_of(i: Interval, ends: bool, t: u32) -> u32
    ensures { Away t (edge ends i) result }
{
    if ends {
        return i.end.wrapping_sub(t);
    }
    i.start.wrapping_sub(t).wrapping_sub(1)
}

// The lesser of a distance and that of an interval's mark.
fn nearer_mark(best: u64, i: Interval, ends: bool, t: u32) -> u64
    ensures { reached t result ≡ sooner t (edge ends i) (reached t best) }
{
    best.min(distance_of(i, ends, t) as u64)
}

// The mark at a distance, or 2^32 where that lies behind the last instant.
fn mark_at(t: u32, d: u64) -> u64
    ensures { result ≡ reached t d }
{
    if d < (4294967295 - t) as u64 {
        return t as u64 + 1 + d;
    }
    4294967296
}

// The least start, or instant behind an end, of n authorizations above t; 2^32 where there is none.
pub fn nearest_line(lines: &[u8], which: &[u16], n: usize, ends: bool, t: u32) -> u64
    requires { Picks lines.now which.now n }
    ensures { result
        ≡ next t (line_edges ends (picked lines.now which.now n)) 4294967296 }
{
    let mut best = 4294967295;
    for w in &which[..n] {
        let a = authorization_at(lines, *w as usize * AUTHORIZATION_BYTES);
        best = nearer_mark(best, a.interval, ends, t);
    }
    mark_at(t, best)
}

// The same of the rules of k that are needed. The two loops differ in what they walk, a list of numbers and
// the bits of a mask, and share their turn, `nearer_mark`.
pub fn nearest_rule(body: &[u8], k: usize, needed: u64, ends: bool, t: u32) -> u64
    requires { (k * 28 ≤ length body.now) × (k ≤ 64) }
    ensures { result
        ≡ next t (rule_edges ends (selected needed (rules_in k body.now))) 4294967296 }
{
    let mut best = 4294967295;
    for r in ones(needed) {
        if k <= r as usize {
            break;
        }
        let q = rule_at(body, r as usize * RULE_BYTES);
        best = nearer_mark(best, q.interval, ends, t);
    }
    mark_at(t, best)
}
