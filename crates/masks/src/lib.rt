// Masks of rules, a bit a rule: those that are needed, fed, ready or still to do. And what a window needs
// before its rules have their turn: their instants, empty fields, and how wide a field can be.
#![tactic(auto)]

mod subset;

ghost use Rattle.std.specs.Prelude.{◌≡◌, true, not, ◌&&◌, ◌||◌, ℕ, ◌+◌, ◌*◌, ◌/◌, ◌%◌, ◌^◌, ◌≤◌, ◌<◌, eqb, ltb, length, get_or, IfSome};
ghost use Rattle.foundation.specs.BitMasks.{bit};
ghost use Rattle.encoding.specs.Format.{rule_at};
ghost use Rattle.windows.specs.Windows.{Rising, inside};
ghost use Rattle.masks.specs.RuleMasks.{Alone, ReadyRule, StandsOnNeed, PairCode, Needed};

use encoding::rule_at;
use model::RULE_BYTES;
use places::{pair_index, pair_of_code};
use sections::{LEFT_MODES, LEFT_SUBJECTS};
pub use subset::those;
use words::{high_part, low_part, ones};

// A rule of a mask, and whether one goes upwards from it.
#[derive(Clone, Copy, PartialEq, Eq)]
pub struct Next {
    pub rule: u32,
    pub up: bool,
}

// Whether bit r is set.
pub fn has_bit(m: u64, r: u32) -> bool
    requires { r < 64 }
    ensures { result ≡ bit r m }
{
    (m >> r) % 2 == 1
}

// The mask with bit r.
fn with_bit(m: u64, r: u32) -> u64
    requires { r < 64 }
    ensures { (i : ℕ) → bit i result ≡ bit i m || eqb i r }
{
    m | (1 << r)
}

// The mask without bit r, which it has.
pub fn without_rule(m: u64, r: u32) -> u64
    requires { (r < 64) × (bit r m ≡ true) }
    ensures { (result < m) × ((i : ℕ) → bit i result ≡ bit i m && not (eqb i r)) }
{
    m - (m & (1 << r))
}

// The mask, with bit r where a test says so.
pub fn with_if(m: u64, r: u32, b: bool) -> u64
    requires { r < 64 }
    ensures { (i : ℕ) → bit i result ≡ bit i m || (eqb i r && b) }
{
    if b { with_bit(m, r) } else { m }
}

// Puts bit r into the words of those of a mask, counted from a place on.
pub fn hand_on(words: &mut [u64], from: usize, m: u64, r: u32)
    requires { (r < 64) × (from + 64 ≤ length words.old) }
    ensures { ((w : ℕ) → w < from → get_or words.new w 0 ≡ get_or words.old w 0)
        × ((i q : ℕ) → bit q (get_or words.new (from + i) 0)
        ≡ bit q (get_or words.old (from + i) 0) || (eqb q r && bit i m)) }
{
    for i in ones(m) {
        words[from + i as usize] |= 1 << r;
    }
}

// For each rule of a mask those of the mask that look at it. `feed` has for each rule those it looks at.
pub fn transpose(feed: &[u64], rules: u64, fed: &mut [u64; 64])
    requires { ((r : ℕ) → r < 64 → get_or fed.old r 0 ≡ 0) × (64 ≤ length feed.now) }
    ensures { (r q : ℕ) → r < 64 → bit q (get_or fed.new r 0)
        ≡ bit q rules && (bit r (get_or feed.now q 0) && bit r rules) }
{
    for q in ones(rules) {
        hand_on(fed, 0, feed[q as usize] & rules, q);
    }
}

// The rules that have not had their turn. `feed` has for each rule those it looks at.
#[derive(Drop)]
struct Rest<'a> {
    feed: &'a [u64],
    rules: u64,
    ghost whole: { 64 ≤ length feed.now },
}

impl<'a> Rest<'a> {
    // Whether rule k looks at none of the rest.
    fn is_ready(&self, k: u32) -> bool
        requires { k < 64 }
        ensures { result ≡ true → Alone self.now.feed.now self.now.rules k }
    {
        self.feed[k as usize] & self.rules == 0
    }

    // The first rule of the rest, from r on, that looks at none of it.
    fn first_from(&self, r: u32) -> Option<Next>
        requires { r ≤ 64 }
        ensures { IfSome result (λ n. ReadyRule self.now.feed.now self.now.rules n.rule) }
    {
        for k in ones(high_part(self.rules, r)) {
            if self.is_ready(k) {
                return Some(Next { rule: k, up: true });
            }
        }
        None
    }

    // The last one below r.
    fn last_below(&self, r: u32) -> Option<Next>
        requires { r ≤ 64 }
        ensures { IfSome result (λ n. ReadyRule self.now.feed.now self.now.rules n.rule) }
    {
        for k in ones(low_part(self.rules, r)).rev() {
            if self.is_ready(k) {
                return Some(Next { rule: k, up: false });
            }
        }
        None
    }
}

// A rule of the rest that looks at none of it: going on from the last one as long as there is one, then back,
// so that a chain of rules is gone through once, whichever way it is numbered.
pub fn next_ready(feed: &[u64], rest: u64, last: Next) -> Option<Next>
    requires { (last.rule ≤ 64) × (64 ≤ length feed.now) }
    ensures { IfSome result (λ n. ReadyRule feed.now rest n.rule) }
{
    let rest = Rest { feed, rules: rest };
    let r = last.rule;
    if last.up {
        match rest.first_from(r) {
            Some(n) => Some(n),
            None => rest.last_below(r),
        }
    } else {
        match rest.last_below(r) {
            Some(n) => Some(n),
            None => rest.first_from(r),
        }
    }
}

// Those of a mask that are in stratum k.
pub fn of_stratum(strata: &[u64], rest: u64, k: u64) -> u64
    requires { 64 ≤ length strata.now }
    ensures { (i : ℕ) → bit i result
        ≡ ltb i 64 && bit i rest && eqb (get_or strata.now i 0) k }
{
    let mut m = 0;
    for r in ones(rest) {
        m = with_if(m, r, strata[r as usize] == k);
    }
    m
}

// A rule of a mask that has one. Which it is costs turns alone: going upwards from the last one the next, at
// the end downwards, and so on.
pub fn next_dirty(dirty: u64, last: Next) -> Next
    requires { (0 < dirty) × (last.rule < 64) }
    ensures { (result.rule < 64) × (bit result.rule dirty ≡ true) }
{
    if last.up {
        if let Some(k) = ones(high_part(dirty, last.rule + 1)).next() {
            return Next { rule: k, up: true };
        }
    }
    match ones(low_part(dirty, last.rule)).next_back() {
        Some(k) => Next { rule: k, up: false },
        None => Next {
            rule: u64::trailing_zeros(dirty),
            up: true,
        },
    }
}

// The rules that stand at a pair with a mode and a sign that are needed there.
fn at_pair(left: &[u64], o: usize, s: usize, need: u16) -> u64
    requires { (o < 65) × (s < 65) × (152 ≤ length left.now) }
    ensures { StandsOnNeed left.now o s need result }
{
    let mut m = 0;
    for k in ones(u64::from(need)) {
        m |= left[LEFT_MODES + k as usize];
    }
    left[o] & left[LEFT_SUBJECTS + s] & m
}

// The rules that stand at a place that is needed, or more. `codes` has the pairs.
pub fn needed_rules(left: &[u64], need: &[u16], codes: &[u16], pairs: usize, subjects: usize) -> u64
    requires { (pairs ≤ length codes.now) × ((n : ℕ) → n < pairs →
        PairCode subjects (length need.now) (get_or codes.now n 0)) × (152 ≤ length left.now) }
    ensures { Needed left.now need.now codes.now subjects pairs result }
{
    let mut m = 0;
    for n in 0..pairs {
        let p = pair_of_code(codes[n]);
        m |= at_pair(left, p.object, p.subject, need[pair_index(p, subjects)]);
    }
    m
}

// The instants of a window at which each rule of a mask is active.
pub fn spans(
    body: &[u8],
    n: usize,
    needed: u64,
    marks: &[u32; 63],
    count: usize,
    active: &mut [u64],
)
    requires { ((r : ℕ) → bit r needed ≡ true → r < n) × (n * 28 ≤ length body.now) × (n ≤ 64)
        × (count ≤ 63) × Rising count marks.now × (length active.old ≡ 64) }
    ensures by_index { (r j : ℕ) → bit r needed ≡ true → bit j (get_or active.new r 0)
        ≡ inside count marks.now (rule_at body.now r).interval j }
    ensures active_len { length active.new ≡ 64 }
{
    for r in ones(needed) {
        let i = r as usize;
        let q = rule_at(body, i * RULE_BYTES);
        active[i] = windows::span(marks, count, q.interval);
    }
}

// Clears the first n words.
pub fn clear_words(words: &mut [u64], n: usize)
    requires { n ≤ length words.old }
    ensures { ((j : ℕ) → j < n → get_or words.new j 0 ≡ 0)
        × (length words.new ≡ length words.old) }
{
    words[..n].fill(0);
}

// How many words hold fields of 2^k bits.
pub fn words_for(fields: u32, k: u32) -> usize
    requires { k ≤ 6 }
    ensures { result ≡ (fields * 2 ^ k + 63) / 64 }
{
    (((fields as usize) << k) + 63) / 64
}

// How wide the fields can be that words hold: 2^k bits.
pub fn width_for(fields: u32, words: usize) -> u32
    requires { fields ≤ 64 * words }
    ensures { (result ≤ 6) × (fields * 2 ^ result ≤ 64 * words) }
{
    (1..=6)
        .rev()
        .find(|k| words_for(fields, *k) <= words)
        .unwrap_or(0)
}
