// Reach: which places a question can rest on. From the place that is asked about, each rule that stands at a
// needed place leads to the place of its right side.
#![tactic(auto)]

ghost use Rattle.std.specs.Prelude.{◌≡◌, Bool, true, ℕ, ◌+◌, ◌*◌, ◌/◌, ◌%◌, ◌≤◌, ◌<◌, length, get_or, MatchOption};
ghost use Rattle.foundation.specs.BitMasks.{bit};
ghost use Rattle.reach.specs.Net.{standing, turned, right_pair, right_needs, Led, Formed, has};
ghost use Rattle.reach.specs.Net.{net_of, ClosedNet, Only};
ghost use Rattle.reach.specs.Reach.{Grown, KeepsWithin, ReachStep};

mod net;

use net::{Origin, RuleNet};
use places::pair_of_index;
use words::ones;

// Needs bits at a pair; what is new is to do.
fn ask(need: &mut [u16], todo: &mut [u16], pair: usize, bits: u16)
    requires { (pair < length need.old) × (pair < length todo.old) }
    ensures { Grown need.old todo.old need.new todo.new
        × ((b : ℕ) → bit b bits ≡ true → has need.new pair b ≡ true)
        × ((P : ℕ → Bool) → P pair ≡ true →
        KeepsWithin P need.old todo.old need.new todo.new) }
{
    let old = need[pair];
    need[pair] = old | bits;
    todo[pair] = todo[pair] | (bits - (bits & old));
}

// Needs what rules look at that stand at a place.
fn follow(net: &RuleNet, rules: u64, at: Origin, need: &mut [u16], todo: &mut [u16])
    requires { (length todo.old ≡ length need.old) × ((r : ℕ) → r < 64 →
        Led net.now.right.now net.now.subjects (length need.old) at.object at.subject at.mode r) }
    ensures { Grown need.old todo.old need.new todo.new
        × ((r : ℕ) → r < 64 → bit r rules ≡ true → (b : ℕ) →
        bit b (right_needs net.now.right.now r at.mode) ≡ true →
        has need.new (right_pair net.now.right.now net.now.subjects r at.object at.subject) b
        ≡ true)
        × ((P : ℕ → Bool) → ((r : ℕ) → r < 64 → bit r rules ≡ true →
        P (right_pair net.now.right.now net.now.subjects r at.object at.subject) ≡ true) →
        KeepsWithin P need.old todo.old need.new todo.new) }
{
    for r in ones(rules) {
        let q = r as usize;
        let pair = net.right_pair(q, at);
        let bits = net.right_needs(q, at.mode);
        ask(need, todo, pair, bits);
    }
}

// Follows one bit of what is to do at a pair.
fn follow_bit(net: &RuleNet, pair: usize, need: &mut [u16], todo: &mut [u16])
    requires { Formed net.now.right.now net.now.subjects (length need.old)
        × (length todo.old ≡ length need.old)
        × (pair < length need.old) × (0 < get_or todo.old pair 0) }
    ensures { ReachStep (net_of net.now) need.old todo.old need.new todo.new }
{
    let k = lowest(todo[pair]);
    let p = pair_of_index(pair, net.subjects);
    let at = Origin {
        object: p.object,
        subject: p.subject,
        mode: k % 8,
    };
    follow(net, net.stand(p.object, p.subject, k), at, need, todo);
    todo[pair] = without_bit(todo[pair], k);
}

// The first bit of a word of 16 that is not 0.
fn lowest(x: u16) -> usize
    requires { 0 < x }
    ensures { (result < 16) × (bit result x ≡ true) }
{
    u16::trailing_zeros(x) as usize
}

// A word of 16 bits without bit k.
fn without_bit(x: u16, k: usize) -> u16
    requires { (k < 16) × (bit k x ≡ true) }
    ensures { (result < x) × ((i : ℕ) → bit i result ≡ true → bit i x ≡ true)
        × ((i : ℕ) → bit i x ≡ true → (i ≡ k → ⊥) → bit i result ≡ true) }
{
    x - (x & (1 << k))
}

// The first pair from `from` on with something to do.
fn first_todo(todo: &[u16], from: usize) -> Option<usize>
    requires { from ≤ length todo.now }
    ensures { MatchOption result
        ((i : ℕ) → from ≤ i → i < length todo.now → get_or todo.now i 0 ≡ 0)
        (λ j. (from ≤ j) × (j < length todo.now)
        × ((i : ℕ) → from ≤ i → i < j → get_or todo.now i 0 ≡ 0) × (0 < get_or todo.now j 0)) }
{
    (from..todo.len()).find(|i| todo[*i] != 0)
}

// A pair with something to do: the first from `from` on if there is one, else the first of all.
fn next_todo(todo: &[u16], from: usize) -> Option<usize>
    requires { from ≤ length todo.now }
    ensures { MatchOption result
        ((i : ℕ) → i < length todo.now → get_or todo.now i 0 ≡ 0)
        (λ j. (j < length todo.now) × (0 < get_or todo.now j 0)) }
{
    match first_todo(todo, from) {
        Some(j) => Some(j),
        None => first_todo(todo, 0),
    }
}

// Puts into `need` what a question that starts with bits at a pair can rest on, and no other pair. `todo` is
// a table to work in.
pub fn reach(
    left: &[u64],
    right: &[u8],
    subjects: usize,
    pair: usize,
    bits: u16,
    need: &mut [u16],
    todo: &mut [u16],
)
    requires { Formed right.now subjects (length need.old) × (length todo.old ≡ length need.old)
        × (pair < length need.old)
        × ((i : ℕ) → (get_or need.old i 0 ≡ 0) × (get_or todo.old i 0 ≡ 0)) × (152 ≤ length left.now)
        × (256 ≤ length right.now) }
    ensures { ClosedNet (record { left = left.now; right = right.now; subjects = subjects })
        need.new
        × ((b : ℕ) → bit b bits ≡ true → has need.new pair b ≡ true)
        × (length need.new ≡ length need.old)
        × Only (record { left = left.now; right = right.now; subjects = subjects }) pair
        need.new }
{
    let net = RuleNet {
        left,
        right,
        subjects,
    };
    ask(need, todo, pair, bits);
    let mut from = pair;
    while let Some(j) = next_todo(todo, from) {
        follow_bit(&net, j, need, todo);
        from = j;
    }
}
