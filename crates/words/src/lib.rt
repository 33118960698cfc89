// Fields in words: what is known of an instant each is a bit, and what is known of the instants of a window a
// field of 2^k bits. How wide a field is shows where it is read and joined, here, and in how many instants a
// window has and how many words a table takes.
#![tactic(auto)]

ghost use Rattle.std.specs.Prelude.{◌≡◌, ℕ, ◌+◌, ◌*◌, ◌^◌, ◌≤◌, ◌<◌, ◌-◌, length, true, false, ◌&&◌, leb, ltb};
ghost use Rattle.foundation.specs.BitMasks.{bit};
ghost use Rattle.words.specs.Ones.{all_from};
ghost use Rattle.words.specs.Fields.{field_of, joined, starts};
ghost use Rattle.words.specs.Sums.{SumGrown};

mod bits;

pub use bits::{SetBits, ones};

// The word whose lowest 2^k bits are set.
fn low_ones(k: u32) -> u64
    requires { k ≤ 6 }
    ensures { result ≡ 2 ^ (2 ^ k) - 1 }
{
    let width: u32 = 1 << k;
    18446744073709551615 >> (64 - width)
}

// Where field i starts.
fn start_of(k: u32, i: u32) -> usize
    requires { k ≤ 6 }
    ensures { result ≡ starts k i }
{
    (i as usize) << k
}

// Field i of a table.
pub fn field_at(words: &[u64], k: u32, i: u32) -> u64
    requires { (k ≤ 6) × (starts k i < 64 * length words.now) }
    ensures { result ≡ field_of k words.now i }
{
    let n = start_of(k, i);
    (words[n / 64] >> (n % 64)) & low_ones(k)
}

// Joins v to field i; whether that is new. The other fields stay.
pub fn join_at(words: &mut [u64], k: u32, i: u32, v: u64) -> bool
    requires { (k ≤ 6) × (starts k i < 64 * length words.old) × (v < 2 ^ (2 ^ k)) }
    ensures { ((j : ℕ) → field_of k words.new j ≡ joined k words.old i v j)
        × (length words.new ≡ length words.old)
        × SumGrown result words.old words.new }
{
    let n = start_of(k, i);
    let old = words[n / 64];
    let new = old | (v << (n % 64));
    words[n / 64] = new;
    old != new
}

// The word with ones from bit a up to, and without, bit e.
pub fn span_of(a: u32, e: u32) -> u64
    requires { (a ≤ e) × (e < 64) }
    ensures { (i : ℕ) → bit i result ≡ leb a i && ltb i e }
{
    (1 << e) - (1 << a)
}

// The ones of x from bit a on, up to the first bit behind it that is not set.
pub fn ones_from(x: u64, a: u32) -> u64
    requires { (x < 9223372036854775808) × (a < 64) }
    ensures { (result ≤ x) × ((i : ℕ) → bit i result ≡ all_from a i x) }
{
    let y = x >> a;
    (y - (y & (y + 1))) << a
}

// The bits of m below the r-th.
pub fn low_part(m: u64, r: u32) -> u64
    requires { r ≤ 64 }
    ensures { (i : ℕ) → bit i result ≡ ltb i r && bit i m }
{
    if r < 64 { m & ((1 << r) - 1) } else { m }
}

// The bits of m from the r-th on.
pub fn high_part(m: u64, r: u32) -> u64
    requires { r ≤ 64 }
    ensures { (i : ℕ) → bit i result ≡ leb r i && bit i m }
{
    if r < 64 { (m >> r) << r } else { 0 }
}

// The first bit of m from the r-th on that is set, or 64.
pub fn next_bit(m: u64, r: u32) -> u32
    requires { r ≤ 64 }
    ensures { (r ≤ result) × (result ≤ 64) × ((i : ℕ) → r ≤ i → i < result → bit i m ≡ false)
        × (result < 64 → bit result m ≡ true) }
{
    if 64 <= r {
        return 64;
    }
    let k = r + u64::trailing_zeros(m >> r);
    if k < 64 {
        return k;
    }
    64
}

// m without its lowest bit, whichever that is.
pub fn without_lowest(m: u64) -> u64
    requires { 1 ≤ m }
    ensures { (k : ℕ) → ((j : ℕ) → j < k → bit j m ≡ false) → bit k m ≡ true →
        (i : ℕ) → bit i result ≡ ltb k i && bit i m }
{
    m & (m - 1)
}
