// Windows: up to 63 instants in rising order, and an interval as a word, a bit an instant.
#![tactic(auto)]

ghost use Rattle.std.specs.Prelude.{◌≡◌, ℕ, ◌≤◌, ◌<◌, ltb, get_or};
ghost use Rattle.foundation.specs.BitMasks.{bit};
ghost use Rattle.windows.specs.Windows.{Rising, inside};

use foundation::Interval;

// An instant as a number that its successor fits too.
fn u64_of(t: u32) -> u64
    ensures { result ≡ t }
{
    t as u64
}

// How many of the first n instants are below t. Searched by hand: std's partition_point took 1.5 times as long
// over 63 instants.
fn marks_below(marks: &[u32; 63], n: usize, t: u64) -> usize
    requires { (n ≤ 63) × Rising n marks.now }
    ensures { (result ≤ n) × ((j : ℕ) → j < n → ltb (get_or marks.now j 0) t ≡ ltb j result) }
{
    let mut low = 0;
    let mut high = n;
    while low < high {
        let k = (low + high) / 2;
        if u64_of(marks[k]) < t {
            low = k + 1;
        } else {
            high = k;
        }
    }
    low
}

// The instants of the window that lie in an interval, as a word.
pub fn span(marks: &[u32; 63], n: usize, i: Interval) -> u64
    requires { (n ≤ 63) × Rising n marks.now }
    ensures { (j : ℕ) → bit j result ≡ inside n marks.now i j }
{
    let a = marks_below(marks, n, u64_of(i.start));
    let e = marks_below(marks, n, u64_of(i.end) + 1);
    if a < e {
        return words::span_of(a as u32, e as u32);
    }
    0
}
