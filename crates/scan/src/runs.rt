// The intervals of WHEN, written down from left to right, as many as the list has room for.
ghost use Rattle.std.specs.Prelude.{◌≡◌, Bool, true, false, List, ℕ, suc, ◌+◌, ◌≤◌, ◌<◌, length, get_or};
ghost use Rattle.foundation.specs.Intervals.{maximal};
ghost use Rattle.windows.specs.Windows.{Rising};
ghost use Rattle.scan.specs.Filled.{with_pair, filled};
ghost use Rattle.scan.specs.Runs.{inside, ScannedTo, AskedAt, Answered};

use crate::Track;

// Puts an interval behind the first c of the list, if there is room for it.
fn put_run(list: &mut [u32], c: usize, from: u32, to: u32)
    requires { c < 1152 }
    ensures { list.new ≡ with_pair c from to list.old }
{
    if 2 * c + 1 < list.len() {
        list[2 * c] = from;
        list[2 * c + 1] = to;
    }
}

// What is known once it is asked at t, and the answer is `yes`.
pub fn note(list: &mut [u32], w: Track, t: u32, yes: bool) -> Track
    requires { inside w ≡ true → yes ≡ false → (0 < t) × (w.count < 1152) }
    ensures by_index { (f : ℕ → Bool) (e : ℕ) (lent : List ℕ) → ScannedTo f e lent t w list.old →
        yes ≡ f t → t ≤ e → AskedAt f e lent t result list.new }
    ensures count_bound { result.count ≤ w.count + 1 }
{
    match (w.began, yes) {
        (None, true) => Track {
            count: w.count,
            began: Some(t),
        },
        (Some(from), false) => {
            put_run(list, w.count, from, t - 1);
            Track {
                count: w.count + 1,
                began: None,
            }
        }
        _ => w,
    }
}

// What is known once it is asked at the instants of a window, one after the other; bit i of `yes` is the
// answer at the i-th. There are at most 1,089 intervals, and no instant adds more than one.
pub fn note_word(list: &mut [u32], w: Track, marks: &[u32; 63], count: usize, yes: u64) -> Track
    requires { (1 ≤ count) × (count ≤ 63) × Rising count marks.now
        × (inside w ≡ true → 0 < get_or marks.now 0 0) × (w.count ≤ 1089) }
    ensures { (f : ℕ → Bool) (e : ℕ) (lent : List ℕ) (m : ℕ) →
        ScannedTo f e lent (get_or marks.now 0 0) w list.old →
        Answered f e count marks.now m yes → ScannedTo f e lent m result list.new }
{
    let mut r = w;
    for i in 0..count {
        r = note(list, r, marks[i], (yes >> (i as u32)) % 2 == 1);
    }
    r
}

// How many intervals there are, once the last instant, e, has been asked about.
pub fn finish_runs(list: &mut [u32], w: Track, e: u32) -> usize
    requires { inside w ≡ true → w.count < 1089 }
    ensures { (f : ℕ → Bool) (lent : List ℕ) → ScannedTo f e lent (suc e) w list.old →
        (result ≡ length (maximal 0 e f)) × (list.new ≡ filled (maximal 0 e f) lent) }
{
    match w.began {
        Some(from) => {
            put_run(list, w.count, from, e);
            w.count + 1
        }
        None => w.count,
    }
}
