// Starred rules: each stands for the objects that its author owns or administers.
ghost use Rattle.std.specs.Prelude.{◌≡◌, true, ◌&&◌, ◌||◌, ℕ, ◌*◌, ◌≤◌, ◌<◌, eqb, length, get_or};
ghost use Rattle.foundation.specs.BitMasks.{bit};
ghost use Rattle.outlines.specs.Coordinates.{Apart};
ghost use Rattle.outlines.specs.LeftMasks.{controlled_by, Controlled};

use crate::left::put_word;
use encoding::rule_at;
use lookup::SoundBase;
use masks::those;
use model::RULE_BYTES;
use sections::STARRED_OBJECTS;

// Of some rules those whose author controls an object.
fn by_control(base: &SoundBase<'_>, body: &[u8], n: usize, f: u64, o: u32) -> u64
    requires { (n * 28 ≤ length body.now)
        × ((q : ℕ) → bit q f ≡ true → q < n) }
    ensures { (q : ℕ) → bit q result
        ≡ bit q f && controlled_by base.now.bytes.now body.now o q }
{
    those(f, |q| {
        let r = rule_at(body, (q as usize) * RULE_BYTES);
        base.controls(o, u32::from(r.author))
    })
}

// Joins to the word of object v, at `at`, the starred rules whose author controls it; where v has no word,
// `at` is 0.
fn join_controlled(
    base: &SoundBase<'_>,
    body: &[u8],
    n: usize,
    starred: u64,
    v: usize,
    at: usize,
    left: &mut [u64],
)
    requires { (n * 28 ≤ length body.now)
        × ((q : ℕ) → bit q starred ≡ true → q < n) × (v < 130) × (at < 65) × (length left.old ≡ 152) }
    ensures { ((w r : ℕ) → 0 < w → bit r (get_or left.new w 0)
        ≡ bit r (get_or left.old w 0)
        || (eqb w at && (bit r starred && controlled_by base.now.bytes.now body.now v r)))
        × ((w : ℕ) → 65 ≤ w → get_or left.new w 0 ≡ get_or left.old w 0) }
{
    if at == 0 {
        return;
    }
    let f = left[at] | by_control(base, body, n, starred, v as u32);
    put_word(left, at, f);
}

// Joins to the word of each object that has a coordinate the starred rules whose author controls it.
fn join_each(base: &SoundBase<'_>, body: &[u8], n: usize, objects: &[u8], left: &mut [u64])
    requires { (n * 28 ≤ length body.now) × Apart objects.now
        × ((q : ℕ) → bit q (get_or left.old 151 0) ≡ true → q < n) × (length objects.now ≡ 130)
        × (length left.old ≡ 152) }
    ensures { Controlled base.now.bytes.now body.now objects.now
        left.old left.new }
{
    let starred = left[STARRED_OBJECTS];
    for (v, code) in objects.iter().enumerate() {
        join_controlled(base, body, n, starred, v, usize::from(*code), left);
    }
}

// Joins the starred rules to the objects that their authors control. Bases without stars pay nothing.
pub fn draw_controlled(
    base: &SoundBase<'_>,
    body: &[u8],
    n: usize,
    objects: &[u8],
    left: &mut [u64],
)
    requires { (n * 28 ≤ length body.now) × Apart objects.now
        × ((q : ℕ) → bit q (get_or left.old 151 0) ≡ true → q < n) × (length objects.now ≡ 130)
        × (length left.old ≡ 152) }
    ensures { Controlled base.now.bytes.now body.now objects.now
        left.old left.new }
{
    if left[STARRED_OBJECTS] == 0 {
        return;
    }
    join_each(base, body, n, objects, left);
}
