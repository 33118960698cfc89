// Masks of rules by what is on their left: a bit a rule, a word a coordinate, mode or sign.
ghost use Rattle.std.specs.Prelude.{◌≡◌, true, ◌&&◌, ◌||◌, ℕ, ◌+◌, ◌*◌, ◌≤◌, ◌<◌, eqb, leb, ltb, length, get_or};
ghost use Rattle.foundation.specs.Tests.{pick};
ghost use Rattle.foundation.specs.BitMasks.{bit};
ghost use Rattle.model.specs.Encoding.{decode};
ghost use Rattle.outlines.specs.LeftMasks.{object_word, subject_word, mode_word, in_word};
ghost use Rattle.outlines.specs.LeftMasks.{CodesPlaced, WrittenMasks, Owned};

use encoding::rule_at;
use lookup::SoundBase;
use model::{Access, RULE_BYTES};
use sections::{
    LEFT_DENIED_MODES, LEFT_MODES, LEFT_SIGNS, LEFT_SUBJECTS, STARRED_DENIED_MODES, STARRED_MODES,
    STARRED_OBJECTS, STARRED_SUBJECTS,
};

// Puts bit i into a word.
fn put_mask(left: &mut [u64], at: usize, i: u32)
    requires { (at < length left.old) × (i < 64) }
    ensures { (w r : ℕ) → bit r (get_or left.new w 0)
        ≡ bit r (get_or left.old w 0) || (eqb r i && eqb w at) }
{
    left[at] |= 1 << i;
}

// The word of an object's code.
fn object_word(code: usize) -> usize
    requires { code < 256 }
    ensures { result ≡ object_word code }
{
    if code == 255 {
        return STARRED_OBJECTS;
    }
    code
}

// The word of a subject's code.
fn subject_word(code: usize) -> usize
    requires { code < 256 }
    ensures { result ≡ subject_word code }
{
    if code == 255 {
        return STARRED_SUBJECTS;
    }
    LEFT_SUBJECTS + code
}

// The word of a mode's code, with a sign.
fn mode_word(code: usize, sign: usize) -> usize
    requires { (code < 256) × (sign < 2) }
    ensures { result ≡ mode_word code sign }
{
    if code == 255 {
        return STARRED_MODES + sign;
    }
    LEFT_MODES + (code + 8 * sign)
}

// Puts bit i into four words.
fn put_four(left: &mut [u64], i: u32, a: usize, b: usize, d: usize, e: usize)
    requires { (i < 64) × (a < length left.old) × (b < length left.old) × (d < length left.old)
        × (e < length left.old) }
    ensures { (w r : ℕ) → bit r (get_or left.new w 0)
        ≡ bit r (get_or left.old w 0) || (eqb r i && (eqb w a || eqb w b || eqb w d || eqb w e)) }
{
    put_mask(left, a, i);
    put_mask(left, b, i);
    put_mask(left, d, i);
    put_mask(left, e, i);
}

// Puts rule i into its words.
fn put_masks(left: &mut [u64], sides: &[u8], i: usize)
    requires { (i < 64) × CodesPlaced sides.now i × (256 ≤ length sides.now) × (length left.old ≡ 152) }
    ensures { (w r : ℕ) → bit r (get_or left.new w 0)
        ≡ bit r (get_or left.old w 0) || (eqb r i && in_word sides.now i w) }
{
    let sign = usize::from(sides[4 * i + 3]) % 2;
    let object = object_word(usize::from(sides[4 * i]));
    let subject = subject_word(usize::from(sides[4 * i + 1]));
    let mode = mode_word(usize::from(sides[4 * i + 2]), sign);
    put_four(left, i as u32, object, subject, mode, LEFT_SIGNS + sign);
}

// Puts each rule into its words.
fn gather(left: &mut [u64], sides: &[u8], n: usize)
    requires { (n ≤ 64) × ((r : ℕ) → r < n → CodesPlaced sides.now r)
        × ((w : ℕ) → get_or left.old w 0 ≡ 0)
        × (256 ≤ length sides.now) × (length left.old ≡ 152) }
    ensures { (w r : ℕ) → bit r (get_or left.new w 0)
        ≡ ltb r n && in_word sides.now r w }
{
    for i in 0..n {
        put_masks(left, sides, i);
    }
}

// Joins rules to the words from `from` up to, and without, `to`.
fn spread(left: &mut [u64], from: usize, to: usize, rules: u64)
    requires { (from ≤ to) × (to ≤ length left.old) }
    ensures { (w r : ℕ) → bit r (get_or left.new w 0)
        ≡ bit r (get_or left.old w 0) || (leb from w && ltb w to && bit r rules) }
{
    for w in from..to {
        left[w] |= rules;
    }
}

// The masks of the left sides as written, by coordinate from 1 on, by mode and by sign.
pub fn draw_masks(sides: &[u8], n: usize, subjects: usize, left: &mut [u64])
    requires { (n ≤ 64) × (subjects ≤ 65) × ((r : ℕ) → r < n → CodesPlaced sides.now r)
        × ((w : ℕ) → get_or left.old w 0 ≡ 0) × (256 ≤ length sides.now) × (length left.old ≡ 152) }
    ensures { WrittenMasks n subjects sides.now left.new }
{
    gather(left, sides, n);
    let any = left[STARRED_SUBJECTS];
    spread(left, LEFT_SUBJECTS, LEFT_SUBJECTS + subjects, any);
    let positive = left[STARRED_MODES];
    spread(left, LEFT_MODES, LEFT_DENIED_MODES, positive);
    let denied = left[STARRED_DENIED_MODES];
    spread(left, LEFT_DENIED_MODES, LEFT_SIGNS, denied);
}

// Stores a word.
pub fn put_word(table: &mut [u64], at: usize, v: u64)
    requires { at < length table.old }
    ensures { (w : ℕ) → get_or table.new w 0
        ≡ pick (eqb w at) v (get_or table.old w 0) }
{
    table[at] = v;
}

// The masks of coordinate 0, that of the asked object and of the asked subject.
pub fn own_masks(base: &SoundBase<'_>, body: &[u8], n: usize, x: Access, left: &mut [u64])
    requires { (n * 28 ≤ length body.now) × (n ≤ 64)
        × (length left.old ≡ 152) }
    ensures { Owned (decode base.now.bytes.now) n body.now x left.old
        left.new }
{
    let mut objects = 0;
    let mut subjects = 0;
    for i in (0..n).rev() {
        let r = rule_at(body, i * RULE_BYTES);
        let object = base.stands_on(r, x.object);
        let subject = (r.left.subject == 0) | (u32::from(r.left.subject) == x.subject);
        objects = 2 * objects + u64::from(object);
        subjects = 2 * subjects + u64::from(subject);
    }
    put_word(left, 0, objects);
    put_word(left, LEFT_SUBJECTS, subjects);
}
