// What is drawn of the rules, as words that can be lent to many questions.
ghost use Rattle.std.specs.Prelude.{◌≡◌, true, ◌+◌, ◌*◌, ◌≤◌, length, drop};
ghost use Rattle.foundation.specs.Bytes.{le, bytes_of};
ghost use Rattle.fields.specs.Field.{splice};
ghost use Rattle.model.specs.Base.{Base};
ghost use Rattle.model.specs.Answers.{access_in};
ghost use Rattle.model.specs.Encoding.{decode};
ghost use Rattle.model.specs.Rules.{may};
ghost use Rattle.model.specs.Soundness.{sound_bytes};
ghost use Rattle.outlines.specs.Coordinates.{WellFormed};
ghost use Rattle.queries.specs.AskedBases.{Asked, IsAsked};
ghost use Rattle.queries.specs.Drawing.{Blank};
ghost use Rattle.queries.specs.HandedOn.{bytes_in, HandedBy, HandedIn, HandedOn};

use crate::asked::AskedBase;
use crate::outlining::{draw, with_drawn};
use crate::{AccessQuery, Extent};
use fields::{le32, put32};
use model::Access;
use sections::{
    CHOOSY, COORDINATES, DRAWN, LEFT, OBJECT_COUNT, OUTLINE, PACKED, SIDES, SUBJECT_COUNT,
};

// The word of the eight bytes at a place, the first one lowest.
fn word_at(bytes: &[u8], at: usize) -> u64
    requires { at + 8 ≤ length bytes.now }
    ensures { result ≡ le 8 (drop at bytes.now) }
{
    le32(bytes, at) as u64 + 4294967296 * (le32(bytes, at + 4) as u64)
}

// Writes the eight bytes of a word at a place.
fn put_word_at(bytes: &mut [u8], at: usize, w: u64)
    requires { at + 8 ≤ length bytes.old }
    ensures { bytes.new ≡ splice at (bytes_of 8 w) bytes.old }
{
    put32(bytes, at, (w % 4294967296) as u32);
    put32(bytes, at + 4, (w / 4294967296) as u32);
}

// Writes bytes down as words.
fn pack(bytes: &[u8], words: &mut [u64])
    requires { length bytes.now ≡ 8 * length words.old }
    ensures { bytes_in words.new ≡ bytes.now }
{
    for i in 0..words.len() {
        words[i] = word_at(bytes, 8 * i);
    }
}

// Writes the bytes of words down.
fn unpack(words: &[u64], bytes: &mut [u8])
    requires { length bytes.old ≡ 8 * length words.now }
    ensures { bytes.new ≡ bytes_in words.now }
{
    for (i, w) in words.iter().enumerate() {
        put_word_at(bytes, 8 * i, *w);
    }
}

// Draws rules, and writes down what is drawn. The bytes are room to work in.
fn draw_words(s: &[u8], body: &[u8], n: usize, bytes: &mut [u8], words: &mut [u64])
    requires { WellFormed n body.now × Blank words.old × Blank bytes.old
        × (length words.old ≡ 492) × (length bytes.old ≡ 1672) × (sound_bytes s.now ≡ true) }
    ensures { HandedBy (decode s.now) n body.now words.new }
{
    let e = draw(
        s,
        body,
        n,
        &mut words[LEFT..DRAWN],
        &mut bytes[SIDES..COORDINATES],
    );
    pack(bytes, &mut words[DRAWN..SUBJECT_COUNT]);
    words[SUBJECT_COUNT] = e.subjects as u64;
    words[OBJECT_COUNT] = e.objects as u64;
    words[CHOOSY] = e.choosy;
}

// Draws the rules of a base.
pub fn prepare(s: &[u8], words: &mut [u64])
    requires { (sound_bytes s.now ≡ true) × (length words.old ≡ 492) × Blank words.old }
    ensures { HandedOn s.now words.new }
{
    let c = encoding::counts_of(s);
    let at = encoding::rules_at(c);
    let mut bytes = [0u8; PACKED];
    draw_words(s, &s[at..], c.rules as usize, &mut bytes, words);
}

// Whether MAY says yes at t, by what was prepared of the base.
fn holds_drawn(base: &AskedBase<'_>, prepared: &[u64], x: Access, t: u32) -> bool
    requires { (length prepared.now ≡ 492) × HandedIn base.now.records.now base.now.totals prepared.now
        (decode base.now.bytes.now) × (access_in x ≡ true) × IsAsked base.now }
    ensures { (b : Base) → Asked base.now b → result ≡ may b x t }
{
    let mut outline = [0u64; OUTLINE];
    let mut coordinates = [0u8; PACKED];
    outline[LEFT..DRAWN].copy_from_slice(&prepared[LEFT..DRAWN]);
    unpack(&prepared[DRAWN..SUBJECT_COUNT], &mut coordinates);
    let e = Extent {
        subjects: prepared[SUBJECT_COUNT] as u32,
        objects: prepared[OBJECT_COUNT] as u32,
        choosy: prepared[CHOOSY],
    };
    let a = AccessQuery {
        access: x,
        instant: Some(t),
    };
    let mut none = [0u32; 0];
    with_drawn(
        base,
        a,
        e,
        &mut outline,
        &coordinates[SIDES..COORDINATES],
        &mut none,
    )
    .yes
}

// The same; where no rule stands for the access, the authorizations alone are asked.
pub fn holds_prepared(s: &[u8], prepared: &[u64], x: Access, t: u32) -> bool
    requires { (sound_bytes s.now ≡ true) × (access_in x ≡ true) × HandedOn s.now prepared.now }
    ensures { result ≡ may (decode s.now) x t }
{
    let base = AskedBase::new(s);
    if let Some(yes) = base.held_alone(x, t) {
        return yes;
    }
    holds_drawn(&base, prepared, x, t)
}
