// Which rule feeds which, and which precedes which.
ghost use Rattle.std.specs.Prelude.{◌≡◌, true, false, ◌&&◌, ℕ, ◌+◌, ◌*◌, ◌≤◌, ◌<◌, eqb, ltb, length, get_or};
ghost use Rattle.std.specs.Int.Bits.{bit_and, bit_or};
ghost use Rattle.foundation.specs.Tests.{pick};
ghost use Rattle.foundation.specs.BitMasks.{bit, mask_of};
ghost use Rattle.model.specs.Rules.{fits_grantor};
ghost use Rattle.model.specs.Stratification.{fits_option};
ghost use Rattle.encoding.specs.Format.{rules_in, rule_at};
ghost use Rattle.rules.specs.RankTables.{RuleTable};
ghost use Rattle.sections.specs.Sections.{left_of, feed_of, sides_of, rights_of};
ghost use Rattle.outlines.specs.LeftMasks.{CodesPlaced};
ghost use Rattle.outlines.specs.Feed.{right_mode_word, meeting_word, linkers_word, is_choosy, Outlined};
ghost use Rattle.outlines.specs.Feed.{feeders_of, FeedTable};

use crate::left::put_word;
use encoding::rule_at;
use masks::{hand_on, those};
use model::{OptionTerm, RULE_BYTES, Rule};
use sections::{
    FEED, FIRST, LEFT, LEFT_DENIALS, LEFT_MODES, LEFT_SIGNS, LEFT_SUBJECTS, RIGHT, SIDES,
    STARRED_OBJECTS, SUBJECTS,
};
use words::ones;

// Whether a rule's right side names a grantor or an option.
fn is_choosy(r: Rule) -> bool
    ensures { result ≡ is_choosy r }
{
    match r.option {
        OptionTerm::With | OptionTerm::Without => true,
        OptionTerm::Either => r.grantor != 0,
    }
}

// The rules whose right side names a grantor or an option, as a mask.
pub fn choosy_of(body: &[u8], n: usize) -> u64
    requires { (n * 28 ≤ length body.now) × (n ≤ 64) }
    ensures { result ≡ mask_of is_choosy (rules_in n body.now) }
{
    let mut m = 0;
    for i in (0..n).rev() {
        m = 2 * m + u64::from(is_choosy(rule_at(body, i * RULE_BYTES)));
    }
    m
}

// Of some rules those by an author.
fn by_author(body: &[u8], n: usize, f: u64, author: u16) -> u64
    requires { (n * 28 ≤ length body.now) × ((q : ℕ) → bit q f ≡ true → q < n) }
    ensures { (q : ℕ) → bit q result ≡ bit q f && eqb author (rule_at body.now q).author }
{
    those(
        f,
        |q| rule_at(body, (q as usize) * RULE_BYTES).author == author,
    )
}

// Of some rules those whose author fits a right side's grantor.
fn by_grantor(body: &[u8], n: usize, f: u64, grantor: u16) -> u64
    requires { (n * 28 ≤ length body.now) × ((q : ℕ) → bit q f ≡ true → q < n) }
    ensures { (q : ℕ) → bit q result
        ≡ bit q f && fits_grantor grantor (rule_at body.now q).author }
{
    if grantor == 0 {
        return f;
    }
    by_author(body, n, f, grantor)
}

// Of some rules those that fit a right side's grantor and option.
fn by_grantor_and_option(body: &[u8], n: usize, f: u64, r: Rule) -> u64
    requires { (n * 28 ≤ length body.now) × ((q : ℕ) → bit q f ≡ true → q < n) }
    ensures { (q : ℕ) → bit q result ≡ bit q f
        && fits_grantor r.grantor (rule_at body.now q).author
        && fits_option r.option false }
{
    match r.option {
        OptionTerm::With => 0,
        OptionTerm::Without | OptionTerm::Either => by_grantor(body, n, f, r.grantor),
    }
}

// The word of what a right side's mode, or its star, meets with a sign.
fn right_mode_word(code: usize, sign: usize) -> usize
    requires { (code < 256) × (sign < 128) }
    ensures { result ≡ right_mode_word code sign }
{
    if code == 255 {
        return LEFT_SIGNS + sign;
    }
    LEFT_MODES + (code + 8 * sign)
}

// Of some rules those that meet a right side's subject.
fn meet_subject(left: &[u64], f: u64, code: usize) -> u64
    requires { ((code ≡ 255 → ⊥) → code < 65) × (length left.now ≡ 152) }
    ensures { result ≡ pick (eqb code 255) f (bit_and f (get_or left.now (65 + code) 0)) }
{
    if code == 255 {
        return f;
    }
    f & left[LEFT_SUBJECTS + code]
}

// Of some rules those that meet a right side's object: those that name it, and the starred ones.
fn meet_object(left: &[u64], f: u64, code: usize) -> u64
    requires { ((code ≡ 255 → ⊥) → code < 65) × (length left.now ≡ 152) }
    ensures { result ≡ pick (eqb code 255) f
        (bit_and f (bit_or (get_or left.now 151 0) (get_or left.now code 0))) }
{
    if code == 255 {
        return f;
    }
    f & (left[STARRED_OBJECTS] | left[code])
}

// The rules whose left side has a sign and meets the right side of rule i in object, subject and mode.
fn meeting(left: &[u64], right: &[u8], i: usize, sign: usize) -> u64
    requires { (i < 64) × (sign < 2) × CodesPlaced right.now i × (length left.now ≡ 152)
        × (256 ≤ length right.now) }
    ensures { result ≡ meeting_word left.now right.now i sign }
{
    let w = right_mode_word(usize::from(right[4 * i + 2]), sign);
    let f = meet_subject(left, left[w], usize::from(right[4 * i + 1]));
    meet_object(left, f, usize::from(right[4 * i]))
}

// The rules that feed rule i.
fn feeders(body: &[u8], n: usize, i: usize, left: &[u64], right: &[u8], sides: &[u8]) -> u64
    requires { (i < n) × Outlined n body.now left.now right.now sides.now
        × (length left.now ≡ 152) × (256 ≤ length right.now) × (256 ≤ length sides.now) }
    ensures { result ≡ feeders_of (rules_in n body.now) (rule_at body.now i) }
{
    let f = meeting(left, right, i, usize::from(sides[4 * i + 3]) / 2);
    by_grantor_and_option(body, n, f, rule_at(body, i * RULE_BYTES))
}

// Puts the feeders of each rule in its place.
fn draw_feeders(body: &[u8], n: usize, coordinates: &[u8], outline: &mut [u64])
    requires { Outlined n body.now (left_of outline.old) (rights_of coordinates.now)
        (sides_of coordinates.now) × (280 ≤ length outline.old) × (length coordinates.now ≡ 1666) }
    ensures { RuleTable n body.now (feeders_of (rules_in n body.now))
        (feed_of outline.new)
        × ((k : ℕ) → n ≤ k →
        get_or (feed_of outline.new) k 0 ≡ get_or (feed_of outline.old) k 0)
        × (left_of outline.new ≡ left_of outline.old) }
{
    for i in 0..n {
        let f = feeders(
            body,
            n,
            i,
            &outline[LEFT..FEED],
            &coordinates[RIGHT..SUBJECTS],
            &coordinates[SIDES..RIGHT],
        );
        put_word(outline, FEED + i, f);
    }
}

// Hands the choosy rules on to those that feed them.
fn draw_fed(choosy: u64, feed: &mut [u64])
    requires { ((k : ℕ) → 64 ≤ k → get_or feed.old k 0 ≡ 0) × (length feed.old ≡ 128) }
    ensures { ((w : ℕ) → w < 64 → get_or feed.new w 0 ≡ get_or feed.old w 0)
        × ((i c : ℕ) → i < 64 → c < 64 → bit c (get_or feed.new (64 + i) 0)
        ≡ bit c choosy && bit i (get_or feed.old c 0)) }
{
    for c in ones(choosy) {
        let f = feed[c as usize];
        hand_on(feed, 64, f, c);
    }
}

// The rules that link to rule i: those with a denial on the left, where the right side is positive.
fn linkers(left: &[u64], right: &[u8], sides: &[u8], i: usize) -> u64
    requires { (i < 64) × CodesPlaced right.now i × (length left.now ≡ 152) × (256 ≤ length right.now)
        × (256 ≤ length sides.now) }
    ensures { result ≡ linkers_word left.now right.now sides.now i }
{
    if usize::from(sides[4 * i + 3]) / 2 == 0 {
        return meeting(left, right, i, 1);
    }
    0
}

// Joins to each rule's word those that link to the rule.
fn draw_linkers(n: usize, coordinates: &[u8], outline: &mut [u64])
    requires { (n ≤ 64) × ((i : ℕ) → i < n → CodesPlaced (rights_of coordinates.now) i)
        × (280 ≤ length outline.old) × (length coordinates.now ≡ 1666) }
    ensures { ((w : ℕ) → get_or (feed_of outline.new) w 0
        ≡ pick (ltb w n) (bit_or (get_or (feed_of outline.old) w 0)
        (linkers_word (left_of outline.old) (rights_of coordinates.now)
        (sides_of coordinates.now) w))
        (get_or (feed_of outline.old) w 0))
        × (left_of outline.new ≡ left_of outline.old) }
{
    for i in 0..n {
        let f = linkers(
            &outline[LEFT..FEED],
            &coordinates[RIGHT..SUBJECTS],
            &coordinates[SIDES..RIGHT],
            i,
        );
        outline[FEED + i] |= f;
    }
}

// The rules that precede each rule, and from 64 on the choosy rules that each feeds. Only rules with a denial
// on the left link, so bases without one pay nothing for links.
pub fn draw_feed(body: &[u8], n: usize, choosy: u64, coordinates: &[u8], outline: &mut [u64])
    requires { Outlined n body.now (left_of outline.old) (rights_of coordinates.now)
        (sides_of coordinates.now) × (280 ≤ length outline.old) × (length coordinates.now ≡ 1666)
        × ((k : ℕ) → get_or (feed_of outline.old) k 0 ≡ 0) }
    ensures { FeedTable n body.now choosy (feed_of outline.new)
        × (left_of outline.new ≡ left_of outline.old) }
{
    draw_feeders(body, n, coordinates, outline);
    draw_fed(choosy, &mut outline[FEED..FIRST]);
    if outline[LEFT + LEFT_DENIALS] == 0 {
        return;
    }
    draw_linkers(n, coordinates, outline);
}
