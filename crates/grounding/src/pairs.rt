// What a rule derives over a window at each place where it stands, given to the tables.
ghost use Rattle.std.specs.Prelude.{◌≡◌, true, ℕ, ◌+◌, ◌*◌, ◌≤◌, ◌<◌, length, get_or};
ghost use Rattle.foundation.specs.BitMasks.{bit};
ghost use Rattle.model.specs.Stratification.{lasting};
ghost use Rattle.words.specs.Sums.{SumGrown};
ghost use Rattle.reach.specs.Net.{turned};
ghost use Rattle.places.specs.ReachedNumbers.{pair_index};
ghost use Rattle.places.specs.Regions.{size_of};
ghost use Rattle.tables.specs.TableLayout.{whole_region};
ghost use Rattle.sections.specs.Sections.{left_of, first_of, rights_of, numbered_of, listed_of};
ghost use Rattle.sections.specs.Sections.{fields_of, broken_of};
ghost use Rattle.tables.specs.TableGiving.{TablesReady, Reaches};
ghost use Rattle.derivation.specs.Derive.{Derived};
ghost use Rattle.grounding.specs.RuleSteps.{turned_point, pair_in, right_place, force_at, force_in, with_mode};
ghost use Rattle.grounding.specs.RuleSteps.{broken_in, modes_at, Step, Mark, ModesReady, ModesRan};
ghost use Rattle.grounding.specs.RuleTurns.{Sliced};
ghost use Rattle.grounding.specs.RuleSteps.{PairsReady, PairsRan, Ordinary, StepReads};

use crate::{Range, RuleTurn};
use evaluation::is_lasting;
use places::{Grid, Pair, Point, Region, modes_with_both, pair_index, pair_of_code};
use sections::{FEED, FIRST, LEFT, LEFT_SUBJECTS, RIGHT, STARTS, SUBJECTS};
use tables::{Frame, Place, all_places, denials_start, field_in, give};
use words::{field_at, join_at, ones};

// A coordinate of a right side: its own, or that of the left side.
fn turn(code: u8, own: u32) -> u32
    ensures { result ≡ turned code own }
{
    if code == 255 { own } else { u32::from(code) }
}

// The place on the right of a rule, seen from that on its left.
fn right_point(b: Region, x: Point) -> Point
    ensures { result ≡ turned_point b x }
{
    Point {
        subject: turn(b.subject, x.subject),
        mode: turn(b.mode, x.mode),
        object: turn(b.object, x.object),
    }
}

// The same with the number of its pair.
fn right_place(t: RuleTurn, g: Grid, number: &[u16], x: Point) -> Place
    requires { pair_in g (turned_point t.right x) < length number.now }
    ensures { result ≡ right_place t g number.now x }
{
    let b = t.right;
    let y = right_point(b, x);
    let p = Pair {
        object: y.object as usize,
        subject: y.subject as usize,
    };
    let j = pair_index(p, g.subjects as usize);
    Place {
        pair: u32::from(number[j]),
        point: y,
    }
}

// Whether the rule is broken at a place.
fn is_broken(t: RuleTurn, g: Grid, bits: &[u64], p: Place) -> bool
    requires { Ordinary t g (length bits.now) p }
    ensures { result ≡ broken_in t g bits.now p }
{
    let o = t.operator;
    if !is_lasting(o) {
        return false;
    }
    let b = t.left;
    let x = p.point;
    field_at(bits, 0, t.bits as u32 + places::index_in(g, b, p.pair, x)) == 1
}

// The instants at which the right side counts as held: a positive one where no denial of its place is.
fn instants_in_force(t: RuleTurn, f: Frame, words: &[u64], y: Place) -> u64
    requires { Reaches f t.first t.table y (length words.now)
        × Reaches f (size_of f.grid whole_region) whole_region y (length words.now) }
    ensures { result ≡ force_at t f words.now y }
{
    let b = t.table;
    let held = field_in(words, f, t.first, b, y);
    if t.denied {
        return held;
    }
    let g = f.grid;
    held - (held & field_in(words, f, denials_start(g), all_places(), y))
}

// What the rule derives over the window at a place of its left side: where it is broken nothing, and then
// nothing else is looked at.
fn value_at(t: RuleTurn, f: Frame, number: &[u16], work: &[u64], p: Place) -> u64
    requires { StepReads t f number.now (length (fields_of t.words work.now))
        (length (broken_of t.words work.now)) p × (t.words ≤ length work.now) }
    ensures { Derived t.operator
        (force_in t f number.now (fields_of t.words work.now) p.point)
        t.active (broken_in t f.grid (broken_of t.words work.now) p) result }
{
    let g = f.grid;
    let k = t.words;
    if is_broken(t, g, &work[k..], p) {
        return 0;
    }
    let x = p.point;
    let y = right_place(t, g, number, x);
    let o = t.operator;
    evaluation::derive(o, instants_in_force(t, f, &work[..k], y), t.active, false)
}

// Gives what the rule derives at a place; whether something is new.
fn derive_at(
    t: RuleTurn,
    f: Frame,
    number: &[u16],
    right: &[u8],
    first: &[u64],
    work: &mut [u64],
    p: Place,
) -> bool
    requires { StepReads t f number.now (length (fields_of t.words work.old))
        (length (broken_of t.words work.old)) p × (t.words ≤ length work.old)
        × TablesReady f right.now first.now (length (fields_of t.words work.old)) }
    ensures { Step t f number.now (broken_of t.words work.old)
        right.now first.now p (fields_of t.words work.old)
        (fields_of t.words work.new)
        × SumGrown result (fields_of t.words work.old) (fields_of t.words work.new)
        × (broken_of t.words work.new ≡ broken_of t.words work.old) }
{
    let v = value_at(t, f, number, work, p);
    if v == 0 {
        return false;
    }
    let k = t.words;
    give(&mut work[..k], right, first, f, p, t.sign, t.takers, v)
}

// The modes of a pair at which the rule stands, as bits: those that are needed, with both signs, and its own.
fn modes_at(t: RuleTurn, need: u16) -> u64
    ensures { (m : ℕ) → bit m result ≡ modes_at t need m }
{
    let w = modes_with_both(need);
    let m = t.left.mode;
    if m == 255 {
        return w;
    }
    if m < 8 {
        return w & (1 << (m as u32));
    }
    0
}

// The place of a pair with a mode.
fn with_mode(pair: Place, m: u32) -> Place
    ensures { result ≡ with_mode pair m }
{
    Place {
        point: Point {
            mode: m,
            ..pair.point
        },
        ..pair
    }
}

// The same for each mode of a mask at a pair.
fn derive_modes(
    t: RuleTurn,
    f: Frame,
    number: &[u16],
    right: &[u8],
    first: &[u64],
    work: &mut [u64],
    pair: Place,
    modes: u64,
) -> bool
    requires { ModesReady t f number.now (length (fields_of t.words work.old))
        (length (broken_of t.words work.old)) pair modes × (t.words ≤ length work.old)
        × TablesReady f right.now first.now (length (fields_of t.words work.old)) }
    ensures { ModesRan (Step t f number.now (broken_of t.words work.old)
        right.now first.now) pair modes (fields_of t.words work.old)
        (fields_of t.words work.new)
        × SumGrown result (fields_of t.words work.old) (fields_of t.words work.new)
        × (broken_of t.words work.new ≡ broken_of t.words work.old) }
{
    let mut fresh = false;
    for m in ones(modes) {
        fresh = fresh | derive_at(t, f, number, right, first, work, with_mode(pair, m));
    }
    fresh
}

// Whether the rule stands on an object and a subject.
fn stands_at_pair(t: RuleTurn, left: &[u64], o: usize, s: usize) -> bool
    requires { (o < 65) × (s < 65) × (t.rule < 64) × (152 ≤ length left.now) }
    ensures { (result ≡ true → (bit t.rule (get_or left.now o 0) ≡ true)
        × (bit t.rule (get_or left.now (65 + s) 0) ≡ true))
        × (bit t.rule (get_or left.now o 0) ≡ true →
        bit t.rule (get_or left.now (65 + s) 0) ≡ true → result ≡ true) }
{
    ((left[o] & left[LEFT_SUBJECTS + s]) >> t.rule) % 2 == 1
}

// The modes of a pair with which the rule stands there; none where it does not.
fn standing_modes(t: RuleTurn, g: Grid, left: &[u64], need: &[u16], p: Pair) -> u64
    requires { (p.object < 65) × (p.subject < 65) × (t.rule < 64) × (t.sign < 2)
        × (152 ≤ length left.now)
        × (pair_index g.subjects p.object p.subject < length need.now) }
    ensures { ((m : ℕ) → bit m result ≡ true →
        (bit t.rule (get_or left.now p.object 0) ≡ true)
        × (bit t.rule (get_or left.now (65 + p.subject) 0) ≡ true)
        × (modes_at t (get_or need.now (pair_index g.subjects p.object p.subject) 0) m
        ≡ true))
        × ((m : ℕ) → bit t.rule (get_or left.now p.object 0) ≡ true →
        bit t.rule (get_or left.now (65 + p.subject) 0) ≡ true →
        modes_at t (get_or need.now (pair_index g.subjects p.object p.subject) 0) m ≡ true →
        bit m result ≡ true) }
{
    if stands_at_pair(t, left, p.object, p.subject) {
        return modes_at(t, need[pair_index(p, g.subjects as usize)]);
    }
    0
}

// The same for each pair with a number of a range.
pub fn derive_pairs(
    t: RuleTurn,
    f: Frame,
    range: Range,
    outline: &[u64],
    coordinates: &[u8],
    need: &[u16],
    numbers: &[u16],
    work: &mut [u64],
) -> bool
    requires { PairsReady t f (left_of outline.now) need.now (listed_of (length need.now) numbers.now)
        (numbered_of (length need.now) numbers.now) (length (fields_of t.words work.old))
        (length (broken_of t.words work.old)) range.from range.to
        × TablesReady f (rights_of coordinates.now) (first_of outline.now)
        (length (fields_of t.words work.old))
        × Sliced outline.now coordinates.now need.now numbers.now work.old t.words }
    ensures { PairsRan t f (left_of outline.now) need.now
        (listed_of (length need.now) numbers.now)
        (Step t f (numbered_of (length need.now) numbers.now)
        (broken_of t.words work.old) (rights_of coordinates.now)
        (first_of outline.now)) range.from range.to
        (fields_of t.words work.old) (fields_of t.words work.new)
        × SumGrown result (fields_of t.words work.old) (fields_of t.words work.new)
        × (broken_of t.words work.new ≡ broken_of t.words work.old) }
{
    let g = f.grid;
    let size = need.len();
    let number = &numbers[..size];
    let rest = &numbers[size..];
    let listed = &rest[..size];
    let mut fresh = false;
    for n in range.from..range.to {
        let p = pair_of_code(listed[n as usize]);
        let pair = Place {
            pair: n,
            point: Point {
                subject: p.subject as u32,
                mode: 0,
                object: p.object as u32,
            },
        };
        let modes = standing_modes(t, g, &outline[LEFT..FEED], need, p);
        fresh = fresh
            | derive_modes(
                t,
                f,
                number,
                &coordinates[RIGHT..SUBJECTS],
                &outline[FIRST..STARTS],
                work,
                pair,
                modes,
            );
    }
    fresh
}

// Marks the rule as broken at a place, if it derives nothing there at the last instant.
fn mark_broken_at(t: RuleTurn, f: Frame, number: &[u16], work: &mut [u64], last: u32, p: Place)
    requires { StepReads t f number.now (length (fields_of t.words work.old))
        (length (broken_of t.words work.old)) p × (t.words ≤ length work.old) × (last < 64)
        × (lasting t.operator ≡ true) }
    ensures { Mark t f number.now (fields_of t.words work.old) last p
        (broken_of t.words work.old) (broken_of t.words work.new)
        × (fields_of t.words work.new ≡ fields_of t.words work.old) }
{
    let v = value_at(t, f, number, work, p);
    let k = t.words;
    let g = f.grid;
    let b = t.left;
    let x = p.point;
    if (v >> last) % 2 == 0 {
        let at = t.bits as u32 + places::index_in(g, b, p.pair, x);
        join_at(&mut work[k..], 0, at, 1);
    }
}

// The same for each mode of a mask at a pair.
fn mark_modes(
    t: RuleTurn,
    f: Frame,
    number: &[u16],
    work: &mut [u64],
    last: u32,
    pair: Place,
    modes: u64,
)
    requires { ModesReady t f number.now (length (fields_of t.words work.old))
        (length (broken_of t.words work.old)) pair modes × (t.words ≤ length work.old) × (last < 64)
        × (lasting t.operator ≡ true) }
    ensures { ModesRan (Mark t f number.now (fields_of t.words work.old) last)
        pair modes (broken_of t.words work.old) (broken_of t.words work.new)
        × (fields_of t.words work.new ≡ fields_of t.words work.old) }
{
    for m in ones(modes) {
        mark_broken_at(t, f, number, work, last, with_mode(pair, m));
    }
}

// The same for each pair with a number of a range.
pub fn mark_pairs(
    t: RuleTurn,
    f: Frame,
    range: Range,
    last: u32,
    left: &[u64],
    need: &[u16],
    numbers: &[u16],
    work: &mut [u64],
)
    requires { PairsReady t f left.now need.now (listed_of (length need.now) numbers.now)
        (numbered_of (length need.now) numbers.now) (length (fields_of t.words work.old))
        (length (broken_of t.words work.old)) range.from range.to
        × (152 ≤ length left.now) × (2 * length need.now ≤ length numbers.now)
        × (t.words ≤ length work.old) × (last < 64) × (lasting t.operator ≡ true) }
    ensures { PairsRan t f left.now need.now
        (listed_of (length need.now) numbers.now)
        (Mark t f (numbered_of (length need.now) numbers.now)
        (fields_of t.words work.old) last) range.from range.to
        (broken_of t.words work.old) (broken_of t.words work.new)
        × (fields_of t.words work.new ≡ fields_of t.words work.old) }
{
    let g = f.grid;
    let size = need.len();
    let number = &numbers[..size];
    let rest = &numbers[size..];
    let listed = &rest[..size];
    for n in range.from..range.to {
        let p = pair_of_code(listed[n as usize]);
        let pair = Place {
            pair: n,
            point: Point {
                subject: p.subject as u32,
                mode: 0,
                object: p.object as u32,
            },
        };
        let modes = standing_modes(t, g, left, need, p);
        mark_modes(t, f, number, work, last, pair, modes);
    }
}
