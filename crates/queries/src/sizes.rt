// The tables of fields and of broken bits, and the list of authorizations that matter, made by size: small
// ones where they do, as clearing large ones takes longer than most answers.
ghost use Rattle.std.specs.Prelude.{◌≡◌, ℕ, ◌*◌, ◌^◌, ◌≤◌, length, get_or};
ghost use Rattle.model.specs.Base.{Base};
ghost use Rattle.model.specs.declared.Access.{Access};
ghost use Rattle.engine.specs.Posed.{nothing, Finds};
ghost use Rattle.queries.specs.Starting.{BegunIn, WalkGivenIn, Sectioned, Sized, broken_words, RoomFor};

use engine::{Found, WindowWalk, walk_windows};
use foundation::Interval;
use masks::width_for;
use relevance::{Chosen, choose};
use scan::Track;
use selection::counts_some;
use tables::Frame;

// How many words tables of fields and broken bits take, by size; the last are enough for any base.
const FEW_WORDS: usize = 128;

const MORE_WORDS: usize = 1024;

const ALL_WORDS: usize = 5975;

// How wide fields can be: where one instant is asked, a bit is enough.
fn width_of(one: bool, fields: u32, words: usize) -> u32
    requires { fields ≤ 64 * words }
    ensures { (result ≤ 6) × (fields * 2 ^ result ≤ 64 * words) }
{
    if one {
        return 0;
    }
    width_for(fields, words)
}

// The frame with fields that are as wide as words have room for.
fn sized(f: Frame, one: bool, words: usize) -> Frame
    requires { f.fields ≤ 64 * words }
    ensures { Sized f words result }
{
    Frame {
        width: width_of(one, f.fields, words),
        ..f
    }
}

// How many words hold the broken bits, or one more.
fn broken_words(bits: u32) -> usize
    ensures { result ≡ broken_words bits }
{
    (bits / 64 + 1) as usize
}

// Walks with N words. A function of its own: else all sizes would stand in one frame.
#[inline(never)]
fn walk<const N: usize>(
    records: &[u8],
    w: WindowWalk,
    outline: &mut [u64],
    coordinates: &[u8],
    need: &[u16],
    numbers: &mut [u16],
    list: &mut [u32],
) -> Found
    requires { Sectioned records.now outline.old coordinates.now need.now numbers.old w
        × (N ≤ 65536) × RoomFor N w
        × ((base : Base) × (x : Access) × BegunIn records.now outline.old coordinates.now need.now
        numbers.old w base x) }
    ensures { (base : Base) (x : Access) → BegunIn records.now outline.old
        coordinates.now need.now numbers.old w base x →
        Finds w.query base x result list.old list.new }
{
    let mut work = [0u64; N];
    let q = w.query;
    let g = sized(w.frame, q.from == q.to, N - broken_words(w.bits));
    let v = WindowWalk { frame: g, ..w };
    walk_windows(
        records,
        v,
        outline,
        coordinates,
        need,
        numbers,
        &mut work,
        list,
    )
}

// Walks with tables by size: a bit a field is enough where one instant is asked, else a word a field goes
// faster.
fn with_fields(
    records: &[u8],
    w: WindowWalk,
    outline: &mut [u64],
    coordinates: &[u8],
    need: &[u16],
    numbers: &mut [u16],
    list: &mut [u32],
) -> Found
    requires { Sectioned records.now outline.old coordinates.now need.now numbers.old w
        × ((base : Base) × (x : Access) × BegunIn records.now outline.old coordinates.now need.now
        numbers.old w base x) }
    ensures { (base : Base) (x : Access) → BegunIn records.now outline.old
        coordinates.now need.now numbers.old w base x →
        Finds w.query base x result list.old list.new }
{
    let q = w.query;
    let fields = w.frame.fields as usize;
    let wanted = if q.from == q.to {
        fields / 64 + 1
    } else {
        fields
    };
    let n = wanted + broken_words(w.bits);
    if n <= FEW_WORDS {
        return walk::<FEW_WORDS>(records, w, outline, coordinates, need, numbers, list);
    }
    if n <= MORE_WORDS {
        return walk::<MORE_WORDS>(records, w, outline, coordinates, need, numbers, list);
    }
    walk::<ALL_WORDS>(records, w, outline, coordinates, need, numbers, list)
}

// What is found where nothing is held.
fn nothing_found() -> Found
    ensures { result ≡ nothing }
{
    let none = Track {
        count: 0,
        began: None,
    };
    Found {
        track: none,
        yes: false,
    }
}

// Chooses the authorizations that matter, and walks. Those with none of the asked instants do not matter.
// Where none does, and no rule negates, nothing is held.
pub fn with_lines(
    records: &[u8],
    w: WindowWalk,
    outline: &mut [u64],
    coordinates: &[u8],
    need: &[u16],
    numbers: &mut [u16],
    list: &mut [u32],
) -> Found
    requires { Sectioned records.now outline.old coordinates.now need.now numbers.old w
        × ((base : Base) × (x : Access) × WalkGivenIn records.now outline.old coordinates.now need.now
        numbers.old w base x) }
    ensures { (base : Base) (x : Access) → WalkGivenIn records.now outline.old
        coordinates.now need.now numbers.old w base x →
        Finds w.query base x result list.old list.new }
{
    let q = w.query;
    let c = w.chosen;
    let asked = Interval {
        start: q.from,
        end: q.to,
    };
    let f = w.frame;
    let g = f.grid;
    let own = q.own;
    let at = 2 * need.len();
    let k = choose(
        records,
        c.authorizations,
        own,
        asked,
        coordinates,
        g.subjects,
        need,
        &mut numbers[at..],
    );
    if k == 0 {
        let from = w.offset;
        if !counts_some(&records[from..], c.needed) {
            return nothing_found();
        }
    }
    let v = WindowWalk {
        chosen: Chosen {
            authorizations: k,
            ..c
        },
        ..w
    };
    with_fields(records, v, outline, coordinates, need, numbers, list)
}
