// The authorizations that matter: those that have an asked instant and whose mode is needed at their place,
// with both signs, and of these, as time goes on, those that have not ended.
ghost use Rattle.std.specs.Prelude.{◌≡◌, true, ◌+◌, ◌<◌, ◌≤◌, length, ◌==◌};
ghost use Rattle.foundation.specs.Tests.{pick};
ghost use Rattle.foundation.specs.BitMasks.{as_bit};
ghost use Rattle.foundation.specs.Intervals.{interval};
ghost use Rattle.sections.specs.Sections.{subjects_of, objects_of};
ghost use Rattle.relevance.specs.Chosen.{Picks};
ghost use Rattle.relevance.specs.Needed.{cell_of, needed_in, is_chosen_by};
ghost use Rattle.relevance.specs.Needed.{CellInTable, HeadInRange, ChoiceReadyBy, Choice};
ghost use Rattle.relevance.specs.Forgotten.{Forgets};

use encoding::authorization_at;
use foundation::Interval;
use model::{AUTHORIZATION_BYTES, Access, Head};
use places::{Pair, is_needed_both, pair_index};
use sections::{OBJECTS, SUBJECTS};

// The coordinate of a subject or object from its entry in the table, `own` being the one that is asked about;
// 255 for one that has none, as `coordinate` of specs/CoordinateTables says it.
fn coordinate_of(entry: u8, own: bool) -> u32
    ensures { (result ≡ pick (entry == 0) (pick own 0 255) entry) × (result ≤ 255) }
{
    if entry != 0 {
        return entry as u32;
    }
    if own {
        return 0;
    }
    255
}

// The coordinates of a subject and an object.
#[derive(Clone, Copy)]
pub struct Cell {
    pub subject: u32,
    pub object: u32,
}

// The coordinates of what an authorization is about, x being asked.
pub fn cell_of(h: Head, x: Access, coordinates: &[u8]) -> Cell
    requires { (h.subject < 1024) × (h.object < 130) × (1666 ≤ length coordinates.now) }
    ensures { (result ≡ cell_of (subjects_of coordinates.now)
        (objects_of coordinates.now) x h) × (result.subject ≤ 255) × (result.object ≤ 255) }
{
    let s = h.subject as usize;
    let o = h.object as usize;
    Cell {
        subject: coordinate_of(coordinates[SUBJECTS + s], h.subject as u32 == x.subject),
        object: coordinate_of(coordinates[OBJECTS + o], h.object as u32 == x.object),
    }
}

// 1 for a denial, 0 for what is positive.
pub fn sign_of(negative: bool) -> u32
    ensures { result ≡ as_bit negative }
{
    u32::from(negative)
}

// Whether an authorization is needed, c being its coordinates.
fn is_needed(h: Head, c: Cell, stride: u32, need: &[u16]) -> bool
    requires { HeadInRange h × CellInTable c stride need.now }
    ensures { result ≡ needed_in stride need.now c h }
{
    let s = c.subject;
    let o = c.object;
    if (s == 255) | (o == 255) {
        return false;
    }
    let p = Pair {
        object: o as usize,
        subject: s as usize,
    };
    is_needed_both(need[pair_index(p, stride as usize)], h.mode as u32 - 1)
}

// n, or one more.
pub fn counted(n: usize, more: bool) -> usize
    requires { n < 18446744073709551615 }
    ensures { result ≡ pick more (n + 1) n }
{
    n + usize::from(more)
}

// Writes down the numbers of those of `total` authorizations that have one of the asked instants and are
// needed; how many they are. The instants come first: where few are asked, few authorizations pass. Where all
// of time is asked, each authorization has an instant of it, and a test would only cost.
fn choose_in<const EVER: bool>(
    lines: &[u8],
    total: usize,
    x: Access,
    asked: Interval,
    coordinates: &[u8],
    stride: u32,
    need: &[u16],
    which: &mut [u16],
) -> usize
    requires { ChoiceReadyBy lines.now total coordinates.now stride need.now which.old
        × (EVER ≡ true → asked ≡ interval 0 4294967295) }
    ensures { Choice
        (is_chosen_by coordinates.now asked x stride need.now)
        lines.now total which.old which.new result }
{
    let mut n = 0;
    for i in 0..total {
        let a = authorization_at(lines, i * AUTHORIZATION_BYTES);
        let h = a.head;
        let v = a.interval;
        if EVER | ((asked.start <= v.end) & (v.start <= asked.end)) {
            which[n] = i as u16;
            n = counted(n, is_needed(h, cell_of(h, x, coordinates), stride, need));
        }
    }
    n
}

// The same, by what is asked.
pub fn choose(
    lines: &[u8],
    total: usize,
    x: Access,
    asked: Interval,
    coordinates: &[u8],
    stride: u32,
    need: &[u16],
    which: &mut [u16],
) -> usize
    requires { ChoiceReadyBy lines.now total coordinates.now stride need.now which.old }
    ensures { Choice
        (is_chosen_by coordinates.now asked x stride need.now)
        lines.now total which.old which.new result }
{
    if (asked.start == 0) & (asked.end == 4294967295) {
        return choose_in::<true>(lines, total, x, asked, coordinates, stride, need, which);
    }
    choose_in::<false>(lines, total, x, asked, coordinates, stride, need, which)
}

// Forgets those of n authorizations that end before t; how many are left.
pub fn forget(lines: &[u8], which: &mut [u16], n: usize, t: u32) -> usize
    requires { Picks lines.now which.old n }
    ensures { Forgets lines.now n t which.old which.new result }
{
    let mut kept = 0;
    for i in 0..n {
        let w = which[i];
        let a = authorization_at(lines, w as usize * AUTHORIZATION_BYTES);
        which[kept] = w;
        kept = counted(kept, t <= a.interval.end);
    }
    kept
}
