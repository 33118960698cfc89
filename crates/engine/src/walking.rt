// From window to window.
ghost use Rattle.std.specs.Prelude.{◌≡◌, Bool, true, List, ℕ, ◌^◌, ◌≤◌, ◌<◌, get_or};
ghost use Rattle.model.specs.Base.{Base};
ghost use Rattle.model.specs.declared.Access.{Access};
ghost use Rattle.windows.specs.Windows.{Rising};
ghost use Rattle.scan.specs.Runs.{inside, ScannedTo, Answered};
ghost use Rattle.engine.specs.Posed.{Finds};
ghost use Rattle.engine.specs.Going.{Start, GoingIn, WalksIn, Roomy};

use crate::window::{answers_in, evaluate};
use crate::{Found, WindowWalk};
use facts::WindowTask;
use grounding::{Ending, mark_broken};
use masks::{has_bit, words_for};
use relevance::{Chosen, fill, forget};
use scan::{Track, note_word};
use sections::{FIRST, RIGHT, STARTS, SUBJECTS};

// How far the walk is: the next instant, the intervals so far, the answer at the last instant, how many
// authorizations are left, and whether the strata of the needed rules are in the outline already.
#[derive(Clone, Copy)]
pub struct Progress {
    pub next: u64,
    pub track: Track,
    pub yes: bool,
    pub left: usize,
    pub ranked: bool,
}

// How many instants a window has whose fields have 2^width bits. A field of 64 has one bit to spare.
fn instants(width: u32) -> usize
    requires { width ≤ 6 }
    ensures { (1 ≤ result) × (result ≤ 63) × (result ≤ 2 ^ width) }
{
    if width == 6 {
        return 63;
    }
    1 << width
}

// The intervals, with those of a window if they are written down.
fn noted(
    listing: bool,
    list: &mut [u32],
    w: Track,
    marks: &[u32; 63],
    count: usize,
    yes: u64,
) -> Track
    requires { (1 ≤ count) × (count ≤ 63) × Rising count marks.now × (listing ≡ true →
        (inside w ≡ true → 0 < get_or marks.now 0 0) × (w.count ≤ 1089)) }
    ensures { listing ≡ true → (f : ℕ → Bool) (e : ℕ) (lent : List ℕ) (m : ℕ) →
        ScannedTo f e lent (get_or marks.now 0 0) w list.old →
        Answered f e count marks.now m yes → ScannedTo f e lent m result list.new }
{
    if listing {
        return note_word(list, w, marks, count, yes);
    }
    w
}

// A walk, and how far it is.
#[derive(Clone, Copy)]
pub struct WalkStage {
    pub walk: WindowWalk,
    pub progress: Progress,
}

// Goes through one window, and to the next instant behind it.
fn pass_window(
    records: &[u8],
    g: WalkStage,
    outline: &mut [u64],
    coordinates: &[u8],
    need: &[u16],
    numbers: &mut [u16],
    work: &mut [u64],
    list: &mut [u32],
) -> Progress
    requires { Roomy records.now outline.old coordinates.now need.now numbers.old work.old
        g.walk × (g.progress.next ≤ g.walk.query.to)
        × ((o : Start) × GoingIn records.now outline.old coordinates.now need.now numbers.old
        work.old g.walk list.old o g.progress) }
    ensures { (o : Start) → GoingIn records.now outline.old
        coordinates.now need.now numbers.old work.old g.walk
        list.old o g.progress → (g.progress.next < result.next) × GoingIn records.now
        outline.new coordinates.now need.now numbers.new
        work.new g.walk list.new o result }
{
    let mut marks = [0u32; 63];
    let w = g.walk;
    let s = g.progress;
    let q = w.query;
    let f = w.frame;
    let from = w.offset;
    let body = &records[from..];
    let at = 2 * need.len();
    let d = w.chosen;
    let c = Chosen {
        authorizations: s.left,
        rules: d.rules,
        needed: d.needed,
    };
    let filled = fill(
        records,
        &numbers[at..],
        body,
        c,
        s.next,
        q.to,
        instants(f.width),
        &mut marks,
    );
    let count = filled.count;
    let next = filled.next;
    let own = q.own;
    let window = WindowTask {
        chosen: c,
        offset: from,
        own: own,
        count: count,
        frame: f,
        ranked: s.ranked,
    };
    let ranked = evaluate(
        records,
        window,
        outline,
        coordinates,
        need,
        numbers,
        &marks,
        work,
    );
    let k = words_for(f.fields, f.width);
    let word = answers_in(
        f,
        q.place,
        &work[..k],
        &coordinates[RIGHT..SUBJECTS],
        &outline[FIRST..STARTS],
    );
    let end = count - 1;
    let latest = end as u32;
    let yes = has_bit(word, latest);
    let track = noted(q.listing, list, s.track, &marks, count, word);
    let mut left = s.left;
    if next <= q.to as u64 {
        let last = marks[end];
        let e = Ending {
            frame: f,
            last: latest,
            mark: last,
        };
        mark_broken(
            body,
            w.lasting,
            e,
            outline,
            coordinates,
            need,
            numbers,
            work,
        );
        left = forget(records, &mut numbers[at..], left, last);
    }
    Progress {
        next: next,
        track: track,
        yes: yes,
        left: left,
        ranked: ranked,
    }
}

// Walks from window to window, writes the intervals down if they are asked for, and tells the answer at the
// last instant.
pub fn walk_windows(
    records: &[u8],
    w: WindowWalk,
    outline: &mut [u64],
    coordinates: &[u8],
    need: &[u16],
    numbers: &mut [u16],
    work: &mut [u64],
    list: &mut [u32],
) -> Found
    requires { Roomy records.now outline.old coordinates.now need.now numbers.old work.old w
        × ((base : Base) × (x : Access) × WalksIn records.now outline.old coordinates.now need.now
        numbers.old work.old w base x) }
    ensures { (base : Base) (x : Access) → WalksIn records.now outline.old
        coordinates.now need.now numbers.old work.old w base x →
        Finds w.query base x result list.old list.new }
{
    let q = w.query;
    let to = q.to;
    let none = Track {
        count: 0,
        began: None,
    };
    let mut s = Progress {
        next: q.from as u64,
        track: none,
        yes: false,
        left: w.chosen.authorizations,
        ranked: false,
    };
    while s.next <= to as u64 {
        let g = WalkStage {
            walk: w,
            progress: s,
        };
        s = pass_window(records, g, outline, coordinates, need, numbers, work, list);
    }
    let track = s.track;
    Found {
        track: track,
        yes: s.yes,
    }
}
