// MAY and WHEN: the tables of a question, drawn and laid out.
ghost use Rattle.std.specs.Prelude.{eqb, ◌≡◌, true, List, ℕ, ◌+◌, ◌*◌, ◌≤◌, ◌<◌, length, get_or};
ghost use Rattle.foundation.specs.Tests.{pick};
ghost use Rattle.model.specs.Answers.{access_in};
ghost use Rattle.foundation.specs.BitMasks.{bit};
ghost use Rattle.sections.specs.Sections.{left_of, feed_of, sides_of, rights_of, subjects_of, objects_of};
ghost use Rattle.sections.specs.Sections.{numbered_of, listed_of};
ghost use Rattle.places.specs.Needs.{both_signs, either_at};
ghost use Rattle.reach.specs.Net.{Formed, has};
ghost use Rattle.masks.specs.RuleMasks.{RulesIn};
ghost use Rattle.model.specs.Base.{Base};
ghost use Rattle.model.specs.Encoding.{decode};
ghost use Rattle.model.specs.Soundness.{sound_bytes};
ghost use Rattle.outlines.specs.Coordinates.{WellFormed};
ghost use Rattle.queries.specs.Drawing.{Mapped, RulesDrawn, Blank, chart_for};
ghost use Rattle.queries.specs.Asking.{last_asked, WalkStart, Answers, TaskIn, DrawnIn, SlicesWhole};
ghost use Rattle.queries.specs.AskedBases.{Asked, IsAsked};

use crate::asked::AskedBase;
use crate::sizes::with_lines;
use crate::{AccessQuery, Extent, Inquiry};
use engine::{Found, Query, WindowWalk};
use facts::lay_tables;
use lookup::SoundBase;
use masks::needed_rules;
use model::{AUTHORIZATION_BYTES, Access};
use outlines::{
    choosy_of, draw_controlled, draw_feed, draw_left, draw_masks, draw_right, number_sides,
    own_masks,
};
use places::{Grid, Pair, Point, both_signs, pair_index};
use relevance::Chosen;
use sections::{
    ACTIVE, COORDINATES, FEED, FIRST, LEFT, OBJECTS, OUTLINE, RIGHT, SIDES, STARTS, SUBJECTS,
};
use selection::{history_start, lasting_of};
use tables::{Frame, Place, lay_out};

// The modes with which something is needed: there are eight.
fn modes_in(need: &[u16]) -> u32
    ensures { (result < 256) × ((j k : ℕ) → j < length need.now → k < 8 →
        either_at (get_or need.now j 0) k ≡ true → bit k result ≡ true) }
{
    places::modes_of(need) % 256
}

// The last instant that is asked about: that of MAY, or that of all time.
fn last_asked(instant: Option<u32>) -> u32
    ensures { result ≡ last_asked instant }
{
    instant.unwrap_or(4294967295)
}

// The instant from which on the engine looks.
fn walk_start(instant: Option<u32>, body: &[u8], lasting: u64) -> u32
    requires { RulesIn lasting body.now }
    ensures { WalkStart instant body.now lasting result }
{
    match instant {
        Some(t) => history_start(body, lasting, t),
        None => 0,
    }
}

// Reaches the pairs that the asked one can rest on, and numbers them.
fn map_pairs(
    e: Extent,
    pair: usize,
    mode: u32,
    left: &[u64],
    right: &[u8],
    need: &mut [u16],
    numbers: &mut [u16],
) -> Grid
    requires { ((i : ℕ) → get_or need.old i 0 ≡ 0)
        × ((i : ℕ) → get_or (numbered_of (length need.old) numbers.old) i 0 ≡ 0)
        × (length need.old ≡ e.objects * e.subjects) × (e.objects ≤ 65)
        × (2 * length need.old ≤ length numbers.old) × (pair < length need.old) × (mode < 8)
        × Formed right.now e.subjects (length need.old) × (152 ≤ length left.now)
        × (256 ≤ length right.now) }
    ensures { ((U O : List ℕ) → Mapped (chart_for U O e) left.now right.now
        need.new (numbered_of (length need.new) numbers.new)
        (listed_of (length need.new) numbers.new) result)
        × ((b : ℕ) → bit b (both_signs mode) ≡ true → has need.new pair b ≡ true) }
{
    let width = e.subjects;
    let size = need.len();
    let end = 2 * size;
    reach::reach(
        left,
        right,
        width as usize,
        pair,
        both_signs(mode),
        need,
        &mut numbers[..size],
    );
    let pairs = places::number_pairs(need, &mut numbers[..size]);
    places::list_pairs(need, width, &mut numbers[size..end]);
    Grid {
        subjects: width,
        objects: e.objects,
        pairs: pairs as u32,
        modes: modes_in(need),
    }
}

// Answers by the tables of pairs: MAY at an instant, or else WHEN.
fn with_pairs(
    records: &[u8],
    k: Inquiry,
    outline: &mut [u64],
    coordinates: &[u8],
    need: &mut [u16],
    numbers: &mut [u16],
    list: &mut [u32],
) -> Found
    requires { SlicesWhole records.now k.totals outline.old coordinates.now
        × ((i : ℕ) → (get_or need.old i 0 ≡ 0) × (get_or numbers.old i 0 ≡ 0))
        × (length need.old ≡ k.extent.objects * k.extent.subjects)
        × (2 * length need.old + k.totals.authorizations ≤ length numbers.old)
        × ((base : Base) × TaskIn records.now outline.old coordinates.now k base) }
    ensures { (base : Base) →
        TaskIn records.now outline.old coordinates.now k base →
        Answers k.asked.instant base k.asked.access result list.old
        list.new }
{
    let e = k.extent;
    let a = k.asked;
    let n = k.totals;
    let size = need.len();
    let from = n.authorizations * AUTHORIZATION_BYTES;
    let body = &records[from..];
    let at = Pair {
        object: k.object as usize,
        subject: k.subject as usize,
    };
    let pair = pair_index(at, e.subjects as usize);
    let mode = a.access.mode - 1;
    let g = map_pairs(
        e,
        pair,
        mode,
        &outline[LEFT..FEED],
        &coordinates[RIGHT..SUBJECTS],
        need,
        numbers,
    );
    let needed = needed_rules(
        &outline[LEFT..FEED],
        need,
        &numbers[size..],
        g.pairs as usize,
        e.subjects as usize,
    );
    let lasting = lasting_of(body, needed);
    let choosy = e.choosy & needed;
    let t = lay_tables(
        body,
        &coordinates[RIGHT..SUBJECTS],
        choosy,
        g,
        &mut outline[FIRST..STARTS],
    );
    let bits = lay_out(
        &coordinates[SIDES..RIGHT],
        lasting,
        g,
        0,
        &mut outline[STARTS..ACTIVE],
    );
    let f = Frame {
        grid: g,
        width: 0,
        fields: t.fields,
        choosy: choosy,
        tables: t.tables,
        wide: t.wide,
    };
    let point = Point {
        subject: k.subject,
        mode: mode,
        object: k.object,
    };
    let place = Place {
        pair: numbers[pair] as u32,
        point: point,
    };
    let own = k.own;
    let q = Query {
        own: own,
        place: place,
        from: walk_start(a.instant, body, lasting),
        to: last_asked(a.instant),
        listing: a.instant.is_none(),
    };
    let c = Chosen {
        authorizations: n.authorizations,
        rules: n.rules,
        needed: needed,
    };
    let w = WindowWalk {
        chosen: c,
        offset: from,
        lasting: lasting,
        bits: bits,
        query: q,
        frame: f,
    };
    with_lines(records, w, outline, coordinates, need, numbers, list)
}

// The same with tables of pairs and with room for the numbers of the authorizations, of these sizes.
fn with_room<const NEED: usize, const NUMBERS: usize>(
    records: &[u8],
    k: Inquiry,
    outline: &mut [u64],
    coordinates: &[u8],
    list: &mut [u32],
) -> Found
    requires { SlicesWhole records.now k.totals outline.old coordinates.now
        × (NEED ≤ 65536) × (NUMBERS ≤ 65536)
        × (k.extent.objects * k.extent.subjects ≤ NEED)
        × (2 * (k.extent.objects * k.extent.subjects) + k.totals.authorizations ≤ NUMBERS)
        × ((base : Base) × TaskIn records.now outline.old coordinates.now k base) }
    ensures { (base : Base) →
        TaskIn records.now outline.old coordinates.now k base →
        Answers k.asked.instant base k.asked.access result list.old
        list.new }
{
    let mut need = [0u16; NEED];
    let mut numbers = [0u16; NUMBERS];
    let size = (k.extent.objects * k.extent.subjects) as usize;
    with_pairs(
        records,
        k,
        outline,
        coordinates,
        &mut need[..size],
        &mut numbers,
        list,
    )
}

// The same with as much room as it takes: clearing more takes longer than most answers.
fn with_sizes(
    records: &[u8],
    k: Inquiry,
    outline: &mut [u64],
    coordinates: &[u8],
    list: &mut [u32],
) -> Found
    requires { SlicesWhole records.now k.totals outline.old coordinates.now
        × ((base : Base) × TaskIn records.now outline.old coordinates.now k base) }
    ensures { (base : Base) →
        TaskIn records.now outline.old coordinates.now k base →
        Answers k.asked.instant base k.asked.access result list.old
        list.new }
{
    let size = k.extent.objects * k.extent.subjects;
    if (size <= 64) & (k.totals.authorizations <= 64) {
        return with_room::<64, 192>(records, k, outline, coordinates, list);
    }
    if size <= 512 {
        return with_room::<512, 2048>(records, k, outline, coordinates, list);
    }
    with_room::<4225, 9474>(records, k, outline, coordinates, list)
}

// The number that coordinate 0 stands for: the asked one where it is not listed, else 0, which nobody has.
fn own_of(entry: u8, v: u32) -> u32
    ensures { result ≡ pick (eqb entry 0) v 0 }
{
    if entry == 0 {
        return v;
    }
    0
}

// Draws what an answer needs of the rules and does not depend on the question: of the rules in `body`, and of
// the owners and administrators in the bytes of the base.
pub fn draw(
    bytes: &[u8],
    body: &[u8],
    n: usize,
    outline: &mut [u64],
    coordinates: &mut [u8],
) -> Extent
    requires { WellFormed n body.now × Blank outline.old × Blank coordinates.old
        × (280 ≤ length outline.old) × (length coordinates.old ≡ 1666)
        × (sound_bytes bytes.now ≡ true) }
    ensures { RulesDrawn (decode bytes.now) n
        (chart_for (subjects_of coordinates.new) (objects_of coordinates.new) result)
        body.now (left_of outline.new) (feed_of outline.new)
        (sides_of coordinates.new) (rights_of coordinates.new) result.choosy }
{
    let sizes = number_sides(body, n, coordinates);
    draw_right(body, n, coordinates);
    draw_left(body, n, coordinates);
    draw_masks(
        &coordinates[SIDES..RIGHT],
        n,
        sizes.subjects as usize,
        &mut outline[LEFT..FEED],
    );
    let choosy = choosy_of(body, n);
    draw_feed(body, n, choosy, coordinates, outline);
    draw_controlled(
        &SoundBase { bytes },
        body,
        n,
        &coordinates[OBJECTS..COORDINATES],
        &mut outline[LEFT..FEED],
    );
    Extent {
        subjects: sizes.subjects,
        objects: sizes.objects,
        choosy: choosy,
    }
}

// Answers by what is drawn: MAY at an instant, or else WHEN.
pub fn with_drawn(
    base: &AskedBase<'_>,
    a: AccessQuery,
    e: Extent,
    outline: &mut [u64],
    coordinates: &[u8],
    list: &mut [u32],
) -> Found
    requires { SlicesWhole base.now.records.now base.now.totals outline.old coordinates.now
        × DrawnIn base.now.records.now base.now.totals outline.old coordinates.now
        (decode base.now.bytes.now) e × (access_in a.access ≡ true) × IsAsked base.now }
    ensures { (b : Base) → Asked base.now b → Answers a.instant b a.access result list.old list.new }
{
    let x = a.access;
    let s = coordinates[SUBJECTS + x.subject as usize];
    let o = coordinates[OBJECTS + x.object as usize];
    let own = Access {
        subject: own_of(s, x.subject),
        mode: x.mode,
        object: own_of(o, x.object),
    };
    let records = base.records;
    let n = base.totals;
    let from = n.authorizations * AUTHORIZATION_BYTES;
    own_masks(
        &SoundBase { bytes: base.bytes },
        &records[from..],
        n.rules,
        own,
        &mut outline[LEFT..FEED],
    );
    let k = Inquiry {
        asked: a,
        own: own,
        subject: s as u32,
        object: o as u32,
        totals: n,
        extent: e,
    };
    with_sizes(records, k, outline, coordinates, list)
}

// Draws the rules, and answers: MAY at an instant, or else WHEN.
pub fn with_outline(base: &AskedBase<'_>, a: AccessQuery, list: &mut [u32]) -> Found
    requires { (access_in a.access ≡ true) × IsAsked base.now }
    ensures { (b : Base) → Asked base.now b → Answers a.instant b a.access result list.old list.new }
{
    let mut outline = [0u64; OUTLINE];
    let mut coordinates = [0u8; COORDINATES];
    let n = base.totals;
    let from = n.authorizations * AUTHORIZATION_BYTES;
    let e = draw(
        base.bytes,
        &base.records[from..],
        n.rules,
        &mut outline,
        &mut coordinates,
    );
    with_drawn(base, a, e, &mut outline, &coordinates, list)
}
