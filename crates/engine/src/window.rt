// One window: what holds at each of its instants.
ghost use Rattle.std.specs.Prelude.{◌≡◌, true, not, ◌&&◌, List, ℕ, ◌*◌, ◌≤◌, ◌<◌, length, take, drop};
ghost use Rattle.foundation.specs.BitMasks.{bit};
ghost use Rattle.model.specs.Stratification.{stratified};
ghost use Rattle.encoding.specs.Format.{rules_in};
ghost use Rattle.places.specs.Regions.{Within};
ghost use Rattle.tables.specs.TableLayout.{field_in};
ghost use Rattle.tables.specs.TableGiving.{tables_of, TablesReady};
ghost use Rattle.words.specs.Fields.{field_of};
ghost use Rattle.relevance.specs.Chosen.{picked, selected};
ghost use Rattle.sections.specs.Sections.{active_of, strata_of, numbered_of, which_of};
ghost use Rattle.facts.specs.Facts.{setting_in, LinesReady};
ghost use Rattle.grounding.specs.RuleTurns.{prepared_in, Able, fields_in, bits_in, SlicedIn};
ghost use Rattle.engine.specs.Evaluation.{Low, StrataKnown, StrataRan, RulesRan, Evaluation};

use facts::{WindowTask, give_lines};
use grounding::{close, derive_rules};
use masks::{clear_words, of_stratum, spans, words_for};
use sections::{ACTIVE, OUTLINE, STRATA};
use selection::strata_of;
use tables::{Frame, Place, all_places, denials_start, field_in};

// Puts the strata of the needed rules into the outline, unless they are there.
fn put_strata(body: &[u8], w: WindowTask, outline: &mut [u64])
    requires { ((r : ℕ) → bit r w.chosen.needed ≡ true → r < w.chosen.rules)
        × (w.chosen.rules ≤ 64) × (w.chosen.rules * 28 ≤ length body.now)
        × (stratified (selected w.chosen.needed (rules_in w.chosen.rules body.now)) ≡ true)
        × (w.ranked ≡ true →
        StrataKnown w.chosen.rules w.chosen.needed body.now (strata_of outline.old))
        × (length outline.old ≡ 536) }
    ensures { StrataKnown w.chosen.rules w.chosen.needed body.now
        (strata_of outline.new)
        × (take 472 outline.new ≡ take 472 outline.old) }
{
    if !w.ranked {
        let c = w.chosen;
        strata_of(body, c.rules, c.needed, &mut outline[STRATA..OUTLINE]);
    }
}

// Gives the rules that are left, on circles or behind them, their turns, stratum by stratum.
fn derive_rest(
    body: &[u8],
    rest: u64,
    w: WindowTask,
    outline: &mut [u64],
    coordinates: &[u8],
    need: &[u16],
    numbers: &[u16],
    work: &mut [u64],
)
    requires by_index { ((r : ℕ) → bit r rest ≡ true → Able (prepared_in body.now outline.old coordinates.now
        need.now numbers.now w.frame) (active_of outline.old)
        (length (fields_in w.frame work.old)) (length (bits_in w.frame work.old)) r)
        × SlicedIn outline.old coordinates.now need.now numbers.now w.frame work.old }
    requires by_index_2 { ((r : ℕ) → bit r w.chosen.needed ≡ true → r < w.chosen.rules)
        × (w.chosen.rules ≤ 64) × (w.chosen.rules * 28 ≤ length body.now)
        × (stratified (selected w.chosen.needed (rules_in w.chosen.rules body.now)) ≡ true)
        × (w.ranked ≡ true →
        StrataKnown w.chosen.rules w.chosen.needed body.now (strata_of outline.old)) }
    ensures { StrataRan (prepared_in body.now outline.old
        coordinates.now need.now numbers.now w.frame) w.chosen.rules
        w.chosen.needed rest (active_of outline.old) (bits_in w.frame work.old)
        (fields_in w.frame work.old) (fields_in w.frame work.new)
        × (bits_in w.frame work.new ≡ bits_in w.frame work.old)
        × StrataKnown w.chosen.rules w.chosen.needed body.now
        (strata_of outline.new)
        × (take 472 outline.new ≡ take 472 outline.old) }
{
    let f = w.frame;
    put_strata(body, w, outline);
    let mut todo = rest;
    for k in 0..129 {
        if todo == 0 {
            break;
        }
        let now = of_stratum(&outline[STRATA..OUTLINE], todo, k);
        close(body, now, f, outline, coordinates, need, numbers, work);
        todo -= todo & now;
    }
}

// Lets each rule that is needed have its turn behind those that precede it, and those that are left, as they
// are on circles or behind them, theirs stratum by stratum. Tells whether the strata are in the outline.
fn derive_all(
    body: &[u8],
    w: WindowTask,
    outline: &mut [u64],
    coordinates: &[u8],
    need: &[u16],
    numbers: &[u16],
    work: &mut [u64],
) -> bool
    requires by_index { ((r : ℕ) → bit r w.chosen.needed ≡ true → Able (prepared_in body.now outline.old
        coordinates.now need.now numbers.now w.frame) (active_of outline.old)
        (length (fields_in w.frame work.old)) (length (bits_in w.frame work.old)) r)
        × SlicedIn outline.old coordinates.now need.now numbers.now w.frame work.old }
    requires by_index_2 { ((r : ℕ) → bit r w.chosen.needed ≡ true → r < w.chosen.rules)
        × (w.chosen.rules ≤ 64) × (w.chosen.rules * 28 ≤ length body.now)
        × (stratified (selected w.chosen.needed (rules_in w.chosen.rules body.now)) ≡ true)
        × (w.ranked ≡ true →
        StrataKnown w.chosen.rules w.chosen.needed body.now (strata_of outline.old)) }
    ensures { RulesRan (prepared_in body.now outline.old
        coordinates.now need.now numbers.now w.frame) w.chosen.rules
        w.chosen.needed (active_of outline.old) (bits_in w.frame work.old)
        (fields_in w.frame work.old) (fields_in w.frame work.new)
        × (bits_in w.frame work.new ≡ bits_in w.frame work.old)
        × (result ≡ true → StrataKnown w.chosen.rules w.chosen.needed body.now
        (strata_of outline.new))
        × (take 472 outline.new ≡ take 472 outline.old) }
{
    let c = w.chosen;
    let f = w.frame;
    let rest = derive_rules(body, c.needed, f, outline, coordinates, need, numbers, work);
    if rest != 0 {
        derive_rest(body, rest, w, outline, coordinates, need, numbers, work);
        return true;
    }
    w.ranked
}

// Puts what holds at the instants of a window into the words, and the instants of each rule's interval into
// the outline. Tells whether the strata are there too.
pub fn evaluate(
    records: &[u8],
    w: WindowTask,
    outline: &mut [u64],
    coordinates: &[u8],
    need: &[u16],
    numbers: &[u16],
    marks: &[u32; 63],
    work: &mut [u64],
) -> bool
    requires lines_ready { LinesReady (setting_in (drop w.offset records.now) w outline.old coordinates.now
        (numbered_of (length need.now) numbers.now) marks.now) records.now
        (which_of (length need.now) numbers.now) w.chosen.authorizations
        (length (fields_in w.frame work.old)) }
    requires by_index { (l : List ℕ) → Low l w.chosen.needed w.frame.width → (r : ℕ) → bit r
        w.chosen.needed ≡ true → Able (prepared_in (drop w.offset records.now) outline.old
        coordinates.now need.now numbers.now w.frame) l (length (fields_in w.frame work.old))
        (length (bits_in w.frame work.old)) r }
    requires by_index_2 { ((r : ℕ) → bit r w.chosen.needed ≡ true → r < w.chosen.rules)
        × (w.chosen.rules ≤ 64) × (w.chosen.rules * 28 ≤ length (drop w.offset records.now))
        × (stratified (selected w.chosen.needed
        (rules_in w.chosen.rules (drop w.offset records.now))) ≡ true)
        × (w.offset ≤ length records.now)
        × SlicedIn outline.old coordinates.now need.now numbers.now w.frame work.old
        × (w.ranked ≡ true → StrataKnown w.chosen.rules w.chosen.needed
        (drop w.offset records.now) (strata_of outline.old)) }
    ensures { Evaluation (setting_in (drop w.offset records.now) w outline.old
        coordinates.now (numbered_of (length need.now) numbers.now)
        marks.now) (prepared_in (drop w.offset records.now) outline.old
        coordinates.now need.now numbers.now w.frame) (picked
        records.now (which_of (length need.now) numbers.now)
        w.chosen.authorizations) w.chosen.rules w.chosen.needed (active_of outline.new)
        (bits_in w.frame work.old) (fields_in w.frame work.new)
        × (bits_in w.frame work.new ≡ bits_in w.frame work.old)
        × (take 408 outline.new ≡ take 408 outline.old)
        × (result ≡ true → StrataKnown w.chosen.rules w.chosen.needed
        (drop w.offset records.now) (strata_of outline.new)) }
{
    let c = w.chosen;
    let f = w.frame;
    let from = w.offset;
    let k = words_for(f.fields, f.width);
    let size = need.len();
    let at = 2 * size;
    let body = &records[from..];
    spans(
        body,
        c.rules,
        c.needed,
        marks,
        w.count,
        &mut outline[ACTIVE..STRATA],
    );
    clear_words(&mut work[..k], k);
    give_lines(
        records,
        w,
        outline,
        coordinates,
        &numbers[at..],
        &numbers[..size],
        marks,
        &mut work[..k],
    );
    derive_all(body, w, outline, coordinates, need, numbers, work)
}

// The answers at the instants of a window, once it is evaluated.
pub fn answers_in(f: Frame, p: Place, words: &[u64], right: &[u8], first: &[u64]) -> u64
    requires { TablesReady f right.now first.now (length words.now)
        × Within f.grid p.pair p.point }
    ensures { (i : ℕ) → bit i result ≡ bit i (field_of f.width words.now
        (field_in (tables_of f right.now first.now) 0 p.pair p.point))
        && not (bit i (field_of f.width words.now
        (field_in (tables_of f right.now first.now) 1 p.pair p.point))) }
{
    let b = all_places();
    let g = f.grid;
    let granted = field_in(words, f, 0, b, p);
    let denied = field_in(words, f, denials_start(g), b, p);
    granted - (granted & denied)
}
