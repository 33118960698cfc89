// The turns of the rules: each once behind those that precede it, and those on circles, stratum by stratum,
// until nothing is new.
ghost use Rattle.std.specs.Prelude.{◌≡◌, true, ℕ, ◌+◌, ◌*◌, ◌≤◌, ◌<◌, length, get_or};
ghost use Rattle.foundation.specs.BitMasks.{bit};
ghost use Rattle.words.specs.Sums.{SumGrown};
ghost use Rattle.foundation.specs.Tests.{pick};
ghost use Rattle.places.specs.Regions.{size_of};
ghost use Rattle.tables.specs.TableLayout.{region_at, whole_region};
ghost use Rattle.tables.specs.TableGiving.{shapes_of};
ghost use Rattle.masks.specs.RuleMasks.{RulesIn};
ghost use Rattle.encoding.specs.Format.{rule_at};
ghost use Rattle.model.specs.Stratification.{lasting};
ghost use Rattle.sections.specs.Sections.{feed_of, first_of, starts_of, active_of, sides_of, rights_of};
ghost use Rattle.grounding.specs.RuleTurns.{range_of, pair_number_at, takers_for, turn_from, prepared_in};
ghost use Rattle.grounding.specs.RuleTurns.{fields_in, bits_in};
ghost use Rattle.grounding.specs.RuleTurns.{SlicedIn, Able, RuleRan, Turns, Rounds, RuleMarked, Marked};

use crate::pairs::{derive_pairs, mark_pairs};
use crate::{Ending, Range, RuleTurn};
use encoding::rule_at;
use facts::takers_of;
use masks::{Next, has_bit, next_dirty, next_ready, transpose, without_rule, words_for};
use model::{Head, RULE_BYTES, Rule};
use places::{Grid, Pair, Region, pair_index, row_index};
use sections::{ACTIVE, FEED, FIRST, LEFT, RIGHT, SIDES, STARTS, SUBJECTS};
use tables::{Frame, all_places, denials_start, region_at, shape_at};
use words::ones;

// The number of the pair with a code; behind the last one how many there are.
fn pair_number_at(number: &[u16], j: usize, pairs: u32) -> u32
    ensures { result ≡ pair_number_at number.now j pairs }
{
    if j < number.len() {
        return u32::from(number[j]);
    }
    pairs
}

// The numbers of the pairs that lie in a region, and maybe others.
fn range_of(b: Region, g: Grid, number: &[u16]) -> Range
    ensures { result ≡ range_of b g number.now }
{
    if b.object == 255 {
        return Range {
            from: 0,
            to: g.pairs,
        };
    }
    let o = b.object as usize;
    let subjects = g.subjects as usize;
    if b.subject == 255 {
        let row = row_index(o, subjects);
        return Range {
            from: pair_number_at(number, row, g.pairs),
            to: pair_number_at(number, row + subjects, g.pairs),
        };
    }
    let p = Pair {
        object: o,
        subject: b.subject as usize,
    };
    let j = pair_index(p, subjects);
    Range {
        from: pair_number_at(number, j, g.pairs),
        to: pair_number_at(number, j + 1, g.pairs),
    }
}

// Where the table that a rule looks at starts: that of the rule itself, or of what is held or denied.
fn table_start(f: Frame, first: &[u64], i: usize, own: bool, denied: bool) -> u32
    requires { (i < 64) × (size_of f.grid whole_region < 4294967296) × (64 ≤ length first.now)
        × (own ≡ true → get_or first.now i 0 < 4294967296) }
    ensures { result ≡ pick own (get_or first.now i 0) (pick denied (size_of f.grid whole_region)
        0) }
{
    if own {
        return first[i] as u32;
    }
    if denied {
        let g = f.grid;
        return denials_start(g);
    }
    0
}

// The region of that table.
fn table_region(f: Frame, right: &[u8], i: usize, own: bool) -> Region
    requires { (i < 64) × (256 ≤ length right.now) }
    ensures { result ≡ pick own (region_at (shapes_of f right.now) i) whole_region }
{
    if own {
        return shape_at(f, right, i);
    }
    all_places()
}

// The rules whose tables take what rule q derives, `fed` being those that it feeds: of tables of right sides
// these, of tables of all places those that look for what it is.
fn given_to(body: &[u8], q: Rule, f: Frame, fed: u64) -> u64
    requires { RulesIn f.tables body.now }
    ensures { result ≡ takers_for f body.now q fed }
{
    if f.wide {
        let h = Head {
            label: 0,
            grantor: q.author,
            subject: 0,
            object: 0,
            mode: 0,
            negative: q.left.negative,
            option: false,
            granted: 0,
        };
        return takers_of(h, body, f.tables);
    }
    fed & f.tables
}

// The turn of rule r.
fn turn_of(body: &[u8], r: u32, f: Frame, outline: &[u64], coordinates: &[u8]) -> RuleTurn
    requires { (r < 64)
        × (28 * r + 28 ≤ length body.now)
        × RulesIn f.tables body.now
        × (get_or (sides_of coordinates.now) (4 * r + 3) 0 < 4)
        × (size_of f.grid whole_region < 4294967296)
        × (bit r f.choosy ≡ true → get_or (first_of outline.now) r 0 < 4294967296)
        × (f.width ≤ 6)
        × (length outline.now ≡ 536)
        × (length coordinates.now ≡ 1666) }
    ensures { result ≡ turn_from f body.now (feed_of outline.now)
        (sides_of coordinates.now) (rights_of coordinates.now)
        (first_of outline.now) (starts_of outline.now) (active_of outline.now) r }
{
    let i = r as usize;
    let q = rule_at(body, i * RULE_BYTES);
    let right = &coordinates[RIGHT..SUBJECTS];
    let signs = coordinates[4 * i + 3];
    let denied = signs / 2 == 1;
    let own = has_bit(f.choosy, r);
    RuleTurn {
        rule: r,
        operator: q.operator,
        active: outline[ACTIVE + i],
        right: region_at(right, i),
        denied,
        first: table_start(f, &outline[FIRST..STARTS], i, own, denied),
        table: table_region(f, right, i, own),
        left: region_at(&coordinates[SIDES..RIGHT], i),
        sign: u32::from(signs % 2),
        bits: outline[STARTS + i],
        takers: given_to(body, q, f, outline[FEED + 64 + i]),
        words: words_for(f.fields, f.width),
    }
}

// The turn of rule r: what it derives is given; whether something is new. A rule that is not active gives
// nothing.
fn derive_rule(
    body: &[u8],
    r: u32,
    f: Frame,
    outline: &[u64],
    coordinates: &[u8],
    need: &[u16],
    numbers: &[u16],
    work: &mut [u64],
) -> bool
    requires { Able (prepared_in body.now outline.now coordinates.now need.now numbers.now f)
        (active_of outline.now) (length (fields_in f work.old)) (length (bits_in f work.old)) r
        × SlicedIn outline.now coordinates.now need.now numbers.now f work.old }
    ensures { RuleRan (prepared_in body.now outline.now coordinates.now
        need.now numbers.now f) (active_of outline.now)
        (bits_in f work.old) r (fields_in f work.old) (fields_in f work.new)
        × SumGrown result (fields_in f work.old) (fields_in f work.new)
        × (bits_in f work.new ≡ bits_in f work.old) }
{
    let i = r as usize;
    if outline[ACTIVE + i] == 0 {
        return false;
    }
    let t = turn_of(body, r, f, outline, coordinates);
    let g = f.grid;
    let b = t.left;
    let size = need.len();
    let n = range_of(b, g, &numbers[..size]);
    derive_pairs(t, f, n, outline, coordinates, need, numbers, work)
}

// Gives each needed rule its turn, behind those that precede it; those that are left, on circles or behind
// them.
pub fn derive_rules(
    body: &[u8],
    needed: u64,
    f: Frame,
    outline: &[u64],
    coordinates: &[u8],
    need: &[u16],
    numbers: &[u16],
    work: &mut [u64],
) -> u64
    requires { ((r : ℕ) → bit r needed ≡ true → Able (prepared_in body.now outline.now coordinates.now
        need.now numbers.now f) (active_of outline.now) (length (fields_in f work.old))
        (length (bits_in f work.old)) r)
        × SlicedIn outline.now coordinates.now need.now numbers.now f work.old }
    ensures { Turns (prepared_in body.now outline.now
        coordinates.now need.now numbers.now f)
        (active_of outline.now) (bits_in f work.old) needed
        (fields_in f work.old) result (fields_in f work.new)
        × (bits_in f work.new ≡ bits_in f work.old)
        × ((r : ℕ) → bit r result ≡ true → bit r needed ≡ true) }
{
    let mut rest = needed;
    let mut last = Next { rule: 0, up: true };
    while let Some(at) = next_ready(&outline[FEED..FIRST], rest, last) {
        derive_rule(body, at.rule, f, outline, coordinates, need, numbers, work);
        rest = without_rule(rest, at.rule);
        last = at;
    }
    rest
}

// Gives the rules of a set their turns, each again as long as something is new that it may look at.
pub fn close(
    body: &[u8],
    rules: u64,
    f: Frame,
    outline: &[u64],
    coordinates: &[u8],
    need: &[u16],
    numbers: &[u16],
    work: &mut [u64],
)
    requires { ((r : ℕ) → bit r rules ≡ true → Able (prepared_in body.now outline.now coordinates.now
        need.now numbers.now f) (active_of outline.now) (length (fields_in f work.old))
        (length (bits_in f work.old)) r)
        × SlicedIn outline.now coordinates.now need.now numbers.now f work.old }
    ensures { Rounds (prepared_in body.now outline.now coordinates.now
        need.now numbers.now f) (active_of outline.now)
        (bits_in f work.old) rules rules (fields_in f work.old)
        (fields_in f work.new)
        × (bits_in f work.new ≡ bits_in f work.old) }
{
    let mut fed = [0u64; 64];
    transpose(&outline[FEED..FIRST], rules, &mut fed);
    let mut dirty = rules;
    let mut at = Next { rule: 63, up: true };
    while dirty != 0 {
        at = next_dirty(dirty, at);
        let r = at.rule;
        dirty = without_rule(dirty, r);
        if derive_rule(body, r, f, outline, coordinates, need, numbers, work) {
            dirty = dirty | fed[r as usize];
        }
    }
}

// Marks rule r where it is broken, if it has started at the last instant of the window.
fn mark_rule(
    body: &[u8],
    r: u32,
    e: Ending,
    outline: &[u64],
    coordinates: &[u8],
    need: &[u16],
    numbers: &[u16],
    work: &mut [u64],
)
    requires { Able (prepared_in body.now outline.now coordinates.now need.now numbers.now
        e.frame) (active_of outline.now) (length (fields_in e.frame work.old))
        (length (bits_in e.frame work.old)) r
        × SlicedIn outline.now coordinates.now need.now numbers.now e.frame work.old
        × (e.last < 64)
        × (lasting (rule_at body.now r).operator ≡ true) }
    ensures { RuleMarked (prepared_in body.now outline.now
        coordinates.now need.now numbers.now e.frame)
        (active_of outline.now) (fields_in e.frame work.old) e.last e.mark r
        (bits_in e.frame work.old) (bits_in e.frame work.new)
        × (fields_in e.frame work.new ≡ fields_in e.frame work.old) }
{
    let q = rule_at(body, (r as usize) * RULE_BYTES);
    if q.interval.start <= e.mark {
        let f = e.frame;
        let t = turn_of(body, r, f, outline, coordinates);
        let g = f.grid;
        let b = t.left;
        let size = need.len();
        let n = range_of(b, g, &numbers[..size]);
        mark_pairs(t, f, n, e.last, &outline[LEFT..FEED], need, numbers, work);
    }
}

// Marks the rules of a set where they are broken.
pub fn mark_broken(
    body: &[u8],
    rules: u64,
    e: Ending,
    outline: &[u64],
    coordinates: &[u8],
    need: &[u16],
    numbers: &[u16],
    work: &mut [u64],
)
    requires { ((r : ℕ) → bit r rules ≡ true → Able (prepared_in body.now outline.now coordinates.now
        need.now numbers.now e.frame) (active_of outline.now)
        (length (fields_in e.frame work.old)) (length (bits_in e.frame work.old)) r)
        × SlicedIn outline.now coordinates.now need.now numbers.now e.frame work.old
        × (e.last < 64)
        × ((r : ℕ) → bit r rules ≡ true → lasting (rule_at body.now r).operator ≡ true) }
    ensures { Marked (prepared_in body.now outline.now coordinates.now
        need.now numbers.now e.frame) (active_of outline.now)
        (fields_in e.frame work.old) e.last e.mark rules 0
        (bits_in e.frame work.old) (bits_in e.frame work.new)
        × (fields_in e.frame work.new ≡ fields_in e.frame work.old) }
{
    for r in ones(rules) {
        mark_rule(body, r, e, outline, coordinates, need, numbers, work);
    }
}
