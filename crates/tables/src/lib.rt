// Tables of fields: where they lie, and what is given to them. Table 0 is that of what is held, table 1 that
// of what is denied, each of all places; table 2 + c is that of rule c, of the places of its right side or of
// all, which rules that look for the same share.
#![tactic(auto)]

ghost use Rattle.std.specs.Prelude.{◌≡◌, true, ◌||◌, ◌↔◌, ℕ, ◌+◌, ◌*◌, ◌^◌, ◌≤◌, ◌<◌, eqb, length};
ghost use Rattle.foundation.specs.BitMasks.{bit};
ghost use Rattle.words.specs.Fields.{field_of, joined};
ghost use Rattle.words.specs.Sums.{SumGrown};
ghost use Rattle.places.specs.Regions.{free, size_of, index_in, Within, In};
ghost use Rattle.tables.specs.TableLayout.{region_at, whole_region, rule_tables, all_tables, room_of};
ghost use Rattle.tables.specs.TableLayout.{SmallGrid, TablesLaid};
ghost use Rattle.tables.specs.TableGiving.{shapes_of, tables_of, TablesReady, Reaches, TablesGiven};
ghost use Rattle.tables.specs.TableGiving.{rule_table};
ghost use Rattle.tables.specs.TableGiving.{table_takes};

use places::{Grid, Point, Region};
use words::{field_at, join_at, ones};

// The grid, the width of fields (2^width bits), how many fields there are, the rules that look at the table
// of a rule, those that have a table, and whether these tables have all places.
#[derive(Clone, Copy)]
pub struct Frame {
    pub grid: Grid,
    pub width: u32,
    pub fields: u32,
    pub choosy: u64,
    pub tables: u64,
    pub wide: bool,
}

// A place, with the number of its pair.
#[derive(Clone, Copy)]
pub struct Place {
    pub pair: u32,
    pub point: Point,
}

// The region of all places.
pub fn all_places() -> Region
    ensures { result ≡ whole_region }
{
    Region {
        subject: 255,
        mode: 255,
        object: 255,
    }
}

// Where the table of what is denied starts: behind that of what is held.
pub fn denials_start(g: Grid) -> u32
    requires { size_of g whole_region < 4294967296 }
    ensures { result ≡ size_of g whole_region }
{
    places::size_of(g, all_places())
}

// The region whose codes stand with rule i: object, subject, mode.
pub fn region_at(codes: &[u8], i: usize) -> Region
    requires { (i < 64) × (256 ≤ length codes.now) }
    ensures { result ≡ region_at codes.now i }
{
    Region {
        subject: codes[4 * i + 1],
        mode: codes[4 * i + 2],
        object: codes[4 * i],
    }
}

// The region of the table of rule i: all places, or those of its right side.
pub fn shape_at(f: Frame, right: &[u8], i: usize) -> Region
    requires { (i < 64) × (256 ≤ length right.now) }
    ensures { result ≡ region_at (shapes_of f right.now) i }
{
    if f.wide {
        return all_places();
    }
    region_at(right, i)
}

// Whether a code names v, or is free.
fn names_coordinate(code: u8, v: u32) -> bool
    ensures { result ≡ free code || eqb code v }
{
    (code == 255) | (u32::from(code) == v)
}

// Whether a place lies in a region.
fn is_in(b: Region, x: Point) -> bool
    ensures { (result ≡ true) ↔ In b x }
{
    names_coordinate(b.subject, x.subject)
        & names_coordinate(b.object, x.object)
        & names_coordinate(b.mode, x.mode)
}

// Lays out a table for each rule of a mask, one behind the other from a field on; where they end.
pub fn lay_out(codes: &[u8], rules: u64, g: Grid, from: u32, first: &mut [u64]) -> u32
    requires { (from + room_of g codes.now rules 64 < 4294967296) × (256 ≤ length codes.now)
        × (64 ≤ length first.old) }
    ensures { (result ≡ from + room_of g codes.now rules 64)
        × TablesLaid (rule_tables g codes.now rules first.new) from result
        × (length first.new ≡ length first.old) }
{
    let mut n = from;
    for r in ones(rules) {
        let i = r as usize;
        first[i] = n as u64;
        n += places::size_of(g, region_at(codes, i));
    }
    n
}

// Lays out all tables, those of the rules of a mask behind the first two; how many fields they have.
pub fn lay_all(right: &[u8], rules: u64, g: Grid, first: &mut [u64]) -> u32
    requires { SmallGrid g × (256 ≤ length right.now) × (64 ≤ length first.old) }
    ensures { (result ≡ 2 * size_of g whole_region + room_of g right.now rules 64)
        × TablesLaid (all_tables g right.now rules first.new) 0 result
        × (length first.new ≡ length first.old) }
{
    lay_out(right, rules, g, 2 * denials_start(g), first)
}

// The number of a place's field in the table of a region that starts at `from`.
fn number_in(f: Frame, from: u32, b: Region, p: Place) -> u32
    requires { (from + size_of f.grid b ≤ f.fields) × Within f.grid p.pair p.point }
    ensures { (result ≡ from + index_in f.grid b p.pair p.point) × (result < f.fields) }
{
    let g = f.grid;
    let x = p.point;
    from + places::index_in(g, b, p.pair, x)
}

// A place's field in such a table.
pub fn field_in(words: &[u64], f: Frame, from: u32, b: Region, p: Place) -> u64
    requires { Reaches f from b p (length words.now) }
    ensures { result ≡ field_of f.width words.now
        (from + index_in f.grid b p.pair p.point) }
{
    field_at(words, f.width, number_in(f, from, b, p))
}

// Joins v to it; whether that is new.
fn join_in(words: &mut [u64], f: Frame, from: u32, b: Region, p: Place, v: u64) -> bool
    requires { Reaches f from b p (length words.old) × (v < 2 ^ (2 ^ f.width)) }
    ensures { ((j : ℕ) → field_of f.width words.new j
        ≡ joined f.width words.old (from + index_in f.grid b p.pair p.point) v j)
        × (length words.new ≡ length words.old)
        × SumGrown result words.old words.new }
{
    join_at(words, f.width, number_in(f, from, b, p), v)
}

// Joins v to the field of a place in the table of rule c, if it has the place; whether that is new.
fn give_rule(
    words: &mut [u64],
    right: &[u8],
    first: &[u64],
    f: Frame,
    p: Place,
    c: u32,
    v: u64,
) -> bool
    requires { TablesReady f right.now first.now (length words.old) × Within f.grid p.pair
        p.point
        × (c < 64) × (bit c f.tables ≡ true) × (v < 2 ^ (2 ^ f.width)) }
    ensures { TablesGiven (tables_of f right.now first.now) f.width p.pair
        p.point (rule_table c) v words.old words.new
        × SumGrown result words.old words.new }
{
    let i = c as usize;
    let b = shape_at(f, right, i);
    let x = p.point;
    if is_in(b, x) {
        return join_in(words, f, first[i] as u32, b, p, v);
    }
    false
}

// Joins v to the field of a place in the table of its sign and in those of the rules that take it and have
// the place; whether something is new.
pub fn give(
    words: &mut [u64],
    right: &[u8],
    first: &[u64],
    f: Frame,
    p: Place,
    sign: u32,
    takers: u64,
    v: u64,
) -> bool
    requires { TablesReady f right.now first.now (length words.old) × Within f.grid p.pair
        p.point
        × (sign < 2) × ((c : ℕ) → bit c takers ≡ true → bit c f.tables ≡ true)
        × (v < 2 ^ (2 ^ f.width)) }
    ensures { TablesGiven (tables_of f right.now first.now) f.width p.pair
        p.point (table_takes sign takers) v words.old words.new
        × SumGrown result words.old words.new }
{
    let g = f.grid;
    let b = all_places();
    let mut fresh = join_in(words, f, sign * denials_start(g), b, p, v);
    for c in ones(takers) {
        fresh |= give_rule(words, right, first, f, p, c, v);
    }
    fresh
}
