// Facts: the authorizations that matter, given to the tables over a window. Each is given at its place, to
// the table of its sign and to those of the rules whose right side it fits.
#![tactic(auto)]

mod sharing;

ghost use Rattle.std.specs.Prelude.{◌≡◌, ◌&&◌, ℕ, ◌≤◌, ◌<◌, length, drop};
ghost use Rattle.foundation.specs.BitMasks.{bit};
ghost use Rattle.sections.specs.Sections.{subjects_of, objects_of};
ghost use Rattle.masks.specs.RuleMasks.{RulesIn};
ghost use Rattle.relevance.specs.Chosen.{picked};
ghost use Rattle.relevance.specs.Needed.{HeadInRange};
ghost use Rattle.facts.specs.Facts.{fits_kind, fits_rule, takers_in, setting_in};
ghost use Rattle.facts.specs.Facts.{pair_for, place_for};
ghost use Rattle.facts.specs.Facts.{Usable, HasPlace, LinesReady, LineStep, LineSteps};

use encoding::{authorization_at, rule_at};
use masks::those;
use model::{AUTHORIZATION_BYTES, Access, Authorization, Head, RULE_BYTES, Rule};
use places::{Grid, Pair, Point, pair_index};
use relevance::{Chosen, cell_of, sign_of};
use rules::fits_option;
use sections::{FIRST, RIGHT, STARTS, SUBJECTS};
pub use sharing::lay_tables;
use tables::{Frame, Place, give};
use windows::span;

// A window: what was chosen, where the bytes of the rules start behind those of the authorizations, the
// access that coordinate 0 stands for, how many instants there are, the frame of the tables, and whether the
// strata of the needed rules are in the outline already.
#[derive(Clone, Copy)]
pub struct WindowTask {
    pub chosen: Chosen,
    pub offset: usize,
    pub own: Access,
    pub count: usize,
    pub frame: Frame,
    pub ranked: bool,
}

// The rules that have tables, whether these have all places, and how many fields all tables have.
#[derive(Clone, Copy)]
pub struct TablePlan {
    pub tables: u64,
    pub wide: bool,
    pub fields: u32,
}

// Whether sign, grantor and option of a rule's right side fit an authorization.
fn fits_kind(h: Head, r: Rule) -> bool
    ensures { result ≡ fits_kind h r }
{
    let sign = h.negative == r.right.negative;
    let option = fits_option(r.option, h.option);
    sign & ((r.grantor == 0) | (r.grantor == h.grantor)) & option
}

// Those of a mask of rules whose right side an authorization fits.
pub fn takers_of(h: Head, body: &[u8], rules: u64) -> u64
    requires { RulesIn rules body.now }
    ensures { (result ≡ takers_in body.now rules h)
        × ((c : ℕ) → bit c result ≡ bit c rules && fits_rule body.now h c) }
{
    those(
        rules,
        |c| fits_kind(h, rule_at(body, (c as usize) * RULE_BYTES)),
    )
}

// The place of an authorization, x being asked.
fn place_for(h: Head, x: Access, coordinates: &[u8], number: &[u16], g: Grid) -> Place
    requires { HeadInRange h × (pair_for (subjects_of coordinates.now) (objects_of coordinates.now) x g h
        < length number.now) × (length number.now ≤ 4225) × (1666 ≤ length coordinates.now) }
    ensures { result ≡ place_for (subjects_of coordinates.now)
        (objects_of coordinates.now) x g number.now h }
{
    let c = cell_of(h, x, coordinates);
    let p = Pair {
        object: c.object as usize,
        subject: c.subject as usize,
    };
    let j = pair_index(p, g.subjects as usize);
    Place {
        pair: u32::from(number[j]),
        point: Point {
            subject: c.subject,
            mode: u32::from(h.mode) - 1,
            object: c.object,
        },
    }
}

// Gives the tables the instants of an authorization.
fn give_line(
    a: Authorization,
    body: &[u8],
    w: WindowTask,
    outline: &[u64],
    coordinates: &[u8],
    number: &[u16],
    marks: &[u32; 63],
    words: &mut [u64],
)
    requires { Usable (setting_in body.now w outline.now coordinates.now number.now marks.now)
        (length words.old)
        × HasPlace (setting_in body.now w outline.now coordinates.now number.now marks.now) a.head
        × (length outline.now ≡ 536) × (length coordinates.now ≡ 1666) }
    ensures { LineStep (setting_in body.now w outline.now
        coordinates.now number.now marks.now)
        a words.old words.new }
{
    let h = a.head;
    let f = w.frame;
    let v = span(marks, w.count, a.interval);
    if v == 0 {
        return;
    }
    let p = place_for(h, w.own, coordinates, number, f.grid);
    let takers = takers_of(h, body, f.tables);
    give(
        words,
        &coordinates[RIGHT..SUBJECTS],
        &outline[FIRST..STARTS],
        f,
        p,
        sign_of(h.negative),
        takers,
        v,
    );
}

// Gives the tables the instants of each of the authorizations that `which` has the numbers of. The rules
// stand behind all authorizations.
pub fn give_lines(
    records: &[u8],
    w: WindowTask,
    outline: &[u64],
    coordinates: &[u8],
    which: &[u16],
    number: &[u16],
    marks: &[u32; 63],
    words: &mut [u64],
)
    requires { LinesReady (setting_in (drop w.offset records.now) w outline.now coordinates.now
        number.now marks.now) records.now which.now w.chosen.authorizations (length words.old)
        × (w.offset ≤ length records.now) × (length outline.now ≡ 536)
        × (length coordinates.now ≡ 1666) }
    ensures { LineSteps (setting_in (drop w.offset records.now) w outline.now
        coordinates.now number.now marks.now)
        (picked records.now which.now w.chosen.authorizations)
        words.old words.new
        × (length words.new ≡ length words.old) }
{
    let body = &records[w.offset..];
    for i in 0..w.chosen.authorizations {
        let at = usize::from(which[i]);
        let a = authorization_at(records, at * AUTHORIZATION_BYTES);
        give_line(a, body, w, outline, coordinates, number, marks, words);
    }
}
