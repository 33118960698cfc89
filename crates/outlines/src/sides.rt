// The sides of the rules by coordinates, four codes a rule.
ghost use Rattle.std.specs.Prelude.{◌≡◌, ◌⊎◌, ℕ, ◌+◌, ◌*◌, ◌/◌, ◌≤◌, ◌<◌, eqb, length, get_or, drop};
ghost use Rattle.foundation.specs.Tests.{pick};
ghost use Rattle.sections.specs.Sections.{sides_of, rights_of, subjects_of, objects_of};
ghost use Rattle.outlines.specs.Coordinates.{WellFormed, Ranged};
ghost use Rattle.outlines.specs.Outline.{mode_code, CodedAt, RightSides, LeftSides};

use encoding::rule_at;
use model::{RULE_BYTES, Side};
use sections::{OBJECTS, RIGHT, SIDES, SUBJECTS};

// A coordinate, or the code of the star where v is one.
fn coded(v: u16, c: u8) -> u8
    ensures { result ≡ pick (eqb v 0) 255 c }
{
    if v == 0 { 255 } else { c }
}

// The code of a mode.
fn mode_code(m: u8) -> u8
    ensures { result ≡ mode_code m }
{
    if m == 0 { 255 } else { m - 1 }
}

// Puts the codes of a side to the four bytes from `at` on.
fn put_side(coordinates: &mut [u8], at: usize, s: Side, signs: u8)
    requires { (at + 4 ≤ 512) × (length coordinates.old ≡ 1666) × Ranged s }
    ensures { CodedAt (subjects_of coordinates.old) (objects_of coordinates.old) s
        signs coordinates.new at
        × ((k : ℕ) → (k < at) ⊎ (at + 4 ≤ k) →
        get_or coordinates.new k 0 ≡ get_or coordinates.old k 0) }
{
    let subject = usize::from(s.subject);
    let object = usize::from(s.object);
    coordinates[at] = coded(s.object, coordinates[OBJECTS + object]);
    coordinates[at + 1] = coded(s.subject, coordinates[SUBJECTS + subject]);
    coordinates[at + 2] = mode_code(s.mode);
    coordinates[at + 3] = signs;
}

// The codes of the right sides. What is behind the last rule stays.
pub fn draw_right(body: &[u8], n: usize, coordinates: &mut [u8])
    requires { WellFormed n body.now × (length coordinates.old ≡ 1666) }
    ensures { RightSides (subjects_of coordinates.old) (objects_of coordinates.old)
        n body.now (rights_of coordinates.new)
        × ((k : ℕ) → n ≤ k / 4 →
        get_or (rights_of coordinates.new) k 0 ≡ get_or (rights_of coordinates.old) k 0)
        × (drop 512 coordinates.new ≡ drop 512 coordinates.old) }
{
    for i in 0..n {
        let r = rule_at(body, i * RULE_BYTES);
        put_side(coordinates, RIGHT + 4 * i, r.right, 3);
    }
}

// The codes of the left sides, with the signs of both sides.
pub fn draw_left(body: &[u8], n: usize, coordinates: &mut [u8])
    requires { WellFormed n body.now × (length coordinates.old ≡ 1666) }
    ensures { LeftSides (subjects_of coordinates.old) (objects_of coordinates.old)
        n body.now (sides_of coordinates.new)
        × (drop 256 coordinates.new ≡ drop 256 coordinates.old) }
{
    for i in 0..n {
        let r = rule_at(body, i * RULE_BYTES);
        let signs = u8::from(r.left.negative) + 2 * u8::from(r.right.negative);
        put_side(coordinates, SIDES + 4 * i, r.left, signs);
    }
}
