// Coordinates of the subjects and objects that right sides name.
ghost use Rattle.std.specs.Prelude.{◌≡◌, ℕ, ◌<◌, length, get_or};
ghost use Rattle.sections.specs.Sections.{subjects_of, objects_of};
ghost use Rattle.outlines.specs.Coordinates.{WellFormed, Added, HasCoordinates, subject_on_right};
ghost use Rattle.outlines.specs.Coordinates.{object_on_right};

use crate::Sizes;
use encoding::rule_at;
use model::RULE_BYTES;
use sections::{COORDINATES, OBJECTS, SUBJECTS};

// Gives v the next coordinate where it has none; the next one then. The star has none.
fn add(table: &mut [u8], v: usize, next: u32) -> u32
    requires { (v < length table.old) × (next < 256) }
    ensures { Added table.old v next table.new result }
{
    if (v == 0) | (table[v] != 0) {
        return next;
    }
    table[v] = next as u8;
    next + 1
}

// Gives coordinates to what right sides name; how many there are.
pub fn number_sides(body: &[u8], n: usize, coordinates: &mut [u8]) -> Sizes
    requires { WellFormed n body.now × (length coordinates.old ≡ 1666)
        × ((v : ℕ) → get_or coordinates.old v 0 ≡ 0) }
    ensures { HasCoordinates subject_on_right n body.now
        (subjects_of coordinates.new)
        result.subjects
        × HasCoordinates object_on_right n body.now (objects_of coordinates.new)
        result.objects
        × ((v : ℕ) → v < 512 → get_or coordinates.new v 0 ≡ 0) }
{
    let mut s = 1;
    let mut o = 1;
    for i in 0..n {
        let side = rule_at(body, i * RULE_BYTES).right;
        s = add(
            &mut coordinates[SUBJECTS..OBJECTS],
            usize::from(side.subject),
            s,
        );
        o = add(
            &mut coordinates[OBJECTS..COORDINATES],
            usize::from(side.object),
            o,
        );
    }
    Sizes {
        subjects: s,
        objects: o,
    }
}
