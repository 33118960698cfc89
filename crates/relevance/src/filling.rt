// A window: the next instants at which something that matters changes.
ghost use Rattle.std.specs.Prelude.{◌≡◌, ◌≤◌, length};
ghost use Rattle.relevance.specs.Chosen.{Matters, marks_for};
ghost use Rattle.relevance.specs.Filling.{Fills};

use crate::Chosen;
use crate::ahead::{near_at, next_of, nothing_near};

// How many instants a window has, and the next behind it.
#[derive(Clone, Copy)]
pub struct Filled {
    pub count: usize,
    pub next: u64,
}

// Fills a window of at most `width` instants, from `from` on and none behind `to`.
pub fn fill(
    lines: &[u8],
    which: &[u16],
    body: &[u8],
    c: Chosen,
    from: u64,
    to: u32,
    width: usize,
    marks: &mut [u32; 63],
) -> Filled
    requires { Matters lines.now which.now body.now c × (from ≤ to) × (1 ≤ width) × (width ≤ 63)
        × (length marks.old ≡ 63) }
    ensures { Fills (marks_for lines.now which.now body.now c)
        from to width marks.new result }
{
    // The only instant is a window by itself: no mark has to be looked for.
    if from == to as u64 {
        marks[0] = to;
        return Filled {
            count: 1,
            next: from + 1,
        };
    }
    let mut t = from;
    let mut near = nothing_near();
    for count in 0..width {
        if t > to as u64 {
            return Filled {
                count: count,
                next: t,
            };
        }
        marks[count] = t as u32;
        near = near_at(lines, which, body, c, near, t as u32);
        t = next_of(near);
    }
    Filled {
        count: width,
        next: t,
    }
}
