// The net of places (`specs/Net.antt`): which rules stand on what, and where they lead.
ghost use Rattle.std.specs.Prelude.{◌≡◌, ℕ, ◌+◌, ◌*◌, ◌≤◌, ◌<◌, length, get_or};

use places::{Pair, needs_of, pair_index};
use sections::{LEFT_MODES, LEFT_SUBJECTS};

// The masks of left sides, the codes of right sides, and how many subjects a row of pairs has.
#[derive(Drop)]
pub struct RuleNet<'a> {
    pub left: &'a [u64],
    pub right: &'a [u8],
    pub subjects: usize,
    ghost masks: { 152 ≤ length left.now },
    ghost codes: { 256 ≤ length right.now },
}

// The place that rules lead on from: the coordinates of its object, subject and mode.
#[derive(Clone, Copy)]
pub struct Origin {
    pub object: usize,
    pub subject: usize,
    pub mode: usize,
}

impl<'a> RuleNet<'a> {
    ghost use Rattle.reach.specs.Net.{standing, turned, right_pair, right_needs};

    // A coordinate of a right side with a code: its own, or that of the left side.
    fn turn(code: u8, own: usize) -> usize
        ensures { result ≡ turned code own }
    {
        if code == 255 { own } else { code as usize }
    }

    // The pair on the right of rule r.
    pub fn right_pair(&self, r: usize, at: Origin) -> usize
        requires { (r < 64) × (right_pair self.now.right.now self.now.subjects r at.object at.subject
            < 18446744073709551616) }
        ensures { result ≡ right_pair self.now.right.now self.now.subjects r at.object at.subject }
    {
        let p = Pair {
            object: Self::turn(self.right[4 * r], at.object),
            subject: Self::turn(self.right[4 * r + 1], at.subject),
        };
        pair_index(p, self.subjects)
    }

    // What rule r needs there, seen from a mode.
    pub fn right_needs(&self, r: usize, mode: usize) -> u16
        requires { (r < 64) × (turned (get_or self.now.right.now (4 * r + 2) 0) mode < 8)
            × (get_or self.now.right.now (4 * r + 3) 0 < 4) }
        ensures { result ≡ right_needs self.now.right.now r mode }
    {
        let signs = u16::from(self.right[4 * r + 3]);
        let m = Self::turn(self.right[4 * r + 2], mode);
        needs_of(signs, m)
    }

    // The rules that stand at an object and a subject with a mode and a sign.
    pub fn stand(&self, o: usize, s: usize, k: usize) -> u64
        requires { (o < 65) × (s < 65) × (k < 16) }
        ensures { result ≡ standing self.now.left.now o s k }
    {
        self.left[o] & self.left[LEFT_SUBJECTS + s] & self.left[LEFT_MODES + k]
    }
}
