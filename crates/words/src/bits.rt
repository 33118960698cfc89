// The set bits of a word, one after the other: `for r in ones(m) { .. }`.
ghost use Rattle.std.specs.Prelude.{◌≡◌};
ghost use Rattle.std.specs.Iterator.{YieldsFirst, YieldsLast, item_count};
ghost use Rattle.words.specs.SetBits.{bits_left};

use crate::{next_bit, without_lowest};

// The bits that are left.
#[derive(Clone, Copy)]
pub struct SetBits {
    pub left: u64,
}

// The numbers of the set bits of m, in rising order.
pub fn ones(m: u64) -> SetBits
    ensures { result.left ≡ m }
{
    SetBits { left: m }
}

impl Iterator for SetBits {
    type Item = u32;

    ghost next_gives = { YieldsFirst bits_left };

    ghost remaining = { item_count bits_left };

    fn next(&mut self) -> Option<u32> {
        let r = next_bit(self.left, 0);
        if r == 64 {
            return None;
        }
        self.left = without_lowest(self.left);
        Some(r)
    }
}

impl DoubleEndedIterator for SetBits {
    ghost next_back_gives = { YieldsLast bits_left };

    fn next_back(&mut self) -> Option<u32> {
        if self.left == 0 {
            return None;
        }
        let r = 63 - u64::leading_zeros(self.left);
        self.left = self.left - (1 << r);
        Some(r)
    }
}
