// The records of a body as rows of numbers.
ghost use Rattle.std.specs.Prelude.{◌≡◌, List, ℕ, length};
ghost use Rattle.model.specs.Encoding.{decode};
ghost use Rattle.records.specs.Records.{privilege_numbers, authorization_numbers, rule_numbers, heading_numbers};

use encoding::Record;
use lookup::SoundBase;
use model::{Authorization, Privilege, Rule};

// A record that a page gives as a row of numbers.
pub trait Numbered: Record {
    const WIDTH: usize;

    ghost WIDTH: { ℕ };

    ghost numbers: { Self → List ℕ };

    // Writes them to a row of that many.
    fn put_numbers(self, row: &mut [u32])
        requires { length row.old ≡ WIDTH }
        ensures { row.new ≡ numbers self };
}

impl Numbered for Privilege {
    const WIDTH: usize = 2;

    ghost WIDTH = { 2 };

    ghost numbers = { privilege_numbers };

    fn put_numbers(self, row: &mut [u32]) {
        row.copy_from_slice(&[self.object as u32, self.subject as u32]);
    }
}

impl Numbered for Authorization {
    const WIDTH: usize = 10;

    ghost WIDTH = { 10 };

    ghost numbers = { authorization_numbers };

    fn put_numbers(self, row: &mut [u32]) {
        let h = self.head;
        row.copy_from_slice(&[
            h.label as u32,
            h.grantor as u32,
            h.subject as u32,
            h.object as u32,
            h.mode as u32,
            h.negative as u32,
            h.option as u32,
            h.granted,
            self.interval.start,
            self.interval.end,
        ]);
    }
}

impl Numbered for Rule {
    const WIDTH: usize = 15;

    ghost WIDTH = { 15 };

    ghost numbers = { rule_numbers };

    fn put_numbers(self, row: &mut [u32]) {
        let left = self.left;
        let right = self.right;
        row.copy_from_slice(&[
            self.label as u32,
            self.author as u32,
            left.subject as u32,
            left.mode as u32,
            left.object as u32,
            left.negative as u32,
            self.operator as u32,
            right.subject as u32,
            right.mode as u32,
            right.object as u32,
            right.negative as u32,
            self.grantor as u32,
            self.option as u32,
            self.interval.start,
            self.interval.end,
        ]);
    }
}

// The heading of a base, a row by itself: the clock, the last label, and how many records each body has.
pub fn heading_numbers(base: &SoundBase<'_>) -> [u32; 7]
    ensures { result ≡ heading_numbers (decode base.now.bytes.now) }
{
    let c = encoding::counts_of(base.bytes);
    [
        base.clock(),
        base.last() as u32,
        c.objects as u32,
        c.administrators as u32,
        c.referrers as u32,
        c.authorizations as u32,
        c.rules as u32,
    ]
}
