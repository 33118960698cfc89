// A sound base, as a question is put to it.
ghost use Rattle.std.specs.Prelude.{◌≡◌, true, Bool, Some, [], ◌*◌, ◌≤◌, length, drop};
ghost use Rattle.foundation.specs.Lists.{anyb};
ghost use Rattle.model.specs.Base.{Base};
ghost use Rattle.model.specs.Answers.{access_in};
ghost use Rattle.model.specs.Effects.{with_rules};
ghost use Rattle.model.specs.Encoding.{decode};
ghost use Rattle.model.specs.Rules.{may, stands_for};
ghost use Rattle.model.specs.Soundness.{sound_bytes};
ghost use Rattle.encoding.specs.Format.{counts_of, authorizations_at};

use crate::Totals;
use direct::{holds_directly, stands_some};
use lookup::SoundBase;
use model::{AUTHORIZATION_BYTES, Access};

// The bytes of a sound base, which have its owners and administrators, and the bytes from its authorizations
// on, with how many of these are asked, and of the rules behind them.
#[derive(Clone, Copy)]
pub struct AskedBase<'a> {
    pub bytes: &'a [u8],
    pub records: &'a [u8],
    pub totals: Totals,
    pub ghost sound: { sound_bytes bytes.now ≡ true },
    pub ghost there: { totals.authorizations * 24 ≤ length records.now },
}

impl<'a> AskedBase<'a> {
    ghost use Rattle.queries.specs.AskedBases.{Asked, IsAsked};
    ghost use Rattle.queries.specs.HandedOn.{totals_of};

    // All of a base whose bytes are sound.
    pub fn new(s: &'a [u8]) -> AskedBase<'a>
        requires { sound_bytes s.now ≡ true }
        ensures { (result.bytes.now ≡ s.now)
            × (result.records.now ≡ drop (authorizations_at (counts_of s.now)) s.now)
            × (result.totals ≡ totals_of (counts_of s.now)) × Asked result (decode s.now) }
    {
        let c = encoding::counts_of(s);
        let at = encoding::authorizations_at(c);
        AskedBase {
            bytes: s,
            records: &s[at..],
            totals: Totals {
                authorizations: c.authorizations as usize,
                rules: c.rules as usize,
            },
        }
    }

    // The same base without rules.
    pub fn without_rules(&self) -> AskedBase<'a>
        ensures { (base : Base) → Asked self.now base → Asked result (with_rules [] base) }
    {
        AskedBase {
            bytes: self.bytes,
            records: self.records,
            totals: Totals {
                rules: 0,
                ..self.totals
            },
        }
    }

    // Whether some rule stands for one that derives the access.
    pub fn stands_some(&self, x: Access) -> bool
        requires { IsAsked self.now }
        ensures { (base : Base) → Asked self.now base →
            result ≡ anyb (λ r. stands_for base r x) base.rules }
    {
        let from = self.totals.authorizations * AUTHORIZATION_BYTES;
        let base = SoundBase { bytes: self.bytes };
        stands_some(&base, &self.records[from..], self.totals.rules, x)
    }

    // What MAY says at t where no rule stands for the access: the authorizations alone are asked.
    pub fn held_alone(&self, x: Access, t: u32) -> Option<bool>
        requires { (access_in x ≡ true) × IsAsked self.now }
        ensures { (base : Base) (yes : Bool) → Asked self.now base → result ≡ Some yes →
            yes ≡ may base x t }
    {
        if self.stands_some(x) {
            return None;
        }
        Some(holds_directly(self.records, self.totals.authorizations, x, t))
    }
}
