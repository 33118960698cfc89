// Soundness of each body by itself, beside the others: the order of its records, and every record.
#![tactic(auto)]

ghost use Rattle.std.specs.Prelude.{◌≡◌, true};
ghost use Rattle.model.specs.Encoding.{decode};
ghost use Rattle.encoding.specs.Format.{format_fits};
ghost use Rattle.bodies.specs.BodyTests.{objects_part, privileges_part, authorizations_part, rules_part};
ghost use Rattle.bodies.specs.Asked.{base_of, bodies_hold};

mod each;
mod tests;

use encoding::Records;
use lookup::{is_before, object_rises, rule_rises};
use model::{Authorization, Privilege, Rule};
use support::Roots;
use tests::{neighbour_test, privilege_in};

// The bodies of a base, with its clock and the last label given. Of the roots, the owners are the objects.
#[derive(Drop)]
pub struct Bodies<'a> {
    pub clock: u32,
    pub last: u16,
    pub roots: Roots<'a>,
    pub referrers: Records<'a, Privilege>,
    pub authorizations: Records<'a, Authorization>,
    pub rules: Records<'a, Rule>,
}

impl<'a> Bodies<'a> {
    // Those of bytes of the format.
    pub fn of(s: &'a [u8]) -> Bodies<'a>
        requires { format_fits s.now ≡ true }
        ensures { base_of result ≡ decode s.now }
    {
        let c = encoding::counts_of(s);
        let administrators = encoding::administrators_at(c);
        let referrers = encoding::referrers_at(c);
        let authorizations = encoding::authorizations_at(c);
        let rules = encoding::rules_at(c);
        Bodies {
            clock: fields::le32(s, 4),
            last: fields::le16(s, 8),
            roots: Roots {
                owners: Records::new(&s[32..], c.objects as usize),
                administrators: Records::new(&s[administrators..], c.administrators as usize),
            },
            referrers: Records::new(&s[referrers..], c.referrers as usize),
            authorizations: Records::new(&s[authorizations..], c.authorizations as usize),
            rules: Records::new(&s[rules..], c.rules as usize),
        }
    }

    // Objects rise by number, and each is in range.
    fn objects_hold(&self) -> bool
        ensures { result ≡ objects_part self.now.roots.owners }
    {
        let objects = &self.roots.owners;
        objects.is_chained(|p, q| object_rises(p, q)) & objects.all(|p| privilege_in(p))
    }

    // Administrators, or referrers, rise by object, then subject, and each passes its test.
    fn privileges_hold(&self, privileges: &Records<'_, Privilege>) -> bool
        ensures { result ≡ privileges_part self.now.roots.owners privileges.now }
    {
        privileges.is_chained(|p, q| is_before(p, q)) & privileges.all(|p| self.privilege_test(p))
    }

    // Authorizations rise by label, then start, those of one label agree, and each passes its test.
    fn authorizations_hold(&self) -> bool
        ensures { result ≡ authorizations_part self.now.roots.owners self.now.rules self.now.clock
            self.now.last self.now.authorizations }
    {
        self.authorizations.is_chained(|a, b| neighbour_test(a, b))
            & self.authorizations.all(|a| self.authorization_test(a))
    }

    // Rules rise by label, and each passes its test.
    fn rules_hold(&self) -> bool
        ensures { result ≡ rules_part self.now.roots.owners self.now.roots.administrators
            self.now.referrers self.now.last self.now.rules }
    {
        self.rules.is_chained(|q, r| rule_rises(q, r)) & self.rules.all(|r| self.rule_test(r))
    }

    // Each body holds beside the others.
    pub fn hold(&self) -> bool
        ensures { result ≡ bodies_hold (base_of self.now) }
    {
        self.objects_hold()
            & self.privileges_hold(&self.roots.administrators)
            & self.privileges_hold(&self.referrers)
            & self.authorizations_hold()
            & self.rules_hold()
    }
}
