// The tests of single records beside the other bodies.
ghost use Rattle.std.specs.Prelude.{◌≡◌};
ghost use Rattle.bodies.specs.BodyTests.{privilege_test, authorization_test, rule_test};

use crate::Bodies;
use crate::tests::{authorization_in, privilege_in, rule_in, stars_meet};
use lookup::{has_label, has_object, is_listed, is_root, option_fits};
use model::{Authorization, Privilege, Rule};

impl Bodies<'_> {
    // A privilege is in range, of an object that exists, and not its owner's.
    pub fn privilege_test(&self, p: Privilege) -> bool
        ensures { result ≡ privilege_test self.now.roots.owners p }
    {
        let objects = &self.roots.owners;
        privilege_in(p)
            & has_object(objects, p.object as u32)
            & !is_listed(objects, p.object as u32, p.subject as u32)
    }

    // An authorization is in range, starts at its grant or later and ends not before, was not granted behind
    // the clock, is no denial with the option, is of an object that exists, and has a label that no rule has
    // and that was given.
    pub fn authorization_test(&self, a: Authorization) -> bool
        ensures { result ≡ authorization_test self.now.roots.owners self.now.rules self.now.clock
            self.now.last a }
    {
        let h = a.head;
        let i = a.interval;
        authorization_in(a)
            & (i.start <= i.end)
            & ((h.granted <= i.start) & (h.granted <= self.clock))
            & !(h.negative & h.option)
            & has_object(&self.roots.owners, h.object as u32)
            & !has_label(&self.rules, h.label as u32)
            & (h.label <= self.last)
    }

    // A rule is in range, its objects exist, its label was given, its author may set it up, a star is on both
    // sides or on neither, and a denial on the right is not marked transferable. Starred objects need not
    // exist, and the author of such a rule needs no powers.
    pub fn rule_test(&self, r: Rule) -> bool
        ensures { result ≡ rule_test self.now.roots.owners self.now.roots.administrators
            self.now.referrers self.now.last r }
    {
        let objects = &self.roots.owners;
        let administrators = &self.roots.administrators;
        let left = r.left.object as u32;
        let right = r.right.object as u32;
        let author = r.author as u32;
        let i = r.interval;
        let any = left == 0;
        rule_in(r)
            & (i.start <= i.end)
            & (any | (has_object(objects, left) & has_object(objects, right)))
            & (r.label <= self.last)
            & (any
                | (is_root(objects, administrators, left, author)
                    & (is_root(objects, administrators, right, author)
                        | is_listed(&self.referrers, right, author))))
            & stars_meet(r)
            & option_fits(r.right.negative, r.option)
    }
}
