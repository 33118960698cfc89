// A sound base, and what its bytes say of the numbers that a request names.
ghost use Rattle.std.specs.Prelude.{◌≡◌, true};
ghost use Rattle.foundation.specs.Lists.{anyb};
ghost use Rattle.model.specs.Base as base;
ghost use Rattle.model.specs.Encoding.{decode};
ghost use Rattle.model.specs.Rules.{stands_on, stands_for};
ghost use Rattle.model.specs.Soundness.{sound_bytes};
ghost use Rattle.model.specs.Step.{bars};
ghost use Rattle.lookup.specs.RecordTests.{has_label, of_other, labelled, of_other_author};

use crate::bodies::{
    among_objects, any_labelled, any_of_other, any_of_other_author, has_label, is_listed,
};
use crate::denials::bars;
use encoding::Records;
use model::{Access, Authorization, Privilege, Request, Rule};

// The bytes of a base that is sound. A caller that has tested that writes `SoundBase { bytes }`.
#[derive(Clone, Copy)]
pub struct SoundBase<'a> {
    pub bytes: &'a [u8],
    pub ghost sound: { sound_bytes bytes.now ≡ true },
}

impl<'a> SoundBase<'a> {
    // The instant of the last accepted request.
    pub fn clock(&self) -> u32
        ensures { result ≡ (decode self.now.bytes.now).clock }
    {
        fields::le32(self.bytes, 4)
    }

    // The last label given.
    pub fn last(&self) -> u16
        ensures { result ≡ (decode self.now.bytes.now).last }
    {
        fields::le16(self.bytes, 8)
    }

    // Each object with its owner.
    pub fn objects(&self) -> Records<'a, Privilege>
        ensures { result ≡ (decode self.now.bytes.now).objects }
    {
        let c = encoding::counts_of(self.bytes);
        Records::new(&self.bytes[32..], c.objects as usize)
    }

    pub fn administrators(&self) -> Records<'a, Privilege>
        ensures { result ≡ (decode self.now.bytes.now).administrators }
    {
        let c = encoding::counts_of(self.bytes);
        let at = encoding::administrators_at(c);
        Records::new(&self.bytes[at..], c.administrators as usize)
    }

    pub fn referrers(&self) -> Records<'a, Privilege>
        ensures { result ≡ (decode self.now.bytes.now).referrers }
    {
        let c = encoding::counts_of(self.bytes);
        let at = encoding::referrers_at(c);
        Records::new(&self.bytes[at..], c.referrers as usize)
    }

    pub fn authorizations(&self) -> Records<'a, Authorization>
        ensures { result ≡ (decode self.now.bytes.now).authorizations }
    {
        let c = encoding::counts_of(self.bytes);
        let at = encoding::authorizations_at(c);
        Records::new(&self.bytes[at..], c.authorizations as usize)
    }

    pub fn rules(&self) -> Records<'a, Rule>
        ensures { result ≡ (decode self.now.bytes.now).rules }
    {
        let c = encoding::counts_of(self.bytes);
        let at = encoding::rules_at(c);
        Records::new(&self.bytes[at..], c.rules as usize)
    }

    // The object exists.
    pub fn exists(&self, o: u32) -> bool
        ensures { result ≡ base.exists (decode self.now.bytes.now) o }
    {
        among_objects(&self.objects(), o)
    }

    // The subject owns the object.
    pub fn owns(&self, o: u32, u: u32) -> bool
        ensures { result ≡ base.owns (decode self.now.bytes.now) o u }
    {
        is_listed(&self.objects(), o, u)
    }

    // The subject administers the object.
    pub fn administers(&self, o: u32, u: u32) -> bool
        ensures { result ≡ base.administers (decode self.now.bytes.now) o u }
    {
        is_listed(&self.administrators(), o, u)
    }

    // The subject may refer to the object.
    pub fn refers(&self, o: u32, u: u32) -> bool
        ensures { result ≡ base.refers (decode self.now.bytes.now) o u }
    {
        is_listed(&self.referrers(), o, u)
    }

    // The subject owns or administers the object.
    pub fn controls(&self, o: u32, u: u32) -> bool
        ensures { result ≡ base.controls (decode self.now.bytes.now) o u }
    {
        self.owns(o, u) | self.administers(o, u)
    }

    // The rule's left side is on the object: it names it, or is starred there and its author controls the
    // object.
    pub fn stands_on(&self, q: Rule, o: u32) -> bool
        ensures { result ≡ stands_on (decode self.now.bytes.now) q o }
    {
        if q.left.object == 0 {
            return self.controls(o, q.author as u32);
        }
        q.left.object as u32 == o
    }

    // The rule stands for one that derives the access. Subject and mode come first, as most rules fail there.
    pub fn stands_for(&self, q: Rule, x: Access) -> bool
        ensures { result ≡ stands_for (decode self.now.bytes.now) q x }
    {
        let l = q.left;
        if ((l.subject == 0) | (l.subject as u32 == x.subject))
            & ((l.mode == 0) | (l.mode as u32 == x.mode))
        {
            return self.stands_on(q, x.object);
        }
        false
    }

    // The subject may set up a rule with these objects on its left and on its right.
    pub fn may_rule(&self, u: u32, left: u32, right: u32) -> bool
        ensures { result ≡ base.may_rule (decode self.now.bytes.now) u left right }
    {
        self.controls(left, u) & (self.controls(right, u) | self.refers(right, u))
    }

    // An authorization has the label.
    pub fn has_authorization(&self, label: u32) -> bool
        ensures { result ≡ anyb (has_label label) (decode self.now.bytes.now).authorizations }
    {
        any_labelled(&self.authorizations(), label)
    }

    // An authorization of the label is another grantor's.
    pub fn is_granted_by_other(&self, label: u32, grantor: u32) -> bool
        ensures { result ≡ anyb (of_other label grantor)
            (decode self.now.bytes.now).authorizations }
    {
        any_of_other(&self.authorizations(), label, grantor)
    }

    // A rule has the label.
    pub fn has_rule(&self, label: u32) -> bool
        ensures { result ≡ anyb (labelled label) (decode self.now.bytes.now).rules }
    {
        has_label(&self.rules(), label)
    }

    // A rule of the label is another author's.
    pub fn is_set_up_by_other(&self, label: u32, author: u32) -> bool
        ensures { result ≡ anyb (of_other_author label author) (decode self.now.bytes.now).rules }
    {
        any_of_other_author(&self.rules(), label, author)
    }

    // An authorization denies the requester what the request names.
    pub fn is_denied(&self, q: Request) -> bool
        ensures { result ≡ anyb (bars q) (decode self.now.bytes.now).authorizations }
    {
        self.authorizations().any(|a| bars(q, a))
    }
}
