// Questions to the records of a body, and of the numbers of a request among them. Those have 32 bits, and the
// records' 16 or 8: one that does not fit is no record's.
ghost use Rattle.std.specs.Prelude.{◌≡◌, ◌||◌};
ghost use Rattle.foundation.specs.Lists.{anyb};
ghost use Rattle.model.specs.Base.{listed};
ghost use Rattle.lookup.specs.RecordTests.{exists_in, has_label, of_other, labelled, of_other_author};

use encoding::Records;
use model::{Authorization, Privilege, Rule};

// One of the privileges is that of a subject on an object.
pub fn is_listed(privileges: &Records<'_, Privilege>, o: u32, u: u32) -> bool
    ensures { result ≡ listed privileges.now o u }
{
    privileges.any(|p| (p.object as u32 == o) & (p.subject as u32 == u))
}

// Whether a subject owns or administers an object: a chain may begin with what it grants there.
pub fn is_root(
    owners: &Records<'_, Privilege>,
    administrators: &Records<'_, Privilege>,
    o: u32,
    g: u32,
) -> bool
    ensures { result ≡ listed owners.now o g || listed administrators.now o g }
{
    is_listed(owners, o, g) | is_listed(administrators, o, g)
}

// An object is among the objects of a base.
pub fn has_object(objects: &Records<'_, Privilege>, object: u32) -> bool
    ensures { result ≡ exists_in objects.now object }
{
    objects.any(|p| p.object as u32 == object)
}

// The same, of all objects: for one question, where the processor cannot foresee at which a search ends.
pub fn among_objects(objects: &Records<'_, Privilege>, object: u32) -> bool
    ensures { result ≡ exists_in objects.now object }
{
    let mut found = false;
    for i in 0..objects.len() {
        found |= objects.get(i).object as u32 == object;
    }
    found
}

// One of the rules has a label.
pub fn has_label(rules: &Records<'_, Rule>, label: u32) -> bool
    ensures { result ≡ anyb (labelled label) rules.now }
{
    rules.any(|r| r.label as u32 == label)
}

// One of the authorizations has a label.
pub fn any_labelled(authorizations: &Records<'_, Authorization>, label: u32) -> bool
    ensures { result ≡ anyb (has_label label) authorizations.now }
{
    authorizations.any(|a| a.head.label as u32 == label)
}

// One of the authorizations has a label, and another grantor.
pub fn any_of_other(authorizations: &Records<'_, Authorization>, label: u32, grantor: u32) -> bool
    ensures { result ≡ anyb (of_other label grantor) authorizations.now }
{
    authorizations.any(|a| (a.head.label as u32 == label) & (a.head.grantor as u32 != grantor))
}

// One of the rules has a label, and another author.
pub fn any_of_other_author(rules: &Records<'_, Rule>, label: u32, author: u32) -> bool
    ensures { result ≡ anyb (of_other_author label author) rules.now }
{
    rules.any(|r| (r.label as u32 == label) & (r.author as u32 != author))
}
