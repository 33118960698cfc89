// The privileges of a body: where one stands among them, one put in and one taken out.
ghost use Rattle.std.specs.Prelude.{◌≡◌, true, ◌<◌, length};
ghost use Rattle.model.specs.Ranges.{most_objects};
ghost use Rattle.model.specs.Base.{listed};
ghost use Rattle.model.specs.Requests.{before, insert, without};
ghost use Rattle.model.specs.Encoding.{encode, decode};
ghost use Rattle.model.specs.Soundness.{chained};
ghost use Rattle.edits.specs.Edits.{Written, privileges_of, with_privileges};
ghost use Rattle.effects.specs.EffectRecords.{first_index};

use edits::{PrivilegeBody, WrittenBase};
use encoding::Records;
use lookup::is_before;
use model::Privilege;

// How many of the privileges stand before the first that a privilege is before.
fn privilege_index(privileges: &Records<'_, Privilege>, p: Privilege) -> usize
    ensures { result ≡ first_index (before p) privileges.now }
{
    let n = privileges.len();
    for i in 0..n {
        if is_before(p, privileges.get(i)) {
            return i;
        }
    }
    n
}

// Puts a privilege in its place.
pub fn insert_in_order(s: &mut [u8], k: PrivilegeBody, p: Privilege)
    requires { Written s.old × (length (privileges_of k (decode s.old)) < most_objects) }
    ensures { s.new
        ≡ encode (with_privileges k (insert p (privileges_of k (decode s.old)))
        (decode s.old)) }
{
    let i = privilege_index(&WrittenBase { bytes: s }.privileges(k), p);
    edits::insert_privilege(s, k, i, p);
}

// Takes a privilege out that stands among the others of its body, in order: the last that it is not before.
pub fn take_privilege(s: &mut [u8], k: PrivilegeBody, p: Privilege)
    requires { Written s.old × (chained before (privileges_of k (decode s.old)) ≡ true)
        × (listed (privileges_of k (decode s.old)) p.object p.subject ≡ true) }
    ensures { s.new
        ≡ encode (with_privileges k (without p.object p.subject
        (privileges_of k (decode s.old))) (decode s.old)) }
{
    let i = privilege_index(&WrittenBase { bytes: s }.privileges(k), p) - 1;
    edits::remove_privilege(s, k, i);
}
