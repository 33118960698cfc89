// The bytes of a base, to be read between two edits.
ghost use Rattle.std.specs.Prelude.{◌≡◌};
ghost use Rattle.model.specs.Encoding.{decode};
ghost use Rattle.edits.specs.Edits.{Written, privileges_of};

use crate::PrivilegeBody;
use encoding::Records;
use model::{Privilege, Rule};

// The bytes of a base that fits. It need not be sound, as it may be half edited.
#[derive(Clone, Copy)]
pub struct WrittenBase<'a> {
    pub bytes: &'a [u8],
    pub ghost written: { Written bytes.now },
}

impl<'a> WrittenBase<'a> {
    // The last label given.
    pub fn last(&self) -> u16
        ensures { result ≡ (decode self.now.bytes.now).last }
    {
        fields::le16(self.bytes, 8)
    }

    // The privileges of a body.
    pub fn privileges(&self, k: PrivilegeBody) -> Records<'a, Privilege>
        ensures { result ≡ privileges_of k (decode self.now.bytes.now) }
    {
        let c = encoding::counts_of(self.bytes);
        let at = crate::privileges_at(c, k);
        Records::new(&self.bytes[at..], crate::privilege_count(c, k) as usize)
    }

    pub fn rules(&self) -> Records<'a, Rule>
        ensures { result ≡ (decode self.now.bytes.now).rules }
    {
        let c = encoding::counts_of(self.bytes);
        let at = encoding::rules_at(c);
        Records::new(&self.bytes[at..], c.rules as usize)
    }
}
