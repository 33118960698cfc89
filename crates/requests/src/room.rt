// Row 13 for the requests that withdraw no instants: such a request adds at most one record to one body.
ghost use Rattle.std.specs.Prelude.{◌≡◌, true, false};
ghost use Rattle.model.specs.Encoding.{decode};
ghost use Rattle.model.specs.Soundness.{sound_bytes};
ghost use Rattle.model.specs.Requests.{withdraws};
ghost use Rattle.model.specs.Means.{plainly};
ghost use Rattle.model.specs.Step.{full};

use model::{ADDRULE, GRANTADM, GRANTREF, NEW, Request};

// The body that the request adds to is full, or no label is left.
pub fn no_room(s: &[u8], q: Request) -> bool
    requires { (sound_bytes s.now ≡ true) × (withdraws q ≡ false) }
    ensures { result ≡ full plainly (decode s.now) q }
{
    let c = encoding::counts_of(s);
    let last = fields::le16(s, 8);
    let k = q.kind;
    ((k == NEW) & (128 <= c.objects))
        | ((k == GRANTADM) & (128 <= c.administrators))
        | ((k == GRANTREF) & (128 <= c.referrers))
        | (lookup::is_grant(q) & (1024 <= c.authorizations))
        | ((k == ADDRULE) & (64 <= c.rules))
        | (lookup::is_labelling(q) & (65535 <= last))
}
