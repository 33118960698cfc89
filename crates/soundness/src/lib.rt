// The soundness check of a base's bytes.
#![tactic(auto)]

ghost use Rattle.std.specs.Prelude.{◌≡◌};
ghost use Rattle.model.specs.Soundness.{sound_bytes};

mod parts;

use format::format_fits;
use parts::parts_hold;

// Whether bytes, of any length, are how a sound base is written.
pub fn is_sound(s: &[u8]) -> bool
    ensures { result ≡ sound_bytes s.now }
{
    format_fits(s) && parts_hold(s)
}
