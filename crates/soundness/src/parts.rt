// Soundness, body by body.
ghost use Rattle.std.specs.Prelude.{◌≡◌, ◌≤◌, true, length};
ghost use Rattle.model.specs.Encoding.{decode};
ghost use Rattle.model.specs.Soundness.{sound};
ghost use Rattle.encoding.specs.Format.{format_fits};
ghost use Rattle.bodies.specs.Asked.{base_of};
ghost use Rattle.soundness.specs.BodiesAsked.{parts_hold};

use bodies::Bodies;

// Each body holds beside the others, each authorization is supported, and the rules have strata. Support and
// strata are the dearer tests.
fn bodies_sound(base: &Bodies<'_>) -> bool
    requires { (length base.now.authorizations ≤ 1024) × (length base.now.rules ≤ 64) }
    ensures { result ≡ parts_hold (base_of base.now) }
{
    base.hold()
        && support::all_supported(&base.roots, &base.authorizations)
            & rules::is_stratified(&base.rules)
}

// The base that bytes of the format hold is sound.
pub fn parts_hold(s: &[u8]) -> bool
    requires { format_fits s.now ≡ true }
    ensures { result ≡ sound (decode s.now) }
{
    bodies_sound(&Bodies::of(s))
}
