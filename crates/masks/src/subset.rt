// Of the rules of a mask those that a test says of.
ghost use Rattle.std.specs.Prelude.{◌≡◌, true, ◌&&◌, Bool, ℕ};
ghost use Rattle.foundation.specs.BitMasks.{bit};

use crate::with_if;
use words::ones;

// Those of a mask of rules of which a test holds.
pub fn those<F: Fn(u32) -> bool>(rules: u64, test: F) -> u64
    requires { (r : ℕ) → bit r rules ≡ true → F.pre test r }
    ensures { (t : ℕ → Bool) → ((r : ℕ) (b : Bool) → bit r rules ≡ true → F.post test r b → b ≡ t r) →
        (r : ℕ) → bit r result ≡ bit r rules && t r }
{
    let mut m = 0;
    for r in ones(rules) {
        m = with_if(m, r, test(r));
    }
    m
}
