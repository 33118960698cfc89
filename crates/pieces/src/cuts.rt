// Which instants of an authorization a withdrawal takes out.
ghost use Rattle.std.specs.Prelude.{◌≡◌};
ghost use Rattle.pieces.specs.Cuts.{cut_names, all_if, named_of, taken_of};

use crate::cut::{Cut, Named, Stretch};
use model::Head;

// Whether an authorization has the grantor, subject, object, mode and sign.
fn is_named(n: Named, h: Head) -> bool
    ensures { result ≡ cut_names n h }
{
    (h.grantor == n.grantor)
        & (h.subject == n.subject)
        & (h.object == n.object)
        & (h.mode == n.mode)
        & (h.negative == n.negative)
}

// Every instant, or none.
fn all_if(b: bool) -> Stretch
    ensures { result ≡ all_if b }
{
    let to = 4294967296;
    Stretch {
        from: if b { 0 } else { to },
        to,
    }
}

// The instants that a cut by name takes out of an authorization.
fn named_stretch(n: Named, h: Head) -> Stretch
    ensures { result ≡ named_of n h }
{
    if is_named(n, h) {
        return Stretch {
            from: n.interval.start as u64,
            to: n.interval.end as u64 + 1,
        };
    }
    all_if(false)
}

// The instants that a cut takes out of an authorization.
pub fn taken_stretch(c: Cut, h: Head) -> Stretch
    ensures { result ≡ taken_of c h }
{
    match c {
        Cut::Label(label) => all_if(h.label == label),
        Cut::Grantor { object, grantor } => all_if((h.object == object) & (h.grantor == grantor)),
        Cut::Name(n) => named_stretch(n, h),
    }
}
