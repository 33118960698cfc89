// The ranges of the numbers that a request or a question names.
ghost use Rattle.std.specs.Prelude.{◌≡◌};
ghost use Rattle.model.specs.Ranges.{is_subject, is_object, is_mode, is_label, is_instant};
ghost use Rattle.model.specs.Step.{option_fits};
ghost use Rattle.model.specs.Answers.{access_in};
ghost use Rattle.foundation.specs.Intervals.{in_interval};

use foundation::Interval;
use model::{Access, OptionTerm};

// Whether a number is a subject's, 1 to 1,023.
pub fn subject_in(n: u32) -> bool
    ensures { result ≡ is_subject n }
{
    (1..=1023).contains(&n)
}

// Whether a number is an object's, 1 to 128.
pub fn object_in(n: u32) -> bool
    ensures { result ≡ is_object n }
{
    (1..=128).contains(&n)
}

// Whether a number is a mode, 1 to 8.
pub fn mode_in(n: u32) -> bool
    ensures { result ≡ is_mode n }
{
    (1..=8).contains(&n)
}

// Whether a number is a label, 1 to 65,535.
pub fn label_in(n: u32) -> bool
    ensures { result ≡ is_label n }
{
    (1..=65535).contains(&n)
}

// Whether a number is an instant. Each number of 32 bits is one: the test is there for the definition's sake
// and costs nothing.
pub fn instant_in(n: u32) -> bool
    ensures { result ≡ is_instant n }
{
    n <= 4294967295
}

// What a question asks about is in range.
pub fn access_in(x: Access) -> bool
    ensures { result ≡ access_in x }
{
    subject_in(x.subject) & mode_in(x.mode) & object_in(x.object)
}

// Whether an instant lies in an interval.
pub fn has_instant(i: Interval, t: u32) -> bool
    ensures { result ≡ in_interval i t }
{
    (i.start <= t) & (t <= i.end)
}

// A denial on the right is not marked transferable.
pub fn option_fits(negative: bool, option: OptionTerm) -> bool
    ensures { result ≡ option_fits negative option }
{
    !(negative && matches!(option, OptionTerm::With))
}
