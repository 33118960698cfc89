// The rows of the table of refusals before 13, asked in the order of the table.
ghost use Rattle.std.specs.Prelude.{◌≡◌, Ok, Err};
ghost use Rattle.foundation.specs.Tests.{pick};
ghost use Rattle.model.specs.Encoding.{decode};
ghost use Rattle.refusals.specs.declared.Refusal.TheVariants.{Row as Refused};
ghost use Rattle.refusals.specs.Early.{early_is};

use crate::Refusal;
use crate::circles::not_stratified;
use crate::grants::{barred, first_uncovered};
use crate::ranges::{bad_interval, out_of_range};
use crate::rows::{already_there, behind_clock, no_label, no_object, not_held, not_permitted};
use lookup::SoundBase;
use model::{Request, Row};

// Refuses with a row, if it applies.
fn refuse_if(applies: bool, row: Row) -> Result<(), Refusal>
    ensures { result ≡ pick applies (Err (Refused row)) (Ok tt) }
{
    if applies {
        return Err(Refusal::Row(row));
    }
    Ok(())
}

// Refuses a request with the first of the rows before 13 that applies. A row is asked only where none before
// it applies: row 9 is a dear test.
pub fn refuse_early(base: &SoundBase<'_>, q: Request) -> Result<(), Refusal>
    ensures { early_is (decode base.now.bytes.now) q result }
{
    refuse_if(out_of_range(q), Row::OutOfRange)?;
    refuse_if(behind_clock(base, q), Row::BehindClock)?;
    refuse_if(bad_interval(q), Row::BadInterval)?;
    refuse_if(no_object(base, q), Row::NoObject)?;
    refuse_if(no_label(base, q), Row::NoLabel)?;
    refuse_if(not_permitted(base, q), Row::NotPermitted)?;
    refuse_if(barred(base, q), Row::Barred)?;
    if let Some(t) = first_uncovered(base, q) {
        return Err(Refusal::Uncovered(t));
    }
    refuse_if(already_there(base, q), Row::AlreadyThere)?;
    refuse_if(not_held(base, q), Row::NotHeld)?;
    refuse_if(not_stratified(base, q), Row::NotStratified)
}
