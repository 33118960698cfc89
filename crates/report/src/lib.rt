// The rights sheet of an object over lent bytes.
#![tactic(auto)]

ghost use Rattle.std.specs.Prelude.{◌≡◌};
ghost use Rattle.model.specs.Counting.{counting};
ghost use Rattle.model.specs.Report.{report_answer};

mod sheet;

use lookup::SoundBase;
use model::Row;

// Writes the sheet of an object to the front of a page: a row of 44 bytes for each authorization on it, in
// base order. The reply is how many bytes that is, or a refusal; the bytes behind them are as they were.
pub fn report(base: &[u8], object: u32, page: &mut [u8]) -> Result<u64, u32>
    ensures { counting result page.new
        ≡ report_answer base.now object page.old }
{
    if !soundness::is_sound(base) {
        return Err(Row::NotSound as u32);
    }
    sheet::report_sound(&SoundBase { bytes: base }, object, page)
}
