// The rows of the sheet, and its refusals over a sound base.
ghost use Rattle.std.specs.Prelude.{◌≡◌, true, ◌++◌, ◌≤◌, length, drop};
ghost use Rattle.foundation.specs.Lists.{allb, keep_if};
ghost use Rattle.model.specs.Soundness.{authorization_in};
ghost use Rattle.model.specs.Counting.{counting};
ghost use Rattle.model.specs.Encoding.{decode};
ghost use Rattle.model.specs.Report.{is_on, rows_on, report_answer};
ghost use Rattle.report.specs.Sheet.{sheet_filled};

use columns::put_row;
use encoding::Records;
use lookup::SoundBase;
use model::{Authorization, Row};

// Whether an authorization is on the object.
fn is_on(a: Authorization, object: u32) -> bool
    ensures { result ≡ is_on object a }
{
    a.head.object as u32 == object
}

// How many of the authorizations are on the object.
fn count_on(authorizations: &Records<'_, Authorization>, object: u32) -> usize
    ensures { (result ≡ length (keep_if (is_on object) authorizations.now))
        × (result ≤ length authorizations.now) }
{
    let mut k = 0;
    for i in 0..authorizations.len() {
        if is_on(authorizations.get(i), object) {
            k += 1;
        }
    }
    k
}

// Puts the rows of those of the authorizations that are on the object at the front of a page that has room
// for them.
fn put_rows(authorizations: &Records<'_, Authorization>, object: u32, page: &mut [u8])
    requires { (allb authorization_in authorizations.now ≡ true)
        × (length (rows_on object authorizations.now) ≤ length page.old) }
    ensures { page.new ≡ rows_on object authorizations.now
        ++ drop (length (rows_on object authorizations.now)) page.old }
{
    let mut at = 0;
    for i in 0..authorizations.len() {
        let a = authorizations.get(i);
        if !is_on(a, object) {
            continue;
        }
        put_row(&mut page[at..at + 44], a);
        at += 44;
    }
}

// The sheet, if the page has room for it.
fn fill_page(base: &SoundBase<'_>, object: u32, page: &mut [u8]) -> Result<u64, u32>
    ensures { counting result page.new
        ≡ sheet_filled (rows_on object (decode base.now.bytes.now).authorizations) page.old }
{
    let authorizations = base.authorizations();
    let need = 44 * count_on(&authorizations, object);
    if page.len() < need {
        return Err(Row::Full as u32);
    }
    put_rows(&authorizations, object, page);
    Ok(need as u64)
}

// The sheet over a sound base.
pub fn report_sound(base: &SoundBase<'_>, object: u32, page: &mut [u8]) -> Result<u64, u32>
    ensures { counting result page.new
        ≡ report_answer base.now.bytes.now object page.old }
{
    if !lookup::object_in(object) {
        return Err(Row::OutOfRange as u32);
    }
    if !base.exists(object) {
        return Err(Row::NoObject as u32);
    }
    fill_page(base, object, page)
}
