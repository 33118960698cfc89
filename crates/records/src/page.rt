// A page of records over a sound base.
ghost use Rattle.std.specs.Prelude.{◌≡◌, [], ◌∷◌, ◌++◌, ◌+◌, ◌*◌, ◌<◌, ◌≤◌, length, take, drop, map};
ghost use Rattle.foundation.specs.Lists.{each};
ghost use Rattle.model.specs.Answers.{answering};
ghost use Rattle.model.specs.Encoding.{decode};
ghost use Rattle.records.specs.Records.{heading_numbers, page_answer};
ghost use Rattle.records.specs.Pages.{page_given};

use crate::Body;
use crate::rows::{Numbered, heading_numbers};
use encoding::Records;
use lookup::SoundBase;
use model::{Reply, Row};

// Writes k records from the first on to the front of the list.
fn fill<R: Numbered>(records: &Records<'_, R>, first: usize, k: usize, list: &mut [u32])
    requires { (first + k ≤ length records.now) × (length records.now ≤ 1024)
        × (k * R.WIDTH ≤ length list.old) }
    ensures { list.new ≡ each (take k (drop first records.now)) R.numbers
        ++ drop (k * R.WIDTH) list.old }
{
    for i in 0..k {
        let at = i * R::WIDTH;
        records
            .get(first + i)
            .put_numbers(&mut list[at..at + R::WIDTH]);
    }
}

// The records from the first on, as many as the list has room for.
fn give<R: Numbered>(records: &Records<'_, R>, first: usize, list: &mut [u32]) -> Reply
    requires { (0 < R.WIDTH) × (length records.now ≤ 1024) }
    ensures { answering result list.new
        ≡ page_given (map R.numbers records.now) R.WIDTH first list.old }
{
    let count = records.len();
    if count < first {
        return Reply::Refused(Row::OutOfRange as u32);
    }
    if list.len() < R::WIDTH {
        return Reply::Refused(Row::Full as u32);
    }
    let k = (list.len() / R::WIDTH).min(count - first);
    fill(records, first, k, list);
    Reply::Runs(k as u32)
}

// The heading, unless the page starts behind it.
fn give_heading(base: &SoundBase<'_>, first: usize, list: &mut [u32]) -> Reply
    ensures { answering result list.new
        ≡ page_given (heading_numbers (decode base.now.bytes.now) ∷ []) 7 first list.old }
{
    if 1 < first {
        return Reply::Refused(Row::OutOfRange as u32);
    }
    if list.len() < 7 {
        return Reply::Refused(Row::Full as u32);
    }
    if first == 1 {
        return Reply::Runs(0);
    }
    list[..7].copy_from_slice(&heading_numbers(base));
    Reply::Runs(1)
}

// The records of a body from the first on, as many as the list has room for.
pub fn page(base: &SoundBase<'_>, source: Body, first: usize, list: &mut [u32]) -> Reply
    ensures { answering result list.new
        ≡ page_answer base.now.bytes.now source first list.old }
{
    match source {
        Body::Heading => give_heading(base, first, list),
        Body::Objects => give(&base.objects(), first, list),
        Body::Administrators => give(&base.administrators(), first, list),
        Body::Referrers => give(&base.referrers(), first, list),
        Body::Authorizations => give(&base.authorizations(), first, list),
        Body::Rules => give(&base.rules(), first, list),
    }
}
