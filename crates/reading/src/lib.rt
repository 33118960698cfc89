// One line of text read as a request or a question.
#![tactic(auto)]

ghost use Rattle.std.specs.Prelude.{◌≡◌, option_map};
ghost use Rattle.model.specs.Text.{read_line};
ghost use Rattle.reading.specs.LineFields.{fields_left, told_with};
ghost use Rattle.reading.specs.ParsedLines.{asked_of, line_of, asked_line};

mod fields;
mod lines;
mod words;

use fields::Fields;
use lines::{may_line, request_line, when_line};
use model::{Access, Question, Request};

// What a line asks.
#[derive(Clone, Copy)]
pub enum Asked {
    Order(Request),
    May(Question),
    When(Access),
}

// What the fields of a line ask: questions start with their word.
#[inline(always)]
fn asked_line(fields: &mut Fields) -> Option<Asked>
    ensures { told_with (option_map asked_of result) (fields_left fields.new)
        ≡ asked_line (fields_left fields.old) }
{
    let first = fields.next()?;
    if first == b"MAY".as_slice() {
        return may_line(fields).map(Asked::May);
    }
    if first == b"WHEN".as_slice() {
        return when_line(fields).map(Asked::When);
    }
    request_line(first, fields).map(Asked::Order)
}

// What a line says. One of more than 96 bytes cannot be read, and none with a field left over.
#[inline(never)]
#[tactic(auto, using(crate::proofs::WholeLines::line_short, crate::proofs::WholeLines::line_long))]
pub fn read_line(s: &[u8]) -> Option<Asked>
    ensures { line_of result ≡ read_line s.now }
{
    if 96 < s.len() {
        return None;
    }
    let mut fields = Fields::new(s);
    let asked = asked_line(&mut fields)?;
    match fields.next() {
        None => Some(asked),
        Some(_) => None,
    }
}
