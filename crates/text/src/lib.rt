// One line of text over a lent base, its reply as text in a lent buffer: what a database, a queue or a script
// calls.
#![tactic(auto)]

ghost use Rattle.std.specs.Prelude.{◌≡◌, true, [], ◌≤◌, ◌<◌, length};
ghost use Rattle.model.specs.Soundness.{sound_bytes};
ghost use Rattle.model.specs.Text.{order, asks_may, asks_when, print_reply};
ghost use Rattle.model.specs.Session.{runs_of, shortest_buffer, text_answer};
ghost use Rattle.printing.specs.Print.{RunsFit};
ghost use Rattle.printing.specs.Print.{Short};
ghost use Rattle.text.specs.Writing.{Wrote, written_text, answer_to};

use model::{Access, Question, Reply, Request};
use reading::Asked;

// 0 or the refusal's number, and how many bytes were written.
#[derive(Clone, Copy)]
pub struct TextReply {
    pub refusal: u32,
    pub count: u32,
}

// Writes a reply and a newline at the front of a buffer that they fit.
fn put_line(out: &mut [u8], r: Reply, list: &[u32]) -> TextReply
    requires { (length (print_reply r (runs_of r list.now)) < length out.old) × RunsFit r list.now }
    ensures { Wrote (print_reply r (runs_of r list.now)) out.old
        out.new result }
{
    let n = printing::put_reply(out, r, list);
    out[n] = 10;
    TextReply {
        refusal: 0,
        count: (n + 1) as u32,
    }
}

// The same for a reply that every buffer of 16 bytes has room for.
fn put_short(out: &mut [u8], r: Reply) -> TextReply
    requires { (shortest_buffer ≤ length out.old) × Short r }
    ensures { Wrote (print_reply r (runs_of r [])) out.old out.new result }
{
    let none = [0u32; 0];
    put_line(out, r, &none)
}

// Carries out a request on a sound base.
fn text_order(base: &mut [u8], q: Request, out: &mut [u8]) -> TextReply
    requires { (shortest_buffer ≤ length out.old) × (sound_bytes base.old ≡ true) }
    ensures { written_text result base.new out.new
        ≡ answer_to base.old (order q) out.old }
{
    put_short(out, requests::step(base, q))
}

// Answers MAY over a sound base.
fn text_may(base: &[u8], q: Question, out: &mut [u8]) -> TextReply
    requires { (shortest_buffer ≤ length out.old) × (sound_bytes base.now ≡ true) }
    ensures { written_text result base.now out.new
        ≡ answer_to base.now (asks_may q) out.old }
{
    put_short(out, answers::may_sound(base, q))
}

// Answers WHEN over a sound base, with a list of 1,100 pairs. Its text is counted before any of it is
// written.
fn text_when(base: &[u8], x: Access, out: &mut [u8]) -> TextReply
    requires { (shortest_buffer ≤ length out.old) × (sound_bytes base.now ≡ true) }
    ensures { written_text result base.now out.new
        ≡ answer_to base.now (asks_when x) out.old }
{
    let mut list = [0u32; 2200];
    let r = answers::when_sound(base, x, &mut list);
    if out.len() <= printing::reply_length(r, &list) {
        return TextReply {
            refusal: 13,
            count: 0,
        };
    }
    put_line(out, r, &list)
}

// Answers one line of text, which has no newline, on a base of any bytes: the reply's text with its newline
// stands at the front of the buffer after it, and the rest of the buffer is as it was. A buffer that is too
// short is refused with 13, before a request is carried out; 24,001 bytes always suffice.
pub fn text(base: &mut [u8], line: &[u8], out: &mut [u8]) -> TextReply
    ensures { written_text result base.new out.new
        ≡ text_answer base.old line.now out.old }
{
    if out.len() < 16 {
        return TextReply {
            refusal: 13,
            count: 0,
        };
    }
    let Some(a) = reading::read_line(line) else {
        return put_short(out, Reply::Refused(1));
    };
    if !soundness::is_sound(base) {
        return put_short(out, Reply::Refused(2));
    }
    match a {
        Asked::Order(q) => text_order(base, q, out),
        Asked::May(q) => text_may(base, q, out),
        Asked::When(x) => text_when(base, x, out),
    }
}
