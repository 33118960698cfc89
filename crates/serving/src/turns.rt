// One line of a session: read, answered on the bytes of a base, and the reply printed.
ghost use Rattle.std.specs.Prelude.{◌≡◌, true, [], ◌≤◌, length};
ghost use Rattle.model.specs.Soundness.{sound_bytes};
ghost use Rattle.model.specs.Text.{order, asks_may, asks_when, print_reply};
ghost use Rattle.model.specs.Session.{runs_of, byte_turn, turn_text};
ghost use Rattle.printing.specs.Print.{RunsFit};
ghost use Rattle.printing.specs.Print.{Short};
ghost use Rattle.serving.specs.LineTurns.{Turned};
ghost use Rattle.serving.specs.Replies.{PrintedLine};

use model::{Access, Question, Reply, Request};
use reading::Asked;

// Prints a reply and a newline at the front of `out`; how many bytes that is.
fn put_reply_line(out: &mut [u8], r: Reply, list: &[u32]) -> usize
    requires { (24001 ≤ length out.old) × RunsFit r list.now }
    ensures { PrintedLine (print_reply r (runs_of r list.now)) out.old
        out.new result }
{
    let n = printing::print_reply(out, r, list);
    out[n] = 10;
    n + 1
}

// The same for a short reply, which has no runs.
fn put_short_line(out: &mut [u8], r: Reply) -> usize
    requires { (24001 ≤ length out.old) × Short r }
    ensures { PrintedLine (print_reply r []) out.old out.new result }
{
    let none = [0u32; 0];
    put_reply_line(out, r, &none)
}

// Answers a request.
fn serve_order(s: &mut [u8], q: Request, out: &mut [u8]) -> usize
    requires { (sound_bytes s.old ≡ true) × (24001 ≤ length out.old) }
    ensures { PrintedLine (turn_text s.old (order q)) out.old out.new result
        × (s.new ≡ (byte_turn s.old (order q)).lent) }
{
    put_short_line(out, requests::step(s, q))
}

// Answers MAY.
fn serve_may(s: &[u8], q: Question, out: &mut [u8]) -> usize
    requires { (sound_bytes s.now ≡ true) × (24001 ≤ length out.old) }
    ensures { PrintedLine (turn_text s.now (asks_may q)) out.old
        out.new result }
{
    put_short_line(out, answers::may_sound(s, q))
}

// Answers WHEN, with a list of 1,100 pairs.
fn serve_when(s: &[u8], x: Access, out: &mut [u8]) -> usize
    requires { (sound_bytes s.now ≡ true) × (24001 ≤ length out.old) }
    ensures { PrintedLine (turn_text s.now (asks_when x)) out.old
        out.new result }
{
    let mut list = [0u32; 2200];
    let r = answers::when_sound(s, x, &mut list);
    put_reply_line(out, r, &list)
}

// Answers one line of a session on a sound base, and prints the reply and a newline at the front of `out`;
// how many
// bytes that is. A line that cannot be read is answered with 1.
pub fn serve_line(s: &mut [u8], line: &[u8], out: &mut [u8]) -> usize
    requires { (sound_bytes s.old ≡ true) × (24001 ≤ length out.old) }
    ensures { Turned s.old line.now result out.new s.new
        × (length out.new ≡ length out.old) }
{
    let Some(a) = reading::read_line(line) else {
        return put_short_line(out, Reply::Refused(1));
    };
    match a {
        Asked::Order(q) => serve_order(s, q, out),
        Asked::May(q) => serve_may(s, q, out),
        Asked::When(x) => serve_when(s, x, out),
    }
}
