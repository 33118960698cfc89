// A whole transcript: how far it stands.
ghost use Rattle.std.specs.Prelude.{◌≡◌, ◌≤◌, length};
ghost use Rattle.model.specs.Base.{empty_base};
ghost use Rattle.model.specs.Encoding.{encode};
ghost use Rattle.vectors.specs.LinePlaces.{Checks};

use crate::lines::line_at;
use crate::stages::{advance, stands, titled};
use model::BASE_BYTES;

// Whether a transcript agrees, and how many of its lines stand before the first that does not. For the
// message: how many bytes of `out` are the reply that is owed there, where that line begins, and where the
// last title line before it begins (the end of the text, if none).
#[derive(Clone, Copy)]
pub struct Checked {
    pub good: bool,
    pub lines: usize,
    pub n: usize,
    pub at: usize,
    pub title: usize,
}

// Goes through the lines of a transcript, on an empty base, up to the first that does not stand.
fn check_lines(s: &mut [u8], text: &[u8], out: &mut [u8]) -> Checked
    requires { (s.old ≡ encode empty_base) × (24001 ≤ length out.old) }
    ensures { Checks text.now result out.new
        × (length out.new ≡ length out.old) }
{
    let mut n = 0;
    let mut lines = 0;
    let mut at = 0;
    let mut title = text.len();
    while at < text.len() {
        let p = line_at(text, at);
        let end = p.end;
        let line = &text[at..end];
        if !stands(line, &out[..n]) {
            return Checked {
                good: false,
                lines: lines,
                n: n,
                at: at,
                title: title,
            };
        }
        title = titled(line, at, title);
        n = advance(s, line, out);
        lines += 1;
        at = p.next;
    }
    Checked {
        good: n == 0,
        lines: lines,
        n: n,
        at: at,
        title: title,
    }
}

// Runs a transcript on a base of its own and compares. The last reply is left in `out`.
pub fn check(text: &[u8], out: &mut [u8]) -> Checked
    requires { 24001 ≤ length out.old }
    ensures { Checks text.now result out.new
        × (length out.new ≡ length out.old) }
{
    let mut s = [0u8; BASE_BYTES];
    encoding::create(&mut s);
    check_lines(&mut s, text, out)
}
