// What the program says of a file.
ghost use Rattle.std.specs.Prelude.{◌≤◌, length};
ghost use Rattle.vectors.specs.LinePlaces.{MessageBounds};

use crate::checks::Checked;
use crate::lines::line_at;
use std::io::Write;

// Writes some bytes.
pub fn put_text<W: Write>(output: &mut W, b: &[u8]) {
    let _ = output.write_all(b);
}

// Writes a number.
pub fn put_number<W: Write>(output: &mut W, n: usize) {
    let _ = write!(output, "{n}");
}

// A line about a file: its name, and what there is to say.
pub fn say<W: Write>(output: &mut W, name: &[u8], what: &[u8]) {
    put_text(output, name);
    put_text(output, b": ");
    put_text(output, what);
    put_text(output, b"\n");
}

// Every line stands.
pub fn say_stands<W: Write>(output: &mut W, name: &[u8], lines: usize) {
    put_text(output, name);
    put_text(output, b": ");
    put_number(output, lines);
    put_text(output, b" lines stand\n");
}

// Writes the line of a text that begins at a place.
fn put_line<W: Write>(output: &mut W, text: &[u8], at: usize)
    requires { at ≤ length text.now }
{
    let p = line_at(text, at);
    let end = p.end;
    put_text(output, &text[at..end]);
}

// The case that a line belongs to, by its title.
fn say_case<W: Write>(output: &mut W, text: &[u8], title: usize)
    requires { title ≤ length text.now }
{
    if title == text.len() {
        put_text(output, b"before any case\n");
        return;
    }
    put_text(output, b"case \"");
    put_line(output, text, title);
    put_text(output, b"\"\n");
}

// What the text says at the place, if it goes on there.
fn say_line<W: Write>(output: &mut W, text: &[u8], at: usize)
    requires { at ≤ length text.now }
{
    put_text(output, b"  it says: ");
    if at == text.len() {
        put_text(output, b"nothing more");
    }
    put_line(output, text, at);
    put_text(output, b"\n");
}

// Whether the text tells a reply at the place.
fn tells_at(text: &[u8], at: usize) -> bool {
    if at < text.len() {
        text[at] == b'<'
    } else {
        false
    }
}

// What was answered, newline and all, if a reply was owed; or that there was none, if the text tells one.
fn say_answer<W: Write>(output: &mut W, reply: &[u8], told: bool) {
    if 0 < reply.len() {
        put_text(output, b"  answered: ");
        put_text(output, reply);
        return;
    }
    if told {
        put_text(output, b"  answered: nothing\n");
    }
}

// A line does not stand: which, in which case, what it says, and what was answered.
pub fn say_wrong<W: Write>(output: &mut W, name: &[u8], text: &[u8], out: &[u8], c: Checked)
    requires { MessageBounds text.now out.now c }
{
    let at = c.at;
    let n = c.n;
    put_text(output, name);
    put_text(output, b": line ");
    put_number(output, c.lines + 1);
    put_text(output, b" does not stand, ");
    say_case(output, text, c.title);
    say_line(output, text, at);
    say_answer(output, &out[..n], tells_at(text, at));
}
