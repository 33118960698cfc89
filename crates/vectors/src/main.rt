// The program `vectors`: runs stored sessions, the files that its arguments name, and compares every reply.
// It writes one line for each file that stands, and for any other the first line that does not, and what was
// answered.
#![tactic(auto)]

mod checks;
mod lines;
mod messages;
mod stages;

ghost use Rattle.std.specs.Prelude.{◌≡◌, ◌≤◌, length, IfSome};
ghost use Rattle.model.specs.Text.{lines};
ghost use Rattle.vectors.specs.Transcripts.{fresh, agrees};

use checks::check;
use messages::{put_number, put_text, say, say_stands, say_wrong};
use model::REPLY_BYTES;
use std::env::{Env, FillError};
use std::fs;
use std::fs::Files;
use std::io::{Read, Write};

// Runs a transcript and says how far it stands; whether all of it does.
fn check_text<W: Write>(output: &mut W, name: &[u8], text: &[u8]) -> bool
    requires { length text.now ≤ 65536 }
    ensures { result ≡ agrees fresh (lines text.now) }
{
    let mut out = [0u8; REPLY_BYTES];
    let c = check(text, &mut out);
    if c.good {
        say_stands(output, name, c.lines);
    } else {
        say_wrong(output, name, text, &out, c);
    }
    c.good
}

// One read into the front of `buf`: how many bytes, or nothing where it fails.
fn read_once<R: Read>(input: &mut R, buf: &mut [u8]) -> Option<usize>
    ensures { IfSome result (λ n. n ≤ length buf.new) }
{
    match input.read(buf) {
        Ok(n) => Some(n),
        Err(_) => None,
    }
}

// Reads until `buf` is full, the input ends or a read fails; how many bytes it put at the front of `buf`.
fn read_full<R: Read>(input: &mut R, buf: &mut [u8]) -> usize
    ensures { result ≤ length buf.new }
{
    let mut done = 0;
    while done < buf.len() {
        let n = read_once(input, &mut buf[done..]).unwrap_or(0);
        if n == 0 {
            return done;
        }
        done += n;
    }
    done
}

// Reads all of a file and checks it. A read that fails looks like the end of the file, so one more is tried.
fn check_open<R: Read, W: Write>(output: &mut W, name: &[u8], file: &mut R) -> bool {
    let mut text = [0u8; 65536];
    let n = read_full(file, &mut text);
    if n == text.len() {
        say(output, name, b"longer than 65535 bytes, split it");
        return false;
    }
    let mut more = [0u8; 1];
    if read_once(file, &mut more) != Some(0) {
        say(output, name, b"cannot be read, name a text file");
        return false;
    }
    check_text(output, name, &text[..n])
}

// Opens a file to be read. Its name has to be UTF-8.
fn open_read<R: Files>(rt: &R, name: &[u8]) -> Option<R::File> {
    let path = str::from_utf8(name).ok()?;
    fs::open(rt, path).ok()
}

// Checks the file that an argument names; whether it stands.
fn check_file<R: Env + Files, W: Write>(rt: &R, output: &mut W, i: usize) -> bool {
    let mut name = [0u8; 4096];
    let Ok(k) = rt.arg(i, &mut name) else {
        put_text(output, b"the name of a file is too long\n");
        return false;
    };
    let Some(mut file) = open_read(rt, &name[..k]) else {
        say(output, &name[..k], b"cannot be opened, check its name");
        return false;
    };
    check_open(output, &name[..k], &mut file)
}

// How many arguments the program was started with, its own name among them.
fn arg_count<R: Env>(rt: &R) -> usize {
    let mut n = 0;
    while n < usize::MAX {
        if let Err(FillError::NotPresent) = rt.arg(n, &mut []) {
            return n;
        }
        n += 1;
    }
    n
}

// Checks the files one after the other.
fn main(rt: HostRuntime) {
    let mut output = rt.stdout();
    let end = arg_count(&rt);
    let mut good = 0;
    for i in 1..end {
        good += usize::from(check_file(&rt, &mut output, i));
    }
    put_number(&mut output, good);
    put_text(&mut output, b" of ");
    put_number(&mut output, end.saturating_sub(1));
    put_text(&mut output, b" files stand\n");
}
