// An input that is read and an output that is written, with a trace of what passed there. The fields are
// private: another crate makes and changes a channel by `open`, `fetch` and `put` only.
#![tactic(auto)]

ghost use Rattle.std.specs.Prelude.{◌≡◌, true, false, ◌<◌, length};
ghost use Rattle.channel.specs.declared.Got.TheVariants.{End};
ghost use Rattle.channel.specs.Counts.{IsPrefixLen, clamp_len};
ghost use Rattle.channel.specs.Digests.{mixed, digest};
ghost use Rattle.channel.specs.Trace.{Opened, Fetched, Unwritten, Handed, Stopped};

use std::io::{Read, Write};

// What the last read answered: nothing was read yet, some bytes, that the input has ended, or that it failed.
#[derive(Clone, Copy)]
pub enum Got {
    Unasked,
    Bytes(usize),
    End,
    Failed,
}

// The digests of the bytes that were read and of those that were handed to be written, how many reads there
// were, what the last one answered, and whether every write worked. The digests stand side by side: nothing
// at run time looks at them, and then the compiler leaves them out.
#[derive(Clone, Copy)]
pub struct Channel {
    seen: u32,
    sent: u32,
    reads: u64,
    got: Got,
    ok: bool,
}

// The digest with one byte more.
fn mix(before: u32, byte: u8) -> u32
    ensures { result ≡ mixed before byte }
{
    ((before as u64 * 257 + byte as u64 + 1) % 4294967291) as u32
}

// The digest with some bytes more. Contracts tell by it which bytes were read, and which were handed to be
// written.
fn mix_all(before: u32, bytes: &[u8]) -> u32
    ensures { result ≡ digest before bytes.now }
{
    let mut d = before;
    for b in bytes {
        d = mix(d, *b);
    }
    d
}

// Nothing was read or written yet. That is not a place to stop.
pub fn open() -> Channel
    ensures { Opened result }
{
    Channel {
        seen: 0,
        sent: 0,
        reads: 0,
        got: Got::Unasked,
        ok: true,
    }
}

// How many bytes a read that answered `got` left at the front of `buf`.
fn count(got: Got, buf: &[u8]) -> usize
    ensures prefix_len { IsPrefixLen result buf.now }
    ensures value { result ≡ clamp_len got (length buf.now) }
{
    match got {
        Got::Bytes(n) => n.min(buf.len()),
        Got::Unasked | Got::End | Got::Failed => 0,
    }
}

// Reads once into the front of `buf`.
fn read_once<R: Read>(input: &mut R, buf: &mut [u8]) -> Got {
    match input.read(buf) {
        Ok(0) => Got::End,
        Ok(n) => Got::Bytes(n),
        Err(_) => Got::Failed,
    }
}

// Reads a piece of the input into the front of `buf`.
pub fn fetch<R: Read>(input: &mut R, c: Channel, buf: &mut [u8]) -> Channel
    requires { c.reads < 18446744073709551615 }
    ensures { Fetched c buf.new result × Unwritten c result }
{
    let got = read_once(input, buf);
    let n = count(got, buf);
    let seen = mix_all(c.seen, &buf[..n]);
    Channel {
        seen,
        reads: c.reads + 1,
        got,
        ..c
    }
}

// How many bytes the last read left at the front of `buf`.
pub fn last_read(c: Channel, buf: &[u8]) -> usize
    ensures prefix_len { IsPrefixLen result buf.now }
    ensures value { result ≡ clamp_len c.got (length buf.now) }
{
    count(c.got, buf)
}

// Writes all of the bytes. False where a write takes nothing or fails: then some of them may be written.
// The `write_all` of std would go on after a write that a signal interrupts.
fn write_whole<W: Write>(output: &mut W, bytes: &[u8]) -> bool {
    let mut rest = bytes;
    while !rest.is_empty() {
        match output.write(rest) {
            Ok(0) | Err(_) => return false,
            Ok(n) => rest = &rest[n..],
        }
    }
    true
}

// Hands bytes to be written to the output.
pub fn put<W: Write>(output: &mut W, c: Channel, bytes: &[u8]) -> Channel
    ensures { Handed c bytes.now result }
{
    let sent = mix_all(c.sent, bytes);
    let ok = write_whole(output, bytes);
    Channel {
        sent,
        ok: c.ok & ok,
        ..c
    }
}

// Hands a message to be written, to standard error.
pub fn warn<W: Write>(errors: &mut W, message: &[u8]) {
    write_whole(errors, message);
}

// Every write worked.
pub fn writes_work(c: Channel) -> bool
    ensures { result ≡ c.ok }
{
    c.ok
}

// The last read neither failed nor said that the input has ended, every write worked, and one more read can
// be counted.
pub fn goes_on(c: Channel) -> bool
    ensures { (result ≡ true → (c.ok ≡ true) × (c.reads < 18446744073709551615))
        × (result ≡ false → Stopped c) }
{
    c.ok & (c.reads < u64::MAX) & !matches!(c.got, Got::End | Got::Failed)
}

// The input has ended, and every write worked.
pub fn has_ended(c: Channel) -> bool
    ensures { (result ≡ true → (c.ok ≡ true) × (c.got ≡ End))
        × (c.ok ≡ true → c.got ≡ End → result ≡ true) }
{
    c.ok & matches!(c.got, Got::End)
}
