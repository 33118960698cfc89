// The program `session`: requests and questions as text on standard input, one a line, and a reply a line on
// standard output. It reads what comes and answers each line as soon as it is ended, so that it serves in a
// pipe and at a terminal. At the end of the input it answers the line that is not ended. A read or a write
// that fails ends it, and then that line is not answered.
//
// It reads and writes through crate `channel`, and hands its streams to nothing else. A channel is a value,
// and could be copied: that `open` is called once, that `fetch` and `put` each go on from the channel that
// the last of them gave back, and that nothing else reads or writes the streams, is to be read by eye.
#![tactic(auto)]

ghost use Rattle.std.specs.Prelude.{◌≡◌, true, List, ℕ, ◌≤◌, ◌<◌, length};
ghost use Rattle.model.specs.Encoding.{size};
ghost use Rattle.model.specs.Soundness.{sound_bytes};
ghost use Rattle.channel.specs.Trace.{arrived, Fetched, Unread, Handed};
ghost use Rattle.serving.specs.LineTurns.{LineKept};
ghost use Rattle.serving.specs.Stream.{finish, finish_bytes};
ghost use Rattle.session.specs.Input.{BuffersReady, FrontAnswered, ProgramDone, Ran};

use channel::Channel;
use model::BASE_BYTES;
use std::io::{Read, Write};

// How many bytes are kept of the line that is not ended yet, and the channel so far.
#[derive(Clone, Copy)]
struct InputState {
    len: usize,
    channel: Channel,
}

// Answers the lines that end in a piece of input, and writes the replies, as many at a time as there is room
// for.
fn serve_piece<W: Write>(
    output: &mut W,
    s: &mut [u8],
    line: &mut [u8; 97],
    from: InputState,
    piece: &[u8],
    out: &mut [u8],
) -> InputState
    requires { BuffersReady s.old line.old from.len out.old }
    ensures { ((pending : List ℕ) → LineKept pending from.len line.old →
        FrontAnswered s.old pending piece.now from.channel.sent result s.new
        line.new)
        × Unread from.channel result.channel × (result.len ≤ 97) × (sound_bytes s.new ≡ true) }
{
    let mut g = from;
    let mut at = 0;
    while at < piece.len() {
        let r = serving::serve_lines(s, line, g.len, piece, at, out);
        let c = channel::put(output, g.channel, &out[..r.n]);
        g = InputState {
            len: r.len,
            channel: c,
        };
        at = r.at;
        if !channel::writes_work(c) {
            return g;
        }
    }
    g
}

// Reads a piece into `buf` and answers its lines. At the end of the input, and where the read fails, there is
// none.
fn serve_some<R: Read, W: Write>(
    input: &mut R,
    output: &mut W,
    s: &mut [u8],
    line: &mut [u8; 97],
    g: InputState,
    buf: &mut [u8],
    out: &mut [u8],
) -> InputState
    requires { BuffersReady s.old line.old g.len out.old
        × (g.channel.reads < 18446744073709551615) }
    ensures { ((pending : List ℕ) → LineKept pending g.len line.old →
        FrontAnswered s.old pending (arrived result.channel.got buf.new)
        g.channel.sent result
        s.new line.new)
        × Fetched g.channel buf.new result.channel × (result.len ≤ 97)
        × (sound_bytes s.new ≡ true) }
{
    let c = channel::fetch(input, g.channel, buf);
    let n = channel::last_read(c, buf);
    let h = InputState {
        len: g.len,
        channel: c,
    };
    serve_piece(output, s, line, h, &buf[..n], out)
}

// Answers the line that the end of the input ends.
fn serve_last<W: Write>(
    output: &mut W,
    s: &mut [u8],
    line: &[u8; 97],
    g: InputState,
    out: &mut [u8],
) -> Channel
    requires { BuffersReady s.old line.now g.len out.old }
    ensures { ((pending : List ℕ) → LineKept pending g.len line.now →
        (s.new ≡ finish_bytes s.old pending)
        × Handed g.channel (finish s.old pending) result)
        × (sound_bytes s.new ≡ true) }
{
    let n = serving::serve_end(s, line, g.len, out);
    channel::put(output, g.channel, &out[..n])
}

// Answers line after line until the input ends, or a read or a write fails, and then the end of the input, if
// it is one. A proved loop has to end, and nothing says that the input does: so it ends after a number of
// reads that no run uses up.
fn serve_input<R: Read, W: Write>(
    input: &mut R,
    output: &mut W,
    s: &mut [u8],
    line: &mut [u8; 97],
    len: usize,
    buf: &mut [u8],
    out: &mut [u8],
) -> Channel
    requires { BuffersReady s.old line.old len out.old }
    ensures { (input : List ℕ) × ((pending : List ℕ) → LineKept pending len line.old →
        ProgramDone s.old pending input result s.new) }
{
    let mut g = InputState {
        len: len,
        channel: channel::open(),
    };
    while channel::goes_on(g.channel) {
        g = serve_some(input, output, s, line, g, buf, out);
    }
    if channel::has_ended(g.channel) {
        return serve_last(output, s, line, g, out);
    }
    g.channel
}

// Makes an empty base of the bytes that are lent, and serves the whole input on it.
fn run<R: Read, W: Write>(input: &mut R, output: &mut W, s: &mut [u8]) -> Channel
    requires { length s.old ≡ size }
    ensures { (input : List ℕ) × Ran input result s.new }
{
    base::create(s);
    let mut line = [0u8; 97];
    let mut buf = [0u8; 4096];
    let mut out = [0u8; 32768];
    serve_input(input, output, s, &mut line, 0, &mut buf, &mut out)
}

// Says on standard error why the program ended before its input did, and what to do.
fn tell<W: Write>(errors: &mut W, c: Channel) {
    if !channel::writes_work(c) {
        channel::warn(
            errors,
            b"session: a reply could not be written, run the session again\n",
        );
    } else if !channel::has_ended(c) {
        channel::warn(
            errors,
            b"session: reading failed, send again what has no reply\n",
        );
    }
}

// Lends the bytes: so that the contract of `run` can speak of them.
fn main(rt: HostRuntime) {
    let mut s = [0u8; BASE_BYTES];
    let c = run(&mut rt.stdin(), &mut rt.stdout(), &mut s);
    tell(&mut rt.stderr(), c);
}
