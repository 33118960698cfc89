// A session over input that comes in pieces: one line of a piece at a time, and the end of the input.
ghost use Rattle.std.specs.Prelude.{◌≡◌, true, List, ℕ, ◌≤◌, length, take};
ghost use Rattle.model.specs.Soundness.{sound_bytes};
ghost use Rattle.serving.specs.LineTurns.{LineKept, Turned};
ghost use Rattle.serving.specs.Stream.{finish, finish_bytes};
ghost use Rattle.serving.specs.PieceSteps.{PieceStepped};

use crate::taking::take_line;
use crate::turns::serve_line;

// Where a step has come to: how many bytes it printed, how many of the line are kept, and the place in the
// piece.
#[derive(Clone, Copy)]
pub struct Stepped {
    pub n: usize,
    pub len: usize,
    pub at: usize,
}

// Answers the line in the first `len` bytes.
fn serve_front(s: &mut [u8], line: &[u8], len: usize, out: &mut [u8]) -> usize
    requires { (sound_bytes s.old ≡ true) × (24001 ≤ length out.old) × (len ≤ length line.now) }
    ensures { Turned s.old (take len line.now) result out.new
        s.new
        × (length out.new ≡ length out.old) }
{
    serve_line(s, &line[..len], out)
}

// Goes on with a piece from `from` on, up to the end of a line, which is answered, or to its own end.
pub fn serve_piece_step(
    s: &mut [u8],
    line: &mut [u8; 97],
    len: usize,
    piece: &[u8],
    from: usize,
    out: &mut [u8],
) -> Stepped
    requires { (sound_bytes s.old ≡ true) × (24001 ≤ length out.old) × (from ≤ length piece.now)
        × (len ≤ 97) × (length line.old ≡ 97) }
    ensures { ((pending : List ℕ) → LineKept pending len line.old →
        PieceStepped s.old pending piece.now from result s.new line.new
        out.new)
        × (result.len ≤ 97) × (length line.new ≡ 97)
        × (length out.new ≡ length out.old) }
{
    let r = take_line(line, len, piece, from);
    if r.ended {
        let n = serve_front(s, line, r.len, out);
        return Stepped {
            n: n,
            len: 0,
            at: r.at,
        };
    }
    Stepped {
        n: 0,
        len: r.len,
        at: r.at,
    }
}

// At the end of the input answers the line that is not ended, if it has a byte; gives how many bytes it
// printed.
pub fn serve_end(s: &mut [u8], line: &[u8; 97], len: usize, out: &mut [u8]) -> usize
    requires { (sound_bytes s.old ≡ true) × (24001 ≤ length out.old) × (len ≤ 97)
        × (length line.now ≡ 97) }
    ensures { ((pending : List ℕ) → LineKept pending len line.now →
        (take result out.new ≡ finish s.old pending)
        × (s.new ≡ finish_bytes s.old pending))
        × (result ≤ 24001) × (length out.new ≡ length out.old)
        × (sound_bytes s.new ≡ true) }
{
    if len == 0 {
        return 0;
    }
    serve_front(s, line, len, out)
}
