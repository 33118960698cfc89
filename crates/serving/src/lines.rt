// As many lines of a piece of input as there is room to answer.
ghost use Rattle.std.specs.Prelude.{◌≡◌, true, List, ℕ, ◌+◌, ◌≤◌, length, take, drop};
ghost use Rattle.model.specs.Soundness.{sound_bytes};
ghost use Rattle.serving.specs.LineTurns.{LineKept};
ghost use Rattle.serving.specs.PieceSteps.{PieceStepped};

use crate::steps::{Stepped, serve_piece_step};
use model::REPLY_BYTES;

// Goes on with a piece from where `g` has come to, and prints behind what it has printed.
fn serve_behind(
    s: &mut [u8],
    line: &mut [u8; 97],
    g: Stepped,
    piece: &[u8],
    out: &mut [u8],
) -> Stepped
    requires { (sound_bytes s.old ≡ true) × (g.n + 24001 ≤ length out.old)
        × (g.at ≤ length piece.now)
        × (g.len ≤ 97) × (length line.old ≡ 97) }
    ensures { ((pending : List ℕ) → LineKept pending g.len line.old →
        PieceStepped s.old pending piece.now g.at result s.new
        line.new
        (drop g.n out.new))
        × (result.len ≤ 97) × (length line.new ≡ 97)
        × (take g.n out.new ≡ take g.n out.old)
        × (length out.new ≡ length out.old) }
{
    let n = g.n;
    serve_piece_step(s, line, g.len, piece, g.at, &mut out[n..])
}

// Goes on with a piece from `from` on, line by line, while there is room for a reply of any length.
pub fn serve_lines(
    s: &mut [u8],
    line: &mut [u8; 97],
    len: usize,
    piece: &[u8],
    from: usize,
    out: &mut [u8],
) -> Stepped
    requires { (sound_bytes s.old ≡ true) × (24001 ≤ length out.old) × (from ≤ length piece.now)
        × (len ≤ 97) × (length line.old ≡ 97) }
    ensures { ((pending : List ℕ) → LineKept pending len line.old →
        PieceStepped s.old pending piece.now from result s.new line.new
        out.new)
        × (result.len ≤ 97) × (length line.new ≡ 97)
        × (length out.new ≡ length out.old) }
{
    let mut g = Stepped {
        n: 0,
        len: len,
        at: from,
    };
    while g.at < piece.len() {
        if out.len() - g.n < REPLY_BYTES {
            return g;
        }
        let r = serve_behind(s, line, g, piece, out);
        g = Stepped {
            n: g.n + r.n,
            len: r.len,
            at: r.at,
        };
    }
    g
}
