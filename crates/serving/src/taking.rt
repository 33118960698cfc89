// Input that comes in pieces of any size: the line that is not ended yet is kept from piece to piece.
ghost use Rattle.std.specs.Prelude.{◌≡◌, List, [], ◌∷◌, ◌++◌, ℕ, ◌≤◌, length};
ghost use Rattle.serving.specs.LineTurns.{LineKept};
ghost use Rattle.serving.specs.Pieces.{Took};

// Where a piece has come to: how many bytes of the line are kept, the place in the piece, and whether a line
// has ended there.
#[derive(Clone, Copy)]
pub struct Reached {
    pub len: usize,
    pub at: usize,
    pub ended: bool,
}

// Keeps one more byte of a line, if it is not too long yet.
fn keep_byte(line: &mut [u8; 97], len: usize, c: u8) -> usize
    requires { (len ≤ 97) × (length line.old ≡ 97) }
    ensures { ((pending : List ℕ) → LineKept pending len line.old →
        LineKept (pending ++ (c ∷ [])) result line.new) × (result ≤ 97) × (length line.new ≡ 97) }
{
    if 97 <= len {
        return len;
    }
    line[len] = c;
    len + 1
}

// Takes the bytes of a piece from `from` on up to the next newline, or all; keeps the first 97 of the line
// that they belong to, which tell that it is too long.
pub fn take_line(line: &mut [u8; 97], len: usize, piece: &[u8], from: usize) -> Reached
    requires { (from ≤ length piece.now) × (len ≤ 97) × (length line.old ≡ 97) }
    ensures { ((pending : List ℕ) → LineKept pending len line.old →
        Took pending piece.now from result line.new)
        × (result.len ≤ 97) × (length line.new ≡ 97) }
{
    let mut n = len;
    let mut i = from;
    while i < piece.len() {
        let c = piece[i];
        if c == 10 {
            return Reached {
                len: n,
                at: i + 1,
                ended: true,
            };
        }
        n = keep_byte(line, n, c);
        i += 1;
    }
    Reached {
        len: n,
        at: i,
        ended: false,
    }
}
