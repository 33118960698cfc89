// Numbers at a place of a byte slice, the least byte first, gaps opened and closed in one, and the test for zeros.
#![tactic(auto)]

ghost use Rattle.std.specs.Prelude.{◌≡◌, ◌++◌, ◌∷◌, [], ◌+◌, ◌-◌, ◌≤◌, eqb, length, take, drop, replicate};
ghost use Rattle.foundation.specs.Lists.{allb};
ghost use Rattle.foundation.specs.Bytes.{le, bytes_of};
ghost use Rattle.fields.specs.Field.{splice, gapped, gap_closed};

// The 16-bit number at a place.
pub fn le16(s: &[u8], at: usize) -> u16
    requires { at + 2 ≤ length s.now }
    ensures { result ≡ le 2 (drop at s.now) }
{
    u16::from_le_bytes([s[at], s[at + 1]])
}

// The 32-bit number at a place.
pub fn le32(s: &[u8], at: usize) -> u32
    requires { at + 4 ≤ length s.now }
    ensures { result ≡ le 4 (drop at s.now) }
{
    u32::from_le_bytes([s[at], s[at + 1], s[at + 2], s[at + 3]])
}

// Writes a 16-bit number at a place.
pub fn put16(s: &mut [u8], at: usize, n: u16)
    requires { at + 2 ≤ length s.old }
    ensures { s.new ≡ splice at (bytes_of 2 n) s.old }
{
    s[at..at + 2].copy_from_slice(&n.to_le_bytes());
}

// Writes a 32-bit number at a place.
pub fn put32(s: &mut [u8], at: usize, n: u32)
    requires { at + 4 ≤ length s.old }
    ensures { s.new ≡ splice at (bytes_of 4 n) s.old }
{
    s[at..at + 4].copy_from_slice(&n.to_le_bytes());
}

// Copies one slice over another of the same length. It is a loop, since `copy_from_slice` calls memmove where the
// length is known at run time only, a function that the archive for C would then need from outside.
pub fn copy(to: &mut [u8], from: &[u8])
    requires { length to.old ≡ length from.now }
    ensures len { length to.new ≡ length to.old }
    ensures after { to.new ≡ from.now }
{
    for i in 0..from.len() {
        to[i] = from[i];
    }
}

// Moves the bytes of a slice up by w places: the first w are as they were, and the last w are lost.
#[inline(always)]
pub fn move_up(s: &mut [u8], w: usize)
    requires { w ≤ length s.old }
    ensures { s.new ≡ take w s.old
        ++ take (length s.old - w) s.old }
{
    for i in (w..s.len()).rev() {
        s[i] = s[i - w];
    }
}

// Opens a gap of w bytes at `from`, in the part of s that ends at `to`: what stands there goes up by w, and
// the last w bytes of the part are lost.
#[inline(always)]
pub fn open_gap(s: &mut [u8], from: usize, to: usize, w: usize)
    requires { (from + w ≤ to) × (to ≤ length s.old) }
    ensures { s.new ≡ gapped from to w s.old }
{
    move_up(&mut s[from..to], w);
}

// Takes w bytes out at `from`, of the part of s that ends at `to`: what stands behind them comes down, and
// the last w bytes of the part are zero.
#[inline(always)]
pub fn close_gap(s: &mut [u8], from: usize, to: usize, w: usize)
    requires { (from + w ≤ to) × (to ≤ length s.old) }
    ensures { s.new ≡ gap_closed from to w s.old }
{
    s.copy_within(from + w..to, from);
    s[to - w..to].fill(0);
}

// Whether every byte of a slice is zero. It asks all of them, also behind one that is not: `all` stops there, and
// so it looks at one byte at a time, where this looks at many.
pub fn zeros(s: &[u8]) -> bool
    ensures { result ≡ allb (λ x. eqb x 0) s.now }
{
    let mut all = true;
    for x in s {
        all &= *x == 0;
    }
    all
}
