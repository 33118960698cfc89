// The lines of a text that is in memory whole.
ghost use Rattle.std.specs.Prelude.{◌≤◌, length};
ghost use Rattle.vectors.specs.LinePlaces.{Spans};

// Where a line ends, and where the next one begins.
#[derive(Clone, Copy)]
pub struct Span {
    pub end: usize,
    pub next: usize,
}

// The line that begins at `from`: up to the next newline, or to the end.
pub fn line_at(text: &[u8], from: usize) -> Span
    requires { from ≤ length text.now }
    ensures { Spans text.now from result }
{
    let mut i = from;
    while i < text.len() {
        if text[i] == 10 {
            return Span {
                end: i,
                next: i + 1,
            };
        }
        i += 1;
    }
    Span { end: i, next: i }
}
