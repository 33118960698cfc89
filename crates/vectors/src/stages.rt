// One line of a transcript: whether it stands, and what it leads to.
ghost use Rattle.std.specs.Prelude.{◌≡◌, true, [], ◌∷◌, ◌++◌, ◌≤◌, length};
ghost use Rattle.foundation.specs.Tests.{pick};
ghost use Rattle.foundation.specs.Bytes.{eq_list};
ghost use Rattle.model.specs.Soundness.{sound_bytes};
ghost use Rattle.model.specs.Text.{newline};
ghost use Rattle.vectors.specs.Transcripts.{marked as Transcripts·marked, line_stands};
ghost use Rattle.vectors.specs.Transcripts.{opens, unmarked, stage};
ghost use Rattle.vectors.specs.LinePlaces.{Leads};

// Whether a line begins with a mark and a space.
fn marked(line: &[u8], mark: u8) -> bool
    ensures { result ≡ Transcripts·marked mark line.now }
{
    if line.len() < 2 {
        return false;
    }
    (line[0] == mark) & (line[1] == 32)
}

// Whether a line tells the reply that is owed, which ends with a newline.
fn tells_owed(line: &[u8], owed: &[u8]) -> bool
    requires { 2 ≤ length line.now }
    ensures { result ≡ eq_list (unmarked line.now ++ (newline ∷ [])) owed.now }
{
    if owed.len() == 0 {
        return false;
    }
    let last = owed.len() - 1;
    let from = 2;
    (line[from..] == owed[..last]) & (owed[last] == 10)
}

// Whether a line stands where a reply is owed, or none.
pub fn stands(line: &[u8], owed: &[u8]) -> bool
    ensures { result ≡ line_stands (stage [] owed.now) line.now }
{
    if marked(line, b'<') {
        return tells_owed(line, owed);
    }
    (owed.len() == 0) & ((line.len() == 0) | (marked(line, b'#') | marked(line, b'>')))
}

// What a line leads to: a new case empties the base, a line of the session is answered on it. Gives how many
// bytes of `out` are the reply that is owed then.
pub fn advance(s: &mut [u8], line: &[u8], out: &mut [u8]) -> usize
    requires { (sound_bytes s.old ≡ true) × (24001 ≤ length out.old) }
    ensures { Leads s.old line.now result s.new out.new
        × (length out.new ≡ length out.old) }
{
    if marked(line, b'#') {
        encoding::create(s);
        return 0;
    }
    if marked(line, b'>') {
        let from = 2;
        return serving::serve_line(s, &line[from..], out);
    }
    0
}

// Where the last title line begins, once the line at `at` is passed.
pub fn titled(line: &[u8], at: usize, title: usize) -> usize
    ensures { result ≡ pick (opens line.now) at title }
{
    if !marked(line, b'#') {
        return title;
    }
    at
}
