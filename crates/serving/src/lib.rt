// A session, line by line, over the bytes of a base that is known to be sound. Input comes in pieces of any
// size.
#![tactic(auto)]

mod lines;
mod steps;
mod taking;
mod turns;

pub use lines::serve_lines;
pub use steps::serve_end;
pub use taking::take_line;
pub use turns::serve_line;
