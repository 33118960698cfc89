// Outlines: what an answer needs of the rules and does not depend on the question. Coordinates of subjects
// and objects, the sides of the rules by coordinates, and which rule precedes which.
#![tactic(auto)]

mod controlled;
mod feed;
mod left;
mod numbers;
mod sides;

pub use controlled::draw_controlled;
pub use feed::{choosy_of, draw_feed};
pub use left::{draw_masks, own_masks};
pub use numbers::number_sides;
pub use sides::{draw_left, draw_right};

// How many coordinates there are.
#[derive(Clone, Copy)]
pub struct Sizes {
    pub subjects: u32,
    pub objects: u32,
}
