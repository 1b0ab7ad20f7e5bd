// Lining words up: a survey finds the shared exponent, and each value is then cut to a whole number of steps.
#![tactic(auto)]

mod checked;
mod cutting;
mod survey;

pub use checked::{ExtraBits, SharedExponent, Step};
pub use cutting::{Aligned, cut_tile, lined_up};

// The most words of a tile. Each public call tests the words that it is given: a type for tiles would ask more of callers.
pub const TILE_WORDS: usize = 128;
