// Layers: each stands on any unit, clears it when made, and is a unit again, of the columns below.
#![tactic(auto)]

mod draining;
mod halving;

pub use draining::Drain;
pub use halving::Odd;
