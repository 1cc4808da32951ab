// Renumbering a row.
#![tactic(auto)]

mod measured;
mod numbers;
mod renumbering;
mod standard;

pub use measured::{Measured, measure};
pub use renumbering::{check_first, renumber};
pub use standard::renumber_valid;
