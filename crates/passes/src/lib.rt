// Linear passes over rows whose parents have smaller numbers: sizes, least keys and intervals of places; whether a row is standard.
#![tactic(auto)]

mod pass;
mod standard;
mod turns;

pub use pass::{RANK_STEP, Ranks, TABLE, Table, least, starts};
pub use standard::is_standard;
pub use turns::{Edge, step};
