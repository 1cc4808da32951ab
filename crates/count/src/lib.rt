// Counting over the runs of a study: how many hold each group of a row, which groups pass, and the agreed row.
#![tactic(auto)]

mod held;
mod holding;
mod plain;
mod rule;

pub use held::Held;
pub use holding::holders;
pub use plain::{agreed_row, bare, copy};
pub use rule::{marks, references};
