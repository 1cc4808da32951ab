// Writing the Newick text of a row (RULES 14).
#![tactic(auto)]

mod calls;
mod lengths;
mod texts;

pub use calls::{write_newick, write_newick_supports};
pub use lengths::text_length;
