// Reading a Newick text: whether it is of the form, its samples and pairs, and the standard row with its groups (RULES
// 14).
#![tactic(auto)]

mod checks;
mod held;
mod reading;

pub use reading::read_newick;
