// What stands at a place of a Newick text: blanks, digits, a sample, what may follow a subtree, how a subtree starts
// (RULES 14).
#![tactic(auto)]

mod bytes;
mod heads;
mod numbers;
mod tails;

pub use bytes::{look, skip_blanks};
pub use heads::{Start, starts};
pub use numbers::Number;
pub use tails::closes;

// The place at which no text of the form goes on.
#[derive(Clone, Copy, Debug, PartialEq, Eq)]
pub struct Stop {
    pub at: usize,
}
