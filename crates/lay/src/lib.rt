// The nodes of a Newick text, laid into a row as the text is read (RULES 14).
#![tactic(auto)]

mod keep;
mod subtrees;
mod tables;

pub use keep::Kept;
pub use subtrees::subtree;
pub use tables::{MARKS, Marks, ROW, Row, Standing, link};
