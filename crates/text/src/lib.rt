// The lines that the listing program writes (RULES 9.4 to 9.7), as functions on slices of bytes.
#![tactic(auto)]

mod fields;
mod lines;
mod node;

pub use lines::{LINE_BYTES, put_head, put_refusal};
pub use node::put_node;
