// A study's header and its slots: where they stand, the search for one, one put in, one closed up.
#![tactic(auto)]

mod header;
mod search;
mod store;

pub use header::{Header, ROW_OFFSET, in_force, is_full, samples, slot_words, start};
pub use search::{find_slot, slot_row, slot_start};
pub use store::{close_run, put_run};
