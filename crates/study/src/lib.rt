// A study in lent words: when it is well formed, and the calls that open, add and withdraw.
#![tactic(auto)]

mod calls;
mod checks;
mod form;

pub use calls::{add, add_formed, open, withdraw, withdraw_formed};
pub use checks::study_given;
pub use form::well_formed;
