// Decide and form: their parts one after the other, stored under a pen.
#![tactic(auto)]

mod decide;
mod form;

pub use decide::{Decided, decide_stores};
pub use form::form_stores;
