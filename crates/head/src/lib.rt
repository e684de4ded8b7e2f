// The calls of a head: its session, when the session fits a record, and the calls over both.
#![tactic(auto)]

mod calls;
mod fits;
pub mod session;
