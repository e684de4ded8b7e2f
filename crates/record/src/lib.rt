// The record of a head: its layout behind accessors. When it is whole and what start makes are defined here and computed by the crates whole and start.
#![tactic(auto)]

pub mod layout;
