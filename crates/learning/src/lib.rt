// Decide's a and b: what the states of the others tell of own ambiguous sessions and of the last formed ones, stored under a pen.
#![tactic(auto)]

pub mod adoption;
pub mod marks;
