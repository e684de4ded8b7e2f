// Lines between heads: their form, as definitions and theorems, and what a reader gives of one. The code is in the crates hexadecimal, reader and writer.
#![tactic(auto)]

use state::State;

// What a line that keeps the rules says.
#[derive(Clone, Copy)]
pub enum Frame {
    State { view: u32, sender: u8, state: State },
    Attempt { view: u32, sender: u8 },
}
