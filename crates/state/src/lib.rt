// What a state line carries, and line rules 4 to 7 over it.
#![tactic(auto)]

mod rules;

ghost use Rattle.std.specs.Prelude.{◌≡◌};
ghost use Rattle.state.specs.Values.{no_state, nothing_held};

use group::Group;
pub use rules::{Rule, broken, keeps_rules};

// The values of a record that its head sends. A session is its word, 0 for none; only the first `count` places count, the others are 0 when read. The count stands beside the places, as in the interface of C.
#[repr(C)]
#[derive(Clone, Copy)]
pub struct State {
    pub number: u32,
    pub primary: u64,
    pub formed: [u64; Group::HEADS],
    pub count: usize,
    pub places: [u64; Group::PLACES],
}

// The states that a head holds of the others, by head.
#[repr(C)]
#[derive(Clone, Copy)]
pub struct Held {
    pub of: [State; Group::HEADS],
}

#[tactic(auto, unfolding(crate::specs::Values::no_state))]
pub fn no_state() -> State
    ensures { result ≡ no_state }
{
    State {
        number: 0,
        primary: 0,
        formed: [0; Group::HEADS],
        count: 0,
        places: [0; Group::PLACES],
    }
}

#[tactic(auto, unfolding(crate::specs::Values::nothing_held))]
pub fn nothing_held() -> Held
    ensures { result ≡ nothing_held }
{
    Held {
        of: [no_state(); Group::HEADS],
    }
}
