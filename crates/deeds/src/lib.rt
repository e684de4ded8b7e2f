// What a head of the bench is asked to do, and what it did.
#![tactic(auto)]

use group::{Answer, Refusal};

// What a head is to do. The first three are for the bench alone, and leave the head as it is: after Open the bench has each head do Start.
#[derive(Clone, Copy)]
pub enum What {
    // Any number: `seat::played` promises its answer for each, so an enum of the bench's two would promise less.
    Refuse { number: u8 },
    Announce { number: u32, heads: u16 },
    Open { core: u16, least: u8 },
    Start { core: u16, least: u8 },
    Enter { view: u32, heads: u16 },
    HearState { which: u8 },
    HearAttempt { which: u8 },
    Decide,
    Form,
    Recover,
    Arm { stores: u16 },
}

// What is printed for an event.
#[derive(Clone, Copy)]
pub enum Reply {
    // Any number, as `What::Refuse` has it.
    Refused(u8),
    Announced,
    Armed,
    Head(Result<Answer, Refusal>),
}

// What a head did: what is printed, and the session that it formed, 0 for none as in a record's word: the definitions `newly` and `noted` have it so.
#[derive(Clone, Copy)]
pub struct Deed {
    pub reply: Reply,
    pub formed: u64,
}
