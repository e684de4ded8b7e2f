// The stages of a session, as numbers: `Session.stage` is a byte of the C interface, and any byte from outside is some stage.
ghost use Rattle.std.specs.Prelude.{◌≡◌};
ghost use Rattle.group.specs.Answers.{said, attempted};

use group::{Answer, Refusal};

pub const NONE: u8 = 0;

pub const UNDECIDED: u8 = 1;

pub const CLOSED: u8 = 2;

pub const ATTEMPTED: u8 = 3;

pub const FORMED: u8 = 4;

// The stage after decide's answer.
pub fn stage_after(answer: Result<Answer, Refusal>) -> u8
    ensures { (said answer ≡ attempted → result ≡ 3) × ((said answer ≡ attempted → ⊥) → result ≡ 2) }
{
    match answer {
        Ok(Answer::Attempted) => ATTEMPTED,
        _ => CLOSED,
    }
}
