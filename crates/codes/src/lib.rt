// The small number of each answer, for C to read.
#![tactic(auto)]

ghost use Rattle.std.specs.Prelude.{◌≡◌};
ghost use Rattle.group.specs.Answers.{verdict, said};
ghost use Rattle.codes.specs.Codes.{code as code_of, verdict_code, length_of};

use group::{Answer, Refusal};

pub const CUT: u8 = 64;

pub const ATTEMPTED: u8 = 65;

pub const NO_QUORUM: u8 = 66;

pub const NUMBERS_RUN_OUT: u8 = 67;

pub const NO_PLACE: u8 = 68;

pub const QUORUM_YES: u8 = 69;

pub const QUORUM_NO: u8 = 70;

pub fn verdict_code(passed: Result<bool, Refusal>) -> u8
    ensures { result ≡ verdict_code (verdict passed) }
{
    match passed {
        Ok(true) => QUORUM_YES,
        Ok(false) => QUORUM_NO,
        Err(refusal) => u8::from(refusal),
    }
}

pub fn code(answer: Result<Answer, Refusal>) -> u8
    ensures { result ≡ code_of (said answer) }
{
    match answer {
        Ok(Answer::Cut) => CUT,
        Ok(Answer::Attempted) => ATTEMPTED,
        Ok(Answer::NoQuorum) => NO_QUORUM,
        Ok(Answer::NumbersRunOut) => NUMBERS_RUN_OUT,
        Ok(Answer::NoPlace) => NO_PLACE,
        Ok(_) => 0,
        Err(refusal) => u8::from(refusal),
    }
}

// The length of the line that a call wrote, 0 where it wrote none.
pub fn length_of(answer: Result<Answer, Refusal>) -> usize
    ensures { result ≡ length_of (said answer) }
{
    match answer {
        Ok(Answer::Written(length)) => length,
        _ => 0,
    }
}
