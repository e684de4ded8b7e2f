// What a head of the bench keeps for later events: the lines it sent last, and how many stores a waiting cut leaves its next call.
#![tactic(auto)]

ghost use Rattle.std.specs.Prelude.{◌≡◌};
ghost use Rattle.group.specs.Answers.{said};
ghost use Rattle.keeping.specs.Keeping.{no_line, stores_for, chars, pushed, is_line, kept_at};

use group::{Answer, Refusal};

// The most characters of a line.
pub const ROOM: usize = 419;

// A line that was sent, of no characters where no line is kept. It is a buffer with its length beside, since memory is fixed.
#[derive(Clone, Copy)]
pub struct Kept {
    pub len: usize,
    pub bytes: [u8; ROOM],
}

#[tactic(auto, unfolding(crate::specs::Keeping::no_line, crate::specs::Keeping::blank))]
pub fn no_line() -> Kept
    ensures { result ≡ no_line }
{
    Kept {
        len: 0,
        bytes: [0; ROOM],
    }
}

// How many stores the next call of the four may make, by the cut that waits for it.
#[tactic(auto, unfolding(crate::specs::Keeping::stores_for))]
pub fn stores_of(cut: Option<u64>) -> u64
    ensures { result ≡ stores_for cut }
{
    cut.unwrap_or(u64::MAX)
}

// A line sent goes in front, and the oldest of the four goes.
#[tactic(auto, using(crate::proofs::Laws::push_is))]
pub fn push(line: Kept, sent: [Kept; 4]) -> [Kept; 4]
    ensures { result ≡ pushed line sent }
{
    let [newest, second, third, _] = sent;
    [line, newest, second, third]
}

// How many characters a call wrote. `codes::length_of` says it for C, in a crate that this one does not stand on.
pub fn chars_of(answer: Result<Answer, Refusal>) -> usize
    ensures { result ≡ chars (said answer) }
{
    match answer {
        Ok(Answer::Written(n)) => n,
        _ => 0,
    }
}

// Whether a line of so many characters is kept.
#[tactic(auto, unfolding(crate::specs::Keeping::is_line))]
pub fn is_line(len: usize) -> bool
    ensures { result ≡ is_line len }
{
    (1..=ROOM).contains(&len)
}

// The line that a delivery names; of no characters where there is none, as `kept_at` of the definitions has it.
#[tactic(auto, unfolding(crate::specs::Keeping::kept_at))]
pub fn kept_at(sent: &[Kept; 4], which: u8) -> Kept
    ensures { result ≡ kept_at sent.now which }
{
    sent.get(which as usize).copied().unwrap_or_else(no_line)
}
