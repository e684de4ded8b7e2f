// What the calls answer. specs/Answers gives document 01's number or words for each case.
ghost use Rattle.std.specs.Prelude.{◌≡◌};
ghost use Rattle.group.specs.Answers.{refusal_number};

// Why a call is refused, numbered as the caller gets it.
#[derive(Clone, Copy, Debug, PartialEq, Eq)]
pub enum Refusal {
    Group = 1,
    Record = 2,
    Line = 3,
    Stranger = 4,
    OldView = 5,
    NoSession = 6,
    OtherView = 7,
    Heard = 8,
    Missing = 9,
    Decided = 10,
    Undecided = 11,
    Closed = 12,
    Short = 13,
}

impl From<Refusal> for u8 {
    ghost from_gives = { λ refusal n. n ≡ refusal_number refusal };

    fn from(refusal: Refusal) -> u8 {
        refusal as u8
    }
}

// What a call that is not refused answers. A written line's is its length in characters, newline included.
#[derive(Clone, Copy, Debug, PartialEq, Eq)]
pub enum Answer {
    Started,
    Recovered,
    Entered,
    Heard,
    Attempted,
    NoQuorum,
    NumbersRunOut,
    NoPlace,
    Formed,
    Written(usize),
    Cut,
}
