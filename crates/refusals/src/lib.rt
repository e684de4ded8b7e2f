// The first refusal of each call, in document 01's order, over the numbers that it depends on. `fit` says that the record is whole and the session fits it.
#![tactic(auto)]

ghost use Rattle.std.specs.Prelude.{◌≡◌, ◌||◌, not, cond, eqb};
ghost use Rattle.group.specs.Heads.{has};
ghost use Rattle.refusals.specs.Refusals.{check_number, enter_refused, state_refused, attempt_refused, decide_refused, form_refused, write_state_refused, write_attempt_refused};

use fitting::stage::{CLOSED, FORMED, NONE, UNDECIDED};
use group::Refusal;
use group::heads::holds;
use writer::{ATTEMPT_ROOM, STATE_ROOM};

// A view with these heads, for own head and the highest view entered.
pub fn enter_check(fit: bool, own: u8, entered: u64, view: u32, heads: u16) -> Result<(), Refusal>
    ensures { check_number result ≡ enter_refused fit own entered view heads }
{
    if !fit {
        return Err(Refusal::Record);
    }
    if !holds(heads, own) {
        return Err(Refusal::Stranger);
    }
    if u64::from(view) <= entered {
        return Err(Refusal::OldView);
    }
    Ok(())
}

// The session fits the record, and is not none. The two are asked as they are in the definitions, and a struct of them would be made for one call each.
fn session_check(fit: bool, stage: u8) -> Result<(), Refusal>
    ensures { check_number result ≡ cond (not fit) 2 (cond (eqb stage 0) 6 0) }
{
    if !fit {
        return Err(Refusal::Record);
    }
    if stage == NONE {
        return Err(Refusal::NoSession);
    }
    Ok(())
}

pub fn decide_check(fit: bool, stage: u8, members: u16, states: u16) -> Result<(), Refusal>
    ensures { check_number result ≡ decide_refused fit stage members states }
{
    session_check(fit, stage)?;
    if stage != UNDECIDED {
        return Err(Refusal::Decided);
    }
    if states != members {
        return Err(Refusal::Missing);
    }
    Ok(())
}

pub fn form_check(fit: bool, stage: u8, members: u16, attempts: u16) -> Result<(), Refusal>
    ensures { check_number result ≡ form_refused fit stage members attempts }
{
    session_check(fit, stage)?;
    match stage {
        CLOSED => Err(Refusal::Closed),
        FORMED => Err(Refusal::Decided),
        UNDECIDED => Err(Refusal::Undecided),
        _ if attempts != members => Err(Refusal::Missing),
        _ => Ok(()),
    }
}

// A session that a line is heard in: `heard` are the members whose lines of its kind were heard.
#[derive(Clone, Copy)]
pub struct Listener {
    pub stage: u8,
    pub view: u32,
    pub members: u16,
    pub heard: u16,
    pub own: usize,
}

impl Listener {
    // There is a session, and the line is of its view and from a member.
    fn member_check(self, view: u32, sender: u8) -> Result<(), Refusal>
        ensures { check_number result ≡ cond (eqb self.stage 0) 6 (cond (not (eqb view self.view)) 7 (cond (not (has self.members sender)) 4 0)) }
    {
        if self.stage == NONE {
            return Err(Refusal::NoSession);
        }
        if view != self.view {
            return Err(Refusal::OtherView);
        }
        if !holds(self.members, sender) {
            return Err(Refusal::Stranger);
        }
        Ok(())
    }

    // The sender was not heard, and is not own head.
    fn unheard_check(self, sender: u8) -> Result<(), Refusal>
        ensures { check_number result ≡ cond (has self.heard sender || eqb sender self.own) 8 0 }
    {
        if holds(self.heard, sender) || usize::from(sender) == self.own {
            return Err(Refusal::Heard);
        }
        Ok(())
    }

    // A state line of this view and sender.
    pub fn state_check(self, view: u32, sender: u8) -> Result<(), Refusal>
        ensures { check_number result ≡ state_refused self.stage self.view self.members self.heard self.own view sender }
    {
        self.member_check(view, sender)?;
        self.unheard_check(sender)
    }

    // An attempt line of this view and sender.
    pub fn attempt_check(self, view: u32, sender: u8) -> Result<(), Refusal>
        ensures { check_number result ≡ attempt_refused self.stage self.view self.members self.heard self.own view sender }
    {
        self.member_check(view, sender)?;
        if self.stage == CLOSED {
            return Err(Refusal::Closed);
        }
        self.unheard_check(sender)
    }
}

// A state line to be written into so many characters.
pub fn write_state_check(fit: bool, stage: u8, room: usize) -> Result<(), Refusal>
    ensures { check_number result ≡ write_state_refused fit stage room }
{
    session_check(fit, stage)?;
    if stage != UNDECIDED {
        return Err(Refusal::Decided);
    }
    if room < STATE_ROOM {
        return Err(Refusal::Short);
    }
    Ok(())
}

// An attempt line to be written into so many characters.
pub fn write_attempt_check(fit: bool, stage: u8, room: usize) -> Result<(), Refusal>
    ensures { check_number result ≡ write_attempt_refused fit stage room }
{
    session_check(fit, stage)?;
    if stage == CLOSED {
        return Err(Refusal::Closed);
    }
    if stage <= UNDECIDED {
        return Err(Refusal::Undecided);
    }
    if room < ATTEMPT_ROOM {
        return Err(Refusal::Short);
    }
    Ok(())
}
