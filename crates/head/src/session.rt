// The session: what a head has heard in one view. Each call takes it by value and hands the next one back.
ghost use Rattle.std.specs.Prelude.{◌≡◌, ◌<◌};
ghost use Rattle.group.specs.Answers.{said, refused, refusal_number};
ghost use Rattle.head.specs.Session.{no_session, opened, with_state, with_attempt, at_stage};

use fitting::stage::{NONE, UNDECIDED};
use group::heads::{only, with_head};
use group::{Answer, Refusal};
use refusals::Listener;
use state::{Held, State, no_state, nothing_held};

// Its stage is a number, so that any bytes from outside are some session.
#[repr(C)]
#[derive(Clone, Copy)]
pub struct Session {
    pub stage: u8,
    pub view: u32,
    pub members: u16,
    pub states: u16,
    pub attempts: u16,
    pub held: Held,
}

// What a call hands back.
#[derive(Clone, Copy)]
pub struct Next {
    pub answer: Result<Answer, Refusal>,
    pub session: Session,
}

#[tactic(auto, unfolding(crate::specs::Session::no_session, crate::specs::Session::opened, crate::specs::Session::with_state, crate::specs::Session::with_attempt, crate::specs::Session::at_stage))]
impl Session {
    pub fn none() -> Session
        ensures { result ≡ no_session }
    {
        Session {
            stage: NONE,
            view: 0,
            members: 0,
            states: 0,
            attempts: 0,
            held: nothing_held(),
        }
    }

    // None, for a call that is cut. Own slot is stored once more, at an index known only as the program runs: the compiler then keeps the sixteen slots in one
    // piece, and a call that is not cut copies its session as one, not slot by slot. It is stored before the session is made: enter and form took the stack of one session more
    // where a session was changed.
    pub fn none_of(own: usize) -> Session
        requires { own < 16 }
        ensures { result ≡ no_session }
    {
        let mut held = nothing_held();
        held.of[own] = no_state();
        Session {
            held,
            ..Session::none()
        }
    }

    // A session of own head, just entered.
    pub fn opened(own: usize, view: u32, members: u16) -> Session
        requires { own < 16 }
        ensures { result ≡ opened own view members }
    {
        let me = only(own as u8);
        Session {
            stage: UNDECIDED,
            view,
            members,
            states: me,
            attempts: me,
            held: nothing_held(),
        }
    }

    pub fn with_state(mut self, sender: u8, st: State) -> Session
        requires { sender < 16 }
        ensures { result ≡ with_state self sender st }
    {
        self.held.of[usize::from(sender)] = st;
        self.states = with_head(self.states, sender);
        self
    }

    pub fn with_attempt(self, sender: u8) -> Session
        requires { sender < 16 }
        ensures { result ≡ with_attempt self sender }
    {
        Session {
            attempts: with_head(self.attempts, sender),
            ..self
        }
    }

    pub fn at_stage(self, stage: u8) -> Session
        ensures { result ≡ at_stage self stage }
    {
        Session { stage, ..self }
    }

    // What a call that is refused hands back: the session as it was.
    pub(crate) fn refused(self, why: Refusal) -> Next
        ensures { (said result.answer ≡ refused (refusal_number why)) × (result.session ≡ self) }
    {
        Next {
            answer: Err(why),
            session: self,
        }
    }

    // The session as a line is held against it, for own head and the members whose lines of its kind were heard.
    pub(crate) fn listener(&self, heard: u16, own: usize) -> Listener
        ensures { result ≡ record { stage = self.now.stage; view = self.now.view; members = self.now.members; heard = heard; own = own } }
    {
        Listener {
            stage: self.stage,
            view: self.view,
            members: self.members,
            heard,
            own,
        }
    }
}
