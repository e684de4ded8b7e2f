// The calls, by value on the session, which each hands back, so a refusal is returned with it and not by `?`: refusals first, then the stores or the line, then the next session. A record that is not of 52 words is refused as one
// that is not whole.
ghost use Rattle.std.specs.Prelude.{◌≡◌, ◌<◌};
ghost use Rattle.group.specs.Answers.{said, cut};
ghost use Rattle.head.specs.Calls.{ended, enter_spec, hear_state_spec, hear_attempt_spec, decide_spec, form_spec, wrote, write_state_spec, write_attempt_spec};
ghost use Rattle.head.specs.Session.{no_session};

use crate::fits::usable;
use crate::session::{Next, Session};
use deciding::{decide_stores, form_stores};
use fitting::stage::{FORMED, stage_after};
use group::{Answer, Refusal};
use lines::Frame;
use reader::read_whole;
use record::layout::{Field, Record, entered, own, put};
use refusals::{decide_check, enter_check, form_check, write_attempt_check, write_state_check};
use store::Pen;
use telling::tell;
use writer::{write_attempt, write_state};

// What a call hands back that needed more stores than it had: cut, and no session. Decide and form put it in a local first: returned at once, it would keep
// their result in memory, and the session of a call that is not cut would be copied once more.
fn cut_off(own: usize) -> Next
    requires { own < 16 }
    ensures { (said result.answer ≡ cut) × (result.session ≡ no_session) }
{
    Next {
        answer: Ok(Answer::Cut),
        session: Session::none_of(own),
    }
}

impl Session {
    #[tactic(auto, using(crate::proofs::Laws::Calls::some_number, crate::proofs::Laws::Fits::usable_length), unfolding(crate::specs::Calls::enter_spec, crate::specs::Refusals::enter_refusal, crate::specs::Calls::stores, crate::specs::Calls::under, crate::specs::Calls::entry_step))]
    pub fn enter(self, rec: &mut [u64], view: u32, heads: u16, stores: u64) -> Next
        ensures { ended rec.new result ≡ enter_spec self rec.old view heads stores }
    {
        let Some(rec): Option<&mut Record> = rec.as_mut_array() else {
            return self.refused(Refusal::Record);
        };
        let fit = usable(&self, rec);
        if let Err(why) = enter_check(fit, own(rec) as u8, entered(rec), view, heads) {
            return self.refused(why);
        }
        let me = own(rec);
        let pen = put(rec, Pen::Left(stores), Field::Entered, u64::from(view));
        if let Pen::Cut = pen {
            return cut_off(me);
        }
        Next {
            answer: Ok(Answer::Entered),
            session: Session::opened(me, view, heads),
        }
    }

    #[tactic(auto, using(crate::proofs::Laws::Calls::some_number, crate::proofs::Laws::Fits::usable_length), unfolding(crate::specs::Calls::hear_state_spec, crate::specs::Refusals::hear_state_refusal, crate::specs::Refusals::state_refusal))]
    pub fn hear_state(self, rec: &[u64], line: &[u8]) -> Next
        ensures { ended rec.now result ≡ hear_state_spec self rec.now line.now }
    {
        let Some(rec): Option<&Record> = rec.as_array() else {
            return self.refused(Refusal::Record);
        };
        if !usable(&self, rec) {
            return self.refused(Refusal::Record);
        }
        let Ok(
            Frame::State {
                view,
                sender,
                state,
            },
        ) = read_whole(line)
        else {
            return self.refused(Refusal::Line);
        };
        let listener = self.listener(self.states, own(rec));
        if let Err(why) = listener.state_check(view, sender) {
            return self.refused(why);
        }
        Next {
            answer: Ok(Answer::Heard),
            session: self.with_state(sender, state),
        }
    }

    #[tactic(auto, using(crate::proofs::Laws::Calls::some_number, crate::proofs::Laws::Fits::usable_length), unfolding(crate::specs::Calls::hear_attempt_spec, crate::specs::Refusals::hear_attempt_refusal, crate::specs::Refusals::attempt_refusal))]
    pub fn hear_attempt(self, rec: &[u64], line: &[u8]) -> Next
        ensures { ended rec.now result ≡ hear_attempt_spec self rec.now line.now }
    {
        let Some(rec): Option<&Record> = rec.as_array() else {
            return self.refused(Refusal::Record);
        };
        if !usable(&self, rec) {
            return self.refused(Refusal::Record);
        }
        let Ok(Frame::Attempt { view, sender }) = read_whole(line) else {
            return self.refused(Refusal::Line);
        };
        let listener = self.listener(self.attempts, own(rec));
        if let Err(why) = listener.attempt_check(view, sender) {
            return self.refused(why);
        }
        Next {
            answer: Ok(Answer::Heard),
            session: self.with_attempt(sender),
        }
    }

    #[tactic(auto, using(crate::proofs::Laws::Calls::some_number, crate::proofs::Laws::Fits::usable_length), unfolding(crate::specs::Calls::decide_spec, crate::specs::Refusals::decide_refusal, crate::specs::Calls::stores, crate::specs::Calls::under))]
    pub fn decide(self, rec: &mut [u64], stores: u64) -> Next
        ensures { ended rec.new result ≡ decide_spec self rec.old stores }
    {
        let Some(rec): Option<&mut Record> = rec.as_mut_array() else {
            return self.refused(Refusal::Record);
        };
        let fit = usable(&self, rec);
        if let Err(why) = decide_check(fit, self.stage, self.members, self.states) {
            return self.refused(why);
        }
        let me = own(rec);
        let decided = decide_stores(rec, Pen::Left(stores), self.members, &self.held);
        if let Pen::Cut = decided.pen {
            let none = cut_off(me);
            return none;
        }
        let answer = Ok(decided.answer);
        Next {
            answer,
            session: self.at_stage(stage_after(answer)),
        }
    }

    #[tactic(auto, using(crate::proofs::Laws::Calls::some_number, crate::proofs::Laws::Fits::usable_length), unfolding(crate::specs::Calls::form_spec, crate::specs::Refusals::form_refusal, crate::specs::Calls::stores, crate::specs::Calls::under))]
    pub fn form(self, rec: &mut [u64], stores: u64) -> Next
        ensures { ended rec.new result ≡ form_spec self rec.old stores }
    {
        let Some(rec): Option<&mut Record> = rec.as_mut_array() else {
            return self.refused(Refusal::Record);
        };
        let fit = usable(&self, rec);
        if let Err(why) = form_check(fit, self.stage, self.members, self.attempts) {
            return self.refused(why);
        }
        let me = own(rec);
        let pen = form_stores(rec, Pen::Left(stores), self.members);
        if let Pen::Cut = pen {
            let none = cut_off(me);
            return none;
        }
        Next {
            answer: Ok(Answer::Formed),
            session: self.at_stage(FORMED),
        }
    }

    // Writes the state line, or says why not. Not inlined: where the values told stand beside the session, the compiler copies the session slot by slot.
    #[tactic(auto, using(crate::proofs::Laws::Calls::some_number, crate::proofs::Laws::Fits::usable_length), unfolding(crate::specs::Calls::write_state_spec, crate::specs::Refusals::write_state_refusal, crate::specs::Calls::writes))]
    #[inline(never)]
    fn state_written(&self, rec: &[u64], out: &mut [u8]) -> Result<Answer, Refusal>
        ensures { wrote out.new record { answer = result; session = self.now } ≡ write_state_spec self.now rec.now out.old }
    {
        let rec: &Record = rec.as_array().ok_or(Refusal::Record)?;
        write_state_check(usable(self, rec), self.stage, out.len())?;
        let length = write_state(out, self.view, own(rec) as u8, &tell(rec)).ok_or(Refusal::Short)?;
        Ok(Answer::Written(length))
    }

    pub fn write_state(self, rec: &[u64], out: &mut [u8]) -> Next
        ensures { wrote out.new result ≡ write_state_spec self rec.now out.old }
    {
        Next {
            answer: self.state_written(rec, out),
            session: self,
        }
    }

    // Writes the attempt line, or says why not. Not inlined, as the state line's: a call that is refused took a quarter longer.
    #[tactic(auto, using(crate::proofs::Laws::Calls::some_number, crate::proofs::Laws::Fits::usable_length), unfolding(crate::specs::Calls::write_attempt_spec, crate::specs::Refusals::write_attempt_refusal, crate::specs::Calls::writes))]
    #[inline(never)]
    fn attempt_written(&self, rec: &[u64], out: &mut [u8]) -> Result<Answer, Refusal>
        ensures { wrote out.new record { answer = result; session = self.now } ≡ write_attempt_spec self.now rec.now out.old }
    {
        let rec: &Record = rec.as_array().ok_or(Refusal::Record)?;
        write_attempt_check(usable(self, rec), self.stage, out.len())?;
        let length = write_attempt(out, self.view, own(rec) as u8).ok_or(Refusal::Short)?;
        Ok(Answer::Written(length))
    }

    pub fn write_attempt(self, rec: &[u64], out: &mut [u8]) -> Next
        ensures { wrote out.new result ≡ write_attempt_spec self rec.now out.old }
    {
        Next {
            answer: self.attempt_written(rec, out),
            session: self,
        }
    }
}
