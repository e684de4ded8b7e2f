// When a session fits a record, by the tests of its parts.
ghost use Rattle.std.specs.Prelude.{◌≡◌, true, ◌<◌};
ghost use Rattle.loops.specs.Below.{all_below};
ghost use Rattle.record.specs.Whole.{whole};
ghost use Rattle.plan.specs.Members.{held_of};
ghost use Rattle.fitting.specs.Fits.{state_fits};
ghost use Rattle.head.specs.Fits.{fits, usable};

use crate::session::Session;
use fitting::stage::NONE;
use fitting::{all_held, heard_fits, stage_fits, view_fits};
use group::heads::without_head;
use record::layout::{Record, own};
use whole::words_whole;

// The states held of others. Where none was heard, none is asked.
fn held_fits(s: &Session, me: usize) -> bool
    requires { me < 16 }
    ensures { result ≡ all_below 16 (λ q. state_fits s.now.states me q (held_of s.now.held q)) }
{
    without_head(s.states, me as u8) == 0 || all_held(s.states, me, &s.held)
}

// Whether the session fits the record, which is whole.
#[tactic(auto, unfolding(crate::specs::Fits::fits, crate::specs::Fits::held_fits))]
fn fits(s: &Session, rec: &Record) -> bool
    requires { whole rec.now ≡ true }
    ensures { result ≡ fits s.now rec.now }
{
    s.stage == NONE
        || (view_fits(s.view, s.members, rec)
            & heard_fits(s.members, s.states, s.attempts, rec)
            & held_fits(s, own(rec))
            & stage_fits(s.stage, s.members, s.states, s.attempts, rec))
}

// Whether the record is whole and the session fits it.
#[tactic(auto, unfolding(crate::specs::Fits::usable, record::specs::Whole::whole))]
pub fn usable(s: &Session, rec: &Record) -> bool
    ensures { result ≡ usable s.now rec.now }
{
    words_whole(rec) && fits(s, rec)
}
