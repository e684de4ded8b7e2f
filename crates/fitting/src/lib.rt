// When a session fits a record: the tests of document 01 over the parts of a session, one sentence each.
#![tactic(auto)]

pub mod stage;

ghost use Rattle.std.specs.Prelude.{◌≡◌, ◌<◌, eqb};
ghost use Rattle.loops.specs.Below.{all_below, any_below};
ghost use Rattle.record.specs.Layout.{place_at, number as number_of};
ghost use Rattle.plan.specs.Members.{held_of};
ghost use Rattle.fitting.specs.Fits.{view_fits, heard_fits, state_fits, stage_fits};

use group::words::{has_head, lies_in, session_of};
use record::layout::{Record, entered, number, own, places, primary};
use stage::{ATTEMPTED, FORMED, UNDECIDED};
use state::{Held, State, keeps_rules};

#[tactic(auto, unfolding(crate::specs::Fits::view_fits))]
pub fn view_fits(view: u32, members: u16, rec: &Record) -> bool
    ensures { result ≡ view_fits view members rec.now }
{
    u64::from(view) == entered(rec) && view != 0 && has_head(u64::from(members), own(rec))
}

#[tactic(auto, unfolding(crate::specs::Fits::heard_fits))]
pub fn heard_fits(members: u16, states: u16, attempts: u16, rec: &Record) -> bool
    ensures { result ≡ heard_fits members states attempts rec.now }
{
    let me = own(rec);
    let all = u64::from(members);
    lies_in(u64::from(states), all)
        && lies_in(u64::from(attempts), all)
        && has_head(u64::from(states), me)
        && has_head(u64::from(attempts), me)
}

// The state held of head q, where q is another head that was heard.
#[tactic(auto, unfolding(crate::specs::Fits::state_fits))]
fn state_fits(states: u16, me: usize, q: usize, st: &State) -> bool
    requires { q < 16 }
    ensures { result ≡ state_fits states me q st.now }
{
    !has_head(u64::from(states), q) || q == me || keeps_rules(st, q)
}

pub fn all_held(states: u16, me: usize, held: &Held) -> bool
    ensures { result ≡ all_below 16 (λ q. state_fits states me q (held_of held.now q)) }
{
    held.of
        .iter()
        .enumerate()
        .all(|(q, st)| state_fits(states, me, q, st))
}

// Session w is in a place.
fn is_placed(w: u64, rec: &Record) -> bool
    ensures { result ≡ any_below 16 (λ i. eqb (place_at rec.now i) w) }
{
    places(rec).contains(&w)
}

#[tactic(auto, unfolding(crate::specs::Fits::stage_fits, crate::specs::Fits::placed, plan::specs::Form::view_session))]
pub fn stage_fits(stage: u8, members: u16, states: u16, attempts: u16, rec: &Record) -> bool
    requires { number_of rec.now < 4294967296 }
    ensures { result ≡ stage_fits stage members states attempts rec.now }
{
    let ours = session_of(number(rec), members);
    stage <= FORMED
        && (stage <= UNDECIDED || states == members)
        && (stage != ATTEMPTED || is_placed(ours, rec))
        && (stage != FORMED || primary(rec) == ours && attempts == members)
}
