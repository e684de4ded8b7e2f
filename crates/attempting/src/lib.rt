// d. The attempt: the highest number and primary among the members, the sessions weighed, and the decision.
#![tactic(auto)]

ghost use Rattle.std.specs.List.{list_all};
ghost use Rattle.std.specs.Prelude.{◌≡◌, ◌<◌, not, ◌||◌, cond, eqb, MatchOption, Ok};
ghost use Rattle.loops.specs.Below.{all_below};
ghost use Rattle.group.specs.Answers.{said};
ghost use Rattle.group.specs.Heads.{has};
ghost use Rattle.store.specs.Program.{step_by};
ghost use Rattle.changes.specs.Lent.{on, Leaves};
ghost use Rattle.record.specs.Layout.{own as own_of};
ghost use Rattle.plan.specs.Attempt.{highest_number, highest_primary, passes_for, own_weighed, state_weighed, listed_weighed, lowest_free, decision, attempt_step};
ghost use Rattle.plan.specs.Attempt.{weighed as weighed_by, quorate as is_quorate};

use changes::Desk;
use group::quorum::sub_quorum;
use group::words::{has_head, heads_of, rank_of, session_of};
use group::{Answer, Group};
use members::{higher, listed, members_end, of_member};
use record::layout::{Record, core, least, number, own, places, primary};
use state::{Held, State};

// The highest session number among the members, and the highest-numbered of their last primaries.
#[derive(Clone, Copy)]
struct Highest {
    number: u64,
    primary: u64,
}

fn highest_among(rec: &Record, m: u16, held: &Held) -> Highest
    ensures { (result.number ≡ highest_number m held.now rec.now) × (result.primary ≡ highest_primary m held.now rec.now) }
{
    let me = own(rec);
    let mine = number(rec);
    let last = primary(rec);
    let mut top = Highest {
        number: 0,
        primary: 0,
    };
    let (states, _) = held.of.split_at(members_end(m));
    for (q, st) in states.iter().enumerate() {
        top.number = top
            .number
            .max(of_member(m, me, q, mine, u64::from(st.number)));
        top.primary = higher(top.primary, of_member(m, me, q, last, st.primary));
    }
    top
}

// M passes the quorum test for session w.
#[tactic(auto, unfolding(plan::specs::Attempt::passes_for))]
fn passes_for(rec: &Record, m: u16, w: u64) -> bool
    ensures { result ≡ passes_for m rec.now w }
{
    sub_quorum(core(rec), least(rec), heads_of(w), m)
}

// Session w is not numbered above top, or M passes for it.
#[tactic(auto, unfolding(plan::specs::Attempt::weighed))]
fn weighed(rec: &Record, m: u16, top: u64, w: u64) -> bool
    ensures { result ≡ weighed_by m rec.now top w }
{
    rank_of(w) <= rank_of(top) || passes_for(rec, m, w)
}

fn each_weighed(rec: &Record, m: u16, top: u64, sessions: &[u64]) -> bool
    ensures { result ≡ list_all (weighed_by m rec.now top) sessions.now }
{
    sessions.iter().all(|w| weighed(rec, m, top, *w))
}

// The sessions that head q lists, of whom state st is held.
fn listed_weighed(rec: &Record, m: u16, top: u64, q: usize, st: &State) -> bool
    requires { q < 16 }
    ensures { result ≡ (not (has m q) || cond (eqb q (own_of rec.now)) (own_weighed m rec.now top) (state_weighed m rec.now top st.now)) }
{
    if !has_head(u64::from(m), q) {
        true
    } else if q == own(rec) {
        each_weighed(rec, m, top, places(rec))
    } else {
        each_weighed(rec, m, top, listed(st))
    }
}

// The sessions that any member lists.
fn all_weighed(rec: &Record, m: u16, held: &Held, top: u64) -> bool
    ensures { result ≡ all_below 16 (listed_weighed m held.now rec.now top) }
{
    let (states, _) = held.of.split_at(members_end(m));
    states
        .iter()
        .enumerate()
        .all(|(q, st)| listed_weighed(rec, m, top, q, st))
}

// M passes for the highest primary, top, and for all that is listed above it.
#[tactic(auto, unfolding(plan::specs::Attempt::quorate))]
fn quorate(rec: &Record, m: u16, held: &Held, top: u64) -> bool
    requires { top ≡ highest_primary m held.now rec.now }
    ensures { result ≡ is_quorate m held.now rec.now }
{
    passes_for(rec, m, top) && all_weighed(rec, m, held, top)
}

// The lowest free place.
fn lowest_free(rec: &Record) -> Option<usize>
    ensures { MatchOption result (lowest_free rec.now ≡ 16) (λ i. (i ≡ lowest_free rec.now) × (i < 16)) }
{
    places(rec).iter().position(|w| *w == 0)
}

// Attempts, or answers why not, in document 01's order.
pub fn conclude(desk: &mut Desk, m: u16, held: &Held) -> Answer
    ensures stored { Leaves (step_by (attempt_step m held.now) (on desk.old)) desk.old desk.new }
    ensures answered { said (Ok result) ≡ decision m held.now desk.old.rec.now }
{
    let among = highest_among(desk.rec, m, held);
    if !quorate(desk.rec, m, held, among.primary) {
        return Answer::NoQuorum;
    }
    let highest = among.number;
    if Group::TOP <= highest {
        return Answer::NumbersRunOut;
    }
    let Some(free) = lowest_free(desk.rec) else {
        return Answer::NoPlace;
    };
    desk.attempt(free, session_of(highest + 1, m));
    Answer::Attempted
}
