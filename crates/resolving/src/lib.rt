// c. The places that are cleared because their session was not formed.
#![tactic(auto)]

ghost use Rattle.std.specs.Prelude.{◌≡◌, not, ◌&&◌, ◌<◌, eqb};
ghost use Rattle.loops.specs.Below.{any_below};
ghost use Rattle.group.specs.Heads.{has};
ghost use Rattle.store.specs.Program.{exec, up_to};
ghost use Rattle.plan.specs.Clearing.{all_marked, to_clear, clear_step};
ghost use Rattle.changes.specs.Lent.{on, Leaves};
ghost use Rattle.plan.specs.Clearing.{lists as lists_of, behind as behind_of, denies as denies_of};

use changes::Desk;
use group::Group;
use group::heads::without_head;
use group::words::{has_head, heads_of, lies_in, rank_of};
use members::{is_other, listed};
use record::layout::{Record, marks_at, own, place_at};
use state::{Held, State};

// All heads of place i but own are marked.
#[tactic(auto, unfolding(plan::specs::Clearing::all_marked))]
fn all_marked(rec: &Record, i: usize) -> bool
    requires { i < 16 }
    ensures { result ≡ all_marked rec.now i }
{
    let others = without_head(heads_of(place_at(rec, i)), own(rec) as u8);
    lies_in(u64::from(others), marks_at(rec, i))
}

// The state lists session w among its places.
fn lists(st: &State, w: u64) -> bool
    ensures { result ≡ lists_of st.now w }
{
    listed(st).contains(&w)
}

// Last primary p has a lower number than session w, or the same number and other heads.
#[tactic(auto, unfolding(plan::specs::Clearing::behind))]
fn behind(p: u64, w: u64) -> bool
    ensures { result ≡ behind_of p w }
{
    let a = rank_of(p);
    let b = rank_of(w);
    a < b || a == b && heads_of(p) != heads_of(w)
}

// Head q, of whom state st is held, is an other member that did not form session w.
fn denies(m: u16, own: usize, w: u64, q: usize, st: &State) -> bool
    requires { q < 16 }
    ensures { result ≡ (has w q && (has m q && not (eqb q own)) && not (lists_of st.now w) && behind_of st.now.primary w) }
{
    has_head(w, q) && is_other(m, own, q) && !lists(st, w) && behind(st.primary, w)
}

// Some other member denies session w.
fn denied(rec: &Record, m: u16, held: &Held, w: u64) -> bool
    ensures { result ≡ any_below 16 (denies_of m held.now rec.now w) }
{
    let p = own(rec);
    held.of
        .iter()
        .enumerate()
        .any(|(q, st)| denies(m, p, w, q, st))
}

#[tactic(auto, unfolding(plan::specs::Clearing::to_clear))]
fn to_clear(rec: &Record, m: u16, held: &Held, i: usize) -> bool
    requires { i < 16 }
    ensures { result ≡ to_clear m held.now rec.now i }
{
    let w = place_at(rec, i);
    w != 0 && (all_marked(rec, i) || denied(rec, m, held, w))
}

// Clears what c clears. By number: a turn stores in the record that a slice of places would lend.
pub fn clear_places(desk: &mut Desk, m: u16, held: &Held)
    ensures { Leaves (exec (up_to 16 (clear_step m held.now)) (on desk.old)) desk.old desk.new }
{
    for i in 0..Group::PLACES {
        let asked = to_clear(desk.rec, m, held, i);
        desk.clear_if(asked, i);
    }
}
