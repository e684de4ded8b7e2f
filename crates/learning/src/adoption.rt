// b. Adoption of the highest-numbered session that another member last formed with own head.
ghost use Rattle.std.specs.Prelude.{◌≡◌, not, ◌&&◌, cond, [], ◌<◌, eqb, ltb, get_or};
ghost use Rattle.loops.specs.Below.{table};
ghost use Rattle.group.specs.Heads.{has};
ghost use Rattle.group.specs.Words.{rank};
ghost use Rattle.store.specs.Desk.{run};
ghost use Rattle.record.specs.Layout.{primary as primary_of};
ghost use Rattle.recovery.specs.Changes.{adopt_change};
ghost use Rattle.recovery.specs.Changes.{past as past_of};
ghost use Rattle.plan.specs.Adoption.{offered};
ghost use Rattle.changes.specs.Lent.{on, Leaves};

use changes::Desk;
use group::Group;
use group::words::{number_of, rank_of};
use members::is_other;
use record::layout::{Record, number, own, place_at, primary};
use state::{Held, State};
use std::array;

// What q offers, of whom state st is held: its last formed for own head; nothing where it is no other member.
fn offer(m: u16, own: usize, q: usize, st: &State) -> u64
    requires { (own < 16) × (q < 16) }
    ensures { result ≡ cond (has m q && not (eqb q own)) (get_or st.now.formed own 0) 0 }
{
    if is_other(m, own, q) {
        st.formed[own]
    } else {
        0
    }
}

// What each head offers.
pub fn offers(rec: &Record, m: u16, held: &Held) -> [u64; Group::HEADS]
    ensures { result ≡ table 16 (offered m held.now rec.now) }
{
    let p = own(rec);
    array::from_fn(|q| offer(m, p, q, &held.of[q]))
}

// Place i is used and numbered at or below session w.
#[tactic(auto, unfolding(recovery::specs::Changes::past))]
fn past(rec: &Record, w: u64, i: usize) -> bool
    requires { i < 16 }
    ensures { result ≡ past_of rec.now w i }
{
    let s = place_at(rec, i);
    (s != 0) & (rank_of(s) <= rank_of(w))
}

fn all_past(rec: &Record, w: u64) -> [bool; Group::PLACES]
    ensures { result ≡ table 16 (past_of rec.now w) }
{
    array::from_fn(|i| past(rec, w, i))
}

// Adopts session w.
fn adopt(desk: &mut Desk, w: u64)
    ensures { Leaves (run (adopt_change desk.old.rec.now w) (on desk.old)) desk.old desk.new }
{
    let rises = number(desk.rec) < number_of(w);
    let cleared = all_past(desk.rec, w);
    desk.take_over(w, rises, &cleared);
}

// Adopts session w if it is numbered above last primary.
pub fn adopt_above(desk: &mut Desk, w: u64)
    ensures { Leaves (run (cond (ltb (rank (primary_of desk.old.rec.now)) (rank w)) (adopt_change desk.old.rec.now w) []) (on desk.old)) desk.old desk.new }
{
    if rank_of(primary(desk.rec)) < rank_of(w) {
        adopt(desk, w);
    }
}
