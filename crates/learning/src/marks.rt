// a. The marks of each place.
ghost use Rattle.std.specs.Prelude.{◌≡◌, not, ◌&&◌, cond, ◌<◌, eqb, ltb};
ghost use Rattle.std.specs.List.{fold, enumerate_from};
ghost use Rattle.loops.specs.Below.{table};
ghost use Rattle.group.specs.Heads.{has, either, only};
ghost use Rattle.group.specs.Words.{rank};
ghost use Rattle.store.specs.Program.{step_by, exec, up_to};
ghost use Rattle.state.specs.declared.Held.{Held};
ghost use Rattle.plan.specs.Marks.{mark_step};
ghost use Rattle.plan.specs.Adoption.{offered};
ghost use Rattle.changes.specs.Lent.{on};

use changes::Desk;
use group::Group;
use group::words::{has_head, rank_of};
use members::is_other;
use record::layout::{Field, marks_at, own, place_at};

fn mark_if(asked: bool, marks: u64, q: usize) -> u64
    requires { q < 16 }
    ensures { result ≡ cond asked (either marks (only q)) marks }
{
    if asked { marks | (1 << q) } else { marks }
}

// Head q did not form session w with own head, if `last` is the last that it formed.
fn to_mark(m: u16, own: usize, w: u64, last: u64, q: usize) -> bool
    requires { q < 16 }
    ensures { result ≡ (has w q && (has m q && not (eqb q own)) && ltb (rank last) (rank w)) }
{
    has_head(w, q) & is_other(m, own, q) & (rank_of(last) < rank_of(w))
}

// The marks of session w, with each head added that did not form it.
fn marked_in(m: u16, own: usize, w: u64, offers: &[u64; Group::HEADS], marks: u64) -> u64
    ensures { result ≡ fold (λ all p. cond (has w p.0 && (has m p.0 && not (eqb p.0 own)) && ltb (rank p.1) (rank w)) (either all (only p.0)) all) marks (enumerate_from 0 offers.now) }
{
    offers.iter().enumerate().fold(marks, |all, (q, last)| {
        mark_if(to_mark(m, own, w, *last, q), all, q)
    })
}

// Marks place i, given what each other member offers.
fn mark_place(desk: &mut Desk, m: u16, offers: &[u64; Group::HEADS], i: usize)
    requires { i < 16 }
    ensures lent { desk.new.rec.ghost_name ≡ desk.old.rec.ghost_name }
    ensures stores { (held : Held) → offers.now ≡ table 16 (offered m held desk.old.rec.now) → on desk.new ≡ step_by (mark_step m held i) (on desk.old) }
{
    let w = place_at(desk.rec, i);
    if w != 0 {
        let marks = marked_in(m, own(desk.rec), w, offers, marks_at(desk.rec, i));
        desk.change(Field::Marks(i), marks);
    }
}

// Marks every place. By number: a turn stores in the record that a slice of places would lend.
pub fn mark_places(desk: &mut Desk, m: u16, offers: &[u64; Group::HEADS])
    ensures lent { desk.new.rec.ghost_name ≡ desk.old.rec.ghost_name }
    ensures stores { (held : Held) → offers.now ≡ table 16 (offered m held desk.old.rec.now) → on desk.new ≡ exec (up_to 16 (mark_step m held)) (on desk.old) }
{
    for i in 0..Group::PLACES {
        mark_place(desk, m, offers, i);
    }
}
