// Decide: a to d one after the other.
ghost use Rattle.std.specs.Prelude.{◌≡◌};
ghost use Rattle.store.specs.Program.{exec};
ghost use Rattle.changes.specs.Lent.{on, Leaves};
ghost use Rattle.plan.specs.Decide.{learning};
ghost use Rattle.deciding.specs.Decides.{Decides};

use attempting::conclude;
use changes::Desk;
use group::Answer;
use learning::adoption::{adopt_above, offers};
use learning::marks::mark_places;
use members::highest_of;
use record::layout::Record;
use resolving::clear_places;
use state::Held;
use store::Pen;

// The pen after decide's stores, of which `decide_stores` promises what is left, and the answer; it says nothing where the pen is cut.
#[derive(Clone, Copy)]
pub struct Decided {
    pub pen: Pen,
    pub answer: Answer,
}

// a to c.
fn learn(desk: &mut Desk, m: u16, held: &Held)
    ensures { Leaves (exec (learning m held.now) (on desk.old)) desk.old desk.new }
{
    let offered = offers(desk.rec, m, held);
    mark_places(desk, m, &offered);
    adopt_above(desk, highest_of(&offered));
    clear_places(desk, m, held);
}

// Decide's stores and its answer, for the members m of the view and the states held of the others. The two are not one struct: the marks ask m alone, and the definitions take them apart.
pub fn decide_stores(rec: &mut Record, pen: Pen, m: u16, held: &Held) -> Decided
    ensures { Decides m held.now rec.old pen rec.new result }
{
    let mut desk = Desk { rec, pen };
    learn(&mut desk, m, held);
    let answer = conclude(&mut desk, m, held);
    Decided {
        pen: desk.pen,
        answer,
    }
}
