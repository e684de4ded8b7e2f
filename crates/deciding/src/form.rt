// Form: the session of the view becomes last primary.
ghost use Rattle.std.specs.Prelude.{◌≡◌, not, [], ◌∷◌, ◌<◌, eqb};
ghost use Rattle.loops.specs.Below.{table};
ghost use Rattle.store.specs.Desk.{desk};
ghost use Rattle.store.specs.Program.{exec};
ghost use Rattle.record.specs.Layout.{place_at};
ghost use Rattle.record.specs.Layout.{number as number_of};
ghost use Rattle.plan.specs.Form.{form_step};

use changes::Desk;
use group::Group;
use group::words::session_of;
use record::layout::{Record, number, place_at};
use std::array;
use store::Pen;

// Which places are used.
fn all_used(rec: &Record) -> [bool; Group::PLACES]
    ensures { result ≡ table 16 (λ i. not (eqb (place_at rec.now i) 0)) }
{
    array::from_fn(|i| place_at(rec, i) != 0)
}

// Form's stores, for the members m of the view.
pub fn form_stores(rec: &mut Record, pen: Pen, m: u16) -> Pen
    requires { number_of rec.old < 4294967296 }
    ensures { desk rec.new result ≡ exec (form_step m ∷ []) (desk rec.old pen) }
{
    let w = session_of(number(rec), m);
    let cleared = all_used(rec);
    let mut desk = Desk { rec, pen };
    desk.take_over(w, false, &cleared);
    desk.pen
}
