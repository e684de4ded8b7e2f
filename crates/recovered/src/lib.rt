// The recovered record, on a copy: the four steps that bring a cut record to the one after the done changes.
#![tactic(auto, using(crate::proofs::Laws::Steps::steps))]

ghost use Rattle.std.specs.Prelude.{◌≡◌, ◌<◌};
ghost use Rattle.store.specs.Desk.{apply};
ghost use Rattle.recovery.specs.Recover.{greatest, formed_step, clear_step, wipe_step, mended};

use group::Group;
use group::words::{has_head, number_of, rank_of};
use record::layout::{Field, Record, number, place_at, places, primary, set};

// The greatest of the session number and the numbers of last primary and the places.
fn greatest(rec: &Record) -> u64
    ensures { result ≡ greatest rec.now }
{
    let top = number(rec).max(number_of(primary(rec)));
    places(rec)
        .iter()
        .fold(top, |top, w| top.max(number_of(*w)))
}

fn formed_one(to: &mut Record, q: usize)
    requires { q < 16 }
    ensures { to.new ≡ apply (formed_step q to.old) to.old }
{
    let p = primary(to);
    if has_head(p, q) {
        set(to, Field::Formed(q), p);
    }
}

fn clear_one(to: &mut Record, i: usize)
    requires { i < 16 }
    ensures { to.new ≡ apply (clear_step i to.old) to.old }
{
    if rank_of(place_at(to, i)) <= rank_of(primary(to)) {
        set(to, Field::Place(i), 0);
    }
}

fn wipe_one(to: &mut Record, i: usize)
    requires { i < 16 }
    ensures { to.new ≡ apply (wipe_step i to.old) to.old }
{
    if place_at(to, i) == 0 {
        set(to, Field::Marks(i), 0);
    }
}

// The record after the steps. By number: a turn writes the record that a slice would lend, and one walk with the step handed in is longer than these three.
pub fn mended(rec: &Record) -> Record
    ensures { result ≡ mended rec.now }
{
    let mut to = *rec;
    set(&mut to, Field::Number, greatest(rec));
    for q in 0..Group::HEADS {
        formed_one(&mut to, q);
    }
    for i in 0..Group::PLACES {
        clear_one(&mut to, i);
    }
    for j in 0..Group::PLACES {
        wipe_one(&mut to, j);
    }
    to
}
