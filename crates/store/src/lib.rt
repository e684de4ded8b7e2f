// Stores under a budget. A pen may make so many stores more; asked for one too many, it is cut and stores nothing from then on.
#![tactic(auto)]

ghost use Rattle.std.specs.Prelude.{◌≡◌, ◌<◌, length};
ghost use Rattle.store.specs.Desk.{desk, store, put_to, run, store_if, where_changed};

#[derive(Clone, Copy)]
pub enum Pen {
    Left(u64),
    Cut,
}

// Stores one word.
#[tactic(auto, unfolding(crate::specs::Desk::put_to, crate::specs::Desk::stored))]
pub fn put(rec: &mut [u64], pen: Pen, at: usize, w: u64) -> Pen
    requires { at < length rec.old }
    ensures { desk rec.new result ≡ put_to (store at w) (desk rec.old pen) }
{
    match pen {
        Pen::Left(0) | Pen::Cut => Pen::Cut,
        Pen::Left(left) => {
            rec[at] = w;
            Pen::Left(left - 1)
        }
    }
}

// Stores one word where asked.
#[tactic(auto, unfolding(crate::specs::Desk::run, crate::specs::Desk::store_if))]
pub fn put_if(rec: &mut [u64], pen: Pen, asked: bool, at: usize, w: u64) -> Pen
    requires { at < length rec.old }
    ensures { desk rec.new result ≡ run (store_if asked (store at w)) (desk rec.old pen) }
{
    if asked { put(rec, pen, at, w) } else { pen }
}

// Makes the word be w, with no store where it is w already.
#[tactic(auto, unfolding(crate::specs::Desk::run, crate::specs::Desk::where_changed))]
pub fn change(rec: &mut [u64], pen: Pen, at: usize, w: u64) -> Pen
    requires { at < length rec.old }
    ensures { desk rec.new result ≡ run (where_changed (store at w) rec.old) (desk rec.old pen) }
{
    if rec[at] == w {
        pen
    } else {
        put(rec, pen, at, w)
    }
}
