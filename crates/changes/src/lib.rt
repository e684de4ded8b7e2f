// The stores of each kind of change under a pen.
#![tactic(auto)]

ghost use Rattle.std.specs.Prelude.{◌≡◌, false, cond, [], ◌∷◌, ◌++◌, ◌<◌, get_or};
ghost use Rattle.loops.specs.Below.{collect};
ghost use Rattle.group.specs.Words.{num};
ghost use Rattle.store.specs.Desk.{put_to, run, store_if, where_changed};
ghost use Rattle.record.specs.Layout.{store_number, store_primary, field_store, InRecord};
ghost use Rattle.recovery.specs.Changes.{clear_change, formed_stores, attempt_change};
ghost use Rattle.changes.specs.Lent.{on, Leaves};

use group::Group;
use group::words::{has_head, number_of};
use record::layout::{Field, Record, change, put, put_if};
use store::Pen;

// A lent record and its pen.
#[derive(Drop)]
pub struct Desk<'a> {
    pub rec: &'a mut Record,
    pub pen: Pen,
}

impl Desk<'_> {
    fn put(&mut self, field: Field, w: u64)
        requires { InRecord field }
        ensures { Leaves (put_to (field_store field w) (on self.old)) self.old self.new }
    {
        self.pen = put(self.rec, self.pen, field, w);
    }

    // Stores where asked.
    fn put_if(&mut self, asked: bool, field: Field, w: u64)
        requires { InRecord field }
        ensures { Leaves (run (store_if asked (field_store field w)) (on self.old)) self.old self.new }
    {
        self.pen = put_if(self.rec, self.pen, asked, field, w);
    }

    // Stores only a word that changes.
    pub fn change(&mut self, field: Field, w: u64)
        requires { InRecord field }
        ensures { Leaves (run (where_changed (field_store field w) self.old.rec.now) (on self.old)) self.old self.new }
    {
        self.pen = change(self.rec, self.pen, field, w);
    }

    // Last formed of each head of session w. By number: each turn stores the field of that number, and there is no slice to go over.
    fn put_last_formed(&mut self, w: u64)
        ensures { Leaves (run (formed_stores w) (on self.old)) self.old self.new }
    {
        for q in 0..Group::HEADS {
            self.put_if(has_head(w, q), Field::Formed(q), w);
        }
    }

    // Clears place i where asked.
    pub fn clear_if(&mut self, asked: bool, i: usize)
        requires { i < 16 }
        ensures { Leaves (run (cond asked (clear_change i) []) (on self.old)) self.old self.new }
    {
        self.put_if(asked, Field::Place(i), 0);
        self.put_if(asked, Field::Marks(i), 0);
    }

    // Clears the places that are named.
    fn clear_all(&mut self, cleared: &[bool; Group::PLACES])
        ensures { Leaves (run (collect 16 (λ i. cond (get_or cleared.now i false) (clear_change i) [])) (on self.old)) self.old self.new }
    {
        for (i, asked) in cleared.iter().enumerate() {
            self.clear_if(*asked, i);
        }
    }

    // Makes session w last primary, with what follows from it: adoption, and form, where word 2 does not rise.
    pub fn take_over(&mut self, w: u64, rises: bool, cleared: &[bool; Group::PLACES])
        ensures { Leaves (run (store_primary w ∷ (store_if rises (store_number (num w)) ++ (formed_stores w ++ collect 16 (λ i. cond (get_or cleared.now i false) (clear_change i) [])))) (on self.old)) self.old self.new }
    {
        self.put(Field::Primary, w);
        self.put_if(rises, Field::Number, number_of(w));
        self.put_last_formed(w);
        self.clear_all(cleared);
    }

    // Session w goes in place i, and word 2 takes its number.
    pub fn attempt(&mut self, i: usize, w: u64)
        requires { i < 16 }
        ensures { Leaves (run (attempt_change i w) (on self.old)) self.old self.new }
    {
        self.put(Field::Place(i), w);
        self.put(Field::Number, number_of(w));
    }
}
