// Which word of the record holds what: its fields, their stores under a pen, and their writes in a copy. No crate above knows it; `Group::fresh`, below, writes the words by number.
#![tactic(auto, using(crate::proofs::Laws::Words::slices, crate::proofs::Laws::Words::fields), unfolding(crate::specs::Layout::settings, crate::specs::Layout::core, crate::specs::Layout::least, crate::specs::Layout::own, crate::specs::Layout::entered, crate::specs::Layout::number, crate::specs::Layout::primary, crate::specs::Layout::formed_for, crate::specs::Layout::place_at, crate::specs::Layout::marks_at, crate::specs::Layout::formed, crate::specs::Layout::places, crate::specs::Layout::store_entered, crate::specs::Layout::store_number, crate::specs::Layout::store_primary, crate::specs::Layout::store_formed, crate::specs::Layout::store_place, crate::specs::Layout::store_marks, store::specs::Desk::stored))]

ghost use Rattle.std.specs.Prelude.{◌≡◌, ◌+◌, ◌<◌, ◌≤◌};
ghost use Rattle.loops.specs.Below.{table};
ghost use Rattle.store.specs.Desk.{desk, stored, put_to, run, store_if, where_changed};
ghost use Rattle.store.specs.Program.{exec};
ghost use Rattle.record.specs.Layout.{word, settings, core, least, own, entered, number, primary, formed_for, place_at, marks_at, formed, places, field_store, field_at, InRecord};
ghost use Rattle.record.specs.Replacing.{store_record};

use group::Group;
use store::Pen;

pub type Record = [u64; Group::WORDS];

// A word that is stored by name.
#[derive(Clone, Copy)]
pub enum Field {
    Entered,
    Number,
    Primary,
    Formed(usize),
    Place(usize),
    Marks(usize),
}

impl Field {
    // Which word holds it. Word 0, the settings, is read and never stored alone.
    fn at(self) -> usize
        requires { InRecord self }
        ensures { result ≡ field_at self }
    {
        match self {
            Field::Entered => 1,
            Field::Number => 2,
            Field::Primary => 3,
            Field::Formed(q) => 4 + q,
            Field::Place(i) => 20 + i,
            Field::Marks(i) => 36 + i,
        }
    }
}

// The word of a field.
fn word(rec: &Record, field: Field) -> u64
    requires { InRecord field }
    ensures { result ≡ word rec.now (field_at field) }
{
    rec[field.at()]
}

// The sixteen words from a field on.
fn sixteen(rec: &Record, first: Field) -> &[u64]
    requires { InRecord first × (field_at first ≤ 36) }
    ensures { result.now ≡ table 16 (λ i. word rec.now (field_at first + i)) }
{
    let at = first.at();
    &rec[at..at + Group::HEADS]
}

// W0, Q and own head, in one word.
pub fn settings(rec: &Record) -> u64
    ensures { result ≡ settings rec.now }
{
    rec[0]
}

// W0.
pub fn core(rec: &Record) -> u16
    ensures { result ≡ core rec.now }
{
    (rec[0] % 65536) as u16
}

// Q.
pub fn least(rec: &Record) -> u8
    ensures { result ≡ least rec.now }
{
    (rec[0] / 65536 % 256) as u8
}

// Own head.
pub fn own(rec: &Record) -> usize
    ensures { (result ≡ own rec.now) × (result < 16) }
{
    (rec[0] / 16777216 % Group::HEADS as u64) as usize
}

// Readers have a name each: contracts and laws cite the field that each reads.

// The highest view entered.
pub fn entered(rec: &Record) -> u64
    ensures { result ≡ entered rec.now }
{
    word(rec, Field::Entered)
}

// The session number.
pub fn number(rec: &Record) -> u64
    ensures { result ≡ number rec.now }
{
    word(rec, Field::Number)
}

// Last primary.
pub fn primary(rec: &Record) -> u64
    ensures { result ≡ primary rec.now }
{
    word(rec, Field::Primary)
}

// Last formed for head q.
pub fn formed_for(rec: &Record, q: usize) -> u64
    requires { q < 16 }
    ensures { result ≡ formed_for rec.now q }
{
    word(rec, Field::Formed(q))
}

// Place i.
pub fn place_at(rec: &Record, i: usize) -> u64
    requires { i < 16 }
    ensures { result ≡ place_at rec.now i }
{
    word(rec, Field::Place(i))
}

// The marks of place i.
pub fn marks_at(rec: &Record, i: usize) -> u64
    requires { i < 16 }
    ensures { result ≡ marks_at rec.now i }
{
    word(rec, Field::Marks(i))
}

// The sixteen of a kind, in order.
pub fn formed(rec: &Record) -> &[u64]
    ensures { result.now ≡ formed rec.now }
{
    sixteen(rec, Field::Formed(0))
}

pub fn places(rec: &Record) -> &[u64]
    ensures { result.now ≡ places rec.now }
{
    sixteen(rec, Field::Place(0))
}

pub fn put(rec: &mut Record, pen: Pen, field: Field, w: u64) -> Pen
    requires { InRecord field }
    ensures { desk rec.new result ≡ put_to (field_store field w) (desk rec.old pen) }
{
    store::put(rec, pen, field.at(), w)
}

// Stores where asked.
pub fn put_if(rec: &mut Record, pen: Pen, asked: bool, field: Field, w: u64) -> Pen
    requires { InRecord field }
    ensures { desk rec.new result ≡ run (store_if asked (field_store field w)) (desk rec.old pen) }
{
    store::put_if(rec, pen, asked, field.at(), w)
}

// Stores only a word that changes.
pub fn change(rec: &mut Record, pen: Pen, field: Field, w: u64) -> Pen
    requires { InRecord field }
    ensures { desk rec.new result ≡ run (where_changed (field_store field w) rec.old) (desk rec.old pen) }
{
    store::change(rec, pen, field.at(), w)
}

// Makes the record be `to`, with at most the pen's stores: those of the words that differ, in order, which is the order of the fields.
pub fn change_record(rec: &mut Record, pen: Pen, to: &Record) -> Pen
    ensures { desk rec.new result ≡ exec (store_record to.now) (desk rec.old pen) }
{
    let mut pen = pen;
    for (at, w) in to.iter().enumerate() {
        pen = store::change(rec, pen, at, *w);
    }
    pen
}

// Sets a word with no pen, in a copy.
pub fn set(to: &mut Record, field: Field, w: u64)
    requires { InRecord field }
    ensures { to.new ≡ stored (field_store field w) to.old }
{
    to[field.at()] = w;
}
