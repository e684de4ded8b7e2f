// Whether a record is whole: the tests of document 01, sentence by sentence.
#![tactic(auto)]

ghost use Rattle.std.specs.Prelude.{◌≡◌, true, ◌&&◌, ◌<◌, ◌≤◌};
ghost use Rattle.loops.specs.Below.{all_below};
ghost use Rattle.group.specs.Words.{num, session_word, formed_ok};
ghost use Rattle.record.specs.Layout.{own, core, least, number, primary, place_at};
ghost use Rattle.record.specs.Whole.{group_whole, limits_whole, primary_whole, formed_whole, used_ok, place_whole, apart_whole, top_whole, marks_ok, marks_whole, words_whole, whole};

use group::Group;
use group::heads::{shared, without_head};
use group::words::{formed_fits, has_head, heads_of, lies_in, number_of, primary_ok};
use record::layout::{
    Record, core, entered, formed_for, least, marks_at, number, own, place_at, primary, settings,
};

#[tactic(auto, unfolding(record::specs::Whole::group_whole))]
fn group_whole(rec: &Record) -> bool
    ensures { result ≡ group_whole rec.now }
{
    let group = Group {
        core: core(rec),
        least: least(rec),
    };
    group.is_group() & (settings(rec) / 16777216 < Group::HEADS as u64)
}

// Words 0 to 3. That last primary is a session word follows: it has own head, or is none, and its number is within the limits.
fn first_whole(rec: &Record) -> bool
    ensures { result ≡ (group_whole rec.now && limits_whole rec.now && primary_whole rec.now && top_whole rec.now) }
{
    let p = primary(rec);
    let top = number(rec);
    group_whole(rec)
        & (entered(rec) <= Group::TOP)
        & (top <= Group::TOP)
        & primary_ok(own(rec), p)
        & (number_of(p) <= top)
}

// Last formed w for head q, of head own. Last primary p is a session word, and so is a w that is in order.
fn formed_whole(own: usize, p: u64, q: usize, w: u64) -> bool
    requires { (own < 16) × (q < 16) × (session_word p ≡ true) }
    ensures { result ≡ (session_word w && formed_ok own p q w) }
{
    formed_fits(own, p, q, w)
}

fn all_formed(rec: &Record) -> bool
    requires { session_word (primary rec.now) ≡ true }
    ensures { result ≡ all_below 16 (formed_whole rec.now) }
{
    let h = own(rec);
    let p = primary(rec);
    (0..Group::HEADS).all(|q| formed_whole(h, p, q, formed_for(rec, q)))
}

// A used place w. It is a session word: it has own head, and its number is at most the session number, which is within the limits.
fn used_ok(rec: &Record, w: u64) -> bool
    requires { (number rec.now ≤ 4294967295) × (w ≡ 0 → ⊥) }
    ensures { result ≡ used_ok (own rec.now) (core rec.now) (least rec.now) (primary rec.now) (number rec.now) w }
{
    let n = number_of(w);
    let low = number_of(primary(rec));
    let backing = shared(core(rec), heads_of(w));
    has_head(w, own(rec)) & (least(rec) as u32 <= backing) & (low < n) & (n <= number(rec))
}

// The marks m of a used place w, for own head.
fn marks_ok(own: usize, w: u64, m: u64) -> bool
    requires { (own < 16) × (w ≡ 0 → ⊥) }
    ensures { result ≡ marks_ok own w m }
{
    lies_in(m, u64::from(without_head(heads_of(w), own as u8)))
}

// Place i, used, and the places before it. A free one has another number: 0. By index: over a slice of the places, sixteen of them took a sixth longer.
fn apart_whole(rec: &Record, i: usize) -> bool
    requires { (i < 16) × (1 ≤ num (place_at rec.now i)) }
    ensures { result ≡ apart_whole rec.now i }
{
    let n = number_of(place_at(rec, i));
    (0..i).all(|j| n != number_of(place_at(rec, j)))
}

// Place i, the places before it and its marks.
fn place_whole(rec: &Record, i: usize) -> bool
    requires { (i < 16) × (number rec.now ≤ 4294967295) }
    ensures { result ≡ (place_whole rec.now i && apart_whole rec.now i && marks_whole rec.now i) }
{
    let w = place_at(rec, i);
    if w == 0 {
        return marks_at(rec, i) == 0;
    }
    // Joined to the rest by `&&`, a whole record takes a fifth longer.
    if !used_ok(rec, w) {
        return false;
    }
    apart_whole(rec, i) & marks_ok(own(rec), w, marks_at(rec, i))
}

fn all_places(rec: &Record) -> bool
    requires { number rec.now ≤ 4294967295 }
    ensures { result ≡ all_below 16 (λ i. place_whole rec.now i && apart_whole rec.now i && marks_whole rec.now i) }
{
    (0..Group::PLACES).all(|i| place_whole(rec, i))
}

// Whether the words of a record are whole. The rest is asked where words 0 to 3 pass.
pub fn words_whole(rec: &Record) -> bool
    ensures { result ≡ words_whole rec.now }
{
    first_whole(rec) && all_formed(rec) && all_places(rec)
}

// Whether these words, of any length, are a whole record.
#[tactic(auto, using(record::proofs::Laws::Whole::by_length))]
pub fn is_whole(rec: &[u64]) -> bool
    ensures { result ≡ whole rec.now }
{
    rec.as_array().is_some_and(words_whole)
}
