// Session words: heads in bits 0 to 15, the number above; 0 for none.
ghost use Rattle.std.specs.Prelude.{◌≡◌, cond, ◌<◌};
ghost use Rattle.group.specs.Heads.{has, within};
ghost use Rattle.group.specs.Words.{heads, num, session, rank, primary_ok, formed_ok};
ghost use Rattle.group.specs.Words.{sound as sound_of};

pub fn heads_of(w: u64) -> u16
    ensures { result ≡ heads w }
{
    (w % 65536) as u16
}

pub fn number_of(w: u64) -> u64
    ensures { result ≡ num w }
{
    w / 65536
}

// The session of a number and some heads.
pub fn session_of(number: u64, set: u16) -> u64
    requires { number < 4294967296 }
    ensures { result ≡ session number set }
{
    number * 65536 + u64::from(set)
}

// 0 for none, else the number and one: the order of numbers, with none below all.
#[tactic(auto, unfolding(crate::specs::Words::rank))]
pub fn rank_of(w: u64) -> u64
    ensures { result ≡ rank w }
{
    if w == 0 { 0 } else { number_of(w) + 1 }
}

// Head h is in the session. A head is a plain number: going over sixteen words gives it below 16, and a type of its own would be made at every call.
#[tactic(auto, unfolding(crate::specs::Heads::has))]
pub fn has_head(w: u64, h: usize) -> bool
    requires { h < 16 }
    ensures { result ≡ has w h }
{
    (w >> h) % 2 == 1
}

// Every bit of a is in b.
#[tactic(auto, unfolding(crate::specs::Heads::within, crate::specs::Heads::common))]
pub fn lies_in(a: u64, b: u64) -> bool
    ensures { result ≡ within a b }
{
    a & b == a
}

// A session with no heads is all zero.
#[tactic(auto, unfolding(crate::specs::Words::sound))]
pub fn sound(w: u64) -> bool
    ensures { result ≡ sound_of w }
{
    (w == 0) | !(w % 65536 == 0)
}

// Last primary p of head own: none, or with own head in it.
#[tactic(auto, unfolding(crate::specs::Words::primary_ok))]
pub fn primary_ok(own: usize, p: u64) -> bool
    requires { own < 16 }
    ensures { result ≡ primary_ok own p }
{
    (p == 0) | has_head(p, own)
}

// What last formed for q nearly always is: last primary for its heads, none for the others.
pub fn usual_formed(p: u64, q: usize) -> u64
    requires { q < 16 }
    ensures { result ≡ cond (has p q) p 0 }
{
    if has_head(p, q) { p } else { 0 }
}

// Last formed w for head q, of head own with last primary p. No branch: rule 5 asks it of sixteen words at once. Of a session with a head, numbers order as ranks do.
pub fn formed_ok(own: usize, p: u64, q: usize, w: u64) -> bool
    requires { (own < 16) × (q < 16) }
    ensures { result ≡ formed_ok own p q w }
{
    let among = has_head(p, q);
    (among & (w == p))
        | (!among
            & ((w == 0) | (has_head(w, own) & has_head(w, q) & (number_of(w) < number_of(p)))))
}

// The same with branches: of words that are nearly always the usual ones it is foreseen which are taken.
#[tactic(auto, unfolding(crate::specs::Words::formed_ok))]
pub fn formed_fits(own: usize, p: u64, q: usize, w: u64) -> bool
    requires { (own < 16) × (q < 16) }
    ensures { result ≡ formed_ok own p q w }
{
    if has_head(p, q) {
        return w == p;
    }
    if w == 0 {
        return true;
    }
    has_head(w, own) & has_head(w, q) & (number_of(w) < number_of(p))
}
