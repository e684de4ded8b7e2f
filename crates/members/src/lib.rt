// The members of the view: own head, and the others.
#![tactic(auto)]

ghost use Rattle.std.specs.Prelude.{◌≡◌, false, not, ◌&&◌, cond, ℕ, ◌≤◌, ◌<◌, eqb, ltb, get_or, take, length};
ghost use Rattle.group.specs.Heads.{has};
ghost use Rattle.group.specs.Words.{rank, highest_of};

use group::Group;
use group::heads::top_head;
use group::words::{has_head, rank_of};
use state::State;

// Head q is a member other than own head.
pub fn is_other(m: u16, own: usize, q: usize) -> bool
    requires { q < 16 }
    ensures { result ≡ (has m q && not (eqb q own)) }
{
    has_head(u64::from(m), q) & (q != own)
}

// One above the highest member: no head from there on is a member.
pub fn members_end(m: u16) -> usize
    ensures { (result ≤ 16) × ((q : ℕ) → result ≤ q → has m q ≡ false) }
{
    usize::from(top_head(m)) + 1
}

// A member's value: own head's is mine, another's is theirs; 0 for who is no member.
pub fn of_member(m: u16, own: usize, q: usize, mine: u64, theirs: u64) -> u64
    requires { q < 16 }
    ensures { result ≡ cond (has m q) (cond (eqb q own) mine theirs) 0 }
{
    if !has_head(u64::from(m), q) {
        0
    } else if q == own {
        mine
    } else {
        theirs
    }
}

// The places of a state that count, of its sixteen: the first `count`.
pub fn listed(st: &State) -> &[u64]
    ensures counted { result.now ≡ take st.now.count st.now.places }
    ensures of_sixteen { length st.now.places ≡ 16 }
{
    &st.places[..st.count.min(Group::PLACES)]
}

// The higher-numbered of two sessions, the first on a tie.
pub fn higher(w: u64, v: u64) -> u64
    ensures { result ≡ cond (ltb (rank w) (rank v)) v w }
{
    if rank_of(w) < rank_of(v) { v } else { w }
}

// The highest-numbered of sixteen sessions, the first on a tie.
pub fn highest_of(words: &[u64; Group::HEADS]) -> u64
    ensures { result ≡ highest_of 16 (λ i. get_or words.now i 0) }
{
    words.iter().fold(0, |w, v| higher(w, *v))
}
