// The quorum test on a group that is one.
ghost use Rattle.std.specs.Prelude.{◌≡◌, ◌||◌, ◌<◌};
ghost use Rattle.group.specs.Heads.{highest};
ghost use Rattle.group.specs.Quorum.{majority, tied, passes};

use crate::heads::{holds, shared, size, top_head};

// The clauses on s, which is not empty: t has more than half of it, or half of it with the head that breaks a tie.
#[tactic(auto, unfolding(crate::specs::Quorum::majority, crate::specs::Quorum::tied))]
fn holds_most(s: u16, t: u16) -> bool
    requires { 0 < s }
    ensures { result ≡ (majority s t || tied highest s t) }
{
    let size = size(s);
    let doubled = 2 * shared(s, t);
    doubled > size || (doubled == size && holds(t, top_head(s)))
}

// Sub-quorum of s by t, for the core group and the minimum. The clause on the core group is asked first: where it holds, s need not be counted.
pub fn sub_quorum(core: u16, least: u8, s: u16, t: u16) -> bool
    ensures { result ≡ passes highest core least s t }
{
    let least = u32::from(least);
    let ours = shared(core, t);
    if s == 0 || ours < least {
        return false;
    }
    ours > size(core) - least || holds_most(s, t)
}
