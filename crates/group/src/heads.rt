// Sets of heads: bit h of a u16 for head h.
ghost use Rattle.std.specs.Prelude.{◌≡◌, ◌<◌};
ghost use Rattle.group.specs.Heads.{has, size, either, less, only, highest};
ghost use Rattle.group.specs.Heads.{shared as shared_of};

use crate::Group;
use crate::words::has_head;

// Head h is in the set. No head above 15 is.
pub fn holds(set: u16, h: u8) -> bool
    ensures { result ≡ has set h }
{
    h <= Group::LAST && has_head(u64::from(set), usize::from(h))
}

// The set of one head.
pub fn only(h: u8) -> u16
    requires { h < 16 }
    ensures { result ≡ only h }
{
    1 << h
}

#[tactic(auto, unfolding(crate::specs::Heads::either))]
pub fn with_head(set: u16, h: u8) -> u16
    requires { h < 16 }
    ensures { result ≡ either set (only h) }
{
    set | only(h)
}

#[tactic(auto, unfolding(crate::specs::Heads::less))]
pub fn without_head(set: u16, h: u8) -> u16
    requires { h < 16 }
    ensures { result ≡ less set (only h) }
{
    set & !only(h)
}

pub fn size(s: u16) -> u32
    ensures { result ≡ size s }
{
    s.count_ones()
}

// How many heads of s are in t.
#[tactic(auto, unfolding(crate::specs::Heads::shared, crate::specs::Heads::common))]
pub fn shared(s: u16, t: u16) -> u32
    ensures { result ≡ shared_of s t }
{
    size(s & t)
}

// The highest-numbered head of a set, 0 for the empty one.
pub fn top_head(set: u16) -> u8
    ensures { result ≡ highest set }
{
    if set == 0 {
        return 0;
    }
    (u16::BITS - 1 - set.leading_zeros()) as u8
}
