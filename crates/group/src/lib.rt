// The group: its limits, its sets of heads, its session words, the quorum test and the fresh record.
#![tactic(auto)]

pub mod answers;
pub mod heads;
pub mod quorum;
pub mod words;

ghost use Rattle.std.specs.Prelude.{◌≡◌};
ghost use Rattle.group.specs.Answers.{verdict};
ghost use Rattle.group.specs.Fresh.{fresh_record};
ghost use Rattle.group.specs.Quorum.{is_group, quorum_test};

use crate::heads::{holds, size};
use crate::quorum::sub_quorum;
pub use answers::{Answer, Refusal};

// The core group W0 and the minimum Q.
#[derive(Clone, Copy)]
pub struct Group {
    pub core: u16,
    pub least: u8,
}

impl Group {
    pub const HEADS: usize = 16;

    pub const PLACES: usize = 16;

    pub const WORDS: usize = 52;

    // The highest head.
    pub const LAST: u8 = 15;

    // The largest session number, and the largest view.
    pub const TOP: u64 = 4294967295;

    // W0 is not empty, and Q is from 1 to its size.
    #[tactic(auto, unfolding(crate::specs::Quorum::is_group, crate::specs::Heads::empty))]
    pub fn is_group(self) -> bool
        ensures { result ≡ is_group self.core self.least }
    {
        let all = size(self.core);
        (all != 0) & (self.least != 0) & (u32::from(self.least) <= all)
    }

    // The quorum test of document 01, for any numbers. It asks whether they are a group by two tests, from which the third follows, each with its own return: by `is_group` it took half as long again.
    #[tactic(auto, unfolding(crate::specs::Quorum::quorum_test, crate::specs::Quorum::is_group, crate::specs::Heads::empty))]
    pub fn quorum(self, s: u16, t: u16) -> Result<bool, Refusal>
        ensures { verdict result ≡ quorum_test self.core self.least s t }
    {
        if self.least == 0 {
            return Err(Refusal::Group);
        }
        if size(self.core) < u32::from(self.least) {
            return Err(Refusal::Group);
        }
        Ok(sub_quorum(self.core, self.least, s, t))
    }

    // The record that a start of head own leaves, for a group and a head that start takes.
    pub fn fresh(self, own: u8) -> [u64; Group::WORDS]
        ensures { result ≡ fresh_record self.core self.least own }
    {
        let core = self.core;
        let least = self.least;
        let mut words = [0u64; Group::WORDS];
        words[0] = core as u64 + least as u64 * 65536 + own as u64 * 16777216;
        if holds(core, own) {
            words[3] = core as u64;
            // By index: with the words of the heads made as an array, a start took twice as long.
            for q in 0..Group::HEADS {
                if holds(core, q as u8) {
                    words[4 + q] = core as u64;
                }
            }
        }
        words
    }
}
