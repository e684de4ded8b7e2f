// Numbers and sessions at a byte place of a frame, high byte first.
ghost use Rattle.std.specs.Prelude.{◌≡◌, ◌+◌, ◌*◌, ◌≤◌, ◌<◌, length, drop};
ghost use Rattle.state.specs.Values.{padded};
ghost use Rattle.lines.specs.Frame.{four, six, words};

use group::Group;
use std::array;

#[tactic(auto, using(lines::proofs::Laws::Frame::four_bytes))]
pub fn four_at(f: &[u8], at: usize) -> u32
    requires { at + 4 ≤ length f.now }
    ensures { result ≡ four (drop at f.now) }
{
    u32::from_be_bytes([f[at], f[at + 1], f[at + 2], f[at + 3]])
}

#[tactic(auto, using(lines::proofs::Laws::Frame::six_bytes))]
pub fn six_at(f: &[u8], at: usize) -> u64
    requires { at + 6 ≤ length f.now }
    ensures value { result ≡ six (drop at f.now) }
    ensures bound { result < 281474976710656 }
{
    u64::from_be_bytes([
        0,
        0,
        f[at],
        f[at + 1],
        f[at + 2],
        f[at + 3],
        f[at + 4],
        f[at + 5],
    ])
}

// The n sessions at a place, in sixteen words.
pub fn words_at(f: &[u8], at: usize, n: usize) -> [u64; Group::PLACES]
    requires { (n ≤ 16) × (at + n * 6 ≤ length f.now) }
    ensures { result ≡ padded (words n (drop at f.now)) }
{
    array::from_fn(|i| if i < n { six_at(f, at + i * 6) } else { 0 })
}
