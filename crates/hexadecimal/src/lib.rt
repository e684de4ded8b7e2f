// Lower-case hexadecimal, and the end of the first line.
#![tactic(auto)]

ghost use Rattle.std.specs.Prelude.{◌≡◌, ◌||◌, ℕ, Bool, false, ◌+◌, ◌*◌, ◌/◌, ◌≤◌, ◌<◌, length, get_or, take, drop, eqb};
ghost use Rattle.std.specs.List.{fold, position};
ghost use Rattle.loops.specs.Below.{every};
ghost use Rattle.lines.specs.Hex.{is_digit, digit, nib, unhex, line_end, rest_of};

use std::array;

// One test with no branch, since `matches!` makes the test of a line's characters 15 in 100 slower.
#[tactic(auto, unfolding(lines::specs::Hex::is_digit))]
pub fn is_digit(c: u8) -> bool
    ensures { result ≡ is_digit c }
{
    ((48 <= c) & (c <= 57)) | ((97 <= c) & (c <= 102))
}

// The value of a digit.
#[tactic(auto, unfolding(lines::specs::Hex::nib))]
pub fn nibble(c: u8) -> u8
    ensures value { result ≡ nib c }
    ensures bound { result < 16 }
{
    (c % 16 + c / 64 * 9) % 16
}

// The digit of a value.
#[tactic(auto, unfolding(lines::specs::Hex::digit))]
pub fn digit_of(n: u8) -> u8
    requires { n < 16 }
    ensures { result ≡ digit n }
{
    if n < 10 { b'0' + n } else { b'a' + (n - 10) }
}

// Every character is a digit. It looks at all of them, so that it goes over many at once.
pub fn digits(s: &[u8]) -> bool
    ensures { result ≡ every is_digit s.now }
{
    let mut ok = true;
    for c in s {
        ok = ok & is_digit(*c);
    }
    ok
}

// The byte at a place of the frame that the characters spell.
pub fn byte_at(s: &[u8], at: usize) -> u8
    requires { at * 2 + 1 < length s.now }
    ensures { result ≡ get_or (unhex s.now) at 0 }
{
    nibble(s[at * 2]) * 16 + nibble(s[at * 2 + 1])
}

// The values of 32 digits.
fn values_at(s: &[u8], at: usize) -> [u8; 32]
    requires { at + 32 ≤ length s.now }
    ensures { (k : ℕ) → k < 32 → get_or result k 0 ≡ nib (get_or s.now (at + k) 0) }
{
    array::from_fn(|k| nibble(s[at + k]))
}

// Puts 16 bytes of the frame that s spells, after the first `at`.
fn put_block(s: &[u8], a: &mut [u8], at: usize)
    requires { (at * 2 + 32 ≤ length s.now) × (at + 16 ≤ length a.old) × (take at a.old ≡ take at (unhex s.now)) }
    ensures { take (at + 16) a.new ≡ take (at + 16) (unhex s.now) }
{
    let n = values_at(s, at * 2);
    for k in 0..16 {
        a[at + k] = n[k * 2] * 16 + n[k * 2 + 1];
    }
}

// Puts the frame that the characters spell: whole blocks, and then the bytes that are left. The blocks are counted by hand: with a `for` over them the compiler
// makes no vectors of a block where `frames` decodes it, and `frames` executes 27 in 100 more instructions.
pub fn put_frame(s: &[u8], a: &mut [u8])
    requires { length s.now / 2 ≤ length a.old }
    ensures { take (length s.now / 2) a.new ≡ unhex s.now }
{
    let n = s.len() / 2;
    let mut from = 0;
    while 16 <= n - from {
        put_block(s, a, from);
        from += 16;
    }
    for i in from..n {
        a[i] = byte_at(s, i);
    }
}

// How many characters a search for a newline passes at once.
const BLOCK: usize = 32;

// One of the characters of a block is a newline. It looks at all of them, so that it goes over many at once.
fn has_newline(block: &[u8; BLOCK]) -> bool
    ensures { result ≡ fold (λ (found : Bool) (c : ℕ). found || eqb c 10) false block.now }
{
    block.iter().fold(false, |found, c| found | (*c == b'\n'))
}

// The place after the blocks at the start that have no newline.
fn blocks_end(s: &[u8]) -> usize
    ensures { (result ≤ length s.now) × (line_end s.now ≡ result + line_end (drop result s.now)) }
{
    let (blocks, _) = s.as_chunks::<BLOCK>();
    for (i, block) in blocks.iter().enumerate() {
        if has_newline(block) {
            return i * BLOCK;
        }
    }
    blocks.len() * BLOCK
}

fn newline_at(s: &[u8]) -> Option<usize>
    ensures { result ≡ position (λ c. eqb c 10) s.now }
{
    s.iter().position(|c| *c == b'\n')
}

// How many characters stand before the first newline: all, if there is none.
pub fn line_end(s: &[u8]) -> usize
    ensures { result ≡ line_end s.now }
{
    let from = blocks_end(s);
    let rest = &s[from..];
    from + newline_at(rest).unwrap_or(rest.len())
}

// The lent bytes after the first line: the empty end, if there is no newline.
pub fn rest(s: &[u8]) -> &[u8]
    ensures { result.now ≡ rest_of s.now }
{
    let end = line_end(s);
    if end < s.len() {
        &s[end + 1..]
    } else {
        &s[s.len()..]
    }
}
