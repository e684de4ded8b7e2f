// The writers, straight into the lent output. `at` is a byte place of the frame, two characters each.
#![tactic(auto)]

ghost use Rattle.std.specs.Prelude.{◌≡◌, ◌↔◌, IsSome, ◌++◌, ◌∷◌, [], ◌+◌, ◌*◌, ◌≤◌, get_or, length, take, drop};
ghost use Rattle.std.specs.Option.{unwrap_or};
ghost use Rattle.loops.specs.Below.{table};
ghost use Rattle.lines.specs.Writing.{bytes4, bytes6, flat, head_bytes, attempt_line, state_line, spell, wrote, write_attempt, write_state};

use group::Group;
use hexadecimal::digit_of;
use state::State;

// The most characters of a state line, and those of an attempt line.
pub const STATE_ROOM: usize = 419;

pub const ATTEMPT_ROOM: usize = 13;

fn put_byte(out: &mut [u8], at: usize, b: u8)
    requires { (at + 1) * 2 ≤ length out.old }
    ensures { out.new ≡ spell out.old at (b ∷ []) }
{
    let i = at * 2;
    out[i] = digit_of(b / 16);
    out[i + 1] = digit_of(b % 16);
}

// Spells bytes. It is the one loop over characters, and goes over many at once.
fn put_bytes(out: &mut [u8], at: usize, s: &[u8])
    requires { (at + length s.now) * 2 ≤ length out.old }
    ensures { out.new ≡ spell out.old at s.now }
{
    for (i, b) in s.iter().enumerate() {
        put_byte(out, at + i, *b);
    }
}

// Kind, view and sender.
fn head_bytes(kind: u8, view: u32, sender: u8) -> [u8; 6]
    ensures { result ≡ head_bytes kind view sender }
{
    let [a, b, c, d] = view.to_be_bytes();
    [kind, a, b, c, d, sender]
}

// A session: its number and its heads.
fn session_bytes(w: u64) -> [u8; 6]
    ensures { result ≡ bytes6 w }
{
    let [_, _, a, b, c, d, e, f] = w.to_be_bytes();
    [a, b, c, d, e, f]
}

// Eight sessions in one block, so that its characters are made many at once. By place: with `map` the check did not find what the block is.
fn block_bytes(words: &[u64; 8]) -> [[u8; 6]; 8]
    ensures { result ≡ table 8 (λ k. bytes6 (get_or words.now k 0)) }
{
    let mut bytes = [[0u8; 6]; 8];
    for (i, w) in words.iter().enumerate() {
        bytes[i] = session_bytes(*w);
    }
    bytes
}

fn put_words(out: &mut [u8], at: usize, words: &[u64])
    requires { (at + length words.now * 6) * 2 ≤ length out.old }
    ensures { out.new ≡ spell out.old at (flat words.now) }
{
    let (blocks, rest) = words.as_chunks::<8>();
    for (i, block) in blocks.iter().enumerate() {
        put_bytes(out, at + i * 48, block_bytes(block).as_flattened());
    }
    let from = blocks.len() * 8;
    for (i, w) in rest.iter().enumerate() {
        put_bytes(out, at + (from + i) * 6, &session_bytes(*w));
    }
}

fn put_attempt(out: &mut [u8], view: u32, sender: u8)
    requires { 13 ≤ length out.old }
    ensures { out.new ≡ attempt_line view sender ++ drop 13 out.old }
{
    put_bytes(out, 0, &head_bytes(2, view, sender));
    out[12] = b'\n';
}

fn put_state(out: &mut [u8], view: u32, sender: u8, st: &State)
    requires { (st.now.count ≤ 16) × (419 ≤ length out.old) }
    ensures { out.new ≡ state_line view sender st.now ++ drop (227 + 12 * st.now.count) out.old }
{
    put_bytes(out, 0, &head_bytes(1, view, sender));
    put_bytes(out, 6, &st.number.to_be_bytes());
    put_bytes(out, 10, &session_bytes(st.primary));
    put_words(out, 16, &st.formed);
    put_bytes(out, 112, &[st.count as u8]);
    put_words(out, 113, &st.places[..st.count]);
    out[226 + 12 * st.count] = b'\n';
}

// Writes an attempt line and answers with its length, or leaves an output that is too short.
pub fn write_attempt(out: &mut [u8], view: u32, sender: u8) -> Option<usize>
    ensures written { wrote (unwrap_or result 0) out.new ≡ write_attempt view sender out.old }
    ensures room { IsSome result ↔ (13 ≤ length out.old) }
{
    if out.len() < ATTEMPT_ROOM {
        return None;
    }
    put_attempt(out, view, sender);
    Some(ATTEMPT_ROOM)
}

// Writes a state line and answers with its length, or leaves an output that is too short. A state of more than 16 places has no line.
pub fn write_state(out: &mut [u8], view: u32, sender: u8, st: &State) -> Option<usize>
    ensures written { wrote (unwrap_or result 0) out.new ≡ write_state view sender st.now out.old }
    ensures room { IsSome result ↔ ((st.now.count ≤ 16) × (419 ≤ length out.old)) }
{
    let count = st.count;
    if Group::PLACES < count {
        return None;
    }
    if out.len() < STATE_ROOM {
        return None;
    }
    put_state(out, view, sender, st);
    Some(227 + 12 * count)
}
