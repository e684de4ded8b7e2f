// The program between two reads: what is held of a line that was begun, one read, and one write.
#![tactic(auto)]

ghost use Rattle.std.specs.Prelude.{◌≡◌, ◌≢◌, ℕ, ◌+◌, ◌≤◌, ◌<◌, length, take, slice_index, MatchOption};
ghost use Rattle.reading.specs.Reading.{first_world, at_read, held_count, Between, lines_end, after_read, Filled, after_write, Later};

use asking::World;
use std::io::{Read, Write};
use stream::keep;

// Nothing is read yet. A proved loop has to end, and nothing says that the input does: the loop counts its reads down from a number that no run uses up.
pub fn first_world() -> World
    ensures { result ≡ first_world }
{
    World {
        at: 0,
        stop: 0,
        put: 0,
        views: 0,
        formed: 0,
        starting: 0,
        grouped: false,
        core: 0,
        least: 0,
        end: 0,
        turns: u64::MAX,
    }
}

// Where the last newline stands.
fn last_newline(s: &[u8]) -> Option<usize>
    ensures { MatchOption result ((k : ℕ) → k < length s.now → slice_index s.now k ≢ 10) (λ i. (i < length s.now) × (slice_index s.now i ≡ 10) × ((k : ℕ) → i < k → k < length s.now → slice_index s.now k ≢ 10)) }
{
    s.iter().rposition(|b| *b == 10)
}

// The end of the last whole line.
fn last_end(s: &[u8]) -> usize
    ensures { result ≡ lines_end s.now }
{
    match last_newline(s) {
        Some(i) => i + 1,
        None => 0,
    }
}

// How many bytes of a line that was begun are held.
fn held_of(w: World) -> usize
    requires { w.stop ≤ w.end }
    ensures { (result ≡ held_count w) × (w.stop + result ≤ w.end) × (result ≤ 15) }
{
    (w.end - w.stop).min(15)
}

// The world after a read: end bytes lie in the buffer, and the lines up to stop end.
fn at_read(w: World, stop: usize, end: usize, turns: u64) -> World
    ensures { result ≡ at_read w stop end turns }
{
    World {
        at: 0,
        put: 0,
        stop,
        end,
        turns,
        ..w
    }
}

// The world after a read that answered got: how many bytes it brought, or `None` where it failed. One that brings bytes takes one off the reads left to make; one that brings none ends the run.
fn after_read(buf: &[u8], w: World, got: Option<usize>) -> World
    requires { Between buf.now w × (0 < w.turns) }
    ensures { result ≡ after_read buf.now w got }
{
    let held = held_of(w);
    let n = got.unwrap_or(0).min(buf.len() - held);
    if n == 0 {
        return at_read(w, 0, held, 0);
    }
    let end = held + n;
    at_read(w, last_end(&buf[..end]), end, w.turns - 1)
}

// One read, after what is held of a line that was begun. A read that fails ends the run, as one that brings nothing does.
pub fn filled<R: Read>(reader: &mut R, buf: &mut [u8], w: World) -> World
    requires { Between buf.old w × (0 < w.turns) }
    ensures { Filled buf.old buf.new w result }
{
    let held = held_of(w);
    keep(buf, w.stop, held);
    let got = reader.read(&mut buf[held..]).ok();
    after_read(buf, w, got)
}

// The world after a write that answered whether all was written. A run whose output is not taken ends.
fn after_write(w: World, all: bool) -> World
    ensures { result ≡ after_write w all }
{
    if all {
        return w;
    }
    World { turns: 0, ..w }
}

// Writes what the lines of a read print.
pub fn sent<W: Write>(writer: &mut W, out: &[u8], w: World) -> World
    requires { w.put ≤ length out.now }
    ensures { Later w result }
{
    let put = w.put;
    let all = writer.write_all(&out[..put]).is_ok();
    after_write(w, all)
}
