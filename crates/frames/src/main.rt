// Reads lines on standard input and prints one for each. The work on bytes is in `stream`.
#![tactic(auto)]

ghost use Rattle.std.specs.Prelude.{◌≡◌, ◌*◌, ◌≤◌, ◌<◌, length};
ghost use Rattle.std.specs.ControlFlow.{MatchControlFlow};

use std::io::{Read, Write};
use std::ops::ControlFlow;
use stream::{feed, finish};

// One read, and what its whole lines print. The first `held` bytes of buf are of a line begun; the answer is how many are held then, and whether to go on. A read that fails ends the input.
fn turn<R: Read, W: Write>(
    reader: &mut R,
    writer: &mut W,
    buf: &mut [u8],
    out: &mut [u8],
    held: usize,
) -> ControlFlow<usize, usize>
    requires { (420 < length buf.old) × (4 * length buf.old ≤ length out.old) × (held ≤ 420) }
    ensures { MatchControlFlow result (λ h. h ≤ 420) (λ h. h ≤ 420) }
{
    let n = reader.read(&mut buf[held..]).unwrap_or(0);
    if n == 0 {
        return ControlFlow::Break(held);
    }
    let fed = feed(&mut buf[..held + n], out);
    match writer.write_all(&out[..fed.put]) {
        Ok(()) => ControlFlow::Continue(fed.held),
        Err(_) => ControlFlow::Break(fed.held),
    }
}

// A proved loop has to end, and nothing says that the input does: the loop counts its turns, and no run takes so many.
fn run<R: Read, W: Write>(reader: &mut R, writer: &mut W, buf: &mut [u8], out: &mut [u8])
    requires { (420 < length buf.old) × (4 * length buf.old ≤ length out.old) }
{
    let mut held = 0;
    for _ in 0..u64::MAX {
        match turn(reader, writer, buf, out, held) {
            ControlFlow::Continue(now) => held = now,
            ControlFlow::Break(last) => {
                held = last;
                break;
            }
        }
    }
    let put = finish(&buf[..held], out);
    let _ = writer.write_all(&out[..put]);
}

// Bytes of which no more is said than how many they are.
fn room<const N: usize>() -> [u8; N]
    ensures { N ≡ length result }
{
    [0; N]
}

// One part of the input is read at a time, and prints at most four bytes for each of its own: `R 3` and a newline for a newline.
fn main(rt: HostRuntime) {
    let mut reader = rt.stdin();
    let mut writer = rt.stdout();
    let mut buf = room::<65536>();
    let mut out = room::<262144>();
    run(&mut reader, &mut writer, &mut buf, &mut out);
}
