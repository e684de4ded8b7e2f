// Reads events on standard input and prints an answer for each, then the formed sessions. The work on bytes is in `reading`, `table` and `noting`.
#![tactic(auto)]

ghost use Rattle.std.specs.Prelude.{◌≡◌, ◌≤◌, length};

use noting::close;
use reading::{filled, first_world, sent};
use std::io::{Read, Write};
use table::{Desk, SESSIONS, VIEWS, new_table};

// Writes what is printed at the end of the input, and answers how many reads were left to make.
fn finished<W: Write>(writer: &mut W, desk: &Desk, out: &mut [u8]) -> u64
    requires { (desk.now.world.formed ≤ 1001) × (196608 ≤ length out.old) }
    ensures { result ≡ desk.now.world.turns }
{
    let put = close(&desk.formed, out, desk.world);
    let _ = writer.write_all(&out[..put]);
    desk.world.turns
}

// There is room for one read, and for what its lines print: at most 24 characters each. The run ends when no read is left to make.
fn run<R: Read, W: Write>(reader: &mut R, writer: &mut W) -> u64
    ensures { result ≡ 0 }
{
    let mut desk = Desk {
        table: new_table(),
        views: [0; VIEWS],
        formed: [0; SESSIONS],
        world: first_world(),
    };
    let mut buf = [0; 8192];
    let mut out = [0; 196608];
    while 0 < desk.world.turns {
        desk.world = filled(reader, &mut buf, desk.world);
        desk.steps(&buf, &mut out);
        desk.world = sent(writer, &out, desk.world);
    }
    finished(writer, &desk, &mut out)
}

fn main(rt: HostRuntime) {
    run(&mut rt.stdin(), &mut rt.stdout());
}
