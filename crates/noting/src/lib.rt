// What the bench keeps and prints of a step, and at the end of the input.
#![tactic(auto)]

ghost use Rattle.std.specs.Prelude.{◌≡◌, ◌++◌, ◌+◌, ◌*◌, ◌≤◌, ◌<◌, length, take};
ghost use Rattle.printing.specs.Texts.{closing, last_text};
ghost use Rattle.noting.specs.Noting.{kept_by, one_started, onward, Noted};

use asking::{Order, World};
use deeds::{Deed, What};
use formed::note;
use group::Group;
use printing::{put_last, put_reply, put_sessions};
use text::Printer;

// What the bench itself keeps of an event.
fn kept_by(what: What, w: World) -> World
    requires { w.views ≤ 1000 }
    ensures { result ≡ kept_by what w }
{
    match what {
        What::Announce { .. } => World {
            views: w.views + 1,
            ..w
        },
        What::Open { core, least } => World {
            starting: Group::HEADS,
            grouped: true,
            core,
            least,
            ..w
        },
        _ => w,
    }
}

// One head less to start.
fn one_started(w: World) -> World
    requires { 0 < w.starting }
    ensures { result ≡ one_started w }
{
    World {
        starting: w.starting - 1,
        ..w
    }
}

// The world one line on.
fn onward(w: World, next: usize, put: usize, formed: usize) -> World
    ensures { result ≡ onward w next put formed }
{
    World {
        at: next,
        put,
        formed,
        starting: 0,
        ..w
    }
}

// Keeps and prints what a step came to.
pub fn told(formed: &mut [u64], out: &mut [u8], w: World, o: Order, d: Deed) -> World
    requires { (length formed.old ≡ 1001) × (w.formed ≤ 1001) × (w.views ≤ 1000) × (w.put + 24 ≤ length out.old) }
    ensures { Noted w o d formed.old out.old formed.new out.new result }
{
    if 0 < w.starting {
        return one_started(w);
    }
    let mut printer = Printer { out, end: w.put };
    put_reply(&mut printer, d.reply);
    let put = printer.end;
    let n = note(formed, w.formed, d.formed);
    kept_by(o.what, onward(w, o.next, put, n))
}

// The end of the input: a line that was begun, and then the formed sessions.
pub fn close(formed: &[u64], out: &mut [u8], w: World) -> usize
    requires { (w.formed ≤ length formed.now) × (4 + 33 * w.formed ≤ length out.old) }
    ensures { (result ≤ 4 + 33 * w.formed) × (take result out.new ≡ last_text w.stop w.end ++ closing (take w.formed formed.now)) }
{
    let mut printer = Printer { out, end: 0 };
    put_last(&mut printer, w.stop, w.end);
    put_sessions(&mut printer, &formed[..w.formed]);
    printer.end
}
