// Where the bench stands, and what the next event line asks of a head: the bench's own refusals come first.
#![tactic(auto)]

ghost use Rattle.std.specs.Prelude.{◌≡◌, ◌≤◌, ◌<◌, length, take};
ghost use Rattle.lines.specs.Walk.{first_of};
ghost use Rattle.views.specs.Views.{listed};
ghost use Rattle.asking.specs.Asking.{to_of, from_of, in_group, group_what, what_of, event_in, start_order, order_for, order_of};

use deeds::What;
use events::{Event, read_event};
use group::Group;
use hexadecimal::line_end;
use views::{enter_what, list_view, view_what};

// Where the bench stands. The lent lists have more room than is used, since memory is fixed: views and formed are the counts. at is where the next line begins, stop the end of the last
// whole line of the part that was read, put the end of what is printed of that part. starting is how many heads the group line has yet to start.
#[derive(Clone, Copy)]
pub struct World {
    pub at: usize,
    pub stop: usize,
    pub put: usize,
    pub views: usize,
    pub formed: usize,
    pub starting: usize,
    // Whether a group line was taken, and the core group and the minimum that it gave.
    pub grouped: bool,
    pub core: u16,
    pub least: u8,
    // How many bytes were read, and how many reads are left.
    pub end: usize,
    pub turns: u64,
}

// What one step has the table do: head `to` acts, hearing head `from`; the next line begins at next.
#[derive(Clone, Copy)]
pub struct Order {
    pub to: usize,
    pub from: usize,
    pub next: usize,
    pub what: What,
}

// Before its group line the bench does nothing.
fn in_group(grouped: bool, what: What) -> What
    ensures { result ≡ in_group grouped what }
{
    if grouped {
        what
    } else {
        What::Refuse { number: 14 }
    }
}

fn group_what(grouped: bool, core: u16, least: u8) -> What
    ensures { result ≡ group_what grouped core least }
{
    if grouped {
        What::Refuse { number: 14 }
    } else {
        What::Open { core, least }
    }
}

fn what_of(e: Option<Event>, grouped: bool, views: &[u64]) -> What
    ensures { result ≡ what_of e grouped views.now }
{
    match e {
        None => What::Refuse { number: 3 },
        Some(Event::GroupIs { core, least }) => group_what(grouped, core, least),
        Some(Event::ViewIs { number, heads }) => view_what(grouped, views, number, heads),
        Some(Event::Enter { number, .. }) => enter_what(grouped, views, number),
        Some(Event::GiveState(d)) => in_group(grouped, What::HearState { which: d.which }),
        Some(Event::Decide { .. }) => in_group(grouped, What::Decide),
        Some(Event::GiveAttempt(d)) => in_group(grouped, What::HearAttempt { which: d.which }),
        Some(Event::Form { .. }) => in_group(grouped, What::Form),
        Some(Event::Cut { stores, .. }) => in_group(grouped, What::Arm { stores }),
        Some(Event::Recover { .. }) => in_group(grouped, What::Recover),
    }
}

// Which head an event is for, and which head's line it delivers; of the others it is the head itself.
fn heads_of(e: Option<Event>) -> (usize, usize)
    ensures { result ≡ (to_of e, from_of e) }
{
    match e {
        Some(Event::GiveState(d) | Event::GiveAttempt(d)) => (d.to as usize, d.from as usize),
        Some(
            Event::Enter { head, .. }
            | Event::Decide { head }
            | Event::Form { head }
            | Event::Cut { head, .. }
            | Event::Recover { head },
        ) => (head as usize, head as usize),
        None | Some(Event::GroupIs { .. } | Event::ViewIs { .. }) => (0, 0),
    }
}

// A head that the group line has yet to start.
fn start_order(w: World) -> Order
    requires { (0 < w.starting) × (w.starting ≤ 16) }
    ensures { result ≡ start_order w }
{
    let p = Group::HEADS - w.starting;
    Order {
        to: p,
        from: p,
        next: w.at,
        what: What::Start {
            core: w.core,
            least: w.least,
        },
    }
}

// The event of the first line, if the line ends.
fn event_in(s: &[u8]) -> Option<Event>
    ensures { result ≡ event_in (first_of s.now) }
{
    let e = line_end(s);
    if e < s.len() {
        read_event(&s[..e])
    } else {
        None
    }
}

// What an event has the table do.
fn order_for(e: Option<Event>, grouped: bool, views: &[u64], next: usize) -> Order
    ensures { result ≡ order_for e grouped views.now next }
{
    let (to, from) = heads_of(e);
    let what = what_of(e, grouped, views);
    Order {
        to,
        from,
        next,
        what,
    }
}

// What this step has the table do: a head that the group line has yet to start, or what the next line asks.
pub fn asked(views: &mut [u64], s: &[u8], w: World) -> Order
    requires { (w.views ≤ length views.old) × (w.starting ≤ 16) × (w.at < w.stop) × (w.stop ≤ length s.now) }
    ensures { (result ≡ order_of (take w.views views.old) s.now w) × (views.new ≡ listed w.views result.what views.old) }
{
    if 0 < w.starting {
        return start_order(w);
    }
    let rest = &s[w.at..w.stop];
    let next = w.at + line_end(rest) + 1;
    let order = order_for(event_in(rest), w.grouped, &views[..w.views], next);
    list_view(views, w.views, order.what);
    order
}
