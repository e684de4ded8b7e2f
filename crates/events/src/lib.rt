// An event line of the bench, as an event.
#![tactic(auto)]

ghost use Rattle.std.specs.Prelude.{◌≡◌, ◌+◌, ◌*◌, ◌<◌, length, drop};
ghost use Rattle.lines.specs.Hex.{unhex};
ghost use Rattle.lines.specs.Frame.{two, four};
ghost use Rattle.events.specs.Events.{head_at, starts, group_event, view_event, enter_event, delivery, one_head, cut_event, event_of};

use group::Group;
use hexadecimal::{byte_at, digits};
use start::start;

// A line that head `from` sent is given to head `to`: which of those that it keeps, 0 the newest.
#[derive(Clone, Copy)]
pub struct Delivery {
    pub to: u8,
    pub from: u8,
    pub which: u8,
}

#[derive(Clone, Copy)]
pub enum Event {
    GroupIs { core: u16, least: u8 },
    ViewIs { number: u32, heads: u16 },
    Enter { head: u8, number: u32 },
    GiveState(Delivery),
    Decide { head: u8 },
    GiveAttempt(Delivery),
    Form { head: u8 },
    Cut { head: u8, stores: u16 },
    Recover { head: u8 },
}

// Two bytes of the line, high byte first.
fn two_at(l: &[u8], at: usize) -> u16
    requires { at * 2 + 3 < length l.now }
    ensures { result ≡ two (drop at (unhex l.now)) }
{
    u16::from_be_bytes([byte_at(l, at), byte_at(l, at + 1)])
}

fn four_at(l: &[u8], at: usize) -> u32
    requires { at * 2 + 7 < length l.now }
    ensures { result ≡ four (drop at (unhex l.now)) }
{
    u32::from_be_bytes([
        byte_at(l, at),
        byte_at(l, at + 1),
        byte_at(l, at + 2),
        byte_at(l, at + 3),
    ])
}

// The head that a byte of the line names; none is over 15.
fn head_at(l: &[u8], at: usize) -> Option<u8>
    requires { at * 2 + 1 < length l.now }
    ensures { result ≡ head_at at (unhex l.now) }
{
    let head = byte_at(l, at);
    if Group::LAST < head {
        return None;
    }
    Some(head)
}

// Whether start takes this group, tried on a record of its own.
fn does_start(core: u16, least: u8) -> bool
    ensures { result ≡ starts core least }
{
    let mut trial = [0u64; Group::WORDS];
    start(&mut trial, 0, core, least).is_ok()
}

fn read_group(l: &[u8]) -> Option<Event>
    ensures { result ≡ group_event (length l.now) (unhex l.now) }
{
    if l.len() != 8 {
        return None;
    }
    let core = two_at(l, 1);
    let least = byte_at(l, 3);
    if !does_start(core, least) {
        return None;
    }
    Some(Event::GroupIs { core, least })
}

fn read_view(l: &[u8]) -> Option<Event>
    ensures { result ≡ view_event (length l.now) (unhex l.now) }
{
    if l.len() != 14 {
        return None;
    }
    let number = four_at(l, 1);
    let heads = two_at(l, 5);
    Some(Event::ViewIs { number, heads })
}

// Enter and cut have their head in common, which `head_at` reads; the rest differs in size and in what it makes.
fn read_enter(l: &[u8]) -> Option<Event>
    ensures { result ≡ enter_event (length l.now) (unhex l.now) }
{
    if l.len() != 12 {
        return None;
    }
    let head = head_at(l, 1)?;
    let number = four_at(l, 2);
    Some(Event::Enter { head, number })
}

// What a line that delivers a state or an attempt says.
fn read_delivery(l: &[u8]) -> Option<Delivery>
    ensures { result ≡ delivery (length l.now) (unhex l.now) }
{
    if l.len() != 8 {
        return None;
    }
    let to = head_at(l, 1)?;
    let from = head_at(l, 2)?;
    let which = byte_at(l, 3);
    Some(Delivery { to, from, which })
}

// The head of a line that says no more.
fn one_head(l: &[u8]) -> Option<u8>
    ensures { result ≡ one_head (length l.now) (unhex l.now) }
{
    if l.len() != 4 {
        return None;
    }
    head_at(l, 1)
}

fn read_cut(l: &[u8]) -> Option<Event>
    ensures { result ≡ cut_event (length l.now) (unhex l.now) }
{
    if l.len() != 8 {
        return None;
    }
    let head = head_at(l, 1)?;
    let stores = two_at(l, 2);
    Some(Event::Cut { head, stores })
}

// The event of a line, given without its newline; none where the line is not of the form, or names a head over 15.
pub fn read_event(l: &[u8]) -> Option<Event>
    ensures { result ≡ event_of l.now }
{
    if l.len() < 4 {
        return None;
    }
    if !digits(l) {
        return None;
    }
    let kind = byte_at(l, 0);
    match kind {
        0x10 => read_group(l),
        0x11 => read_view(l),
        0x12 => read_enter(l),
        0x13 => read_delivery(l).map(|d| Event::GiveState(d)),
        0x14 => one_head(l).map(|head| Event::Decide { head }),
        0x15 => read_delivery(l).map(|d| Event::GiveAttempt(d)),
        0x16 => one_head(l).map(|head| Event::Form { head }),
        0x17 => read_cut(l),
        0x18 => one_head(l).map(|head| Event::Recover { head }),
        _ => None,
    }
}
