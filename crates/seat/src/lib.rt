// A head of the bench: its record, its session, the lines it sent last and a cut that waits; and what it does on an event, by value.
#![tactic(auto)]

ghost use Rattle.std.specs.Prelude.{◌≡◌, ◌<◌};
ghost use Rattle.group.specs.Answers.{said};
ghost use Rattle.head.specs.Calls.{ended, wrote};
ghost use Rattle.seat.specs.Seat.{empty_seat, write_spec, line_sent, sent_after};
ghost use Rattle.seat.specs.Played.{did, after_call, listened, does_nothing, starts, enters, hear_spec, hears, decides, forms, recovers, arms, played_by};
ghost use Rattle.deeds.specs.Told.{told};

use deeds::{Deed, Reply, What};
use formed::newly;
use group::{Answer, Group, Refusal};
use head::session::Session;
use keeping::{Kept, ROOM, chars_of, is_line, kept_at, no_line, push, stores_of};
use mending::recover;
use record::layout::{Record, primary};
use start::start;

// "The sixteen heads stand in one lent table, each with its record, its session and its last four sent lines." A cut that waits has its number of stores.
#[derive(Clone, Copy)]
pub struct Seat {
    pub words: Record,
    pub session: Session,
    pub sent: [Kept; 4],
    pub cut: Option<u64>,
}

#[derive(Clone, Copy)]
pub struct Next {
    pub seat: Seat,
    pub deed: Deed,
}

// The two kinds of line that heads send.
#[derive(Clone, Copy)]
pub enum Line {
    State,
    Attempt,
}

// A head before its group line.
pub fn empty_seat() -> Seat
    ensures { result ≡ empty_seat }
{
    Seat {
        words: [0; Group::WORDS],
        session: Session::none(),
        sent: [no_line(); 4],
        cut: None,
    }
}

fn wrote(kind: Line, s: Session, words: &Record, out: &mut [u8]) -> head::session::Next
    ensures { wrote out.new result ≡ write_spec kind s words.now out.old }
{
    match kind {
        Line::State => s.write_state(words, out),
        Line::Attempt => s.write_attempt(words, out),
    }
}

// The line of this kind that the session writes.
fn line_sent(kind: Line, s: Session, words: &Record) -> Kept
    ensures { result ≡ line_sent kind s words.now }
{
    let mut bytes = [0u8; ROOM];
    let next = wrote(kind, s, words, &mut bytes);
    Kept {
        len: chars_of(next.answer),
        bytes,
    }
}

// Entering sends the state line, attempting sends the attempt line.
fn sent_after(
    kind: Line,
    answer: Result<Answer, Refusal>,
    s: Session,
    words: &Record,
    sent: [Kept; 4],
) -> [Kept; 4]
    ensures { result ≡ sent_after kind (said answer) s words.now sent }
{
    match (kind, answer) {
        (Line::State, Ok(Answer::Entered)) | (Line::Attempt, Ok(Answer::Attempted)) => {
            push(line_sent(kind, s, words), sent)
        }
        _ => sent,
    }
}

// The head after a call of the four that store, and its answer: a cut that waited is used up.
fn after_call(
    words: Record,
    session: Session,
    sent: [Kept; 4],
    answer: Result<Answer, Refusal>,
    formed: u64,
) -> Next
    ensures { did result ≡ after_call words session sent (said answer) formed }
{
    Next {
        seat: Seat {
            words,
            session,
            sent,
            cut: None,
        },
        deed: Deed {
            reply: Reply::Head(answer),
            formed,
        },
    }
}

fn does_nothing(h: Seat, reply: Reply, formed: u64) -> Next
    ensures { did result ≡ does_nothing h (told reply) formed }
{
    Next {
        seat: h,
        deed: Deed { reply, formed },
    }
}

// The group line starts head p.
pub fn starts(h: Seat, p: usize, core: u16, least: u8) -> Next
    requires { p < 16 }
    ensures { did result ≡ starts h p core least }
{
    let mut words = h.words;
    let answer = start(&mut words, p as u8, core, least);
    let session = Session::none();
    Next {
        seat: Seat {
            words,
            session,
            ..h
        },
        deed: Deed {
            reply: Reply::Head(answer),
            formed: 0,
        },
    }
}

fn enters(h: Seat, view: u32, heads: u16) -> Next
    ensures { did result ≡ enters h view heads }
{
    let mut words = h.words;
    let next = h.session.enter(&mut words, view, heads, stores_of(h.cut));
    let sent = sent_after(Line::State, next.answer, next.session, &words, h.sent);
    after_call(words, next.session, sent, next.answer, 0)
}

fn decides(h: Seat) -> Next
    ensures { did result ≡ decides h }
{
    let mut words = h.words;
    let next = h.session.decide(&mut words, stores_of(h.cut));
    let sent = sent_after(Line::Attempt, next.answer, next.session, &words, h.sent);
    after_call(words, next.session, sent, next.answer, 0)
}

fn forms(h: Seat) -> Next
    ensures { did result ≡ forms h }
{
    let mut words = h.words;
    let next = h.session.form(&mut words, stores_of(h.cut));
    let formed = newly(primary(&h.words), primary(&words));
    after_call(words, next.session, h.sent, next.answer, formed)
}

fn recovers(h: Seat) -> Next
    ensures { did result ≡ recovers h }
{
    let mut words = h.words;
    let answer = recover(&mut words, stores_of(h.cut));
    after_call(words, Session::none(), h.sent, answer, 0)
}

fn arms(h: Seat, stores: u16) -> Next
    ensures { did result ≡ arms h stores }
{
    does_nothing(
        Seat {
            cut: Some(u64::from(stores)),
            ..h
        },
        Reply::Armed,
        0,
    )
}

// The head after a hearing call, and its answer.
fn listened(h: Seat, session: Session, answer: Result<Answer, Refusal>) -> Next
    ensures { did result ≡ listened h session (said answer) }
{
    does_nothing(Seat { session, ..h }, Reply::Head(answer), 0)
}

fn heard(kind: Line, s: Session, words: &Record, line: &[u8]) -> head::session::Next
    ensures { ended words.now result ≡ hear_spec kind s words.now line.now }
{
    match kind {
        Line::State => s.hear_state(words, line),
        Line::Attempt => s.hear_attempt(words, line),
    }
}

fn hears(kind: Line, h: Seat, g: Seat, which: u8) -> Next
    ensures { did result ≡ hears kind h g which }
{
    let kept = kept_at(&g.sent, which);
    if !is_line(kept.len) {
        return does_nothing(h, Reply::Refused(14), 0);
    }
    let line = &kept.bytes[..kept.len];
    let next = heard(kind, h.session, &h.words, line);
    listened(h, next.session, next.answer)
}

// What head h, of number p, does on an event in which it hears head g.
pub fn played(p: usize, h: Seat, g: Seat, what: What) -> Next
    requires { p < 16 }
    ensures { did result ≡ played_by p h g what }
{
    match what {
        What::Refuse { number } => does_nothing(h, Reply::Refused(number), 0),
        What::Announce { .. } => does_nothing(h, Reply::Announced, 0),
        What::Open { core, .. } => does_nothing(
            h,
            Reply::Head(Ok(Answer::Started)),
            u64::from(core),
        ),
        What::Start { core, least } => starts(h, p, core, least),
        What::Enter { view, heads } => enters(h, view, heads),
        What::HearState { which } => hears(Line::State, h, g, which),
        What::HearAttempt { which } => hears(Line::Attempt, h, g, which),
        What::Decide => decides(h),
        What::Form => forms(h),
        What::Recover => recovers(h),
        What::Arm { stores } => arms(h, stores),
    }
}
