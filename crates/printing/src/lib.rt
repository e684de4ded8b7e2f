// What the bench prints: for each event its answer, and at the end the formed sessions.
#![tactic(auto)]

ghost use Rattle.std.specs.Prelude.{◌≡◌, ◌*◌, ◌≤◌, length, Ok};
ghost use Rattle.group.specs.Answers.{said};
ghost use Rattle.text.specs.Printer.{Room, Puts};
ghost use Rattle.deeds.specs.Told.{told};
ghost use Rattle.printing.specs.Texts.{refused_text, said_text, told_text, session_line, closing, last_text};

use deeds::Reply;
use group::words::number_of;
use group::{Answer, Refusal};
use shown::{put_field, put_heads};
use text::Printer;

// `R n`
#[tactic(auto, unfolding(crate::specs::Texts::refused_text))]
fn put_refused(printer: &mut Printer, n: u8)
    requires { Room 24 printer.old }
    ensures { Puts 24 (refused_text n) printer.old printer.new }
{
    printer.put(b'R');
    put_field(printer, u64::from(n));
    printer.put(b'\n');
}

// The word of an answer, with its newline.
fn word(answer: Answer) -> &'static [u8]
    ensures text { result.now ≡ said_text (said (Ok answer)) }
    ensures bound { length result.now ≤ 24 }
{
    match answer {
        Answer::Started => b"started\n",
        Answer::Recovered => b"recovered\n",
        Answer::Entered => b"entered\n",
        Answer::Heard => b"heard\n",
        Answer::Attempted => b"attempted\n",
        Answer::NoQuorum => b"no quorum\n",
        Answer::NumbersRunOut => b"numbers run out\n",
        Answer::NoPlace => b"no place\n",
        Answer::Formed => b"formed\n",
        Answer::Written(_) => b"written\n",
        Answer::Cut => b"cut\n",
    }
}

fn put_answer(printer: &mut Printer, answer: Result<Answer, Refusal>)
    requires { Room 24 printer.old }
    ensures { Puts 24 (said_text (said answer)) printer.old printer.new }
{
    match answer {
        Ok(answer) => printer.put_text(word(answer)),
        Err(refusal) => put_refused(printer, u8::from(refusal)),
    }
}

pub fn put_reply(printer: &mut Printer, reply: Reply)
    requires { Room 24 printer.old }
    ensures { Puts 24 (told_text (told reply)) printer.old printer.new }
{
    match reply {
        Reply::Refused(n) => put_refused(printer, n),
        Reply::Announced => printer.put_text(b"announced\n"),
        Reply::Armed => printer.put_text(b"armed\n"),
        Reply::Head(answer) => put_answer(printer, answer),
    }
}

// `F HHHH number SSSS`
#[tactic(auto, unfolding(crate::specs::Texts::session_line, group::specs::Heads::common))]
fn put_session(printer: &mut Printer, before: u64, w: u64)
    requires { Room 33 printer.old }
    ensures { Puts 33 (session_line before w) printer.old printer.new }
{
    printer.put(b'F');
    put_heads(printer, w);
    put_field(printer, number_of(w));
    put_heads(printer, (w % 65536) & (before % 65536));
    printer.put(b'\n');
}

// A line for each formed session.
pub fn put_sessions(printer: &mut Printer, formed: &[u64])
    requires { Room (33 * length formed.now) printer.old }
    ensures { Puts (33 * length formed.now) (closing formed.now) printer.old printer.new }
{
    let mut before = 0;
    for w in formed {
        put_session(printer, before, *w);
        before = *w;
    }
}

// Bytes of a line that was begun are no event.
#[tactic(auto, using(crate::proofs::Laws::refused_three), unfolding(crate::specs::Texts::last_text))]
pub fn put_last(printer: &mut Printer, stop: usize, end: usize)
    requires { Room 4 printer.old }
    ensures { Puts 4 (last_text stop end) printer.old printer.new }
{
    if stop < end {
        printer.put_text(b"R 3\n");
    }
}
