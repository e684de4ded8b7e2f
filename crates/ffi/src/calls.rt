// The calls of a head, for C and Rust to link. A session from outside may hold anything: it is taken or refused with 2.
ghost use Rattle.std.specs.Prelude.{◌≡◌};
ghost use Rattle.codes.specs.Codes.{code as code_of, length_of};
ghost use Rattle.group.specs.Answers.{said};
ghost use Rattle.head.specs.Calls.{enter_spec, hear_state_spec, hear_attempt_spec, decide_spec, form_spec, write_state_spec, write_attempt_spec};
ghost use Rattle.ffi.specs.Ends.{coded, coded_of, lined, lined_of};

use codes::{code, length_of};
use group::{Answer, Refusal};
use head::session::{Next, Session};

// The session comes first: unused bytes before it would cost a copy of it.
#[repr(C)]
#[derive(Clone, Copy)]
pub struct HeadEnd {
    pub session: Session,
    pub code: u8,
}

#[repr(C)]
#[derive(Clone, Copy)]
pub struct HeadLine {
    pub session: Session,
    pub length: usize,
    pub code: u8,
}

impl From<Next> for HeadEnd {
    ghost from_gives = { λ next end. (end.code ≡ code_of (said next.answer)) × (end.session ≡ next.session) };

    fn from(next: Next) -> HeadEnd {
        HeadEnd {
            session: next.session,
            code: code(next.answer),
        }
    }
}

// What a call that writes hands back: the session that it was given, which is taken from there. From what the call hands back, it would be copied once more.
fn written(answer: Result<Answer, Refusal>, session: Session) -> HeadLine
    ensures { (result.code ≡ code_of (said answer)) × (result.length ≡ length_of (said answer)) × (result.session ≡ session) }
{
    HeadLine {
        session,
        length: length_of(answer),
        code: code(answer),
    }
}

#[unsafe(no_mangle)]
pub extern "C" fn head_enter(
    words: &mut [u64],
    session: Session,
    view: u32,
    heads: u16,
    stores: u64,
) -> HeadEnd
    ensures { coded words.new result ≡ coded_of (enter_spec session words.old view heads stores) }
{
    HeadEnd::from(session.enter(words, view, heads, stores))
}

#[unsafe(no_mangle)]
pub extern "C" fn head_hear_state(words: &[u64], session: Session, line: &[u8]) -> HeadEnd
    ensures { coded words.now result ≡ coded_of (hear_state_spec session words.now line.now) }
{
    HeadEnd::from(session.hear_state(words, line))
}

#[unsafe(no_mangle)]
pub extern "C" fn head_hear_attempt(words: &[u64], session: Session, line: &[u8]) -> HeadEnd
    ensures { coded words.now result ≡ coded_of (hear_attempt_spec session words.now line.now) }
{
    HeadEnd::from(session.hear_attempt(words, line))
}

#[unsafe(no_mangle)]
pub extern "C" fn head_decide(words: &mut [u64], session: Session, stores: u64) -> HeadEnd
    ensures { coded words.new result ≡ coded_of (decide_spec session words.old stores) }
{
    HeadEnd::from(session.decide(words, stores))
}

#[unsafe(no_mangle)]
pub extern "C" fn head_form(words: &mut [u64], session: Session, stores: u64) -> HeadEnd
    ensures { coded words.new result ≡ coded_of (form_spec session words.old stores) }
{
    HeadEnd::from(session.form(words, stores))
}

#[unsafe(no_mangle)]
pub extern "C" fn head_write_state(words: &[u64], session: Session, out: &mut [u8]) -> HeadLine
    ensures { lined out.new result ≡ lined_of (write_state_spec session words.now out.old) }
{
    written(session.write_state(words, out).answer, session)
}

#[unsafe(no_mangle)]
pub extern "C" fn head_write_attempt(words: &[u64], session: Session, out: &mut [u8]) -> HeadLine
    ensures { lined out.new result ≡ lined_of (write_attempt_spec session words.now out.old) }
{
    written(session.write_attempt(words, out).answer, session)
}
