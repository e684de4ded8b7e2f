// The exports of `ffi` as a static library: each hands its arguments to the function of its name there. The C interface has twelve names, and a crate is a library or a static one.
#![tactic(auto)]

ghost use Rattle.std.specs.Prelude.{◌≡◌, cond};
ghost use Rattle.group.specs.Quorum.{quorum_test};
ghost use Rattle.record.specs.Start.{start_spec};
ghost use Rattle.record.specs.Whole.{whole};
ghost use Rattle.recovery.specs.Recover.{recover_spec};
ghost use Rattle.codes.specs.Codes.{code as code_of, verdict_code};
ghost use Rattle.head.specs.Calls.{enter_spec, hear_state_spec, hear_attempt_spec, decide_spec, form_spec, write_state_spec, write_attempt_spec};
ghost use Rattle.ffi.specs.Ends.{coded, coded_of, lined, lined_of};
ghost use Rattle.ffi.specs.LineRead.{line_read};

use ffi::calls::{HeadEnd, HeadLine};
use ffi::reading::LineRead;
use head::session::Session;

#[unsafe(no_mangle)]
pub extern "C" fn head_quorum(core: u16, least: u8, s: u16, t: u16) -> u8
    ensures { result ≡ verdict_code (quorum_test core least s t) }
{
    ffi::head_quorum(core, least, s, t)
}

#[unsafe(no_mangle)]
pub extern "C" fn head_start(words: &mut [u64], head: u8, core: u16, least: u8) -> u8
    ensures { (result ≡ code_of (start_spec words.old head core least).answer) × (words.new ≡ (start_spec words.old head core least).rec) }
{
    ffi::head_start(words, head, core, least)
}

#[unsafe(no_mangle)]
pub extern "C" fn head_recover(words: &mut [u64], stores: u64) -> u8
    ensures { (result ≡ code_of (recover_spec words.old stores).answer) × (words.new ≡ (recover_spec words.old stores).rec) }
{
    ffi::head_recover(words, stores)
}

#[unsafe(no_mangle)]
pub extern "C" fn head_whole(words: &[u64]) -> u8
    ensures { result ≡ cond (whole words.now) 1 0 }
{
    ffi::head_whole(words)
}

#[unsafe(no_mangle)]
pub extern "C" fn head_enter(
    words: &mut [u64],
    session: Session,
    view: u32,
    heads: u16,
    stores: u64,
) -> HeadEnd
    ensures { coded words.new result ≡ coded_of (enter_spec session words.old view heads stores) }
{
    ffi::calls::head_enter(words, session, view, heads, stores)
}

#[unsafe(no_mangle)]
pub extern "C" fn head_hear_state(words: &[u64], session: Session, line: &[u8]) -> HeadEnd
    ensures { coded words.now result ≡ coded_of (hear_state_spec session words.now line.now) }
{
    ffi::calls::head_hear_state(words, session, line)
}

#[unsafe(no_mangle)]
pub extern "C" fn head_hear_attempt(words: &[u64], session: Session, line: &[u8]) -> HeadEnd
    ensures { coded words.now result ≡ coded_of (hear_attempt_spec session words.now line.now) }
{
    ffi::calls::head_hear_attempt(words, session, line)
}

#[unsafe(no_mangle)]
pub extern "C" fn head_decide(words: &mut [u64], session: Session, stores: u64) -> HeadEnd
    ensures { coded words.new result ≡ coded_of (decide_spec session words.old stores) }
{
    ffi::calls::head_decide(words, session, stores)
}

#[unsafe(no_mangle)]
pub extern "C" fn head_form(words: &mut [u64], session: Session, stores: u64) -> HeadEnd
    ensures { coded words.new result ≡ coded_of (form_spec session words.old stores) }
{
    ffi::calls::head_form(words, session, stores)
}

#[unsafe(no_mangle)]
pub extern "C" fn head_write_state(words: &[u64], session: Session, out: &mut [u8]) -> HeadLine
    ensures { lined out.new result ≡ lined_of (write_state_spec session words.now out.old) }
{
    ffi::calls::head_write_state(words, session, out)
}

#[unsafe(no_mangle)]
pub extern "C" fn head_write_attempt(words: &[u64], session: Session, out: &mut [u8]) -> HeadLine
    ensures { lined out.new result ≡ lined_of (write_attempt_spec session words.now out.old) }
{
    ffi::calls::head_write_attempt(words, session, out)
}

#[unsafe(no_mangle)]
pub extern "C" fn head_read_line(bytes: &[u8]) -> LineRead
    ensures { result ≡ line_read bytes.now }
{
    ffi::reading::head_read_line(bytes)
}
