// Read a line, for C and Rust to link. Kind and rule are numbers, since C reads them.
ghost use Rattle.std.specs.Prelude.{◌≡◌};
ghost use Rattle.lines.specs.Reading.{read_of};
ghost use Rattle.ffi.specs.LineRead.{as_numbers, line_read};

use lines::Frame;
use state::{Rule, State, no_state};

#[repr(C)]
#[derive(Clone, Copy)]
pub struct LineRead {
    pub kind: u8,
    pub rule: u8,
    pub sender: u8,
    pub view: u32,
    pub left: usize,
    pub state: State,
}

#[tactic(auto, unfolding(lines::specs::Reading::breaks))]
fn as_numbers(read: Result<Frame, Rule>, left: usize) -> LineRead
    ensures { result ≡ as_numbers (read_of read).line (read_of read).state left }
{
    match read {
        Ok(
            Frame::State {
                view,
                sender,
                state,
            },
        ) => LineRead {
            kind: 1,
            rule: 0,
            sender,
            view,
            left,
            state,
        },
        Ok(Frame::Attempt { view, sender }) => LineRead {
            kind: 2,
            rule: 0,
            sender,
            view,
            left,
            state: no_state(),
        },
        Err(rule) => LineRead {
            kind: 0,
            rule: u8::from(rule),
            sender: 0,
            view: 0,
            left,
            state: no_state(),
        },
    }
}

// Judges the first line of the lent bytes.
#[tactic(auto, unfolding(crate::specs::LineRead::line_read))]
#[unsafe(no_mangle)]
pub extern "C" fn head_read_line(bytes: &[u8]) -> LineRead
    ensures { result ≡ line_read bytes.now }
{
    as_numbers(reader::read_line(bytes), hexadecimal::rest(bytes).len())
}
