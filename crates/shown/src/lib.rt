// What is printed for a line that was judged.
#![tactic(auto)]

ghost use Rattle.std.specs.Prelude.{◌∷◌, []};
ghost use Rattle.lines.specs.Hex.{hex_of};
ghost use Rattle.lines.specs.Reading.{read_of};
ghost use Rattle.text.specs.Printer.{Room, Puts};
ghost use Rattle.shown.specs.Shown.{field, heads_text, number_text, session_text, head_text, values_text, attempt_text, state_text, refused_text, shown, room};

use hexadecimal::digit_of;
use lines::Frame;
use state::{Rule, State};
use text::Printer;

// A space and a number.
#[tactic(auto, unfolding(crate::specs::Shown::field))]
pub fn put_field(printer: &mut Printer, n: u64)
    requires { Room 21 printer.old }
    ensures { Puts 21 (field n) printer.old printer.new }
{
    printer.put(b' ');
    printer.put_decimal(n);
}

// A byte in two digits.
#[tactic(auto, unfolding(lines::specs::Hex::hex_of))]
fn put_byte(printer: &mut Printer, b: u8)
    requires { Room 2 printer.old }
    ensures { Puts 2 (hex_of (b ∷ [])) printer.old printer.new }
{
    printer.put(digit_of(b / 16));
    printer.put(digit_of(b % 16));
}

// A space and the heads of a session, in four digits.
pub fn put_heads(printer: &mut Printer, w: u64)
    requires { Room 5 printer.old }
    ensures { Puts 5 (heads_text w) printer.old printer.new }
{
    printer.put(b' ');
    put_byte(printer, (w / 256 % 256) as u8);
    put_byte(printer, (w % 256) as u8);
}

// A space and the number of a session, -1 for none.
#[tactic(auto, unfolding(crate::specs::Shown::number_text))]
fn put_number(printer: &mut Printer, w: u64)
    requires { Room 21 printer.old }
    ensures { Puts 21 (number_text w) printer.old printer.new }
{
    if w == 0 {
        printer.put_text(b" -1");
    } else {
        put_field(printer, w / 65536);
    }
}

// Kind, view and sender.
#[tactic(auto, unfolding(crate::specs::Shown::head_text))]
fn put_head(printer: &mut Printer, kind: u8, view: u64, sender: u64)
    requires { Room 43 printer.old }
    ensures { Puts 43 (head_text kind view sender) printer.old printer.new }
{
    printer.put(kind);
    put_field(printer, view);
    put_field(printer, sender);
}

// The last primary's heads and number.
#[tactic(auto, unfolding(crate::specs::Shown::session_text))]
fn put_session(printer: &mut Printer, w: u64)
    requires { Room 26 printer.old }
    ensures { Puts 26 (session_text w) printer.old printer.new }
{
    put_heads(printer, w);
    put_number(printer, w);
}

// Session number, last primary, and how many places.
#[tactic(auto, unfolding(crate::specs::Shown::values_text))]
fn put_values(printer: &mut Printer, number: u64, primary: u64, count: u64)
    requires { Room 68 printer.old }
    ensures { Puts 68 (values_text number primary count) printer.old printer.new }
{
    put_field(printer, number);
    put_session(printer, primary);
    put_field(printer, count);
}

#[tactic(auto, unfolding(crate::specs::Shown::attempt_text))]
fn print_attempt(printer: &mut Printer, view: u64, sender: u64)
    requires { Room 44 printer.old }
    ensures { Puts 44 (attempt_text view sender) printer.old printer.new }
{
    put_head(printer, b'A', view, sender);
    printer.put(b'\n');
}

#[tactic(auto, unfolding(crate::specs::Shown::state_text))]
fn print_state(printer: &mut Printer, view: u64, sender: u64, st: &State)
    requires { Room 112 printer.old }
    ensures { Puts 112 (state_text view sender st.now.number st.now.primary st.now.count) printer.old printer.new }
{
    put_head(printer, b'S', view, sender);
    put_values(printer, st.number as u64, st.primary, st.count as u64);
    printer.put(b'\n');
}

// What is printed for a line that breaks a rule.
#[tactic(auto, unfolding(crate::specs::Shown::refused_text))]
pub fn print_refused(printer: &mut Printer)
    requires { Room 4 printer.old }
    ensures { Puts 4 refused_text printer.old printer.new }
{
    printer.put_text(b"R 3\n");
}

// Prints the answer to a line.
#[tactic(auto, unfolding(lines::specs::Reading::breaks))]
pub fn print(printer: &mut Printer, read: &Result<Frame, Rule>)
    requires { Room (room (read_of read.now).line) printer.old }
    ensures { Puts (room (read_of read.now).line) (shown (read_of read.now)) printer.old printer.new }
{
    match read {
        Ok(
            Frame::State {
                view,
                sender,
                state,
            },
        ) => print_state(printer, u64::from(*view), u64::from(*sender), state),
        Ok(Frame::Attempt { view, sender }) => {
            print_attempt(printer, u64::from(*view), u64::from(*sender));
        }
        Err(_) => print_refused(printer),
    }
}
