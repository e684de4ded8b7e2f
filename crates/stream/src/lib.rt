// What `frames` prints for lines that come in parts of any size.
#![tactic(auto)]

ghost use Rattle.std.specs.Prelude.{◌≡◌, [], ◌+◌, ◌*◌, ◌-◌, ◌≤◌, length, take, drop};
ghost use Rattle.lines.specs.Reading.{judged};
ghost use Rattle.lines.specs.Walk.{whole_lines, begun, last_line};
ghost use Rattle.text.specs.Printer.{Room, Puts};
ghost use Rattle.shown.specs.Shown.{shown, printed, room};
ghost use Rattle.stream.specs.Parts.{Counts};

use reader::{judge, split_line};
use shown::{print, print_refused};
use text::Printer;

// What a part of the input came to: bytes printed, and bytes held of the line that it begins.
#[derive(Clone, Copy)]
pub struct Fed {
    pub put: usize,
    pub held: usize,
}

// Prints the answer to a line, given without its newline. This is the one call of the reader, so the compiler need not copy a line's values to print them.
fn print_line(printer: &mut Printer, l: &[u8])
    requires { Room (room (judged l.now).line) printer.old }
    ensures { Puts (room (judged l.now).line) (shown (judged l.now)) printer.old printer.new }
{
    print(printer, &judge(l));
}

// Prints a line for each whole line of s; held are the bytes of s after the last of them.
fn print_lines(s: &[u8], out: &mut [u8]) -> Fed
    requires { 4 * length s.now ≤ length out.old }
    ensures put_bound { (result.put ≤ 4 * length s.now) × (result.held ≤ length s.now) }
    ensures out_after { take result.put out.new ≡ printed (whole_lines [] s.now) }
    ensures s_value { drop (length s.now - result.held) s.now ≡ begun [] s.now }
{
    let mut printer = Printer { out, end: 0 };
    let mut rest = s;
    while let Some((line, after)) = split_line(rest) {
        print_line(&mut printer, line);
        rest = after;
    }
    Fed {
        put: printer.end,
        held: rest.len(),
    }
}

// Moves the n bytes at from to the start.
pub fn keep(buf: &mut [u8], from: usize, n: usize)
    requires { from + n ≤ length buf.old }
    ensures { take n buf.new ≡ take n (drop from buf.old) }
{
    buf.copy_within(from..from + n, 0);
}

// One part of the input: what was held and what was read. Prints its whole lines, and holds at the start of buf the bytes of the line that it begins, at most 420
// of them: a line that long is refused whatever follows.
pub fn feed(buf: &mut [u8], out: &mut [u8]) -> Fed
    requires { 4 * length buf.old ≤ length out.old }
    ensures put_bound { (result.put ≤ 4 * length buf.old) × (result.held ≤ 420) × Counts result.put out.new }
    ensures out_after { take result.put out.new ≡ printed (whole_lines [] buf.old) }
    ensures buf_after { take result.held buf.new ≡ take 420 (begun [] buf.old) }
{
    let fed = print_lines(buf, out);
    let held = fed.held.min(420);
    keep(buf, buf.len() - fed.held, held);
    Fed { put: fed.put, held }
}

// The end of the input: bytes that are held are a last line.
pub fn finish(held: &[u8], out: &mut [u8]) -> usize
    requires { 112 ≤ length out.old }
    ensures counts { Counts result out.new }
    ensures out_after { take result out.new ≡ printed (last_line held.now) }
{
    if held.is_empty() {
        return 0;
    }
    let mut printer = Printer { out, end: 0 };
    match split_line(held) {
        Some((line, _)) => print_line(&mut printer, line),
        None => print_refused(&mut printer),
    }
    printer.end
}
