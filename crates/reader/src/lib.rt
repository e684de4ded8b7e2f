// The reader: rules 1 to 7 in order.
#![tactic(auto)]

mod field;

ghost use Rattle.std.specs.Prelude.{◌≡◌, true, false, ◌+◌, ◌*◌, ◌≤◌, ◌<◌, length, MatchOption, MatchResult};
ghost use Rattle.state.specs.declared.rules.Rule.TheVariants.{Head};
ghost use Rattle.lines.specs.Hex.{unhex, line_end, line_of, rest_of};
ghost use Rattle.lines.specs.Reading.{rule1, rule3, kind_of, view_of, sender_of, count_of, state_of, judged, read_line, read_whole, read_of};

use crate::field::{four_at, six_at, words_at};
use group::Group;
use hexadecimal::{digits, line_end, put_frame};
use lines::Frame;
use state::{Rule, State, broken};

// Rule 3, and the view and the sender that it judges.
#[tactic(auto, unfolding(lines::specs::Reading::rule3, lines::specs::Reading::view_of, lines::specs::Reading::sender_of))]
fn head_of(f: &[u8]) -> Result<(u32, u8), Rule>
    requires { 6 ≤ length f.now }
    ensures { MatchResult result (λ head. (rule3 f.now ≡ true) × (head.0 ≡ view_of f.now) × (head.1 ≡ sender_of f.now)) (λ rule. (rule3 f.now ≡ false) × (rule ≡ Head)) }
{
    let view = four_at(f, 1);
    let sender = f[5];
    if view == 0 || sender > Group::LAST {
        return Err(Rule::Head);
    }
    Ok((view, sender))
}

// The state in a frame of the right length.
#[tactic(auto, unfolding(lines::specs::Reading::state_of, lines::specs::Reading::count_of))]
fn state_of(f: &[u8]) -> State
    requires { (count_of f.now ≤ 16) × (length f.now ≡ 113 + 6 * count_of f.now) }
    ensures { result ≡ state_of f.now }
{
    let count = usize::from(f[112]);
    State {
        number: four_at(f, 6),
        primary: six_at(f, 10),
        formed: words_at(f, 16, Group::HEADS),
        count,
        places: words_at(f, 113, count),
    }
}

// A line of kind 2, and its frame: rule 2 counts the characters of the one, the fields are read of the bytes of the other.
fn judge_attempt(l: &[u8], f: &[u8]) -> Result<Frame, Rule>
    requires { (rule1 l.now ≡ true) × (kind_of (unhex l.now) ≡ 2) × (f.now ≡ unhex l.now) }
    ensures { read_of result ≡ judged l.now }
{
    if l.len() != 12 {
        return Err(Rule::Length);
    }
    let (view, sender) = head_of(f)?;
    Ok(Frame::Attempt { view, sender })
}

// A line of kind 1, and its frame.
fn judge_state(l: &[u8], f: &[u8]) -> Result<Frame, Rule>
    requires { (rule1 l.now ≡ true) × (kind_of (unhex l.now) ≡ 1) × (f.now ≡ unhex l.now) }
    ensures { read_of result ≡ judged l.now }
{
    let Some(count) = f.get(112) else {
        return Err(Rule::Length);
    };
    let count = usize::from(*count);
    if count > Group::PLACES || l.len() != 226 + 12 * count {
        return Err(Rule::Length);
    }
    let (view, sender) = head_of(f)?;
    let state = state_of(f);
    broken(&state, usize::from(sender))?;
    Ok(Frame::State {
        view,
        sender,
        state,
    })
}

// A line of digits, and its frame.
fn judge_frame(l: &[u8], f: &[u8]) -> Result<Frame, Rule>
    requires { (rule1 l.now ≡ true) × (f.now ≡ unhex l.now) }
    ensures { read_of result ≡ judged l.now }
{
    let Some(kind) = f.first() else {
        return Err(Rule::Length);
    };
    match *kind {
        1 => judge_state(l, f),
        2 => judge_attempt(l, f),
        _ => Err(Rule::Length),
    }
}

// The most characters of a line before its newline.
const MOST: usize = 418;

// The bytes of the longest frame.
const FRAME: usize = 209;

// Judges the characters of a line that stand before its newline.
pub fn judge(l: &[u8]) -> Result<Frame, Rule>
    ensures { read_of result ≡ judged l.now }
{
    if !digits(l) {
        return Err(Rule::Digits);
    }
    // Without a whole byte there is no frame to make: a text of such lines took half as long again.
    if l.len() < 2 {
        return Err(Rule::Length);
    }
    if l.len() > MOST {
        return Err(Rule::Length);
    }
    let mut frame = [0; FRAME];
    put_frame(l, &mut frame);
    judge_frame(l, &frame[..l.len() / 2])
}

// The first line without its newline, and what comes after it; none if there is no newline. Inlined: the answer is two slices, which a call puts in memory.
#[inline(always)]
pub fn split_line(s: &[u8]) -> Option<(&[u8], &[u8])>
    ensures { MatchOption result (length s.now ≤ line_end s.now) (λ p. (line_end s.now < length s.now) × (p.0.now ≡ line_of s.now) × (p.1.now ≡ rest_of s.now)) }
{
    let end = line_end(s);
    if end < s.len() {
        Some((&s[..end], &s[end + 1..]))
    } else {
        None
    }
}

// Judges the first line of the lent bytes.
pub fn read_line(s: &[u8]) -> Result<Frame, Rule>
    ensures { read_of result ≡ read_line s.now }
{
    match split_line(s) {
        Some((line, _)) => judge(line),
        None => Err(Rule::Digits),
    }
}

// Judges bytes that are to be one line, with nothing after its newline.
pub fn read_whole(s: &[u8]) -> Result<Frame, Rule>
    ensures { read_of result ≡ read_whole s.now }
{
    match split_line(s) {
        Some((line, rest)) if rest.is_empty() => judge(line),
        _ => Err(Rule::Digits),
    }
}
