// This crate reads numbers, and makes the line of a letter and its numbers. A letter is a byte until the numbers are read: then the enum is
// made of them.
#![tactic(auto)]

ghost use Rattle.std.specs.Prelude.{◌≡◌, ◌≤◌, length};
ghost use Rattle.std.specs.List.{prefix_len};
ghost use Rattle.parsing.specs.Line.{is_digit, number_at, spaced, line_by, has_two};

use calls::Call;
use letters::{REWEIGHT, START, WRITE};

// A line asks for a start, which has a capacity, or for a call.
#[derive(Clone, Copy)]
pub enum Line {
    Start(u32),
    Call(Call),
}

// A number has at most so many digits.
const MOST_DIGITS: usize = 10;

// How many digits stand at the front.
fn digits(bytes: &[u8]) -> usize
    ensures { result ≡ prefix_len is_digit bytes.now }
{
    bytes.iter().take_while(|b| b.is_ascii_digit()).count()
}

// The number that begins at a position, of 1 to 10 digits and below 2^32, and the position after it.
#[tactic(auto, using(crate::proofs::Reading::no_digit, crate::proofs::Reading::too_long, crate::proofs::Reading::is_text, crate::proofs::Reading::number_parsed))]
fn number_at(line: &[u8], from: usize) -> Option<(u32, usize)>
    requires { from ≤ length line.now }
    ensures { result ≡ number_at line.now from }
{
    let rest = &line[from..];
    let digits = digits(rest);
    if digits == 0 || digits > MOST_DIGITS {
        return None;
    }
    let text = str::from_utf8(&rest[..digits]).ok()?;
    let value = text.parse::<u32>().ok()?;
    Some((value, from + digits))
}

// The number after one space, and the position after it.
pub fn number_after(line: &[u8], at: usize) -> Option<(u32, usize)>
    ensures { result ≡ spaced line.now at }
{
    let before = line.get(at)?;
    if *before != b' ' {
        return None;
    }
    number_at(line, at + 1)
}

// Answers the line of a letter and its numbers, where the letter has one.
#[tactic(auto, unfolding(crate::specs::Line::line_by))]
pub fn line_by(letter: u8, first: u32, second: u32) -> Option<Line>
    ensures { result ≡ line_by letter first second }
{
    if letter == START {
        return Some(Line::Start(first));
    }
    letters::call_for(letter, first, second).map(Line::Call)
}

// Whether a line of this letter has a second number, as G and W have.
#[tactic(auto, unfolding(crate::specs::Line::has_two))]
pub fn has_two(letter: u8) -> bool
    ensures { result ≡ has_two letter }
{
    letter == REWEIGHT || letter == WRITE
}
