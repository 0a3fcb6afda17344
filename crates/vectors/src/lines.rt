// The lines of the cases: a case's text, its command, and where the next line begins.
ghost use Rattle.std.specs.Prelude.{◌<◌, ◌≤◌, length};

use vectors_calls::Command;

#[derive(Clone, Copy)]
pub struct Case<'a> {
    pub text: &'a [u8],
    pub command: Command,
    pub next: usize,
}

// The position after the next such byte, or the end.
fn after(input: &[u8], from: usize, byte: u8) -> usize
    requires { from < length input.now }
    ensures { (from < result) × (result ≤ length input.now) }
{
    input[from..]
        .iter()
        .position(|b| *b == byte)
        .map_or(input.len(), |n| from + n + 1)
}

// A number with one digit more, modulo 2^32. The digits are summed by hand: `parse` refuses a number that is longer and what is no digit,
// and any line of the cases has numbers.
fn longer(number: u32, digit: u8) -> u32 {
    number.wrapping_mul(10).wrapping_add(u32::from(digit % 16))
}

// The numbers up to the line's end, a blank before each: the first blank leads from the last place to the first.
fn numbers(input: &[u8]) -> [u32; 8] {
    let mut values: [u32; 8] = [0; 8];
    let mut k: usize = 7;
    for b in input {
        match *b {
            b'\n' => break,
            b' ' => k = (k + 1) % 8,
            digit => values[k] = longer(values[k], digit),
        }
    }
    values
}

// The case whose line begins at a position. Where no bar follows, its command has the letter 0, and is run
// as any other.
pub fn read(input: &[u8], at: usize) -> Case<'_>
    requires { at < length input.now }
    ensures { at < result.next }
{
    let call = after(input, at, b'|');
    let text = &input[at..call - 1];
    if call == input.len() {
        let command = Command {
            letter: 0,
            numbers: [0; 8],
        };
        return Case {
            text,
            command,
            next: call,
        };
    }
    Case {
        text,
        command: Command {
            letter: input[call],
            numbers: numbers(&input[call + 1..]),
        },
        next: after(input, call, b'\n'),
    }
}
