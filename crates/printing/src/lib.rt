// Printing into a lent buffer: each function puts its bytes at a position and answers the position after them. The two stay apart,
// since a struct that holds the `&mut` asks each contract for one clause more, that it still holds the same buffer.
#![tactic(auto)]

ghost use Rattle.std.specs.Prelude.{◌≡◌, ◌<◌, ◌≤◌, ◌+◌, length};
ghost use Rattle.std.proofs.lemmas.List.Edits.{sets};
ghost use Rattle.printing.specs.Print.{longest_line, decimal, printed, question, answered};

use calls::Call;
use itoa::Buffer;
use replies::Reply;

// Bytes of the longest line that is printed: a letter, three numbers of ten digits, a blank before each, and LF.
pub const LONGEST_LINE: usize = 35;

// Puts a number without leading zeros.
fn put_number(out: &mut [u8], at: usize, x: u32) -> usize
    requires { at + 10 ≤ length out.old }
    ensures next { result ≡ at + length (decimal x) }
    ensures bytes { out.new ≡ sets out.old at (decimal x) }
{
    let mut buffer = Buffer::new();
    let digits = buffer.format(x).as_bytes();
    let next = at + digits.len();
    out[at..next].copy_from_slice(digits);
    next
}

// Puts a whole answer line, of a letter and three numbers, as the line has them.
pub fn put_answer(
    out: &mut [u8],
    at: usize,
    letter: u8,
    refusal: u32,
    first: u32,
    second: u32,
) -> usize
    requires { at + longest_line ≤ length out.old }
    ensures next { result ≡ at + length (printed letter refusal first second) }
    ensures bytes { out.new ≡ sets out.old at (printed letter refusal first second) }
{
    out[at] = letter;
    out[at + 1] = b' ';
    let one = put_number(out, at + 2, refusal);
    out[one] = b' ';
    let two = put_number(out, one + 1, first);
    out[two] = b' ';
    let three = put_number(out, two + 1, second);
    out[three] = b'\n';
    three + 1
}

// Puts the answer line of a call, and a question mark for what is no call.
#[tactic(auto, unfolding(crate::specs::Print::answers_of, crate::specs::Print::answered))]
pub fn put_reply(out: &mut [u8], at: usize, call: Option<Call>, reply: Reply) -> usize
    requires longest_line_in_bounds { at + longest_line ≤ length out.old }
    requires server_bound { (reply.server < 4294967296) × (reply.opened < 4294967296) × (reply.invalidated < 4294967296) }
    ensures next { result ≡ at + length (answered call reply) }
    ensures bytes { out.new ≡ sets out.old at (answered call reply) }
{
    let Some(call) = call else {
        return put_question(out, at);
    };
    let server = reply.server as u32;
    let invalidated = reply.invalidated as u32;
    let (first, second) = match call {
        Call::AddServer { .. } | Call::Reweight { .. } => (server, 0),
        Call::Write { .. } => (server, invalidated),
        Call::Delete { .. } => (invalidated, 0),
        Call::Lookup { .. } => (reply.value, reply.opened as u32),
    };
    let letter = letters::letter_of(Some(call));
    put_answer(out, at, letter, reply.refusal, first, second)
}

// Puts the question mark of a line that can't be read, or comes before the first accepted S.
pub fn put_question(out: &mut [u8], at: usize) -> usize
    requires { at + 2 ≤ length out.old }
    ensures next { result ≡ at + length question }
    ensures bytes { out.new ≡ sets out.old at question }
{
    out[at] = b'?';
    out[at + 1] = b'\n';
    at + 2
}
