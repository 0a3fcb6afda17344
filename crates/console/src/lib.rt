// This crate runs the sheet on standard input over 3,072 blank words and writes its output to standard output. Where reading fails,
// nothing is run and one question mark is printed, since the bytes read may end in the middle of a line.
#![tactic(auto)]

ghost use Rattle.std.specs.Prelude.{◌≡◌, ◌*◌, ◌≤◌, length};
ghost use Rattle.std.proofs.lemmas.List.Edits.{sets};
ghost use Rattle.printing.specs.Print.{longest_line};
ghost use Rattle.streams.specs.Stream.{AtMost};
ghost use Rattle.sheet.specs.Sheet.{max_input};
ghost use Rattle.console.specs.Console.{answer_to};

use std::io;

// A sheet has at most one byte less.
const INPUT: usize = sheet::MAX_INPUT + 1;

const WORDS: usize = 3072;

// Each byte of the longest sheet may print the longest line.
const OUTPUT: usize = printing::LONGEST_LINE * sheet::MAX_INPUT;

// These three arrays have a function each: written where they are used, the check takes so long arrays apart and does not end.
fn input_space() -> [u8; INPUT]
    ensures { 65537 ≡ length result }
{
    [0; INPUT]
}

fn words() -> [u32; WORDS]
    ensures { 3072 ≡ length result }
{
    [medium::BLANK; WORDS]
}

fn output_space() -> [u8; OUTPUT]
    ensures { 2293760 ≡ length result }
{
    [0; OUTPUT]
}

// Puts what is to be printed at the start of the buffer and answers its number of bytes.
fn answer(read: Option<usize>, input: &[u8], medium: &mut [u32], out: &mut [u8]) -> usize
    requires at_most { AtMost (length input.now) read }
    requires max_input_in_bounds { longest_line * max_input ≤ length out.old }
    ensures number { result ≡ length (answer_to read input.now medium.old).bytes }
    ensures bytes { out.new ≡ sets out.old 0 (answer_to read input.now medium.old).bytes }
    ensures words { medium.new ≡ (answer_to read input.now medium.old).sheet.medium }
    ensures inside { result ≤ length out.old }
{
    let Some(n) = read else {
        return printing::put_question(out, 0);
    };
    sheet::run(&input[..n], medium, out)
}

// Runs the sheet on standard input; what can't be read or written is told on standard error.
pub fn run(rt: &(impl Input + Print + Eprint + AllocGlobal)) {
    let mut input = input_space();
    let mut medium = words();
    let mut output = output_space();
    let read = streams::read_all(&mut rt.reader(), rt, &mut input);
    let end = answer(read, &input, &mut medium, &mut output);
    streams::write_all(&mut io::writer(rt), rt, &output[..end]);
}
