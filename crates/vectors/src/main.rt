// Runs the cases of the file stdin on the compiled code, document 01's known draws and edges and batches of lookups among them;
// the stored stdout has what they should answer.
//
// A case is a line: a text, a bar, a letter and numbers. The letter names the call and the numbers are its arguments. The text
// is printed with what the call answers; a call with no text is run and prints nothing, but for words and yes or no. A call's answer is
// its refusal number, server, value, opened count and number of invalidated entries. No call has the letter `;`: such a line is a comment.
#![tactic(auto)]

mod batches;
mod lines;

use std::io;
use std::io::{Read, Write};
use vectors_calls::{Answer, Archive, Command};

// A digit is for a part of a batch, a small letter for the method on plain numbers, and a capital letter for a call.
fn run(archive: &mut Archive, command: Command) -> Answer<'_> {
    match command.letter {
        0..=b'9' => batches::call(archive, command),
        b'a'.. => vectors_calls::draw(command),
        _ => vectors_calls::call(archive, command),
    }
}

fn run_all<W: Write>(out: &mut W, input: &[u8]) -> io::Result<()> {
    let mut archive = Archive::new();
    // A loop by hand: a text without a bar goes on over its line's end, so the cases are no parts that `split` would give.
    let mut at: usize = 0;
    while at < input.len() {
        let case = lines::read(input, at);
        let answer = run(&mut archive, case.command);
        vectors_calls::print(out, case.text, answer)?;
        at = case.next;
    }
    Ok(())
}

fn main(rt: HostRuntime) -> io::Result<()> {
    let mut input = Vec::new(rt.alloc());
    rt.reader().read_to_end(&mut input)?;
    run_all(&mut io::writer(&rt), &input)
}
