// A whole sheet: lines read, calls run, answers printed, over slices alone.
#![tactic(auto)]

ghost use Rattle.std.specs.Prelude.{◌≡◌, ◌≤◌, length};
ghost use Rattle.std.proofs.lemmas.List.Edits.{sets};
ghost use Rattle.sheet.specs.Sheet.{output_of, output_room};

use table::Table;

// Bytes of the longest input.
pub const MAX_INPUT: usize = 65536;

// Puts a sheet's output at the start of the buffer and answers its number of bytes. A byte of input prints at most 35; an input
// that is too long prints two bytes in all.
pub fn run(input: &[u8], medium: &mut [u32], out: &mut [u8]) -> usize
    requires { output_room (length input.now) ≤ length out.old }
    ensures number { result ≡ length (output_of input.now medium.old).bytes }
    ensures bytes { out.new ≡ sets out.old 0 (output_of input.now medium.old).bytes }
    ensures words { medium.new ≡ (output_of input.now medium.old).sheet.medium }
{
    if input.len() > MAX_INPUT {
        return printing::put_question(out, 0);
    }
    let mut in_use: Option<Table> = None;
    let mut at: usize = 0;
    for line in input.split_inclusive(|b| *b == b'\n') {
        let line = line.strip_suffix(b"\n").unwrap_or(line);
        at = line_run::run_line(&mut in_use, medium, line, out, at);
    }
    at
}
