// Running one line. Its answer goes to the lent buffer, from a position on. What is lent stands apart, as in sheet_start.
#![tactic(auto)]

ghost use Rattle.std.specs.Prelude.{◌≡◌, ◌+◌, ◌≤◌, length};
ghost use Rattle.std.proofs.lemmas.List.Edits.{sets};
ghost use Rattle.parsing.specs.Line.{line_of};
ghost use Rattle.printing.specs.Print.{longest_line};
ghost use Rattle.sheet_start.specs.SheetStart.{sheet_of};
ghost use Rattle.line_run.specs.LineRun.{line_run};

use parsing::Line;
use table::Table;

// What a line asks for, where it can be read. Each number is taken out of its bytes, and nothing stands after the last.
fn line_of(line: &[u8]) -> Option<Line>
    ensures { result ≡ line_of line.now }
{
    let (first, after_first) = parsing::number_after(line, 1)?;
    let letter = line[0];
    let (second, end) = if parsing::has_two(letter) {
        parsing::number_after(line, after_first)?
    } else {
        (0, after_first)
    };
    if end != line.len() {
        return None;
    }
    parsing::line_by(letter, first, second)
}

// Runs a line and answers the position after what it prints. A line that can't be read gets its question mark.
pub fn run_line(
    in_use: &mut Option<Table>,
    medium: &mut [u32],
    line: &[u8],
    out: &mut [u8],
    at: usize,
) -> usize
    requires { at + longest_line ≤ length out.old }
    ensures next { result ≡ at + length (line_run (sheet_of in_use.old medium.old) (line_of line.now)).bytes }
    ensures bytes { out.new ≡ sets out.old at (line_run (sheet_of in_use.old medium.old) (line_of line.now)).bytes }
    ensures sheet { sheet_of in_use.new medium.new ≡ (line_run (sheet_of in_use.old medium.old) (line_of line.now)).sheet }
{
    let Some(line) = line_of(line) else {
        return printing::put_question(out, at);
    };
    match line {
        Line::Start(capacity) => sheet_start::run_start(in_use, medium, capacity, out, at),
        Line::Call(call) => sheet_call::run_call(in_use, medium, Some(call), out, at),
    }
}
