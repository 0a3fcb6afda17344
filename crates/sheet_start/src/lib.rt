// A start on a sheet. One that is accepted puts an empty table in use and blanks the words; one that is refused keeps both. Its
// answer goes to the lent buffer, from a position on. The table in use and the words stand apart, and so do the buffer and the position:
// a struct that holds a `&mut` asks each contract for one clause more, that it still holds the same (printing).
#![tactic(auto)]

ghost use Rattle.std.specs.Prelude.{◌≡◌, ◌+◌, ◌≤◌, length};
ghost use Rattle.std.proofs.lemmas.List.Edits.{sets};
ghost use Rattle.printing.specs.Print.{longest_line};
ghost use Rattle.sheet_start.specs.SheetStart.{sheet_of, start_run};

use table::Table;

// The salt of every table of a sheet.
const SALT: u32 = 0;

// Runs a start and answers the position after what it prints. One that is refused keeps the table in use.
pub fn run_start(
    in_use: &mut Option<Table>,
    medium: &mut [u32],
    capacity: u32,
    out: &mut [u8],
    at: usize,
) -> usize
    requires { at + longest_line ≤ length out.old }
    ensures next { result ≡ at + length (start_run (sheet_of in_use.old medium.old) capacity).bytes }
    ensures bytes { out.new ≡ sets out.old at (start_run (sheet_of in_use.old medium.old) capacity).bytes }
    ensures sheet { sheet_of in_use.new medium.new ≡ (start_run (sheet_of in_use.old medium.old) capacity).sheet }
{
    let started = servers::start(capacity, SALT);
    let refusal = replies::check_number(&started);
    let next = printing::put_answer(out, at, letters::START, refusal, 0, 0);
    if let Ok(table) = started {
        medium.fill(medium::BLANK);
        *in_use = Some(table);
    }
    next
}
