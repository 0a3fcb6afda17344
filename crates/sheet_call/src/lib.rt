// A call on a sheet runs on the table in use. Before the first accepted S it gets a question mark, and what is no call gets one always.
// What is printed goes to the lent buffer, from a position on. What is lent stands apart, as in sheet_start.
#![tactic(auto)]

ghost use Rattle.std.specs.Prelude.{◌≡◌, ◌+◌, ◌≤◌, length};
ghost use Rattle.std.proofs.lemmas.List.Edits.{sets};
ghost use Rattle.dispatch.specs.OneCall.{reply_to, next_by};
ghost use Rattle.printing.specs.Print.{longest_line};
ghost use Rattle.sheet_start.specs.SheetStart.{sheet_of};
ghost use Rattle.sheet_call.specs.SheetCall.{call_run};

use calls::Call;
use replies::Reply;
use table::Table;

// Runs a call on the table in use. The same on a table lent as words is `run` of call_words, which says why they are two.
fn run(call: Option<Call>, table: &mut Table, medium: &mut [u32]) -> Reply
    ensures reply { result ≡ reply_to (record { table = table.old; medium = medium.old }) call }
    ensures table { table.new ≡ (next_by (record { table = table.old; medium = medium.old }) call).table }
    ensures medium { medium.new ≡ (next_by (record { table = table.old; medium = medium.old }) call).medium }
{
    if call.is_some_and(Call::on_servers) {
        return dispatch::run_change(call, table, medium);
    }
    let view = table.view();
    let reply = dispatch::run_in(call, &view, medium);
    dispatch::count_write(&mut table.used, call, reply);
    dispatch::count_lookup(&mut table.counters, call, reply);
    reply
}

// Runs a call and answers the position after what it prints. Before the first accepted S it is not run, and gets a question mark.
pub fn run_call(
    in_use: &mut Option<Table>,
    medium: &mut [u32],
    call: Option<Call>,
    out: &mut [u8],
    at: usize,
) -> usize
    requires { at + longest_line ≤ length out.old }
    ensures next { result
        ≡ at + length (call_run (sheet_of in_use.old medium.old) (sheet_of in_use.old medium.old).table call).bytes }
    ensures bytes { out.new
        ≡ sets out.old at (call_run (sheet_of in_use.old medium.old) (sheet_of in_use.old medium.old).table call).bytes }
    ensures sheet { sheet_of in_use.new medium.new
        ≡ (call_run (sheet_of in_use.old medium.old) (sheet_of in_use.old medium.old).table call).sheet }
{
    let Some(table) = in_use else {
        return printing::put_question(out, at);
    };
    let reply = run(call, table, medium);
    printing::put_reply(out, at, call, reply)
}
