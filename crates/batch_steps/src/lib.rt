// A batch step by step: what one server makes of the part of one id, and of every id's part.
#![tactic(auto)]

mod answering;

ghost use Rattle.std.specs.Prelude.{◌≡◌, ℕ, ◌≤◌, ◌<◌, length};
ghost use Rattle.limits.specs.Limits.{max_servers};
ghost use Rattle.lists.specs.Below.{nth};
ghost use Rattle.table.specs.Parts.{table_of, read_p};
ghost use Rattle.batch_steps.specs.Steps.{progress_of, columns_by, stepped, stepped_all};

pub use answering::Answering;
use batch_begin::Parts;
use limits::Ids;
use scan::Server;
use table::View;

// Takes one server for one id, of which this is the answer so far and the end: the server is opened if no entry of the id was met
// yet and it is read for the id.
fn step<A: Answering>(answer: &mut A, end: &mut u16, table: &View<'_>, server: &Server<'_>, id: u32)
    requires of_the_table { server.now.capacity ≡ table.now.shape.capacity }
    requires opened_le_max_servers { (A.numbers answer.old).opened ≤ max_servers }
    ensures { progress_of (A.numbers answer.new) end.new
        ≡ stepped (read_p (table_of table.now) server.now.number) table.now.shape server.now.used server.now.medium.now id
        server.now.number (progress_of (A.numbers answer.old) end.old) }
{
    let k = server.number;
    // An `if` for each reason not to open it: joined they would be no plainer, since the second is a test of the server alone.
    if !answer.is_absent() {
        return;
    }
    if !placement::takes(table.read_p(k), table.shape.salt, id, k) {
        return;
    }
    answer.count_server();
    *end = k as u16 + 1;
    if let Some(entry) = server.newest(id) {
        answer.meet(lookup::met(server, entry));
    }
}

// Takes one server for every id.
pub fn step_all<A: Answering>(
    parts: &mut Parts<A>,
    table: &View<'_>,
    server: &Server<'_>,
    ids: &Ids<'_>,
)
    requires of_the_table { server.now.capacity ≡ table.now.shape.capacity }
    requires by_index { (i : ℕ) → i < length ids.now.all.now → nth (columns_by A.numbers parts.old).opened i ≤ max_servers }
    ensures { columns_by A.numbers parts.new
        ≡ stepped_all (read_p (table_of table.now) server.now.number) table.now.shape server.now.used server.now.medium.now
        ids.now.all.now server.now.number (columns_by A.numbers parts.old) }
{
    // Counted, and no `zip`, as image_reader says.
    for (i, id) in ids.all.iter().enumerate() {
        let answer = &mut parts.answers[i];
        step(answer, &mut parts.ends[i], table, server, *id);
    }
}
