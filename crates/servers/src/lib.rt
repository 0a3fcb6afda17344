// Start, and the calls that change the servers: add_server, document 01's fit, and reweight, its weigh.
#![tactic(auto)]

ghost use Rattle.std.specs.Prelude.{◌≡◌};
ghost use Rattle.std.specs.Result.{result_unwrap_or};
ghost use Rattle.table.specs.Parts.{empty};
ghost use Rattle.replies.specs.Reply.{reply_of_check, reply_of_server};
ghost use Rattle.servers.specs.Servers.{start_reply, start_table, add_server_reply, add_server_table, reweight_reply, reweight_table};

use replies::Refusal;
use table::Table;

// Starts a table of no server, or says why the capacity or the salt is refused; in the clause of the table all zeros stand for that.
pub fn start(capacity: u32, salt: u32) -> Result<Table, Refusal>
    ensures reply { reply_of_check result ≡ start_reply capacity salt }
    ensures table { result_unwrap_or result (empty 0 0) ≡ start_table capacity salt }
{
    server_rows::start(capacity, salt)?;
    Ok(table::empty(capacity, salt))
}

// Adds a server of this weight and answers its number. The medium is only read.
pub fn add_server(table: &mut Table, medium: &[u32], weight: u32) -> Result<usize, Refusal>
    ensures reply { reply_of_server result ≡ add_server_reply table.old medium.now weight }
    ensures table { table.new ≡ add_server_table table.old medium.now weight }
{
    server_rows::add_server(&table.view(), medium, weight)?;
    let server = table.count;
    upkeep::add_server(table, weight);
    Ok(server)
}

// Gives a server another weight and answers its number. This call has no medium.
pub fn reweight(table: &mut Table, server: usize, weight: u32) -> Result<usize, Refusal>
    ensures reply { reply_of_server result ≡ reweight_reply table.old server weight }
    ensures table { table.new ≡ reweight_table table.old server weight }
{
    server_rows::reweight(&table.view(), server, weight)?;
    upkeep::set_weight(table, server, weight);
    Ok(server)
}
