// One call: add_server and reweight run on a table by reference, every other call on a table that is lent. The table and the words of the
// medium are two parameters here and in every call, and no struct: some calls change the one and read the other, some the other way
// round, and the C interface lends the two apart.
#![tactic(auto)]

ghost use Rattle.std.specs.Prelude.{◌≡◌, true, false, ◌<◌, length};
ghost use Rattle.std.specs.Option.{ForSome};
ghost use Rattle.limits.specs.Limits.{max_capacity};
ghost use Rattle.lists.specs.Below.{nth};
ghost use Rattle.table.specs.Parts.{table_of};
ghost use Rattle.calls.specs.Numbered.{on_servers, is_write};
ghost use Rattle.replies.specs.Reply.{refused};
ghost use Rattle.dispatch.specs.OneCall.{no_call_number, reply_to, next_by, used_after, counters_after};
ghost use Rattle.dispatch.specs.SomeBurns.{some_reply, some_next};

use calls::Call;
use limits::ALL_BURNS;
use replies::Reply;
use table::{Table, View};

// What is no call gets a refusal number that no call gives: the C interface answers a number.
pub fn no_call() -> Reply
    ensures { result ≡ refused no_call_number 0 }
{
    Reply {
        refusal: u32::MAX,
        ..replies::ACCEPTED
    }
}

// Runs a write or a delete with a number of burns on a table that is lent; any other call is no call here.
#[tactic(auto, unfolding(crate::specs::SomeBurns::some_reply, crate::specs::SomeBurns::some_next))]
pub fn run_some(call: Option<Call>, burns: usize, table: &View<'_>, medium: &mut [u32]) -> Reply
    ensures reply { result ≡ some_reply (record { table = table_of table.now; medium = medium.old }) call }
    ensures medium { medium.new
        ≡ (some_next (record { table = table_of table.now; medium = medium.old }) call burns).medium }
{
    match call {
        Some(Call::Write { tenant, id, value }) => {
            let written = writing::write_in(table, medium, tenant, id, value, burns);
            replies::write_reply(written)
        }
        Some(Call::Delete { tenant, id }) => {
            let deleted = deletion::delete_in(table, medium, tenant, id, burns);
            replies::delete_reply(deleted)
        }
        _ => no_call(),
    }
}

// Runs a call but add_server and reweight on a table that is lent, and answers `no_call` to what is no call. `count_write` and
// `count_lookup` then make the table after it.
#[tactic(auto, unfolding(crate::specs::OneCall::in_list, crate::specs::OneCall::reply_to, crate::specs::OneCall::next_by, history::specs::Machine::reply, history::specs::Machine::next))]
pub fn run_in(call: Option<Call>, table: &View<'_>, medium: &mut [u32]) -> Reply
    requires { ForSome call (λ c. on_servers c ≡ false) }
    ensures reply { result ≡ reply_to (record { table = table_of table.now; medium = medium.old }) call }
    ensures medium { medium.new ≡ (next_by (record { table = table_of table.now; medium = medium.old }) call).medium }
{
    let Some(call) = call else {
        return no_call();
    };
    match call {
        Call::Lookup { tenant, id } => {
            let answer = lookup::lookup_in(table, medium, tenant, id);
            replies::lookup_reply(answer)
        }
        _ => {
            // A copy, so that a lookup's table need not stand in memory to be lent on.
            let lent = *table;
            run_some(Some(call), ALL_BURNS, &lent, medium)
        }
    }
}

// Counts the entry of an accepted write as used on its server.
#[tactic(auto, unfolding(crate::specs::OneCall::used_after))]
pub fn count_write(used: &mut [u32], call: Option<Call>, reply: Reply)
    requires { ForSome call
        (λ c. is_write c ≡ true → reply.refusal ≡ 0 → (reply.server < length used.old) × (nth used.old reply.server < max_capacity)) }
    ensures { used.new ≡ used_after used.old call reply }
{
    let Some(done) = call else {
        return;
    };
    if let Call::Write { .. } = done
        && reply.refusal == 0
    {
        upkeep::count_entry(used, reply.server);
    }
}

// Counts the servers that a lookup opened for its tenant.
#[tactic(auto, unfolding(crate::specs::OneCall::counters_after))]
pub fn count_lookup(counters: &mut [u32], call: Option<Call>, reply: Reply)
    ensures { counters.new ≡ counters_after counters.old call reply }
{
    if let Some(Call::Lookup { tenant, .. }) = call {
        counters::count(counters, tenant, reply.opened);
    }
}

// Runs add_server or reweight, which have no tenant and only read the medium, and answers `no_call` to what is no call.
#[tactic(auto, unfolding(crate::specs::OneCall::in_list, crate::specs::OneCall::reply_to, crate::specs::OneCall::next_by, history::specs::Machine::reply, history::specs::Machine::next))]
pub fn run_change(call: Option<Call>, table: &mut Table, medium: &[u32]) -> Reply
    requires { ForSome call (λ c. on_servers c ≡ true) }
    ensures reply { result ≡ reply_to (record { table = table.old; medium = medium.now }) call }
    ensures table { table.new ≡ (next_by (record { table = table.old; medium = medium.now }) call).table }
    ensures medium { medium.now ≡ (next_by (record { table = table.old; medium = medium.now }) call).medium }
{
    let Some(change) = call else {
        return no_call();
    };
    match change {
        Call::AddServer { weight } => {
            let server = servers::add_server(table, medium, weight);
            replies::server_reply(server)
        }
        Call::Reweight { server, weight } => {
            let server = servers::reweight(table, server as usize, weight);
            replies::server_reply(server)
        }
        _ => no_call(),
    }
}
