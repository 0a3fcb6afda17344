// One call on a table lent as words. Its columns are parts of the words, so that only add_server and reweight copy them.
#![tactic(auto)]

ghost use Rattle.std.specs.Prelude.{◌≡◌, true, false, ◌&&◌, ◌<◌, length, leb};
ghost use Rattle.std.specs.Option.{ForSome, MatchOption};
ghost use Rattle.limits.specs.Limits.{max_servers, max_capacity};
ghost use Rattle.lists.specs.Below.{nth};
ghost use Rattle.table_words.specs.Words.{used_offset, column_from, table_from, with_table};
ghost use Rattle.upkeep.specs.Upkeep.{with_opened};
ghost use Rattle.calls.specs.Numbered.{on_servers, is_write};
ghost use Rattle.encoding.specs.Encoding.{call_length, reply_length};
ghost use Rattle.dispatch.specs.OneCall.{reply_to, next_by, used_after};
ghost use Rattle.call_words.specs.CallWords.{lent, after_call, with_column};

use calls::Call;
use encoding::{CALL_LENGTH, REPLY_LENGTH};
use replies::Reply;
use table_words::{COUNTERS_OFFSET, NUMERATORS_OFFSET, TABLE_LENGTH, USED_OFFSET, Words};

// Counts the entry of an accepted write as used on its server.
pub fn count(words: &mut Words, call: Option<Call>, reply: Reply)
    requires { ForSome call (λ c. is_write c ≡ true → reply.refusal ≡ 0
        → (reply.server < max_servers) × (nth (column_from words.old used_offset) reply.server < max_capacity)) }
    ensures { words.new ≡ with_column words.old used_offset (used_after (column_from words.old used_offset) call reply) }
{
    dispatch::count_write(&mut words[USED_OFFSET..NUMERATORS_OFFSET], call, reply);
}

// Counts the servers that were opened for a tenant.
pub fn count_opened(words: &mut Words, tenant: u32, opened: usize)
    ensures { words.new ≡ with_table words.old (with_opened (table_from words.old) tenant opened) }
{
    counters::count(&mut words[COUNTERS_OFFSET..TABLE_LENGTH], tenant, opened);
}

// Whether it is a call that runs on a copy of the table, since it changes the servers.
#[tactic(auto, unfolding(calls::specs::Numbered::on_servers))]
fn on_copy(call: Option<Call>) -> bool
    ensures { MatchOption call (result ≡ false) (λ c. result ≡ on_servers c) }
{
    call.is_some_and(Call::on_servers)
}

// Runs add_server or reweight on a copy of the table, and stores it back.
fn run_change(call: Option<Call>, table: &mut Words, medium: &[u32]) -> Reply
    requires { ForSome call (λ c. on_servers c ≡ true) }
    ensures reply { result ≡ reply_to (lent table.old medium.now) call }
    ensures table { table.new ≡ with_table table.old (next_by (lent table.old medium.now) call).table }
    ensures medium { medium.now ≡ (next_by (lent table.old medium.now) call).medium }
{
    let mut changed = table_words::view_of(table).to_table();
    let reply = dispatch::run_change(call, &mut changed, medium);
    table_words::store_table(table, &changed);
    reply
}

// Runs a call on a table lent as words; what is no call changes nothing. The same on a `Table` is `run` of sheet_call: one
// function of both would need a trait of a table that is lent, with four methods and their laws, for the five lines that they share.
pub fn run(call: Option<Call>, table: &mut Words, medium: &mut [u32]) -> Reply
    ensures reply { result ≡ reply_to (lent table.old medium.old) call }
    ensures table { table.new ≡ with_table table.old (next_by (lent table.old medium.old) call).table }
    ensures medium { medium.new ≡ (next_by (lent table.old medium.old) call).medium }
{
    if on_copy(call) {
        return run_change(call, table, medium);
    }
    let reply = dispatch::run_in(call, &table_words::view_of(table), medium);
    count(table, call, reply);
    dispatch::count_lookup(&mut table[COUNTERS_OFFSET..TABLE_LENGTH], call, reply);
    reply
}

// Whether a call and its reply have all their words.
pub fn fits(call: &[u32], reply: &[u32]) -> bool
    ensures { result ≡ leb call_length (length call.now) && leb reply_length (length reply.now) }
{
    CALL_LENGTH <= call.len() && REPLY_LENGTH <= reply.len()
}

// Runs the call at the front of its words, stores its reply and answers its refusal number. With burns it is `call_some` of some_words:
// they share two tests and two lines. A function of both would take what to run, and its contract the laws of the two.
pub fn call(table: &mut [u32], medium: &mut [u32], call: &[u32], reply: &mut [u32]) -> u32
    ensures number { result ≡ (after_call table.old medium.old call.now reply.old).number }
    ensures table { table.new ≡ (after_call table.old medium.old call.now reply.old).table }
    ensures medium { medium.new ≡ (after_call table.old medium.old call.now reply.old).medium }
    ensures reply { reply.new ≡ (after_call table.old medium.old call.now reply.old).reply }
{
    if !fits(call, reply) {
        return encoding::TOO_SHORT;
    }
    let Some(words) = table.first_chunk_mut() else {
        return encoding::TOO_SHORT;
    };
    let told = run(encoding::call_from(call, 0), words, medium);
    encoding::store(reply, 0, told);
    told.refusal
}
