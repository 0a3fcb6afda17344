// A write or a delete with a number of burns, on a table lent as words.
#![tactic(auto)]

ghost use Rattle.std.specs.Prelude.{◌≡◌};
ghost use Rattle.table_words.specs.Words.{with_table};
ghost use Rattle.dispatch.specs.SomeBurns.{some_reply, some_next};
ghost use Rattle.call_words.specs.CallWords.{lent};
ghost use Rattle.some_words.specs.SomeWords.{after_some};

use calls::Call;
use encoding::BURNS_OFFSET;
use replies::Reply;
use table_words::Words;

// Runs the call. The entry of a write is counted as used where all its burns were made.
fn run(call: Option<Call>, burns: usize, table: &mut Words, medium: &mut [u32]) -> Reply
    ensures reply { result ≡ some_reply (lent table.old medium.old) call }
    ensures table { table.new ≡ with_table table.old (some_next (lent table.old medium.old) call burns).table }
    ensures medium { medium.new ≡ (some_next (lent table.old medium.old) call burns).medium }
{
    let view = table_words::view_of(table);
    let reply = dispatch::run_some(call, burns, &view, medium);
    if writing::is_whole(reply.invalidated, burns) {
        call_words::count(table, call, reply);
    }
    reply
}

// Runs the write or the delete at the front of its words with the burns that they say, stores its reply and answers its refusal
// number. Without burns it is `call` of call_words, which says why they are two.
pub fn call_some(table: &mut [u32], medium: &mut [u32], call: &[u32], reply: &mut [u32]) -> u32
    ensures number { result ≡ (after_some table.old medium.old call.now reply.old).number }
    ensures table { table.new ≡ (after_some table.old medium.old call.now reply.old).table }
    ensures medium { medium.new ≡ (after_some table.old medium.old call.now reply.old).medium }
    ensures reply { reply.new ≡ (after_some table.old medium.old call.now reply.old).reply }
{
    if !call_words::fits(call, reply) {
        return encoding::TOO_SHORT;
    }
    let Some(words) = table.first_chunk_mut() else {
        return encoding::TOO_SHORT;
    };
    let burns = call[BURNS_OFFSET] as usize;
    let told = run(encoding::call_from(call, 0), burns, words, medium);
    encoding::store(reply, 0, told);
    told.refusal
}
