// This crate runs encoded lists of calls: on a started table, where the replies are the plain ledger's if the words are blank,
// and on a table lent as words.
#![tactic(auto)]

ghost use Rattle.std.specs.Prelude.{◌≡◌, ◌≤◌, ◌*◌, length};
ghost use Rattle.table_words.specs.Words.{with_table};
ghost use Rattle.history.specs.Machine.{after, start_state};
ghost use Rattle.encoding.specs.Encoding.{call_length, reply_length};
ghost use Rattle.call_words.specs.CallWords.{lent};
ghost use Rattle.replay.specs.Replay.{calls_below, with_replies, runs, reply_at, LedgerWords};
ghost use Rattle.replay.specs.Lent.{resumes};

use encoding::CALL_LENGTH;
use table_words::{TABLE_LENGTH, Words};

// Runs the first `n` encoded calls on a table lent as words. A call and its reply have as many words, so both begin at the same
// word. `n` stands beside the two: how many calls the words of both have room for is what the C interface answers.
fn run_calls(table: &mut Words, calls: &[u32], medium: &mut [u32], replies: &mut [u32], n: usize)
    requires { (call_length * n ≤ length calls.now) × (reply_length * n ≤ length replies.old) }
    ensures table { table.new
        ≡ with_table table.old (after (lent table.old medium.old) (calls_below calls.now n)).table }
    ensures words { medium.new ≡ (after (lent table.old medium.old) (calls_below calls.now n)).medium }
    ensures replies { replies.new
        ≡ with_replies (reply_at (lent table.old medium.old) calls.now) n replies.old }
{
    // Counted, and no `zip` of `as_chunks`, as image_reader says.
    for i in 0..n {
        let at = CALL_LENGTH * i;
        let call = encoding::call_from(calls, at);
        let reply = call_words::run(call, table, medium);
        encoding::store(replies, at, reply);
    }
}

// Runs as many of the encoded calls as both slices have room for on a started table, and answers their number.
pub fn replay(
    capacity: u32,
    salt: u32,
    calls: &[u32],
    medium: &mut [u32],
    replies: &mut [u32],
) -> usize
    ensures number { result ≡ runs capacity salt calls.now replies.old }
    ensures words { medium.new ≡ (after (start_state capacity salt medium.old) (calls_below calls.now result)).medium }
    ensures replies { replies.new
        ≡ with_replies (reply_at (start_state capacity salt medium.old) calls.now) result replies.old }
    ensures ledger { LedgerWords capacity salt medium.old calls.now result replies.new }
{
    let Ok(started) = servers::start(capacity, salt) else {
        return 0;
    };
    let n = encoding::room(calls.len(), replies.len());
    let mut words: Words = [0; TABLE_LENGTH];
    table_words::store_table(&mut words, &started);
    run_calls(&mut words, calls, medium, replies, n);
    n
}

// Runs encoded calls on a table lent as 1,035 words, and stores the table back. Where there are fewer words, it runs none.
pub fn resume(table: &mut [u32], calls: &[u32], medium: &mut [u32], replies: &mut [u32]) -> usize
    ensures number { result ≡ resumes table.old calls.now replies.old }
    ensures table { table.new
        ≡ with_table table.old (after (lent table.old medium.old) (calls_below calls.now result)).table }
    ensures words { medium.new ≡ (after (lent table.old medium.old) (calls_below calls.now result)).medium }
    ensures replies { replies.new
        ≡ with_replies (reply_at (lent table.old medium.old) calls.now) result replies.old }
{
    let Some(words) = table.first_chunk_mut() else {
        return 0;
    };
    let n = encoding::room(calls.len(), replies.len());
    run_calls(words, calls, medium, replies, n);
    n
}
