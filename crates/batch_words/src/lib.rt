// A batch of lookups on a table lent as words, its answer stored as words.
#![tactic(auto)]

ghost use Rattle.std.specs.Prelude.{◌≡◌, ◌&&◌, ◌≤◌, ◌*◌, length, leb};
ghost use Rattle.limits.specs.Limits.{max_ids};
ghost use Rattle.encoding.specs.Encoding.{reply_length};
ghost use Rattle.replay.specs.Replay.{with_replies};
ghost use Rattle.batch_words.specs.BatchWords.{lookup_part, after_batch};

use batch_answer::Batch;
use encoding::REPLY_LENGTH;

// Whether the runs that have room for each id are long enough for a batch of `n` ids: the C interface lends them, each with its length.
fn fits(n: usize, replies: &[u32], order: &[u32]) -> bool
    ensures { result ≡ (leb (reply_length * n) (length replies.now) && leb n (length order.now)) }
{
    n <= replies.len() / REPLY_LENGTH && n <= order.len()
}

// Stores the reply to each of the first `n` ids. `n` stands beside the batch, whose answers are an array of 256 (batch_answer).
fn store_replies(batch: &Batch, n: usize, replies: &mut [u32])
    requires few { n ≤ max_ids }
    requires room { reply_length * n ≤ length replies.old }
    ensures { replies.new ≡ with_replies (lookup_part batch.now.answers) n replies.old }
{
    // Counted, and no `zip`, as image_reader says.
    for (i, answer) in batch.answers[..n].iter().enumerate() {
        encoding::store(replies, REPLY_LENGTH * i, replies::lookup_reply(*answer));
    }
}

// Looks many ids up together for a tenant, stores each id's reply, the order of finding and the number of servers opened, and
// counts in the table what single lookups would. Its parameters are those of the C interface.
pub fn lookup_batch(
    table: &mut [u32],
    medium: &[u32],
    tenant: u32,
    ids: &[u32],
    replies: &mut [u32],
    order: &mut [u32],
    mounts: &mut [u32],
) -> u32
    ensures number { result
        ≡ (after_batch table.old medium.now tenant ids.now replies.old order.old
        mounts.old).number }
    ensures table { table.new
        ≡ (after_batch table.old medium.now tenant ids.now replies.old order.old
        mounts.old).table }
    ensures replies { replies.new
        ≡ (after_batch table.old medium.now tenant ids.now replies.old order.old
        mounts.old).replies }
    ensures order { order.new
        ≡ (after_batch table.old medium.now tenant ids.now replies.old order.old
        mounts.old).order }
    ensures mounts { mounts.new
        ≡ (after_batch table.old medium.now tenant ids.now replies.old order.old
        mounts.old).mounts }
{
    if !fits(ids.len(), replies, order) {
        return encoding::TOO_SHORT;
    }
    let Some(mount) = mounts.first_mut() else {
        return encoding::TOO_SHORT;
    };
    let Some(words) = table.first_chunk_mut() else {
        return encoding::TOO_SHORT;
    };
    match batch::lookup_batch_in(&table_words::view_of(words), medium, tenant, ids) {
        Err(refusal) => refusal.number(),
        Ok(batch) => {
            store_replies(&batch, ids.len(), replies);
            table_words::store_array(order, 0, &batch.order[..ids.len()]);
            *mount = batch.mounts as u32;
            call_words::count_opened(words, tenant, batch.opened());
            0
        }
    }
}
