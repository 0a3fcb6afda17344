// The archive for other languages: numbers and runs of words, and no `requires`. include/archive.h says the same to a C
// programmer. A run that is too short gets a number that no call gives, and then every run is left as lent.
#![tactic(auto)]

ghost use Rattle.std.specs.Prelude.{◌≡◌, length};
ghost use Rattle.lists.specs.Below.{nth, set_below};
ghost use Rattle.placement.specs.Rule.{write_server};
ghost use Rattle.picks.specs.Picks.{picks_of};
ghost use Rattle.table_words.specs.Words.{table_length, with_table};
ghost use Rattle.servers.specs.Servers.{start_table};
ghost use Rattle.history.specs.Machine.{after, start_state};
ghost use Rattle.replay.specs.Replay.{calls_below, with_replies, runs, reply_at, LedgerWords};
ghost use Rattle.call_words.specs.CallWords.{lent, after_call};
ghost use Rattle.some_words.specs.SomeWords.{after_some};
ghost use Rattle.replay.specs.Lent.{resumes};
ghost use Rattle.batch_words.specs.BatchWords.{after_batch};
ghost use Rattle.image_words.specs.ImageWords.{after_encode, decode_number, after_decode};
ghost use Rattle.recover_words.specs.RecoverWords.{recover_number, after_recover};
ghost use Rattle.embed.specs.Embed.{version, start_number};

// The version of the interface: it grows when a signature or an encoding changes.
const VERSION: u32 = 6;

#[unsafe(no_mangle)]
pub extern "C" fn archive_abi() -> u32
    ensures { result ≡ version }
{
    VERSION
}

#[unsafe(no_mangle)]
pub extern "C" fn archive_table_words() -> usize
    ensures { result ≡ table_length }
{
    table_words::TABLE_LENGTH
}

// Stores a table of no server, or of all zeros where the capacity or the salt is refused.
#[unsafe(no_mangle)]
pub extern "C" fn archive_start(capacity: u32, salt: u32, table: &mut [u32]) -> u32
    ensures number { result ≡ start_number capacity salt table.old }
    ensures table { table.new ≡ with_table table.old (start_table capacity salt) }
{
    let Some(words) = table.first_chunk_mut() else {
        return encoding::TOO_SHORT;
    };
    match servers::start(capacity, salt) {
        Ok(started) => {
            table_words::store_table(words, &started);
            0
        }
        Err(refusal) => {
            table_words::store_table(words, &table::empty(0, 0));
            refusal.number()
        }
    }
}

// Runs the call at the front of its words, stores its reply and answers its refusal number.
#[unsafe(no_mangle)]
pub extern "C" fn archive_call(
    table: &mut [u32],
    medium: &mut [u32],
    call: &[u32],
    reply: &mut [u32],
) -> u32
    ensures number { result ≡ (after_call table.old medium.old call.now reply.old).number }
    ensures table { table.new ≡ (after_call table.old medium.old call.now reply.old).table }
    ensures medium { medium.new ≡ (after_call table.old medium.old call.now reply.old).medium }
    ensures reply { reply.new ≡ (after_call table.old medium.old call.now reply.old).reply }
{
    call_words::call(table, medium, call, reply)
}

// Runs the write or the delete at the front of its words with the burns that they say, stores its reply and answers its refusal number.
#[unsafe(no_mangle)]
pub extern "C" fn archive_call_some(
    table: &mut [u32],
    medium: &mut [u32],
    call: &[u32],
    reply: &mut [u32],
) -> u32
    ensures number { result ≡ (after_some table.old medium.old call.now reply.old).number }
    ensures table { table.new ≡ (after_some table.old medium.old call.now reply.old).table }
    ensures medium { medium.new ≡ (after_some table.old medium.old call.now reply.old).medium }
    ensures reply { reply.new ≡ (after_some table.old medium.old call.now reply.old).reply }
{
    some_words::call_some(table, medium, call, reply)
}

// Runs a list of calls on a started table.
#[unsafe(no_mangle)]
pub extern "C" fn archive_replay(
    capacity: u32,
    salt: u32,
    calls: &[u32],
    medium: &mut [u32],
    replies: &mut [u32],
) -> usize
    ensures number { result ≡ runs capacity salt calls.now replies.old }
    ensures words { medium.new ≡ (after (start_state capacity salt medium.old) (calls_below calls.now result)).medium }
    ensures replies { replies.new
        ≡ with_replies (reply_at (start_state capacity salt medium.old) calls.now) result replies.old }
    ensures ledger { LedgerWords capacity salt medium.old calls.now result replies.new }
{
    replay::replay(capacity, salt, calls, medium, replies)
}

// Runs a list of calls on a lent table.
#[unsafe(no_mangle)]
pub extern "C" fn archive_resume(
    table: &mut [u32],
    calls: &[u32],
    medium: &mut [u32],
    replies: &mut [u32],
) -> usize
    ensures number { result ≡ resumes table.old calls.now replies.old }
    ensures table { table.new
        ≡ with_table table.old (after (lent table.old medium.old) (calls_below calls.now result)).table }
    ensures words { medium.new ≡ (after (lent table.old medium.old) (calls_below calls.now result)).medium }
    ensures replies { replies.new
        ≡ with_replies (reply_at (lent table.old medium.old) calls.now) result replies.old }
{
    replay::resume(table, calls, medium, replies)
}

// Stores the write servers of ids under a salt.
#[unsafe(no_mangle)]
pub extern "C" fn archive_picks(
    weights: &[u32],
    salt: u32,
    ids: &[u32],
    servers: &mut [u32],
) -> usize
    ensures number { result ≡ picks_of weights.now salt ids.now servers.old }
    ensures servers { servers.new
        ≡ set_below (λ i. write_server (nth weights.now) (length weights.now) salt (nth ids.now i)) result
        servers.old }
{
    picks::picks(weights, salt, ids, servers)
}

// Looks many ids up together for a tenant, stores each id's reply, the order of finding and the number of servers opened, and
// counts in the table what single lookups would.
#[unsafe(no_mangle)]
pub extern "C" fn archive_lookup_batch(
    table: &mut [u32],
    medium: &[u32],
    tenant: u32,
    ids: &[u32],
    replies: &mut [u32],
    order: &mut [u32],
    mounts: &mut [u32],
) -> u32
    ensures number { result
        ≡ (after_batch table.old medium.now tenant ids.now replies.old order.old
        mounts.old).number }
    ensures table { table.new
        ≡ (after_batch table.old medium.now tenant ids.now replies.old order.old
        mounts.old).table }
    ensures replies { replies.new
        ≡ (after_batch table.old medium.now tenant ids.now replies.old order.old
        mounts.old).replies }
    ensures order { order.new
        ≡ (after_batch table.old medium.now tenant ids.now replies.old order.old
        mounts.old).order }
    ensures mounts { mounts.new
        ≡ (after_batch table.old medium.now tenant ids.now replies.old order.old
        mounts.old).mounts }
{
    batch_words::lookup_batch(table, medium, tenant, ids, replies, order, mounts)
}

// Stores the image of a table, by which it is carried, and how many words it has.
#[unsafe(no_mangle)]
pub extern "C" fn archive_encode(table: &[u32], image: &mut [u32], length: &mut [u32]) -> u32
    ensures number { result ≡ (after_encode table.now image.old length.old).number }
    ensures image { image.new ≡ (after_encode table.now image.old length.old).destination }
    ensures length { length.new ≡ (after_encode table.now image.old length.old).size }
{
    image_words::encode(table, image, length)
}

// Stores the table of an image, or one of all zeros where the words are the image of no sound table.
#[unsafe(no_mangle)]
pub extern "C" fn archive_decode(image: &[u32], table: &mut [u32]) -> u32
    ensures number { result ≡ decode_number image.now table.old }
    ensures table { table.new ≡ after_decode image.now table.old }
{
    image_words::decode(image, table)
}

// Sets the used of every server of a table from the medium, which is only read.
#[unsafe(no_mangle)]
pub extern "C" fn archive_recover(table: &mut [u32], medium: &[u32]) -> u32
    ensures number { result ≡ recover_number table.old medium.now }
    ensures table { table.new ≡ after_recover table.old medium.now }
{
    recover_words::recover(table, medium)
}
