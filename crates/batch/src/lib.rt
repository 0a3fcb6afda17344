// A batch: up to 256 ids looked up together, server by server from the highest down, each opened at most once for all the ids
// that it is read for. The table counts for the tenant what single lookups would.
#![tactic(auto)]

ghost use Rattle.std.specs.Prelude.{◌≡◌, ◌<◌, cond, ◌==◌, All};
ghost use Rattle.table.specs.Parts.{table_of};
ghost use Rattle.replies.specs.Reply.{number_of, check_number};
ghost use Rattle.batch_answer.specs.Answer.{reply_of_batch, refusals_of, values_of, opened_counts_of};
ghost use Rattle.batch.specs.Batch.{long_number, batch_reply, batch_table};

use batch_answer::{Batch, UNANSWERED};
use batch_begin::Parts;
use limits::{Few, Ids, MAX_IDS};
use replies::Refusal;
use scan::Server;
use table::{Table, View};

// Why a list that is too long is refused.
#[tactic(auto, unfolding(crate::specs::Batch::long_number, replies::specs::Reply::number_of))]
fn refuse_list(table: &View<'_>) -> Refusal
    ensures { number_of result ≡ long_number (table_of table.now) }
{
    if table.is_sound() {
        return Refusal::OutOfRange;
    }
    Refusal::UnsoundTable
}

// The servers that a batch goes through: all, or none where the tests refuse every id.
fn searched(ready: &Result<(), Refusal>, count: usize) -> usize
    ensures { result ≡ cond (check_number ready.now == 0) count 0 }
{
    if ready.is_ok() { count } else { 0 }
}

// The answer to a batch, by its parts after all servers. It stands apart for speed: a function fills with zeros, at each call, all
// arrays that it has, and in so small a function the compiler sees that they are stored whole before they are read. For the same reason
// it answers a `Result`, and no `Batch` to be wrapped by its caller.
#[tactic(auto, unfolding(batch_answer::specs::Answer::reply_of_batch))]
fn gathered(parts: &Parts, mounts: usize, order: [u32; MAX_IDS]) -> Result<Batch, Refusal>
    requires { All (λ a. a.opened < 4294967296) parts.now.answers }
    ensures { reply_of_batch result
        ≡ record {
          refusal = 0;
          mounts = mounts;
          refusals = refusals_of parts.now.answers;
          values = values_of parts.now.answers;
          opened = opened_counts_of parts.now.answers;
          order = order;
        } }
{
    Ok(Batch {
        mounts,
        answers: parts.answers,
        order,
    })
}

// Looks a list of ids up for a tenant on a table that is lent. The caller counts the servers that were opened. It begins with its
// parts for the same reason: what is stored whole at a function's head is not filled with zeros too.
pub fn lookup_batch_in(
    table: &View<'_>,
    medium: &[u32],
    tenant: u32,
    ids: &[u32],
) -> Result<Batch, Refusal>
    ensures { reply_of_batch result ≡ batch_reply (table_of table.now) medium.now tenant ids.now }
{
    let mut parts = Parts {
        answers: [UNANSWERED; MAX_IDS],
        ends: [0; MAX_IDS],
    };
    let n = ids.len();
    if n > MAX_IDS {
        return Err(refuse_list(table));
    }
    let listed: Ids<'_> = Few { all: ids };
    let ready = checks::ready(table, medium, false, false);
    let servers = searched(&ready, table.shape.count);
    batch_begin::begin(&mut parts, ready, tenant, &listed);
    let mut mounts: usize = 0;
    for k in (0..servers).rev() {
        let server = Server {
            medium,
            capacity: table.shape.capacity as usize,
            used: table.used[k] as usize,
            number: k,
        };
        batch_steps::step_all(&mut parts, table, &server, &listed);
        if batch_answer::has(&parts.ends[..n], k as u16 + 1) {
            mounts += 1;
        }
    }
    gathered(
        &parts,
        mounts,
        batch_answer::order(
            &Few {
                all: &parts.ends[..n],
            },
            servers,
        ),
    )
}

// Looks a list of ids up for a tenant.
pub fn lookup_batch(
    table: &mut Table,
    medium: &[u32],
    tenant: u32,
    ids: &[u32],
) -> Result<Batch, Refusal>
    ensures reply { reply_of_batch result ≡ batch_reply table.old medium.now tenant ids.now }
    ensures table { table.new ≡ batch_table table.old medium.now tenant ids.now }
{
    let batch = lookup_batch_in(&table.view(), medium, tenant, ids)?;
    upkeep::add_opened(table, tenant, batch.opened());
    Ok(batch)
}
