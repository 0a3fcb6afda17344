// Write: a value and its id go to the write server, and earlier entries of the id are invalidated.
#![tactic(auto)]

ghost use Rattle.std.specs.Prelude.{◌≡◌, [], ◌∷◌, ◌<◌, ◌+◌, length, take, leb};
ghost use Rattle.limits.specs.Limits.{content_range};
ghost use Rattle.medium.specs.Word.{id_word, value_word};
ghost use Rattle.medium.specs.Entry.{value_place};
ghost use Rattle.medium.specs.Burn.{burn_all};
ghost use Rattle.table.specs.Parts.{table_of};
ghost use Rattle.replies.specs.Reply.{reply_of_write};
ghost use Rattle.writing.specs.declared.TheConstants.{ENTRY_BURNS};
ghost use Rattle.writing.specs.Writing.{write_reply, write_table, write_medium, write_some_table, write_some_medium};

use limits::ALL_BURNS;
use medium::Mark;
use replies::{Refusal, Written};
use table::{Table, View};

// The burns of an entry: its value word and its id word.
const ENTRY_BURNS: usize = 2;

// Whether `burns` are all that a write with `n` marks makes, or more.
pub fn is_whole(n: usize, burns: usize) -> bool
    ensures { result ≡ leb (n + ENTRY_BURNS) burns }
{
    ENTRY_BURNS <= burns && n <= burns - ENTRY_BURNS
}

// Burns the value word and then the id word of the entry that begins at `at`, as many of the two as `burns` allow.
fn enter(medium: &mut [u32], at: usize, id: u32, value: u32, burns: usize)
    requires value_place_in_bounds { at + value_place < length medium.old }
    requires value_lt_content_range { value < content_range }
    ensures { medium.new ≡ burn_all medium.old
        (take burns (record { address = at + value_place; word = value_word value } ∷ record { address = at; word = id_word id } ∷ [])) }
{
    if 0 < burns {
        medium[at + medium::VALUE_PLACE] = medium::value_word(value);
    }
    if 1 < burns {
        medium[at] = id;
    }
}

// Writes for a tenant on a table that is lent: the value and the id go to the write server's next entry, then each earlier live entry
// of the id on readable servers at or above it is invalidated, with as many burns as `burns` allow. It answers as if all were made.
// The caller counts the entry as used on the server that is answered, where all burns were made.
pub fn write_in(
    table: &View<'_>,
    medium: &mut [u32],
    tenant: u32,
    id: u32,
    value: u32,
    burns: usize,
) -> Result<Written, Refusal>
    ensures reply { reply_of_write result ≡ write_reply (table_of table.now) medium.old tenant id value }
    ensures medium { medium.new ≡ write_some_medium (table_of table.now) medium.old tenant id value burns }
{
    let server = planning::plan_write(table, medium, tenant, id, value)?;
    let capacity = table.shape.capacity as usize;
    let at = medium::entry_at(capacity, server, table.used[server] as usize);
    enter(medium, at, id, value, burns);
    let left = burns.saturating_sub(ENTRY_BURNS);
    let content = Mark::Replaced.content();
    let invalidated = invalidation::invalidate(medium, table, id, server, content, left);
    Ok(Written {
        server,
        invalidated,
    })
}

// Writes for a tenant, with a number of burns. Where not all were made the table is as it was.
pub fn write_some(
    table: &mut Table,
    medium: &mut [u32],
    tenant: u32,
    id: u32,
    value: u32,
    burns: usize,
) -> Result<Written, Refusal>
    ensures reply { reply_of_write result ≡ write_reply table.old medium.old tenant id value }
    ensures table { table.new ≡ write_some_table table.old medium.old tenant id value burns }
    ensures medium { medium.new ≡ write_some_medium table.old medium.old tenant id value burns }
{
    let written = write_in(&table.view(), medium, tenant, id, value, burns)?;
    if is_whole(written.invalidated, burns) {
        upkeep::add_entry(table, written.server);
    }
    Ok(written)
}

// Writes for a tenant.
#[tactic(auto, using(crate::proofs::Whole::write_plain_table, crate::proofs::Whole::write_plain_medium))]
pub fn write(
    table: &mut Table,
    medium: &mut [u32],
    tenant: u32,
    id: u32,
    value: u32,
) -> Result<Written, Refusal>
    ensures reply { reply_of_write result ≡ write_reply table.old medium.old tenant id value }
    ensures table { table.new ≡ write_table table.old medium.old tenant id value }
    ensures medium { medium.new ≡ write_medium table.old medium.old tenant id value }
{
    write_some(table, medium, tenant, id, value, ALL_BURNS)
}
