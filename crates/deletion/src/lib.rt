// Delete: every live entry of an id on every readable server is invalidated.
#![tactic(auto)]

ghost use Rattle.std.specs.Prelude.{◌≡◌};
ghost use Rattle.table.specs.Parts.{table_of};
ghost use Rattle.replies.specs.Reply.{reply_of_delete};
ghost use Rattle.deletion.specs.Deletion.{delete_reply, delete_medium, delete_some_medium};

use limits::ALL_BURNS;
use medium::Mark;
use replies::Refusal;
use table::{Table, View};

// Deletes an id for a tenant on a table that is lent, with as many marks burned as `burns` allow. It answers how many entries it
// invalidates, as if all were.
pub fn delete_in(
    table: &View<'_>,
    medium: &mut [u32],
    tenant: u32,
    id: u32,
    burns: usize,
) -> Result<usize, Refusal>
    ensures reply { reply_of_delete result ≡ delete_reply (table_of table.now) medium.old tenant id }
    ensures medium { medium.new ≡ delete_some_medium (table_of table.now) medium.old tenant id burns }
{
    checks::asked(table, medium, tenant, id, false)?;
    let n = invalidation::invalidate(medium, table, id, 0, Mark::Deleted.content(), burns);
    if n == 0 {
        return Err(Refusal::NotFound);
    }
    Ok(n)
}

// Deletes an id for a tenant, with a number of burns.
pub fn delete_some(
    table: &Table,
    medium: &mut [u32],
    tenant: u32,
    id: u32,
    burns: usize,
) -> Result<usize, Refusal>
    ensures reply { reply_of_delete result ≡ delete_reply table.now medium.old tenant id }
    ensures medium { medium.new ≡ delete_some_medium table.now medium.old tenant id burns }
{
    delete_in(&table.view(), medium, tenant, id, burns)
}

// Deletes an id for a tenant.
#[tactic(auto, using(crate::proofs::Whole::delete_plain))]
pub fn delete(table: &Table, medium: &mut [u32], tenant: u32, id: u32) -> Result<usize, Refusal>
    ensures reply { reply_of_delete result ≡ delete_reply table.now medium.old tenant id }
    ensures medium { medium.new ≡ delete_medium table.now medium.old tenant id }
{
    delete_some(table, medium, tenant, id, ALL_BURNS)
}
