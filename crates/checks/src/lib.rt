// The tests that write, delete, lookup and a batch of lookups share.
#![tactic(auto)]

ghost use Rattle.std.specs.Prelude.{◌≡◌};
ghost use Rattle.table.specs.Parts.{table_of};
ghost use Rattle.replies.specs.Refusal.{first_of};
ghost use Rattle.replies.specs.Reply.{check_number};
ghost use Rattle.checks.specs.Ready.{ready_rows, asked_rows};

use replies::Refusal;
use table::View;

// The tests in the order of their rows. `outside` says whether an argument of the call is out of range, and `other` whether its id
// is another tenant's: two bools, since a row is a number and whether it applies.
#[tactic(auto, using(table::proofs::Soundness::sound_bounds), unfolding(crate::specs::Ready::ready_rows, crate::specs::Ready::short, replies::specs::Refusal::first_of, replies::specs::Reply::check_number, replies::specs::Reply::number_of))]
pub fn ready(table: &View<'_>, medium: &[u32], outside: bool, other: bool) -> Result<(), Refusal>
    ensures { check_number result ≡ first_of (ready_rows (table_of table.now) medium.now outside other) }
{
    if !table.is_sound() {
        return Err(Refusal::UnsoundTable);
    }
    if outside {
        return Err(Refusal::OutOfRange);
    }
    if other {
        return Err(Refusal::OtherTenant);
    }
    let count = table.shape.count;
    if count == 0 {
        return Err(Refusal::NoSuchServer);
    }
    if medium.len() < medium::server_at(table.shape.capacity as usize, count) {
        return Err(Refusal::ShortMedium);
    }
    Ok(())
}

// The tests of a call that a tenant makes for an id. `outside` says whether another argument of the call is out of range.
// Tenant and id stay apart in the calls, since a batch has one tenant and many ids: a struct of both would be made at each call to be
// taken apart here.
#[tactic(auto, unfolding(crate::specs::Ready::asked_rows))]
pub fn asked(
    table: &View<'_>,
    medium: &[u32],
    tenant: u32,
    id: u32,
    outside: bool,
) -> Result<(), Refusal>
    ensures { check_number result ≡ first_of (asked_rows (table_of table.now) medium.now tenant id outside) }
{
    let any = outside || tenants::out_of_range(tenant, id);
    let other = tenants::of_another(tenant, id);
    ready(table, medium, any, other)
}
