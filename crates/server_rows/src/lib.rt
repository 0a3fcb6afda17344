// The tests before start, add_server and reweight, in the order of document 01's numbers. That a table is not sound is the first row of
// several calls, and a test of its own in each, so that each function reads as its rows.
#![tactic(auto)]

ghost use Rattle.std.specs.Prelude.{◌≡◌};
ghost use Rattle.table.specs.Parts.{table_of};
ghost use Rattle.replies.specs.Refusal.{first_of};
ghost use Rattle.replies.specs.Reply.{check_number};
ghost use Rattle.server_rows.specs.ServerRows.{start_rows, add_server_rows, reweight_rows};

use limits::MAX_SERVERS;
use replies::Refusal;
use table::View;

#[tactic(auto, unfolding(crate::specs::ServerRows::start_rows, replies::specs::Refusal::first_of, replies::specs::Reply::check_number, replies::specs::Reply::number_of))]
pub fn start(capacity: u32, salt: u32) -> Result<(), Refusal>
    ensures { check_number result ≡ first_of (start_rows capacity salt) }
{
    if !table::in_range(capacity, salt) {
        return Err(Refusal::OutOfRange);
    }
    Ok(())
}

#[tactic(auto, using(table::proofs::Soundness::sound_bounds, crate::proofs::Accepted::server_more), unfolding(crate::specs::ServerRows::add_server_rows, replies::specs::Refusal::first_of, replies::specs::Reply::check_number, replies::specs::Reply::number_of))]
pub fn add_server(table: &View<'_>, medium: &[u32], weight: u32) -> Result<(), Refusal>
    ensures { check_number result ≡ first_of (add_server_rows (table_of table.now) medium.now weight) }
{
    if !table.is_sound() {
        return Err(Refusal::UnsoundTable);
    }
    if weight > table.shape.capacity {
        return Err(Refusal::OutOfRange);
    }
    let count = table.shape.count;
    if count == MAX_SERVERS {
        return Err(Refusal::TooManyServers);
    }
    let entries = table.shape.capacity as usize;
    if medium.len() < medium::server_at(entries, count + 1) {
        return Err(Refusal::ShortMedium);
    }
    if !medium::is_blank(
        medium,
        medium::server_at(entries, count),
        medium::ENTRY_WORDS * entries,
    ) {
        return Err(Refusal::NotBlank);
    }
    Ok(())
}

#[tactic(auto, using(table::proofs::Soundness::sound_bounds), unfolding(crate::specs::ServerRows::reweight_rows, replies::specs::Refusal::first_of, replies::specs::Reply::check_number, replies::specs::Reply::number_of))]
pub fn reweight(table: &View<'_>, server: usize, weight: u32) -> Result<(), Refusal>
    ensures { check_number result ≡ first_of (reweight_rows (table_of table.now) server weight) }
{
    let capacity = table.shape.capacity;
    if !table.is_sound() {
        return Err(Refusal::UnsoundTable);
    }
    if weight > capacity {
        return Err(Refusal::OutOfRange);
    }
    if table.shape.count <= server {
        return Err(Refusal::NoSuchServer);
    }
    if weight > capacity - table.used[server] {
        return Err(Refusal::ExceedsFree);
    }
    Ok(())
}
