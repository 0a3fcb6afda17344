// Recover: every server's used from the words of the medium.
#![tactic(auto)]

ghost use Rattle.std.specs.Prelude.{◌≡◌, ◌≤◌, length};
ghost use Rattle.limits.specs.Limits.{max_servers, max_capacity};
ghost use Rattle.lists.specs.Below.{set_below};
ghost use Rattle.medium.specs.Entry.{server_at, Inside};
ghost use Rattle.table.specs.Parts.{table_of};
ghost use Rattle.replies.specs.Refusal.{first_of};
ghost use Rattle.replies.specs.Reply.{check_number, reply_of_check};
ghost use Rattle.recovery.specs.Recovery.{used_on, recover_rows, recover_reply, recover_table};

use medium::ENTRY_WORDS;
use replies::Refusal;
use table::{Table, View};

// One past the last entry of a server that has a word which is not blank, or 0.
pub fn used_on(medium: &[u32], capacity: usize, server: usize) -> usize
    requires { Inside capacity server medium.now }
    ensures { result ≡ used_on capacity medium.now server }
{
    (0..capacity)
        .rev()
        .find(|&j| !medium::is_blank(medium, medium::entry_at(capacity, server, j), ENTRY_WORDS))
        .map_or(0, |j| j + 1)
}

// Stores that number for each server in the column of the entries used. The count stands beside the column: of a part that is lent in
// its place, each caller would have to say what it makes of the whole.
pub fn recount(medium: &[u32], capacity: usize, count: usize, used: &mut [u32])
    requires capacity_le_max_capacity { (capacity ≤ max_capacity) × (count ≤ max_servers) × (server_at capacity count ≤ length medium.now) }
    requires count_in_bounds { count ≤ length used.old }
    ensures { used.new ≡ set_below (used_on capacity medium.now) count used.old }
{
    for (k, used) in used[..count].iter_mut().enumerate() {
        *used = used_on(medium, capacity, k) as u32;
    }
}

// The tests of recover: a sound table, and a medium that has the words of its servers.
#[tactic(auto, using(table::proofs::Soundness::sound_bounds), unfolding(crate::specs::Recovery::recover_rows, checks::specs::Ready::short, replies::specs::Refusal::first_of, replies::specs::Reply::check_number, replies::specs::Reply::number_of))]
pub fn check(table: &View<'_>, medium: &[u32]) -> Result<(), Refusal>
    ensures { check_number result ≡ first_of (recover_rows (table_of table.now) medium.now) }
{
    if !table.is_sound() {
        return Err(Refusal::UnsoundTable);
    }
    if medium.len() < medium::server_at(table.shape.capacity as usize, table.shape.count) {
        return Err(Refusal::ShortMedium);
    }
    Ok(())
}

// Sets the used of every server from the medium, which is only read.
pub fn recover(table: &mut Table, medium: &[u32]) -> Result<(), Refusal>
    ensures reply { reply_of_check result ≡ recover_reply table.old medium.now }
    ensures table { table.new ≡ recover_table table.old medium.now }
{
    check(&table.view(), medium)?;
    let capacity = table.capacity as usize;
    recount(medium, capacity, table.count, &mut table.used);
    Ok(())
}
