// The tests before a write, in the order of its rows, and the server that it goes to.
#![tactic(auto)]

ghost use Rattle.std.specs.Prelude.{◌≡◌, IfOk};
ghost use Rattle.table.specs.Parts.{table_of};
ghost use Rattle.replies.specs.Refusal.{first_of};
ghost use Rattle.replies.specs.Reply.{check_number};
ghost use Rattle.planning.specs.WriteRows.{target, write_rows};

use limits::CONTENT_RANGE;
use replies::Refusal;
use table::{SoundView, View};

// The server that a write of an id goes to on a sound table.
fn target_of(sound: &SoundView<'_>, id: u32) -> usize
    ensures { result ≡ target (table_of sound.now.view.now) id }
{
    let table = sound.view;
    let shape = table.shape;
    // The slice has a name, so that the check knows its length from the array's type.
    let weights = table.weights;
    let all: &[u32] = weights;
    placement::write_server(&all[..shape.count], shape.salt, id)
}

// The server that a write goes to, or the refusal of the tests before it.
pub fn plan_write(
    table: &View<'_>,
    medium: &[u32],
    tenant: u32,
    id: u32,
    value: u32,
) -> Result<usize, Refusal>
    ensures number { check_number result ≡ first_of (write_rows (table_of table.now) medium.now tenant id value) }
    ensures server { IfOk result (λ k. k ≡ target (table_of table.now) id) }
{
    checks::asked(table, medium, tenant, id, CONTENT_RANGE <= value)?;
    let sound = SoundView { view: table };
    let shape = table.shape;
    let server = target_of(&sound, id);
    let entry = table.used[server];
    if entry == shape.capacity {
        return Err(Refusal::ServerFull);
    }
    let at = medium::entry_at(shape.capacity as usize, server, entry as usize);
    if !medium::is_blank(medium, at, medium::ENTRY_WORDS) {
        return Err(Refusal::NotBlank);
    }
    Ok(server)
}
