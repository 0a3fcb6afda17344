// What calls make of a table: one server more, another weight, one entry more used, servers opened for a tenant. That a table is sound
// is a clause of those that ask it, and no type: they change the table, so that the fact would have to be shown of it again.
#![tactic(auto)]

ghost use Rattle.std.specs.Prelude.{◌≡◌, true, ◌<◌, ◌≤◌, length};
ghost use Rattle.limits.specs.Limits.{max_servers, max_capacity};
ghost use Rattle.lists.specs.Below.{nth};
ghost use Rattle.table.specs.Sound.{sound};
ghost use Rattle.upkeep.specs.Upkeep.{with_server, with_weight, one_more, with_entry, with_opened};

use table::Table;

// Gives a sound table one server more.
pub fn add_server(table: &mut Table, weight: u32)
    requires table_value { sound table.old ≡ true }
    requires count_lt_max_servers { table.old.count < max_servers }
    requires weight_le_capacity { weight ≤ table.old.capacity }
    ensures { table.new ≡ with_server table.old weight }
{
    let k = table.count;
    let sum = placement::sum_weights(&table.weights[..k]);
    let write = placement::write_p(k, weight, sum + weight);
    table.weights[k] = weight;
    table.used[k] = 0;
    table.numerators[k] = write.num;
    table.denominators[k] = write.den;
    table.count = k + 1;
}

// Gives a server of a sound table another weight and raises every ReadP.
#[tactic(auto, using(table::proofs::Soundness::sound_bounds))]
pub fn set_weight(table: &mut Table, server: usize, weight: u32)
    requires table_value { sound table.old ≡ true }
    requires server_lt_count { server < table.old.count }
    requires weight_le_capacity { weight ≤ table.old.capacity }
    ensures { table.new ≡ with_weight table.old server weight }
{
    table.weights[server] = weight;
    let mut sum: u32 = 0;
    for i in 0..table.count {
        let w = table.weights[i];
        sum += w;
        let read = table.view().read_p(i);
        let write = placement::write_p(i, w, sum);
        if !placement::at_least(read, write) {
            table.numerators[i] = write.num;
            table.denominators[i] = write.den;
        }
    }
}

// Counts one entry more as used on a server, in the column of the entries used.
#[tactic(auto, unfolding(crate::specs::Upkeep::one_more))]
pub fn count_entry(used: &mut [u32], server: usize)
    requires server_in_bounds { server < length used.old }
    requires server_bound { nth used.old server ≤ max_capacity }
    ensures { used.new ≡ one_more used.old server }
{
    used[server] += 1;
}

// Counts one entry more as used on a server of a sound table.
#[tactic(auto, using(crate::proofs::Upkeep::used_bounds), unfolding(crate::specs::Upkeep::with_entry))]
pub fn add_entry(table: &mut Table, server: usize)
    requires table_value { sound table.old ≡ true }
    requires server_lt_count { server < table.old.count }
    ensures { table.new ≡ with_entry table.old server }
{
    count_entry(&mut table.used, server);
}

// Counts opened servers for a tenant in a table of any bits.
#[tactic(auto, unfolding(crate::specs::Upkeep::with_opened))]
pub fn add_opened(table: &mut Table, tenant: u32, opened: usize)
    ensures { table.new ≡ with_opened table.old tenant opened }
{
    counters::count(&mut table.counters, tenant, opened);
}
