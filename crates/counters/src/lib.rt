// The counters of opened servers, one for each tenant, on plain numbers: nothing here knows a table.
#![tactic(auto)]

ghost use Rattle.std.specs.Prelude.{◌≡◌, length};
ghost use Rattle.limits.specs.Limits.{tenants};
ghost use Rattle.counters.specs.Counter.{grown, counted, in_bounds};

use limits::MAX_COUNTER;

// A counter after servers were opened: it grows by their number and stops at its bound. The cases stand apart, as document 02 has them: by
// `saturating_sub` and `min` of the room it would be no plainer, since one above its bound is in no such sum.
#[tactic(auto, unfolding(crate::specs::Counter::grown))]
pub fn grown(counter: u32, opened: usize) -> u32
    ensures { result ≡ grown counter opened }
{
    if counter >= MAX_COUNTER {
        return counter;
    }
    let room = MAX_COUNTER - counter;
    if opened < room as usize {
        counter + opened as u32
    } else {
        MAX_COUNTER
    }
}

// Counts the servers that were opened for a tenant. A number that is no tenant's has no counter.
#[tactic(auto, using(std::proofs::lemmas::List::set_past), unfolding(crate::specs::Counter::counted))]
pub fn count(counters: &mut [u32], tenant: u32, opened: usize)
    ensures { counters.new ≡ counted counters.old tenant opened }
{
    let at = tenant as usize;
    if at < counters.len() {
        counters[at] = grown(counters[at], opened);
    }
}

// Whether no counter is above its bound. All are looked at: `all` leaves at the first that is, by a branch for each, and a short call
// takes up to 1.08 times as many instructions with it.
pub fn in_bounds(counters: &[u32]) -> bool
    requires { length counters.now ≡ tenants }
    ensures { result ≡ in_bounds counters.now }
{
    let mut within = true;
    for counter in counters {
        within &= *counter <= MAX_COUNTER;
    }
    within
}
