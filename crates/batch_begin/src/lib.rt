// The parts of a batch, one for each id, and what they are before any server is opened. This crate knows no table and no medium.
#![tactic(auto)]

ghost use Rattle.std.specs.Prelude.{◌≡◌, length};
ghost use Rattle.replies.specs.Reply.{number_of, check_number};
ghost use Rattle.batch_begin.specs.Begin.{columns_of, first_refusal, first_parts};

use batch_answer::UNANSWERED;
use limits::{Ids, MAX_IDS};
use replies::{LookupAnswer, Refusal};

// How far the lookups of all ids are, in the order of the ids. An answer is of any type that stands for one (`Answering` of
// batch_steps); it is `NotFound`, number 8, while no entry was met, which it stays where no server below has one. An end is one more
// than the last server opened for the id, or 0. Tried: `Option<u8>` for an end was proved, and with 256 servers 256 ids took 22 % more
// instructions, since the library looks for a number in groups and for an option one at a time. The two arrays stand beside one
// another, since the first is handed on whole.
#[derive(Clone, Copy)]
pub struct Parts<A = LookupAnswer> {
    pub answers: [A; MAX_IDS],
    pub ends: [u16; MAX_IDS],
}

// The refusal of an id before any server is opened, by what the tests say of an id in range that is the caller's own.
#[tactic(auto, unfolding(crate::specs::Begin::first_refusal, crate::specs::Begin::absent_so_far, replies::specs::Reply::number_of, replies::specs::Reply::check_number))]
fn first_refusal(ready: Result<(), Refusal>, tenant: u32, id: u32) -> Refusal
    ensures { number_of result ≡ first_refusal (check_number ready) tenant id }
{
    if ready == Err(Refusal::UnsoundTable) {
        return Refusal::UnsoundTable;
    }
    if tenants::out_of_range(tenant, id) {
        return Refusal::OutOfRange;
    }
    if tenants::of_another(tenant, id) {
        return Refusal::OtherTenant;
    }
    ready.err().unwrap_or(Refusal::NotFound)
}

// Makes every id's part what it is before any server is opened, by what the tests say of an id in range that is the caller's own.
// The parts are lent, since parts that are returned are copied: a batch of one id takes 17,700 instructions so, and took 26,900.
pub fn begin(parts: &mut Parts, ready: Result<(), Refusal>, tenant: u32, ids: &Ids<'_>)
    ensures { columns_of parts.new ≡ first_parts (check_number ready) tenant ids.now.all.now (length ids.now.all.now) }
{
    parts.answers.fill(UNANSWERED);
    parts.ends.fill(0);
    // Counted, and no `zip`, as image_reader says.
    for (i, id) in ids.all.iter().enumerate() {
        parts.answers[i] = LookupAnswer {
            value: Err(first_refusal(ready, tenant, *id)),
            opened: 0,
        };
    }
}
