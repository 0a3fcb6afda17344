// The answer to a batch of lookups, put together from the answer to each: it knows no table, no medium and no search.
#![tactic(auto)]

mod ordering;

ghost use Rattle.std.specs.Prelude.{◌≡◌, ◌<◌, length, eqb, All};
ghost use Rattle.limits.specs.Limits.{max_ids};
ghost use Rattle.lists.specs.Below.{nth, some_below, total};

use limits::MAX_IDS;
pub use ordering::order;
use replies::LookupAnswer;

// What stands in a batch after its last answer, and before an answer is known.
pub const UNANSWERED: LookupAnswer = LookupAnswer {
    value: Ok(0),
    opened: 0,
};

// The answer to a batch of lookups. `answers` has for each id, in the ids' order, what its lookup answers, and `order` has the
// ids' positions in the order of finding; after that there are only answers that found 0 and opened nothing, and zeros. `mounts`
// is the number of servers opened for all ids together. They are arrays of 256 since no heap is had, and two since the order is of
// positions. An opened count has 32 bits, as in a reply's words.
#[derive(Clone, Copy)]
pub struct Batch {
    pub mounts: usize,
    pub answers: [LookupAnswer; MAX_IDS],
    pub order: [u32; MAX_IDS],
    ghost few: { All (λ a. a.opened < 4294967296) answers },
}

impl Batch {
    ghost use Rattle.batch_answer.specs.Answer.{opened_counts_of};

    // How many servers the lookups opened, each counted for itself.
    pub fn opened(&self) -> usize
        ensures { result ≡ total (nth (opened_counts_of self.now.answers)) max_ids }
    {
        self.answers.iter().map(|answer| answer.opened).sum()
    }
}

// Whether one of the numbers is `x`.
pub fn has(numbers: &[u16], x: u16) -> bool
    ensures { result ≡ some_below (λ i. eqb (nth numbers.now i) x) (length numbers.now) }
{
    numbers.contains(&x)
}
