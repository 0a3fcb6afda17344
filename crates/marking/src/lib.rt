// The marks on one server: burned on the entries that bear an id, the lowest first, blocks without the id's word passed over.
#![tactic(auto)]

ghost use Rattle.std.specs.Prelude.{◌≡◌, ◌<◌, ◌≤◌, ◌+◌, ◌-◌, ◌*◌, length, take};
ghost use Rattle.limits.specs.Limits.{max_capacity, max_sum, content_range};
ghost use Rattle.medium.specs.Entry.{entry_words, Inside};
ghost use Rattle.medium.specs.Burn.{burn_all, marks_on, invalidations};
ghost use Rattle.marking.specs.Run.{marks_in};

use medium::{ENTRY_WORDS, MARK_PLACE};
use scan::{BLOCK_ENTRIES, BLOCK_WORDS};

// Where a block has the id's word so many entries from it on are gone over one by one, with no test of the blocks that they are: a hot
// id is in each block, and the tests would be a pass of their own.
const RUN: usize = 16 * BLOCK_ENTRIES;

// Where fewer entries are left no block of them is tested: a test of so few blocks costs as much as it may save.
const FEW: usize = 2 * BLOCK_ENTRIES;

// The entries of a group. They are so few that the compiler writes the test of each out, one after another.
const GROUP: usize = 4;

// Burns a mark of this content on each of the `n` entries from an address on that bears an id, the lowest first, while the number of
// marks is below `burns`: so many were counted before. It answers these with those entries added, burned or not. `from` and `n` say
// a place by its address, as the definitions do.
#[tactic(auto, using(crate::proofs::Marked::few))]
fn mark_few(
    medium: &mut [u32],
    from: usize,
    n: usize,
    id: u32,
    content: u32,
    burns: usize,
    counted: usize,
) -> usize
    requires n_in_bounds { from + entry_words * n ≤ length medium.old }
    requires content_lt_content_range { content < content_range }
    requires n_bound { counted + n ≤ max_sum + max_capacity }
    ensures count { result ≡ counted + length (marks_in medium.old id from n) }
    ensures words { medium.new
        ≡ burn_all medium.old (take (burns - counted) (invalidations content (marks_in medium.old id from n))) }
{
    let word = medium::mark_word(content);
    let mut marks = counted;
    for i in 0..n {
        let at = from + ENTRY_WORDS * i;
        if medium::bears(medium, at, id) {
            if marks < burns {
                medium[at + MARK_PLACE] = word;
            }
            marks += 1;
        }
    }
    marks
}

// The same in groups.
#[tactic(auto, using(crate::proofs::Marked::few))]
fn mark_run(
    medium: &mut [u32],
    from: usize,
    n: usize,
    id: u32,
    content: u32,
    burns: usize,
    counted: usize,
) -> usize
    requires n_in_bounds { from + entry_words * n ≤ length medium.old }
    requires content_lt_content_range { content < content_range }
    requires n_bound { counted + n ≤ max_sum + max_capacity }
    ensures count { result ≡ counted + length (marks_in medium.old id from n) }
    ensures words { medium.new
        ≡ burn_all medium.old (take (burns - counted) (invalidations content (marks_in medium.old id from n))) }
{
    let groups = n / GROUP;
    let mut marks = counted;
    for group in 0..groups {
        let at = from + ENTRY_WORDS * GROUP * group;
        marks = mark_few(medium, at, GROUP, id, content, burns, marks);
    }
    let at = from + ENTRY_WORDS * GROUP * groups;
    mark_few(medium, at, n % GROUP, id, content, burns, marks)
}

// Burns a mark of this content on each live entry of an id on a server, the lowest first, while the number of marks is below `burns`:
// `n` were counted before. It answers these with the live entries added, burned or not. It takes no `scan::Server`, which lends the
// words to be read alone.
#[tactic(auto, using(crate::proofs::Runs::server_inside, crate::proofs::Marked::few))]
pub fn invalidate_server(
    medium: &mut [u32],
    capacity: usize,
    used: usize,
    id: u32,
    server: usize,
    content: u32,
    burns: usize,
    n: usize,
) -> usize
    requires inside { Inside capacity server medium.old }
    requires used_le_capacity { used ≤ capacity }
    requires content_lt_content_range { content < content_range }
    requires n_le_max_sum { n ≤ max_sum }
    ensures count { result ≡ n + length (marks_on capacity used medium.old id server) }
    ensures words { medium.new
        ≡ burn_all medium.old (take (burns - n) (invalidations content (marks_on capacity used medium.old id server))) }
{
    let first = medium::entry_at(capacity, server, 0);
    let mut marks = n;
    let mut done = 0;
    // A `while`, since the step is a block where the id's word is not, and a run where it may be.
    while done < used {
        let at = first + ENTRY_WORDS * done;
        let left = used - done;
        let mut step = BLOCK_ENTRIES;
        if left < FEW || scan::has(medium, at, BLOCK_WORDS, id) {
            step = RUN.min(left);
            marks = mark_run(medium, at, step, id, content, burns, marks);
        }
        done += step;
    }
    marks
}
