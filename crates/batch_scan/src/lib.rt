// One pass over the entries of a server for several ids at once: the newest entry of each. This crate knows the words of the medium
// and nothing of tables, fractions or the parts of a batch.
#![tactic(auto)]

ghost use Rattle.std.specs.Prelude.{◌≡◌, ◌+◌, ◌*◌, ◌≤◌, length, eqb};
ghost use Rattle.limits.specs.Limits.{max_capacity};
ghost use Rattle.lists.specs.Below.{nth, some_below};
ghost use Rattle.medium.specs.Entry.{entry_words};
ghost use Rattle.batch_scan.specs.Scan.{slots, slot_of, tested_entries, is_set, Covers, newest_after, EntryMet, Passed, NewestOf};

use limits::{Ids, MAX_IDS};
use medium::{BLANK, ENTRY_WORDS, MARK_PLACE};
use scan::Server;

// The slots of a filter. An id has one of them, and an entry whose slot is not set bears none of the ids that the filter was filled for.
const SLOTS: usize = 4096;

// The entries that are tested together.
const TESTED_ENTRIES: usize = 8;

// The slot of an id's word.
fn slot(word: u32) -> usize
    ensures { result ≡ slot_of word }
{
    word as usize % SLOTS
}

// Sets the slots of the ids.
#[tactic(auto, unfolding(crate::specs::Scan::is_set))]
fn fill(filter: &mut [bool; SLOTS], ids: &[u32])
    ensures { Covers filter.new ids.now (length ids.now) }
{
    for id in ids {
        filter[slot(*id)] = true;
    }
}

// What an id's newest entry so far becomes at an entry that has no mark: the entry is met if it bears the id and none was met before.
#[tactic(auto, unfolding(crate::specs::Scan::newest_after))]
fn meet_one(word: u32, id: u32, newest: Option<u32>, entry: u32) -> Option<u32>
    ensures { result ≡ newest_after (eqb word id) entry newest }
{
    if newest.is_none() && word == id {
        Some(entry)
    } else {
        newest
    }
}

// Meets an entry without a mark, which has this id's word, for each of the ids.
fn meet(newest: &mut [Option<u32>; MAX_IDS], ids: &Ids<'_>, word: u32, entry: u32)
    ensures { EntryMet word entry ids.now.all.now (length ids.now.all.now) newest.old newest.new }
{
    // Counted, and no `zip`, as image_reader says.
    for (i, id) in ids.all.iter().enumerate() {
        newest[i] = meet_one(word, *id, newest[i], entry);
    }
}

// The ids that a pass is for, and a filter that has their slots set. The words of the medium and an address in them are lent beside it, as
// the definitions say a place.
#[derive(Drop)]
struct Sought<'a> {
    ids: &'a Ids<'a>,
    filter: &'a [bool; SLOTS],
    ghost covers: { Covers filter.now ids.now.all.now (length ids.now.all.now) },
}

impl Sought<'_> {
    // Whether the slot of one of the entries of a block is set. The block begins at an address.
    fn touches(&self, medium: &[u32], at: usize) -> bool
        requires { at + entry_words * tested_entries ≤ length medium.now }
        ensures { result ≡ some_below (λ j. is_set self.now.filter.now (nth medium.now (at + entry_words * j))) tested_entries }
    {
        (0..TESTED_ENTRIES).any(|j| self.filter[slot(medium[at + ENTRY_WORDS * j])])
    }

    // Passes the entries from `high` down to `low` of the server that begins at an address. An entry whose slot is not set bears none
    // of the ids, and an entry with a mark is none's.
    fn pass(
        &self,
        newest: &mut [Option<u32>; MAX_IDS],
        medium: &[u32],
        base: usize,
        low: usize,
        high: usize,
    )
        requires low_le_high { (low ≤ high) × (high ≤ max_capacity) }
        requires high_in_bounds { base + entry_words * high ≤ length medium.now }
        ensures { Passed medium.now base self.now.ids.now.all.now (length self.now.ids.now.all.now) low high newest.old newest.new }
    {
        for j in (low..high).rev() {
            let at = base + ENTRY_WORDS * j;
            let word = medium[at];
            // One test by `&`: by `&&` it would be no plainer, since its proof has an arm for each way to be false.
            if self.filter[slot(word)] & (medium[at + MARK_PLACE] == BLANK) {
                meet(newest, self.ids, word, j as u32);
            }
        }
    }

    // Passes all entries, a block at a time: where no slot of a block is set nothing is to be met there. The entries below the lowest
    // whole block come last.
    fn pass_all(
        &self,
        newest: &mut [Option<u32>; MAX_IDS],
        medium: &[u32],
        base: usize,
        used: usize,
    )
        requires used_le_max_capacity { used ≤ max_capacity }
        requires used_in_bounds { base + entry_words * used ≤ length medium.now }
        ensures { Passed medium.now base self.now.ids.now.all.now (length self.now.ids.now.all.now) 0 used newest.old newest.new }
    {
        let rest = used % TESTED_ENTRIES;
        for b in (0..used / TESTED_ENTRIES).rev() {
            let low = rest + TESTED_ENTRIES * b;
            if self.touches(medium, base + ENTRY_WORDS * low) {
                self.pass(newest, medium, base, low, low + TESTED_ENTRIES);
            }
        }
        self.pass(newest, medium, base, 0, rest);
    }
}

// The newest entry of each of the ids on a server.
pub fn newest_of(server: &Server<'_>, ids: &Ids<'_>) -> [Option<u32>; MAX_IDS]
    ensures { NewestOf server.now.capacity server.now.used server.now.medium.now ids.now.all.now server.now.number result }
{
    let base = medium::server_at(server.capacity, server.number);
    let mut filter: [bool; SLOTS] = [false; SLOTS];
    fill(&mut filter, ids.all);
    let sought = Sought {
        ids,
        filter: &filter,
    };
    let mut newest: [Option<u32>; MAX_IDS] = [None; MAX_IDS];
    sought.pass_all(&mut newest, server.medium, base, server.used);
    newest
}
