// A search of a server for an id: whether a block of its entries may bear the id, and the newest entry that does.
#![tactic(auto)]

ghost use Rattle.std.specs.Prelude.{◌≡◌, ◌≤◌, ◌+◌, ◌%◌, length, eqb};
ghost use Rattle.std.specs.Option.{option_or};
ghost use Rattle.lists.specs.Below.{nth, some_below, highest};
ghost use Rattle.medium.specs.Word.{id_word};
ghost use Rattle.medium.specs.Entry.{entry_at, bears_at, live, Inside};
ghost use Rattle.scan.specs.declared.TheConstants.{BLOCK_ENTRIES};

use medium::ENTRY_WORDS;

// The entries of a block, and its words: a whole number of the machine's vectors, and of entries of three words and of four.
pub const BLOCK_ENTRIES: usize = 32;

pub const BLOCK_WORDS: usize = ENTRY_WORDS * BLOCK_ENTRIES;

// From so many entries on a server is searched by blocks first.
const MANY: usize = 256;

// The entries of a group. They are so few that the compiler writes the test of each out, one after another.
const GROUP: usize = 4;

// Whether some of the `n` words from `from` on is an id's. It looks at every word, whatever it finds, so that the compiler compares
// several at a time: with `contains` a search takes 1.4 times as many instructions.
pub fn has(medium: &[u32], from: usize, n: usize, id: u32) -> bool
    requires { from + n ≤ length medium.now }
    ensures { result ≡ some_below (λ i. eqb (nth medium.now (from + i)) (id_word id)) n }
{
    let mut found = false;
    for word in &medium[from..from + n] {
        found |= *word == id;
    }
    found
}

// One server of a medium: the words that are lent as the medium, the capacity of a server, how many entries are used on this one, and its
// number.
#[derive(Clone, Copy)]
pub struct Server<'a> {
    pub medium: &'a [u32],
    pub capacity: usize,
    pub used: usize,
    pub number: usize,
    ghost inside: { Inside capacity number medium.now },
    ghost few: { used ≤ capacity },
}

impl Server<'_> {
    // The highest of the `n` entries from `low` on that bears an id, counted from `low`, so that the compiler sees how many there are.
    fn last_of(&self, low: usize, n: usize, id: u32) -> Option<usize>
        requires { low + n ≤ self.now.used }
        ensures { result ≡ highest (λ i. bears_at self.now.medium.now id (entry_at self.now.capacity self.now.number (low + i))) n }
    {
        (0..n).rev().find(|&i| {
            let at = medium::entry_at(self.capacity, self.number, low + i);
            medium::bears(self.medium, at, id)
        })
    }

    // The highest-numbered live entry of an id among the `n` entries from `low` on.
    fn newest_of(&self, low: usize, n: usize, id: u32) -> Option<usize>
        requires { low + n ≤ self.now.used }
        ensures { highest (live self.now.capacity self.now.used self.now.medium.now id self.now.number) (low + n)
            ≡ option_or result (highest (live self.now.capacity self.now.used self.now.medium.now id self.now.number) low) }
    {
        let i = self.last_of(low, n, id)?;
        Some(low + i)
    }

    // The highest-numbered live entry of an id in the blocks, which end at the highest entry used. A block without the id's word is passed
    // over.
    fn newest_in_blocks(&self, id: u32) -> Option<usize>
        ensures { highest (live self.now.capacity self.now.used self.now.medium.now id self.now.number) self.now.used
            ≡ option_or result (highest (live self.now.capacity self.now.used self.now.medium.now id self.now.number) (self.now.used % BLOCK_ENTRIES)) }
    {
        let rest = self.used % BLOCK_ENTRIES;
        for block in (0..self.used / BLOCK_ENTRIES).rev() {
            let low = rest + BLOCK_ENTRIES * block;
            let from = medium::entry_at(self.capacity, self.number, low);
            if has(self.medium, from, BLOCK_WORDS, id) {
                let found = self.newest_of(low, BLOCK_ENTRIES, id);
                if found.is_some() {
                    return found;
                }
            }
        }
        None
    }

    // The highest-numbered live entry of an id: in the blocks, where there are many entries, and then in groups from the highest down.
    pub fn newest(&self, id: u32) -> Option<usize>
        ensures { result ≡ highest (live self.now.capacity self.now.used self.now.medium.now id self.now.number) self.now.used }
    {
        let mut left = self.used;
        if MANY <= left {
            let found = self.newest_in_blocks(id);
            if found.is_some() {
                return found;
            }
            left %= BLOCK_ENTRIES;
        }
        // A `for` over the groups' numbers was tried: it took 1.4 times as long on servers of 64 to 250 entries.
        while GROUP <= left {
            left -= GROUP;
            let found = self.newest_of(left, GROUP, id);
            if found.is_some() {
                return found;
            }
        }
        self.newest_of(0, left, id)
    }
}
