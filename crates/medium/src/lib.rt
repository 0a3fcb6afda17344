// The words of the write-once medium: where an entry stands, whether it bears an id, and whether words are blank.
#![tactic(auto)]

ghost use Rattle.std.specs.Prelude.{◌≡◌, ◌<◌, ◌≤◌, ◌+◌, length};
ghost use Rattle.limits.specs.Limits.{max_servers, max_capacity, content_range};
ghost use Rattle.medium.specs.Word.{value_word, mark_word, mark_content};
ghost use Rattle.medium.specs.Entry.{mark_place, server_at, entry_at, bears_at, blank_run};

// A word that nothing was written to.
pub const BLANK: u32 = 4294967295;

// The tags of a value's word and of a mark's. The tag of an id's word is 0, so that it is the id.
pub const VALUE_TAG: u32 = 1;

const MARK_TAG: u32 = 2;

// An entry has three words: its id's, its value's and its mark, which stand this far from its first word.
pub const ENTRY_WORDS: usize = 3;

pub const VALUE_PLACE: usize = 1;

pub const MARK_PLACE: usize = 2;

// What a mark says of its entry, by the number that its word has as its content.
#[derive(Clone, Copy)]
pub enum Mark {
    // A write put a newer entry of the id in its place.
    Replaced = 1,
    // The id was deleted.
    Deleted = 2,
}

impl Mark {
    // The content of a mark's word.
    #[tactic(auto, unfolding(crate::specs::Word::mark_content))]
    pub fn content(self) -> u32
        ensures { result ≡ mark_content self }
    {
        self as u32
    }

    // The word of a mark.
    #[tactic(auto, unfolding(crate::specs::Word::mark_content))]
    pub fn word(self) -> u32
        ensures { result ≡ mark_word (mark_content self) }
    {
        mark_word(self as u32)
    }
}

// The word of a mark with a content, whichever it is.
pub fn mark_word(content: u32) -> u32
    requires { content < content_range }
    ensures { result ≡ mark_word content }
{
    words::tagged(MARK_TAG, content)
}

// The word of a value.
pub fn value_word(value: u32) -> u32
    requires { value < content_range }
    ensures { result ≡ value_word value }
{
    words::tagged(VALUE_TAG, value)
}

// The first word of a server, and of the one after the last.
pub fn server_at(capacity: usize, server: usize) -> usize
    requires { (capacity ≤ max_capacity) × (server ≤ max_servers) }
    ensures { result ≡ server_at capacity server }
{
    ENTRY_WORDS * capacity * server
}

// The first word of an entry.
pub fn entry_at(capacity: usize, server: usize, entry: usize) -> usize
    requires { (capacity ≤ max_capacity) × (server < max_servers) × (entry ≤ capacity) }
    ensures { result ≡ entry_at capacity server entry }
{
    server_at(capacity, server) + ENTRY_WORDS * entry
}

// Whether the `n` words from `from` on are blank. The two say a place in the medium, as the definitions do.
pub fn is_blank(medium: &[u32], from: usize, n: usize) -> bool
    requires { from + n ≤ length medium.now }
    ensures { result ≡ blank_run medium.now from n }
{
    // A `for`, since `all` takes 1.4 times as many instructions.
    for word in &medium[from..from + n] {
        if *word != BLANK {
            return false;
        }
    }
    true
}

// Whether the entry that begins at an address bears an id and no mark. Such an entry is live if it is below the used ones.
#[tactic(auto, unfolding(crate::specs::Entry::bears_at))]
pub fn bears(medium: &[u32], at: usize, id: u32) -> bool
    requires { at + mark_place < length medium.now }
    ensures { result ≡ bears_at medium.now id at }
{
    medium[at] == id && medium[at + MARK_PLACE] == BLANK
}
