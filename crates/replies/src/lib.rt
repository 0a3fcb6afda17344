// Why a call is refused and what each call answers, as types and in document 01's numbers.
#![tactic(auto)]

mod numbers;

pub use numbers::{
    ACCEPTED, check_number, check_reply, delete_reply, lookup_reply, server_reply, write_reply,
};

// Why a call is refused: a case for each number, in their order from 1 to 13. 1 to 10 are document 01's, the others
// document 02's.
#[derive(Clone, Copy, PartialEq, Eq)]
pub enum Refusal {
    // 1, foreign table: the table is not sound.
    UnsoundTable = 1,
    // 2, out of range: the capacity, a tenant, an id, a value or a weight is outside its range.
    OutOfRange = 2,
    // 3, no such shelf: the server is at or above the count, or there is no server at all.
    NoSuchServer = 3,
    // 4, rack full: there are 256 servers already.
    TooManyServers = 4,
    // 5, short medium: it has fewer words than the servers.
    ShortMedium = 5,
    // 6, shelf full: every entry of the write server is used.
    ServerFull = 6,
    // 7, not blank: a word of the new server or of the target entry is not blank.
    NotBlank = 7,
    // 8, absent: no readable server has a live entry of the id.
    NotFound = 8,
    // 9, over free: the weight is above the entries that the server has left.
    ExceedsFree = 9,
    // 10, damaged: the value word that a lookup found has another tag.
    Corrupt = 10,
    // 11, another club's ticket: the id is another tenant's than the caller's.
    OtherTenant = 11,
    // 12, bad sheet: no sound table has these words as its image.
    BadImage = 12,
    // 13, destination short: it has fewer words than the image.
    ShortDestination = 13,
}

// What an accepted write did: the server that it went to, and how many earlier entries it invalidated.
#[derive(Clone, Copy)]
pub struct Written {
    pub server: usize,
    pub invalidated: usize,
}

// The answer of lookup: the value, or the refusal; and how many servers it opened.
#[derive(Clone, Copy)]
pub struct LookupAnswer {
    pub value: Result<u32, Refusal>,
    pub opened: usize,
}

// A reply in document 01's numbers, as words and lines have it: numbers, and no enum, since the C interface answers them. Refusal 0
// is acceptance; what an answer does not carry is 0.
#[derive(Clone, Copy)]
pub struct Reply {
    pub refusal: u32,
    pub server: usize,
    pub value: u32,
    pub opened: usize,
    pub invalidated: usize,
}
