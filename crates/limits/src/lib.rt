// The limits of an archive, each named once. The definitions of specs/ have the same names and numbers.
//
// Numbers have 32 bits in words and are usize as positions; a batch counts ends in 16 bits. One is turned into another by `as` in every
// crate, as the case of an enum is into its number: Rust has no `From` between usize and 32 or 64 bits, to fewer bits, or of an enum, and
// the check shows that nothing is lost.
//
// That a number is a server's, a count or a capacity within its limit stands in a clause of each function that asks it, and is no type:
// such a number is a loop's or a table's, and a type would be made of it at each call to be taken apart in the next line.
#![tactic(auto)]

ghost use Rattle.std.specs.Prelude.{◌≤◌, length};
ghost use Rattle.limits.specs.Limits.{max_ids};

// Servers of a table, and so the numbers in each of its columns.
pub const MAX_SERVERS: usize = 256;

// Entries of a server: document 01's greatest E. No weight is above it.
pub const MAX_CAPACITY: u32 = 65536;

// 2^24, the sum of 256 weights of 65,536 each, and so the greatest denominator of a fraction.
pub const MAX_SUM: u32 = 16777216;

// Ids of a batch.
pub const MAX_IDS: usize = 256;

// 2^30: ids, values and salts are below it, and so is the content of a word, which has 30 bits.
pub const CONTENT_RANGE: u32 = 1073741824;

// Tenants: their numbers are below it, and a table has a counter for each.
pub const TENANTS: usize = 8;

// 2^27, the ids of each tenant.
pub const TENANT_RANGE: u32 = 134217728;

// 2^30 - 1, where a counter of opened servers stops.
pub const MAX_COUNTER: u32 = 1073741823;

// As many burns as any call makes: 2^24 marks, one for each entry, and two words of an entry.
pub const ALL_BURNS: usize = 16777218;

// A column of a table: it has a number for each server that there may be.
pub type Column = [u32; MAX_SERVERS];

// The counters of opened servers, one for each tenant.
pub type Counters = [u32; TENANTS];

// What a batch has at most one of for each of its ids, as the ids themselves: so there are at most 256. It is lent by `&`: a copy is no
// derive beside a ghost field of a generic struct.
#[derive(Drop)]
pub struct Few<'a, T> {
    pub all: &'a [T],
    ghost few: { length all.now ≤ max_ids },
}

// The ids of a batch.
pub type Ids<'a> = Few<'a, u32>;
