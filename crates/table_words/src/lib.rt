// A table lent as words: read out of them, and stored in front of them. specs/Words.antt has the layout.
#![tactic(auto)]

ghost use Rattle.std.specs.Prelude.{◌≡◌, ◌<◌, ◌≤◌, ◌+◌, length, take, drop};
ghost use Rattle.std.proofs.Math.Seq.{paste};
ghost use Rattle.table.specs.Parts.{table_of};
ghost use Rattle.table_words.specs.Words.{shape_from, table_from, with_table};

use limits::{MAX_SERVERS, TENANTS};
use table::{Shape, Table, View};

// How many words a table has, where each of its numbers stands and where each of its columns and its counters begin.
pub const TABLE_LENGTH: usize = COUNTERS_OFFSET + TENANTS;

pub const CAPACITY_OFFSET: usize = 0;

pub const SALT_OFFSET: usize = 1;

pub const COUNT_OFFSET: usize = 2;

pub const WEIGHTS_OFFSET: usize = 3;

pub const USED_OFFSET: usize = WEIGHTS_OFFSET + MAX_SERVERS;

pub const NUMERATORS_OFFSET: usize = USED_OFFSET + MAX_SERVERS;

pub const DENOMINATORS_OFFSET: usize = NUMERATORS_OFFSET + MAX_SERVERS;

pub const COUNTERS_OFFSET: usize = DENOMINATORS_OFFSET + MAX_SERVERS;

// The words of a table.
pub type Words = [u32; TABLE_LENGTH];

// The array that begins at a word, where it lies.
fn array_in<const N: usize>(words: &[u32], from: usize) -> &[u32; N]
    requires { from + N ≤ length words.now }
    ensures { result.now ≡ take N (drop from words.now) }
{
    words[from..].first_chunk().unwrap()
}

// The shape of a table lent as words.
pub fn shape_of(words: &Words) -> Shape
    ensures { result ≡ shape_from words.now }
{
    Shape {
        capacity: words[CAPACITY_OFFSET],
        salt: words[SALT_OFFSET],
        count: words[COUNT_OFFSET] as usize,
    }
}

// The table lent as words, read where it lies.
pub fn view_of(words: &Words) -> View<'_>
    ensures table { table_of result ≡ table_from words.now }
    ensures count { result.shape.count < 4294967296 }
{
    View {
        shape: shape_of(words),
        weights: array_in(words, WEIGHTS_OFFSET),
        used: array_in(words, USED_OFFSET),
        numerators: array_in(words, NUMERATORS_OFFSET),
        denominators: array_in(words, DENOMINATORS_OFFSET),
        counters: array_in(words, COUNTERS_OFFSET),
    }
}

// Stores an array in a slice, from a position on.
pub fn store_array(words: &mut [u32], from: usize, array: &[u32])
    requires { from + length array.now ≤ length words.old }
    ensures { words.new ≡ paste words.old from array.now (length array.now) }
{
    // A loop, since the library's `copy_from_slice` is a `memmove`, which a library for C would then need from outside.
    for (k, word) in array.iter().enumerate() {
        words[from + k] = *word;
    }
}

// Stores a table as words.
pub fn store_table(words: &mut Words, table: &Table)
    requires { table.now.count < 4294967296 }
    ensures { words.new ≡ with_table words.old table.now }
{
    words[CAPACITY_OFFSET] = table.capacity;
    words[SALT_OFFSET] = table.salt;
    words[COUNT_OFFSET] = table.count as u32;
    store_array(words, WEIGHTS_OFFSET, &table.weights);
    store_array(words, USED_OFFSET, &table.used);
    store_array(words, NUMERATORS_OFFSET, &table.numerators);
    store_array(words, DENOMINATORS_OFFSET, &table.denominators);
    store_array(words, COUNTERS_OFFSET, &table.counters);
}
