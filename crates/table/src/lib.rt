// The table of servers, by value and lent: an empty one, what is read of one, and whether one is sound.
#![tactic(auto)]

ghost use Rattle.std.specs.Prelude.{◌≡◌, ◌<◌, true};
ghost use Rattle.limits.specs.Limits.{max_servers};
ghost use Rattle.table.specs.Parts.{table_of, read_p, empty};
ghost use Rattle.table.specs.Sound.{in_range, read_sound, sound, first_sound, head_sound};

use limits::{CONTENT_RANGE, Column, Counters, MAX_CAPACITY, MAX_SERVERS, MAX_SUM, TENANTS};
use placement::Fraction;

// Document 01's table: capacity is its E, the entries of a server; salt document 02's rack key; count the count of fitted shelves;
// four arrays have for each server its weight, the entries used, and ReadP as a pair, and their positions at or above the count
// mean nothing; the counters have for each tenant the servers that its lookups opened. They are arrays beside one another, since the
// words of a table that is lent through the C interface are these columns, and a `View` reads them where they lie.
#[derive(Clone, Copy)]
pub struct Table {
    pub capacity: u32,
    pub salt: u32,
    pub count: usize,
    pub weights: Column,
    pub used: Column,
    pub numerators: Column,
    pub denominators: Column,
    pub counters: Counters,
}

// The numbers that a table has once, and not for each server or tenant. A `Table` has them as fields of its own, as document 01 has: who
// makes a view takes them from there or from three words.
#[derive(Clone, Copy)]
pub struct Shape {
    pub capacity: u32,
    pub salt: u32,
    pub count: usize,
}

// A table lent: its columns and its counters are read where they lie, in a `Table` or among lent words, and none is copied.
#[derive(Clone, Copy)]
pub struct View<'a> {
    pub shape: Shape,
    pub weights: &'a Column,
    pub used: &'a Column,
    pub numerators: &'a Column,
    pub denominators: &'a Column,
    pub counters: &'a Counters,
}

// A table lent that is sound. What only reads one takes it and asks for nothing else; who makes one has tested the table.
#[derive(Clone, Copy)]
pub struct SoundView<'a> {
    pub view: &'a View<'a>,
    ghost tested: { sound (table_of view.now) ≡ true },
}

impl Table {
    // The table, lent.
    pub fn view(&self) -> View<'_>
        ensures { table_of result ≡ self.now }
    {
        View {
            shape: Shape {
                capacity: self.capacity,
                salt: self.salt,
                count: self.count,
            },
            weights: &self.weights,
            used: &self.used,
            numerators: &self.numerators,
            denominators: &self.denominators,
            counters: &self.counters,
        }
    }
}

// A table of no server.
pub fn empty(capacity: u32, salt: u32) -> Table
    ensures { result ≡ empty capacity salt }
{
    Table {
        capacity,
        salt,
        count: 0,
        weights: [0; MAX_SERVERS],
        used: [0; MAX_SERVERS],
        numerators: [0; MAX_SERVERS],
        denominators: [0; MAX_SERVERS],
        counters: [0; TENANTS],
    }
}

// Whether a capacity and a salt are in range.
#[tactic(auto, unfolding(crate::specs::Sound::in_range))]
pub fn in_range(capacity: u32, salt: u32) -> bool
    ensures { result ≡ in_range capacity salt }
{
    (1..=MAX_CAPACITY).contains(&capacity) && salt < CONTENT_RANGE
}

// Whether a ReadP is in range and at least this weight over this sum. With `sum` the weights of the servers up to it, that is its
// WriteP but for server 0, whose WriteP is 1, and for a weight of 0, where any ReadP is at least WriteP.
#[tactic(auto, unfolding(crate::specs::Sound::read_sound))]
fn read_sound(read: Fraction, weight: u32, sum: u32) -> bool
    ensures { result ≡ read_sound read (record { num = weight; den = sum }) }
{
    let write = Fraction {
        num: weight,
        den: sum,
    };
    (1..=MAX_SUM).contains(&read.den) && read.num <= read.den && placement::at_least(read, write)
}

impl View<'_> {
    // ReadP of a server.
    pub fn read_p(&self, server: usize) -> Fraction
        requires { server < max_servers }
        ensures { result ≡ read_p (table_of self.now) server }
    {
        Fraction {
            num: self.numerators[server],
            den: self.denominators[server],
        }
    }

    // The table by value.
    pub fn to_table(&self) -> Table
        ensures { result ≡ table_of self.now }
    {
        Table {
            capacity: self.shape.capacity,
            salt: self.shape.salt,
            count: self.shape.count,
            weights: *self.weights,
            used: *self.used,
            numerators: *self.numerators,
            denominators: *self.denominators,
            counters: *self.counters,
        }
    }

    // Whether ReadP of server 0, if it is there, is at least 1, which is its WriteP.
    #[tactic(auto, unfolding(crate::specs::Sound::first_sound))]
    fn first_sound(&self) -> bool
        ensures { result ≡ first_sound (table_of self.now) }
    {
        self.shape.count < 1 || self.denominators[0] <= self.numerators[0]
    }

    // What is tested before the servers: what the table has once, and ReadP of server 0.
    #[tactic(auto, unfolding(crate::specs::Sound::head_sound))]
    fn head_sound(&self) -> bool
        ensures { result ≡ head_sound (table_of self.now) }
    {
        let counters = self.counters;
        in_range(self.shape.capacity, self.shape.salt)
            && self.shape.count <= MAX_SERVERS
            && counters::in_bounds(counters)
            && self.first_sound()
    }

    // Whether a table of any bits is sound.
    #[tactic(auto, using(crate::proofs::Testing::head_bounds, crate::proofs::Testing::head_refused, crate::proofs::Testing::all_tested), unfolding(lists::specs::Below::all_below, lists::specs::Below::total))]
    pub fn is_sound(&self) -> bool
        ensures { result ≡ sound (table_of self.now) }
    {
        if !self.head_sound() {
            return false;
        }
        let capacity = self.shape.capacity;
        let mut sum: u32 = 0;
        for i in 0..self.shape.count {
            let weight = self.weights[i];
            if weight > capacity || self.used[i] > capacity {
                return false;
            }
            sum += weight;
            if !read_sound(self.read_p(i), weight, sum) {
                return false;
            }
        }
        true
    }
}
