// The write servers of many ids over the same weights and under the same salt. What does not depend on the id is worked out once: a
// limit for each server, the greatest draw by which it takes. Then the draws of an id are compared a block of servers at a time.
#![tactic(auto)]

ghost use Rattle.std.specs.Prelude.{◌≡◌, ℕ, ◌+◌, ◌≤◌, ◌<◌, length, leb};
ghost use Rattle.std.specs.List.{list_all};
ghost use Rattle.limits.specs.Limits.{max_capacity};
ghost use Rattle.lists.specs.Below.{nth, highest, set_below};
ghost use Rattle.placement.specs.Rule.{write_server, Bounded};
ghost use Rattle.picks.specs.Picks.{bounded, picks_of};
ghost use Rattle.picks.specs.Limited.{block, passes, Limited};

use limits::{CONTENT_RANGE, Column, MAX_CAPACITY, MAX_SERVERS};
use placement::Fraction;

// Servers whose draws are compared together.
const BLOCK: usize = 8;

// From so many ids on limits are worth working out. Of fewer each is picked for alone.
const MANY: usize = 16;

// Whether each weight is at most 65,536.
fn are_light(weights: &[u32]) -> bool
    ensures { result ≡ list_all (λ w. leb w max_capacity) weights.now }
{
    weights.iter().all(|weight| *weight <= MAX_CAPACITY)
}

// Whether there are 1 to 256 weights, each of at most 65,536.
#[tactic(auto, using(crate::proofs::Picking::bounding), unfolding(crate::specs::Picks::bounded))]
fn are_bounded(weights: &[u32]) -> bool
    ensures { result ≡ bounded weights.now }
{
    (1..=MAX_SERVERS).contains(&weights.len()) && are_light(weights)
}

// What the write server of an id is picked by: the weights, the limits of their servers and the salt. The column of limits is
// lent, since a struct that holds it has it copied into it at each call of `picks`.
#[derive(Clone, Copy)]
struct Picker<'a> {
    weights: Weights<'a>,
    limits: &'a Column,
    salt: u32,
    ghost limited: { Limited weights.all.now limits.now },
}

impl Picker<'_> {
    // Whether a server takes an id: its weight is not 0 and its draw is not above its limit. Both are looked at, for the same reason as all
    // servers of a block below.
    fn takes(&self, id: u32, k: usize) -> bool
        requires { k < length self.now.weights.all.now }
        ensures { result ≡ passes self.now.weights.all.now self.now.salt id k }
    {
        let draw = draws::draw(self.salt, id, k);
        (0 < self.weights.all[k]) & (draw <= self.limits[k])
    }

    // The highest server of a block that takes an id, counted from the block's first, if one does. All are looked at, so that the
    // compiler compares several at a time: `find` from the highest down leaves at the first that takes, and a copy of this in plain
    // Rust takes 3.4 times as many instructions with it.
    #[tactic(auto, using(crate::proofs::Limiting::blocks))]
    fn highest_of(&self, id: u32, from: usize) -> Option<usize>
        requires { from + block ≤ length self.now.weights.all.now }
        ensures { result ≡ highest (λ i. passes self.now.weights.all.now self.now.salt id (from + i)) block }
    {
        let mut best = None;
        for j in 0..BLOCK {
            if self.takes(id, from + j) {
                best = Some(j);
            }
        }
        best
    }

    // The write server of an id: from the highest down, a block of which none takes it is passed over, and the lowest servers,
    // too few for a block, are left to `write_server`.
    fn server_of(&self, id: u32) -> usize
        ensures { result ≡ write_server (nth self.now.weights.all.now) (length self.now.weights.all.now) self.now.salt id }
    {
        let rest = self.weights.all.len() % BLOCK;
        for block in (0..self.weights.all.len() / BLOCK).rev() {
            let from = rest + BLOCK * block;
            if let Some(j) = self.highest_of(id, from) {
                return from + j;
            }
        }
        placement::write_server(&self.weights.all[..rest], self.salt, id)
    }
}

// Stores what a function gives for each of the ids, in their order: the numbers of a rule where it follows one.
fn store_each<F: Fn(u32) -> u32>(ids: &[u32], servers: &mut [u32], pick: F)
    requires callable { F.IsAlwaysCallable pick }
    requires room { length ids.now ≤ length servers.old }
    ensures { (rule : ℕ → ℕ) → ((id r : ℕ) → F.post pick id r → r ≡ rule id)
        → servers.new ≡ set_below (λ i. rule (nth ids.now i)) (length ids.now) servers.old }
{
    // Counted, and no `zip`, as image_reader says.
    for (i, id) in ids.iter().enumerate() {
        servers[i] = pick(*id);
    }
}

// Weights that are bounded: at most 256, and each at most 65,536.
#[derive(Clone, Copy)]
struct Weights<'a> {
    all: &'a [u32],
    ghost bounded: { Bounded all.now (length all.now) },
}

impl Weights<'_> {
    // The limit of each server.
    fn limits(&self) -> Column
        ensures { Limited self.now.all.now result }
    {
        let mut limits: Column = [0; MAX_SERVERS];
        let mut sum = 0;
        // Counted, and no `zip`, as image_reader says.
        for (k, &weight) in self.all.iter().enumerate() {
            sum += weight;
            // Where no draw is exceeded the limit is 0, and the weight too, which `takes` tests: a column of `Option`s would be no plainer,
            // since each server's would be matched there besides.
            let limit = placement::limit(Fraction {
                num: weight,
                den: sum,
            });
            limits[k] = limit.unwrap_or(0);
        }
        limits
    }

    // Stores the write servers of many ids, by the limits of the servers. It stands apart from `pick_few`, and both from `picks`,
    // since a function fills with zeros, at each call, all columns that it has.
    #[tactic(auto, using(crate::proofs::Picking::picking))]
    fn pick_many(&self, salt: u32, ids: &[u32], servers: &mut [u32])
        requires { length ids.now ≤ length servers.old }
        ensures { servers.new
            ≡ set_below (λ i. write_server (nth self.now.all.now) (length self.now.all.now) salt (nth ids.now i)) (length ids.now)
            servers.old }
    {
        let limits = self.limits();
        let picker = Picker {
            weights: *self,
            limits: &limits,
            salt,
        };
        store_each(ids, servers, |id| picker.server_of(id) as u32);
    }

    // Stores the write servers of a few ids, each picked for alone.
    #[tactic(auto, using(crate::proofs::Picking::picking))]
    fn pick_few(&self, salt: u32, ids: &[u32], servers: &mut [u32])
        requires { length ids.now ≤ length servers.old }
        ensures { servers.new
            ≡ set_below (λ i. write_server (nth self.now.all.now) (length self.now.all.now) salt (nth ids.now i)) (length ids.now)
            servers.old }
    {
        store_each(ids, servers, |id| {
            placement::write_server(self.all, salt, id) as u32
        });
    }
}

// The write servers of many ids over the same weights and under a salt: as many as both slices have room for, and none where there
// is no weight, more than 256 or one above 65,536, or the salt is out of range. It answers their number, since the C interface does.
#[tactic(auto, using(crate::proofs::Picking::picking), unfolding(crate::specs::Picks::picks_of, lists::specs::Below::set_below))]
pub fn picks(weights: &[u32], salt: u32, ids: &[u32], servers: &mut [u32]) -> usize
    ensures number { result ≡ picks_of weights.now salt ids.now servers.old }
    ensures servers { servers.new
        ≡ set_below (λ i. write_server (nth weights.now) (length weights.now) salt (nth ids.now i)) result
        servers.old }
{
    if !are_bounded(weights) || salt >= CONTENT_RANGE {
        return 0;
    }
    let n = ids.len().min(servers.len());
    let bounded = Weights { all: weights };
    if BLOCK <= weights.len() && MANY <= n {
        bounded.pick_many(salt, &ids[..n], servers);
    } else {
        bounded.pick_few(salt, &ids[..n], servers);
    }
    n
}
