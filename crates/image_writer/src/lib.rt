// Encode: the image of a table, written to the front of lent words.
#![tactic(auto)]

ghost use Rattle.std.specs.Prelude.{◌≡◌, true, ◌<◌, ◌≤◌, ◌+◌, length};
ghost use Rattle.std.proofs.lemmas.List.Edits.{sets};
ghost use Rattle.limits.specs.Limits.{max_servers, content_range, tenants};
ghost use Rattle.lists.specs.Below.{nth, join_below};
ghost use Rattle.counters.specs.Counter.{in_bounds};
ghost use Rattle.table.specs.Parts.{table_of};
ghost use Rattle.image.specs.Layout.{head_words, part_words, part_at, image_length, server_part, counter_word, server_image, image_of};
ghost use Rattle.image.specs.Encoding.{reply_of_encode, encode_reply, encode_words};

use limits::{Counters, TENANTS};
use placement::Fraction;
use replies::Refusal;
use table::{SoundView, Table, View};

// Where capacity and salt stand, and how many words are before the servers'.
pub const CAPACITY_PLACE: usize = 0;

pub const SALT_PLACE: usize = 1;

pub const HEAD_WORDS: usize = 2;

// How many words a server has, and how far each stands from its first.
pub const PART_WORDS: usize = 4;

pub const WEIGHT_PLACE: usize = 0;

pub const USED_PLACE: usize = 1;

pub const NUMERATOR_PLACE: usize = 2;

pub const DENOMINATOR_PLACE: usize = 3;

// How many words the image of a table of no server has.
pub const LEAST_WORDS: usize = HEAD_WORDS + TENANTS;

// How many words the image of a table of so many servers has.
pub fn image_length(count: usize) -> usize
    requires { count ≤ max_servers }
    ensures { result ≡ image_length count }
{
    LEAST_WORDS + PART_WORDS * count
}

// Stores the words of a server, from a word on.
fn store_server(destination: &mut [u32], at: usize, weight: u32, used: u32, read: Fraction)
    requires part_words_in_bounds { at + part_words ≤ length destination.old }
    requires weight_lt_content_range { (weight < content_range) × (used < content_range) × (read.num < content_range) × (read.den < content_range) }
    ensures { destination.new ≡ sets destination.old at (server_part weight used read) }
{
    destination[at + WEIGHT_PLACE] = words::tagged(1, weight);
    destination[at + USED_PLACE] = words::tagged(2, used);
    destination[at + NUMERATOR_PLACE] = words::tagged(0, read.num);
    destination[at + DENOMINATOR_PLACE] = words::tagged(1, read.den);
}

// Stores the words of the servers of a sound table.
#[tactic(auto, using(table::proofs::Soundness::sound_bounds), unfolding(lists::specs::Below::join_below))]
fn store_servers(sound: &SoundView<'_>, destination: &mut [u32])
    requires { part_at sound.now.view.now.shape.count ≤ length destination.old }
    ensures { destination.new
        ≡ sets destination.old head_words (join_below (server_image (table_of sound.now.view.now)) sound.now.view.now.shape.count) }
{
    let table = sound.view;
    for k in 0..table.shape.count {
        store_server(
            destination,
            HEAD_WORDS + PART_WORDS * k,
            table.weights[k],
            table.used[k],
            table.read_p(k),
        );
    }
}

// Stores the words of the counters, from a word on.
#[tactic(auto, unfolding(lists::specs::Below::join_below))]
fn store_counters(destination: &mut [u32], from: usize, counters: &Counters)
    requires counters_value { in_bounds counters.now ≡ true }
    requires tenants_in_bounds { from + tenants ≤ length destination.old }
    ensures { destination.new
        ≡ sets destination.old from (join_below (λ i. counter_word (nth counters.now i)) tenants) }
{
    // Counted, and no `zip`, as image_reader says.
    for (i, counter) in counters.iter().enumerate() {
        destination[from + i] = words::tagged(2, *counter);
    }
}

// Stores the image of a sound table.
fn store_image(sound: &SoundView<'_>, destination: &mut [u32])
    requires { image_length sound.now.view.now.shape.count ≤ length destination.old }
    ensures { destination.new ≡ sets destination.old 0 (image_of (table_of sound.now.view.now)) }
{
    let table = sound.view;
    destination[CAPACITY_PLACE] = words::tagged(0, table.shape.capacity);
    destination[SALT_PLACE] = words::tagged(1, table.shape.salt);
    store_servers(sound, destination);
    store_counters(
        destination,
        HEAD_WORDS + PART_WORDS * table.shape.count,
        table.counters,
    );
}

// Writes the image of a table that is lent.
#[tactic(auto, using(table::proofs::Soundness::sound_bounds, image::proofs::Writing::image_in_front), unfolding(image::specs::Encoding::reply_of_encode, image::specs::Encoding::encode_reply, image::specs::Encoding::encode_words, image::specs::Encoding::encode_rows, replies::specs::Refusal::settle, replies::specs::Refusal::first_of, replies::specs::Reply::number_of))]
pub fn encode_in(table: &View<'_>, destination: &mut [u32]) -> Result<usize, Refusal>
    ensures reply { reply_of_encode result ≡ encode_reply (table_of table.now) destination.old }
    ensures words { destination.new ≡ encode_words (table_of table.now) destination.old }
{
    if !table.is_sound() {
        return Err(Refusal::UnsoundTable);
    }
    let sound = SoundView { view: table };
    let length = image_length(table.shape.count);
    if destination.len() < length {
        return Err(Refusal::ShortDestination);
    }
    store_image(&sound, destination);
    Ok(length)
}

// Writes the image of a table to the front of the destination.
pub fn encode(table: &Table, destination: &mut [u32]) -> Result<usize, Refusal>
    ensures reply { reply_of_encode result ≡ encode_reply table.now destination.old }
    ensures words { destination.new ≡ encode_words table.now destination.old }
{
    encode_in(&table.view(), destination)
}
