// Decode: a table, read from words that are all of an image.
#![tactic(auto)]

ghost use Rattle.std.specs.Prelude.{◌≡◌, ◌≤◌, ◌+◌, ◌&&◌, true, cond, eqb, length, Some, None};
ghost use Rattle.std.specs.Result.{result_unwrap_or};
ghost use Rattle.limits.specs.Limits.{max_servers, tenants};
ghost use Rattle.lists.specs.Below.{all_below, set_below};
ghost use Rattle.words.specs.Word.{tag_of, content_of};
ghost use Rattle.replies.specs.Reply.{reply_of_check};
ghost use Rattle.table.specs.Parts.{empty};
ghost use Rattle.image.specs.Layout.{part_at, image_length};
ghost use Rattle.image.specs.Decoding.{content_at, count_in, table_in, server_tagged, counter_tagged, each_tagged, is_image, decode_reply, decode_table};
ghost use Rattle.image_reader.specs.Servers.{with_servers};

use image_writer::{
    CAPACITY_PLACE, DENOMINATOR_PLACE, HEAD_WORDS, LEAST_WORDS, NUMERATOR_PLACE, PART_WORDS,
    SALT_PLACE, USED_PLACE, WEIGHT_PLACE, image_length,
};
use limits::{Counters, MAX_SERVERS};
use replies::Refusal;
use table::Table;

// How many servers so many words have room for.
fn count_in(length: usize) -> usize
    ensures { result ≡ count_in length }
{
    length.saturating_sub(LEAST_WORDS) / PART_WORDS
}

// The content of a word, if it has this tag.
fn content(word: u32, tag: u32) -> Option<u32>
    ensures { result ≡ cond (eqb (tag_of word) tag) (Some (content_of word)) None }
{
    if words::tag_of(word) != tag {
        return None;
    }
    Some(words::content_of(word))
}

// Whether the four words of a server have their tags. All are looked at, and those of all servers below, so that the compiler reads
// several servers at a time: with a way out at the first that has another tag, an image of 256 servers takes 1.3 times as many
// instructions.
fn are_tagged(weight: u32, used: u32, num: u32, den: u32) -> bool
    ensures { result ≡ (eqb (tag_of weight) 1 && (eqb (tag_of used) 2 && (eqb (tag_of num) 0 && eqb (tag_of den) 1))) }
{
    (words::tag_of(weight) == 1)
        & ((words::tag_of(used) == 2) & ((words::tag_of(num) == 0) & (words::tag_of(den) == 1)))
}

// Reads the words of a table's servers into its columns, if each word has its tag.
fn read_servers(image: &[u32], table: &mut Table) -> Option<()>
    requires { (table.old.count ≤ max_servers) × (part_at table.old.count ≤ length image.now) }
    ensures tagged { result
        ≡ cond (all_below (server_tagged image.now) table.old.count) (Some tt) None }
    ensures table { all_below (server_tagged image.now) table.old.count ≡ true
        → table.new ≡ with_servers image.now table.old.count table.old }
{
    let mut tagged = true;
    for k in 0..table.count {
        let at = HEAD_WORDS + PART_WORDS * k;
        let weight = image[at + WEIGHT_PLACE];
        let used = image[at + USED_PLACE];
        let num = image[at + NUMERATOR_PLACE];
        let den = image[at + DENOMINATOR_PLACE];
        table.weights[k] = words::content_of(weight);
        table.used[k] = words::content_of(used);
        table.numerators[k] = words::content_of(num);
        table.denominators[k] = words::content_of(den);
        tagged = are_tagged(weight, used, num, den) & tagged;
    }
    tagged.then_some(())
}

// Reads the counters, whose words begin at a word, if each word has its tag.
fn read_counters(image: &[u32], from: usize, counters: &mut Counters) -> Option<()>
    requires { from + tenants ≤ length image.now }
    ensures tagged { result
        ≡ cond (all_below (counter_tagged image.now from) tenants) (Some tt) None }
    ensures counters { all_below (counter_tagged image.now from) tenants ≡ true
        → counters.new ≡ set_below (λ i. content_at image.now (from + i)) tenants counters.old }
{
    // Tried: `zip` of the counters and the words. What the loop has made of the counters then has no name in an invariant, and the
    // proof did not close.
    for (i, counter) in counters.iter_mut().enumerate() {
        *counter = content(image[from + i], 2)?;
    }
    Some(())
}

// Reads a table of so many servers, if each word has its tag. The number stands beside the words: `count_in` of their length
// would be worked out again here, and shown again to be this number.
fn read_table(image: &[u32], count: usize, table: &mut Table) -> Option<()>
    requires { (count ≤ max_servers) × (length image.now ≡ image_length count) }
    ensures tagged { result ≡ cond (each_tagged image.now count) (Some tt) None }
    ensures table { each_tagged image.now count ≡ true → table.new ≡ table_in image.now }
{
    let capacity = content(image[CAPACITY_PLACE], 0)?;
    let salt = content(image[SALT_PLACE], 1)?;
    *table = table::empty(capacity, salt);
    table.count = count;
    read_servers(image, table)?;
    read_counters(image, HEAD_WORDS + PART_WORDS * count, &mut table.counters)
}

// Reads a table, if the words are the image of a sound one.
#[tactic(auto, using(image::proofs::Reading::too_many, image::proofs::Reading::not_long, image::proofs::Reading::not_tagged, image::proofs::Reading::not_sound, image::proofs::Reading::all_taken, crate::proofs::Tagged::none_if))]
fn read_image(image: &[u32], table: &mut Table) -> Option<()>
    ensures taken { result ≡ cond (is_image image.now) (Some tt) None }
    ensures table { is_image image.now ≡ true → table.new ≡ table_in image.now }
{
    let count = count_in(image.len());
    if count > MAX_SERVERS || image.len() != image_length(count) {
        return None;
    }
    read_table(image, count, table)?;
    table.view().is_sound().then_some(())
}

// Reads a table from its image into a table that is lent, or refuses words that are the image of no sound table and leaves one of
// all zeros.
#[tactic(auto, unfolding(image::specs::Decoding::decode_reply, image::specs::Decoding::decode_table, image::specs::Decoding::decode_rows, replies::specs::Reply::reply_by, replies::specs::Reply::reply_of_check, replies::specs::Reply::number_of, replies::specs::Refusal::settle, replies::specs::Refusal::first_of))]
pub fn decode_into(image: &[u32], table: &mut Table) -> Result<(), Refusal>
    ensures reply { reply_of_check result ≡ decode_reply image.now }
    ensures table { table.new ≡ decode_table image.now }
{
    if read_image(image, table).is_none() {
        *table = table::empty(0, 0);
        return Err(Refusal::BadImage);
    }
    Ok(())
}

// Reads a table from its image, or refuses words that are the image of no sound table; in the clause of the table all zeros stand
// for that.
#[tactic(auto, unfolding(replies::specs::Reply::reply_of_check))]
pub fn decode(image: &[u32]) -> Result<Table, Refusal>
    ensures reply { reply_of_check result ≡ decode_reply image.now }
    ensures table { result_unwrap_or result (empty 0 0) ≡ decode_table image.now }
{
    let mut table = table::empty(0, 0);
    decode_into(image, &mut table)?;
    Ok(table)
}
