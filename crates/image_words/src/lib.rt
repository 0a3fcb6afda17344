// The image of a table lent as words, written and read.
#![tactic(auto)]

ghost use Rattle.std.specs.Prelude.{◌≡◌};
ghost use Rattle.image_words.specs.ImageWords.{after_encode, decode_number, after_decode};

use encoding::TOO_SHORT;

// Writes the image of a table, and how many words it has.
pub fn encode(table: &[u32], destination: &mut [u32], size: &mut [u32]) -> u32
    ensures number { result ≡ (after_encode table.now destination.old size.old).number }
    ensures destination { destination.new
        ≡ (after_encode table.now destination.old size.old).destination }
    ensures size { size.new ≡ (after_encode table.now destination.old size.old).size }
{
    let Some(words) = table.first_chunk() else {
        return TOO_SHORT;
    };
    let Some(first) = size.first_mut() else {
        return TOO_SHORT;
    };
    match image_writer::encode_in(&table_words::view_of(words), destination) {
        Err(refusal) => refusal.number(),
        Ok(n) => {
            *first = n as u32;
            0
        }
    }
}

// Reads a table from its image, and stores it; where the words are refused, one of all zeros.
pub fn decode(image: &[u32], table: &mut [u32]) -> u32
    ensures number { result ≡ decode_number image.now table.old }
    ensures table { table.new ≡ after_decode image.now table.old }
{
    let Some(words) = table.first_chunk_mut() else {
        return TOO_SHORT;
    };
    let mut read = table::empty(0, 0);
    let decoded = image_reader::decode_into(image, &mut read);
    table_words::store_table(words, &read);
    replies::check_number(&decoded)
}
