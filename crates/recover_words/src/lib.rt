// Recover on a table lent as words: the column of the entries used alone is stored.
#![tactic(auto)]

ghost use Rattle.std.specs.Prelude.{◌≡◌, true, ◌≤◌, length};
ghost use Rattle.medium.specs.Entry.{server_at};
ghost use Rattle.table.specs.Sound.{sound};
ghost use Rattle.table_words.specs.Words.{table_from, with_table};
ghost use Rattle.recovery.specs.Recovery.{used_on, with_used};
ghost use Rattle.recover_words.specs.RecoverWords.{recover_number, after_recover};

use table_words::{NUMERATORS_OFFSET, USED_OFFSET, Words};

// Stores the used of every server by the medium. That the table is sound stands in a clause, as in upkeep: the words change.
fn recount(words: &mut Words, medium: &[u32])
    requires words_value { sound (table_from words.old) ≡ true }
    requires words_in_bounds { server_at (table_from words.old).capacity (table_from words.old).count ≤ length medium.now }
    ensures { words.new
        ≡ with_table words.old (with_used (table_from words.old) (used_on (table_from words.old).capacity medium.now)) }
{
    let shape = table_words::shape_of(words);
    let used = &mut words[USED_OFFSET..NUMERATORS_OFFSET];
    recovery::recount(medium, shape.capacity as usize, shape.count, used);
}

// Sets the used of every server from the medium, which is only read, and answers the refusal number.
pub fn recover(table: &mut [u32], medium: &[u32]) -> u32
    ensures number { result ≡ recover_number table.old medium.now }
    ensures table { table.new ≡ after_recover table.old medium.now }
{
    let Some(words) = table.first_chunk_mut() else {
        return encoding::TOO_SHORT;
    };
    let check = recovery::check(&table_words::view_of(words), medium);
    if let Err(refusal) = check {
        return refusal.number();
    }
    recount(words, medium);
    0
}
