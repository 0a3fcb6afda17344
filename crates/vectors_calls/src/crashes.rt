// Writes and deletes that are not done to the end, and what comes next. The numbers are a tenant, an id and what the call takes
// beside them; the last of `write_some` and of `delete_some` is a number of burns.
use crate::{Answer, Archive};

// A write after which the older table is kept.
pub fn write_and_forget(archive: &mut Archive, numbers: [u32; 8]) -> Answer<'static> {
    let [tenant, id, value, ..] = numbers;
    let (table, medium) = archive.parts();
    let mut next = *table;
    let written = writing::write(&mut next, medium, tenant, id, value);
    Answer::Reply(replies::write_reply(written))
}

// Where not all burns were made the table is as it was.
pub fn write_some(archive: &mut Archive, numbers: [u32; 8]) -> Answer<'static> {
    let [tenant, id, value, burns, ..] = numbers;
    let (table, medium) = archive.parts();
    let written = writing::write_some(table, medium, tenant, id, value, burns as usize);
    Answer::Reply(replies::write_reply(written))
}

pub fn delete_some(archive: &mut Archive, numbers: [u32; 8]) -> Answer<'static> {
    let [tenant, id, burns, ..] = numbers;
    let (table, medium) = archive.parts();
    let deleted = deletion::delete_some(table, medium, tenant, id, burns as usize);
    Answer::Reply(replies::delete_reply(deleted))
}

// Answers the refusal.
pub fn recover(archive: &mut Archive) -> Answer<'static> {
    let (table, medium) = archive.parts();
    let recovered = recovery::recover(table, medium);
    Answer::Number(u64::from(replies::check_number(&recovered)))
}
