// The calls on an archive, each by its letter.
use crate::{Answer, Archive, Command, crashes};

// The number at a position, if there is one.
fn number_at(numbers: &[u32], at: u32) -> Answer<'static> {
    numbers.get(at as usize).map_or(Answer::Nothing, |number| Answer::Number(u64::from(*number)))
}

// Sets the number at a position, if there is one, from outside.
fn set_at(numbers: &mut [u32], at: u32, number: u32) -> Answer<'static> {
    if let Some(place) = numbers.get_mut(at as usize) {
        *place = number;
    }
    Answer::Nothing
}

// V shows a word and O all of them, and P burns one from outside; C shows a tenant's counter and T sets one from outside; U shows a
// server's used. The others are the day sheet's letters. The caller's tenant is the first number of W, D and L.
fn call_on_parts(archive: &mut Archive, command: Command) -> Answer<'_> {
    let [a, b, c, ..] = command.numbers;
    let (table, medium) = archive.parts();
    match command.letter {
        b'F' => Answer::Reply(replies::server_reply(servers::add_server(table, medium, a))),
        b'G' => Answer::Reply(replies::server_reply(servers::reweight(table, a as usize, b))),
        b'W' => Answer::Reply(replies::write_reply(writing::write(table, medium, a, b, c))),
        b'D' => Answer::Reply(replies::delete_reply(deletion::delete(table, medium, a, b))),
        b'L' => Answer::Reply(replies::lookup_reply(lookup::lookup(table, medium, a, b))),
        b'V' => number_at(medium, a),
        b'O' => Answer::Words(medium),
        b'P' => set_at(medium, a, b),
        b'C' => number_at(&table.counters, a),
        b'T' => set_at(&mut table.counters, a, b),
        b'U' => number_at(&table.used, a),
        _ => Answer::Nothing,
    }
}

// N makes words blank and A adds servers, and neither has an answer; X is a write after which the older table is kept; B is a write
// and K a delete whose last number is a number of burns; Z recovers; E encodes the table over the words and R reads one from them.
pub fn call(archive: &mut Archive, command: Command) -> Answer<'_> {
    let [a, b, ..] = command.numbers;
    match command.letter {
        b'N' => archive.blank(a),
        b'S' => archive.start(a, b),
        b'A' => archive.add_servers(a),
        b'X' => crashes::write_and_forget(archive, command.numbers),
        b'B' => crashes::write_some(archive, command.numbers),
        b'K' => crashes::delete_some(archive, command.numbers),
        b'Z' => crashes::recover(archive),
        b'E' => archive.encode(),
        b'R' => archive.decode(),
        _ => call_on_parts(archive, command),
    }
}
