// Batches of lookups. Five numbers are the ids, the sixth is a position and the seventh the caller's tenant.
ghost use Rattle.std.specs.Prelude.{◌<◌};

use batch_answer::Batch;
use vectors_calls::{Answer, Archive, Command};

// 1 is the refusal of the whole batch, which there is none of, 2 its mounts, 3 refusal, value and opened count at a position, 4 the
// refusal at it, and 5 the position that is found at this place. The letters from 6 on are as 1, and those below 1 as 5.
fn part(batch: &Batch, letter: u8, i: usize) -> Answer<'static>
    requires { i < 256 }
{
    let reply = replies::lookup_reply(batch.answers[i]);
    match letter {
        b'1' | b'6'.. => Answer::Number(0),
        b'2' => Answer::Number(batch.mounts as u64),
        b'3' => Answer::Three(reply.refusal, reply.value, reply.opened as u64),
        b'4' => Answer::Number(u64::from(reply.refusal)),
        _ => Answer::Number(u64::from(batch.order[i])),
    }
}

// The letters up to 5 are for the batch of the ids; those from 6 on are tenant 0's batch of 256 times id 2, but for 7, which is that of one
// more.
pub fn call(archive: &mut Archive, command: Command) -> Answer<'static> {
    let numbers = command.numbers;
    let (table, medium) = archive.parts();
    let batch = match command.letter {
        b'7' => batch::lookup_batch(table, medium, 0, &[2; 257]),
        b'6'.. => batch::lookup_batch(table, medium, 0, &[2; 256]),
        _ => batch::lookup_batch(table, medium, numbers[6], &numbers[..5]),
    };
    match batch {
        Ok(batch) => part(&batch, command.letter, (numbers[5] % 256) as usize),
        Err(refusal) => Answer::Number(u64::from(refusal.number())),
    }
}
