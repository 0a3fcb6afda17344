// A sheet's calls are read and printed by the letters here.
#![tactic(auto)]

ghost use Rattle.std.specs.Prelude.{◌≡◌};
ghost use Rattle.letters.specs.Letter.{letter_of, call_for};

use calls::Call;

// S starts a table.
pub const START: u8 = b'S';

// Each call has a letter of its own.
const ADD_SERVER: u8 = b'F';

pub const REWEIGHT: u8 = b'G';

pub const WRITE: u8 = b'W';

const DELETE: u8 = b'D';

const LOOKUP: u8 = b'L';

// Answers the letter of a call, and 0 for what is no call.
#[tactic(auto, unfolding(crate::specs::Letter::letter_of))]
pub fn letter_of(call: Option<Call>) -> u8
    ensures { result ≡ letter_of call }
{
    match call {
        Some(Call::AddServer { .. }) => ADD_SERVER,
        Some(Call::Reweight { .. }) => REWEIGHT,
        Some(Call::Write { .. }) => WRITE,
        Some(Call::Delete { .. }) => DELETE,
        Some(Call::Lookup { .. }) => LOOKUP,
        None => 0,
    }
}

// Answers the call that a letter and its numbers stand for, where the letter has one: a line has a letter, and the enum is made here. F
// takes its first number as the weight. A call with an id is made for the id's own tenant.
#[tactic(auto, unfolding(crate::specs::Letter::call_for))]
pub fn call_for(letter: u8, first: u32, second: u32) -> Option<Call>
    ensures { result ≡ call_for letter first second }
{
    let tenant = tenants::tenant_of(first);
    let call = match letter {
        ADD_SERVER => Call::AddServer { weight: first },
        REWEIGHT => Call::Reweight {
            server: first,
            weight: second,
        },
        WRITE => Call::Write {
            tenant,
            id: first,
            value: second,
        },
        DELETE => Call::Delete { tenant, id: first },
        LOOKUP => Call::Lookup { tenant, id: first },
        _ => return None,
    };
    Some(call)
}
