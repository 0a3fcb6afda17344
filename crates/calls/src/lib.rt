// A call as an enum, and by the number that the words of calls name it by.
#![tactic(auto)]

ghost use Rattle.std.specs.Prelude.{◌≡◌};
ghost use Rattle.calls.specs.Numbered.{call_of, on_servers};

// The number of each call; any other number is no call.
const ADD_SERVER: u32 = 1;

const REWEIGHT: u32 = 2;

const WRITE: u32 = 3;

const DELETE: u32 = 4;

const LOOKUP: u32 = 5;

// A call with its arguments, first the caller's tenant where it has one. Start is none of them, and a batch of lookups has a
// function of its own.
#[derive(Clone, Copy)]
pub enum Call {
    AddServer { weight: u32 },
    Reweight { server: u32, weight: u32 },
    Write { tenant: u32, id: u32, value: u32 },
    Delete { tenant: u32, id: u32 },
    Lookup { tenant: u32, id: u32 },
}

impl Call {
    // The call of a number, where it has one, with the caller's tenant, a subject (an id or a server) and an amount (a value or a
    // weight). What the call does not have is not read.
    #[tactic(auto, unfolding(crate::specs::Numbered::call_of))]
    pub fn of(number: u32, tenant: u32, subject: u32, amount: u32) -> Option<Self>
        ensures { result ≡ call_of number tenant subject amount }
    {
        let call = match number {
            ADD_SERVER => Self::AddServer { weight: amount },
            REWEIGHT => Self::Reweight {
                server: subject,
                weight: amount,
            },
            WRITE => Self::Write {
                tenant,
                id: subject,
                value: amount,
            },
            DELETE => Self::Delete {
                tenant,
                id: subject,
            },
            LOOKUP => Self::Lookup {
                tenant,
                id: subject,
            },
            _ => return None,
        };
        Some(call)
    }

    // Whether the call changes the servers, as add_server and reweight do. It has no tenant and only reads the medium. An enum of such
    // calls within this one would spare three functions that they ask for this, and make two matches of each match on a call.
    #[tactic(auto, unfolding(crate::specs::Numbered::on_servers))]
    pub fn on_servers(self) -> bool
        ensures { result ≡ on_servers self }
    {
        matches!(self, Self::AddServer { .. } | Self::Reweight { .. })
    }
}
