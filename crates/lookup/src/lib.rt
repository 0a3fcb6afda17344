// Lookup: the value of an id, or why there is none, and how many servers were opened, which the table counts for the tenant.
#![tactic(auto)]

ghost use Rattle.std.specs.Prelude.{◌≡◌, ℕ, ◌<◌, Some};
ghost use Rattle.table.specs.Parts.{table_of};
ghost use Rattle.replies.specs.Reply.{found_or, reply_of_lookup};
ghost use Rattle.lookup.specs.Lookup.{met_reply, lookup_reply, lookup_table};

use replies::{LookupAnswer, Refusal};
use scan::Server;
use table::{Table, View};

// What an entry that a lookup meets has: its value, or a refusal where its value word has another tag.
#[tactic(auto, using(crate::proofs::Looked::value_inside), unfolding(crate::specs::Lookup::met_reply, replies::specs::Reply::found_or, replies::specs::Reply::number_of))]
pub fn met(server: &Server<'_>, entry: usize) -> Result<u32, Refusal>
    requires { entry < server.now.capacity }
    ensures { (opened : ℕ) → found_or result opened
        ≡ met_reply server.now.capacity server.now.medium.now opened (Some (record { server = server.now.number; entry = entry })) }
{
    let at = medium::entry_at(server.capacity, server.number, entry);
    let word = server.medium[at + medium::VALUE_PLACE];
    if words::tag_of(word) == medium::VALUE_TAG {
        Ok(words::content_of(word))
    } else {
        Err(Refusal::Corrupt)
    }
}

// Looks an id up for a tenant on a table that is lent. The caller counts the servers that were opened.
pub fn lookup_in(table: &View<'_>, medium: &[u32], tenant: u32, id: u32) -> LookupAnswer
    ensures { reply_of_lookup result ≡ lookup_reply (table_of table.now) medium.now tenant id }
{
    if let Err(refusal) = checks::asked(table, medium, tenant, id, false) {
        return LookupAnswer {
            value: Err(refusal),
            opened: 0,
        };
    }
    let answer = search::find(table, medium, id);
    let opened = answer.opened;
    match answer.met {
        None => LookupAnswer {
            value: Err(Refusal::NotFound),
            opened,
        },
        Some(place) => {
            let server = Server {
                medium,
                capacity: table.shape.capacity as usize,
                used: table.used[place.server] as usize,
                number: place.server,
            };
            LookupAnswer {
                value: met(&server, place.entry),
                opened,
            }
        }
    }
}

// Looks an id up for a tenant.
#[tactic(auto, using(replies::proofs::Distinct::lookup_opened), unfolding(crate::specs::Lookup::lookup_table))]
pub fn lookup(table: &mut Table, medium: &[u32], tenant: u32, id: u32) -> LookupAnswer
    ensures reply { reply_of_lookup result ≡ lookup_reply table.old medium.now tenant id }
    ensures table { table.new ≡ lookup_table table.old medium.now tenant id }
{
    let answer = lookup_in(&table.view(), medium, tenant, id);
    upkeep::add_opened(table, tenant, answer.opened);
    answer
}
