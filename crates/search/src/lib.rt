// The search of a lookup: over the servers from the highest down to the first that has a live entry of the id.
#![tactic(auto)]

ghost use Rattle.std.specs.Prelude.{◌≡◌};
ghost use Rattle.lists.specs.Below.{nth};
ghost use Rattle.medium.specs.Entry.{AllInside};
ghost use Rattle.table.specs.Parts.{table_of};
ghost use Rattle.search.specs.Search.{search_for, answer_of};

use scan::Server;
use table::View;

// An entry by its server and its number there.
#[derive(Clone, Copy)]
pub struct Place {
    pub server: usize,
    pub entry: usize,
}

// What a search meets, and how many servers it opened.
#[derive(Clone, Copy)]
pub struct SearchAnswer {
    pub met: Option<Place>,
    pub opened: usize,
}

// The entry that a lookup meets, and how many servers it opens. A `Server` of a table is made here, in a lookup and in a
// batch: a function of the three would ask for the two facts that its ghost fields state, and promise each of its four fields.
pub fn find(table: &View<'_>, medium: &[u32], id: u32) -> SearchAnswer
    requires { AllInside table.now.shape.capacity table.now.shape.count (nth table.now.used.now) medium.now }
    ensures { result ≡ answer_of (search_for (table_of table.now) medium.now id) }
{
    let capacity = table.shape.capacity as usize;
    let salt = table.shape.salt;
    let mut opened: usize = 0;
    for server in (0..table.shape.count).rev() {
        if placement::takes(table.read_p(server), salt, id, server) {
            opened += 1;
            let opening = Server {
                medium,
                capacity,
                used: table.used[server] as usize,
                number: server,
            };
            if let Some(entry) = opening.newest(id) {
                let met = Some(Place { server, entry });
                return SearchAnswer { met, opened };
            }
        }
    }
    SearchAnswer { met: None, opened }
}
