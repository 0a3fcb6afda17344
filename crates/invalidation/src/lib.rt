// The invalidations of a write and of a delete: a mark on each live entry of an id, server by server.
#![tactic(auto)]

ghost use Rattle.std.specs.Prelude.{◌≡◌, ◌<◌, length, take};
ghost use Rattle.limits.specs.Limits.{content_range};
ghost use Rattle.lists.specs.Below.{nth};
ghost use Rattle.medium.specs.Entry.{AllInside};
ghost use Rattle.medium.specs.Burn.{burn_all, invalidations};
ghost use Rattle.table.specs.Parts.{table_of};
ghost use Rattle.invalidation.specs.Marks.{marks_from};

use table::View;

// Burns a mark of this content on each live entry of an id on the readable servers from `from` up, as many as `burns` allow, and
// answers how many such entries there are. The id, the content and the burns are apart: a struct of them would be made by write and by delete to be taken apart
// in the loops below.
pub fn invalidate(
    medium: &mut [u32],
    table: &View<'_>,
    id: u32,
    from: usize,
    content: u32,
    burns: usize,
) -> usize
    requires all_inside { AllInside table.now.shape.capacity table.now.shape.count (nth table.now.used.now) medium.old }
    requires content_lt_content_range { content < content_range }
    ensures count { result ≡ length (marks_from (table_of table.now) medium.old id from) }
    ensures words { medium.new
        ≡ burn_all medium.old (take burns (invalidations content (marks_from (table_of table.now) medium.old id from))) }
{
    let entries = table.shape.capacity as usize;
    let salt = table.shape.salt;
    let mut n: usize = 0;
    for k in from..table.shape.count {
        if placement::takes(table.read_p(k), salt, id, k) {
            let used = table.used[k] as usize;
            n = marking::invalidate_server(medium, entries, used, id, k, content, burns, n);
        }
    }
    n
}
