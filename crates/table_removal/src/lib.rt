// Processes taken out of the table: one, or those that are active in a session.
#![tactic(auto, using(crate::proofs::Rules::rules))]

ghost use Rattle.std.specs.Prelude.{◌≡◌};
ghost use Rattle.table.specs.Table.{removed, without_session};

use names::Session;
use table::Table;

// The process at a place taken out, and the gap closed. Where none stands there, they stay.
pub fn removed(t: Table, at: usize) -> Table
    ensures { result ≡ removed t at }
{
    let count = table::size(t);
    if count <= at {
        return table_change::tidied(t);
    }
    let mut places = t.places;
    places.copy_within(at + 1..count, at);
    table_change::tidied(Table {
        places,
        count: count - 1,
    })
}

// A session's active processes taken out. Saved ones stay, and so does the order.
pub fn without_session(t: Table, s: Session) -> Table
    ensures { result ≡ without_session t s }
{
    let mut left = table::empty();
    for p in table::standing(&t) {
        if table::is_active_in(*p, s) {
            continue;
        }
        left.places[left.count] = *p;
        left.count += 1;
    }
    left
}
