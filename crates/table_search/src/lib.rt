// The searches through the table.
#![tactic(auto, using(crate::proofs::Rules::rules), unfolding(table::specs::Table::count_among))]

ghost use Rattle.std.specs.Prelude.{◌≡◌};
ghost use Rattle.table.specs.Table.{find_active, find_named, count_among};

use names::Name;
use table::{Active, Among, Table};

// The first process that is active so. Document 01 names the form of a search: a loop whose break carries the place found, or the count where none is.
pub fn find_active(t: Table, which: Active) -> Option<usize>
    ensures { result ≡ find_active t which }
{
    let count = table::size(t);
    let mut i: usize = 0;
    let at = loop {
        if count <= i || table::is_active(t.places[i], which) {
            break i;
        }
        i += 1;
    };
    if at < count { Some(at) } else { None }
}

// The first process of a name among those.
pub fn find_named(t: Table, name: Name, among: Among) -> Option<usize>
    ensures { result ≡ find_named t name among }
{
    let count = table::size(t);
    let mut i: usize = 0;
    let at = loop {
        if count <= i || table::is_named(t.places[i], name, among) {
            break i;
        }
        i += 1;
    };
    if at < count { Some(at) } else { None }
}

// How many processes are among those.
pub fn count_among(t: Table, among: Among) -> usize
    ensures { result ≡ count_among t among }
{
    table::standing(&t)
        .iter()
        .filter(|p| table::is_among(**p, among))
        .count()
}
