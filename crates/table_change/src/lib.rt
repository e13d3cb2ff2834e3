// A process put into the table: after the others, or in the place of one.
#![tactic(auto, using(crate::proofs::Rules::rules), unfolding(table::specs::Table::size))]

ghost use Rattle.std.specs.Prelude.{◌≡◌};
ghost use Rattle.table.specs.Table.{standing, table_of, appended, replaced};

use table::{PLACES, Process, Table};

// The same processes, with the free places zero and the count at most 12.
pub fn tidied(t: Table) -> Table
    ensures { result ≡ table_of (standing t) }
{
    let count = table::size(t);
    let mut places = t.places;
    for i in count..PLACES {
        places[i] = table::free_place();
    }
    Table { places, count }
}

// p after the others. Where 12 stand, they stay.
pub fn appended(t: Table, p: Process) -> Table
    ensures { result ≡ appended t p }
{
    let Table {
        mut places,
        mut count,
    } = tidied(t);
    if count < PLACES {
        places[count] = p;
        count += 1;
    }
    Table { places, count }
}

// The process at a place replaced. Where none stands there, they stay.
pub fn replaced(t: Table, at: usize, p: Process) -> Table
    ensures { result ≡ replaced t at p }
{
    let Table { mut places, count } = tidied(t);
    if at < count {
        places[at] = p;
    }
    Table { places, count }
}
