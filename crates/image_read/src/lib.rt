// The module that an image makes, read into a value. docs/IMAGE.md draws the image.
#![tactic(auto, using(crate::proofs::Rules::rules), unfolding(image::specs::Image::saved_process))]

ghost use Rattle.std.specs.Prelude.{◌≡◌, ◌≤◌, map, length};
ghost use Rattle.table.specs.Table.{places, table_of};
ghost use Rattle.image.specs.Image.{saved_from, saved_process, read_image};

use image::{SAVED_SIZE, SavedRow};
use module_state::State;
use names::{Kind, Session};
use table::{Process, Table};

// ---- the rows

fn saved_process(row: SavedRow) -> Process
    ensures { result ≡ saved_process row }
{
    Process {
        credential: row.owner,
        kind: Kind::Saved,
        session: Session(0),
        next: row.next,
        name: row.name,
    }
}

fn read_saved(saved: &[[u8; SAVED_SIZE]]) -> Table
    requires { length saved.now ≤ places }
    ensures { result ≡ table_of (map saved_process (map saved_from saved.now)) }
{
    let mut places = table::empty().places;
    for (i, row) in saved.iter().enumerate() {
        places[i] = saved_process(image_row::row_of(row));
    }
    Table {
        places,
        count: saved.len(),
    }
}

// ---- the module

// The module that bytes make, where they are an image.
pub fn read_image(b: &[u8]) -> Option<State>
    ensures { result ≡ read_image b.now }
{
    match image_test::test_image(b) {
        Ok(parts) => {
            let saved = read_saved(image_test::saved_rows(b, parts.head.offset));
            Some(module_state::closed_module(parts.grants, saved))
        }
        Err(_) => None,
    }
}
