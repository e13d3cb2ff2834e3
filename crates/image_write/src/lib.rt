// The image of a state, in the new layout, written at the front of a buffer. docs/IMAGE.md draws it.
#![tactic(auto, using(crate::proofs::Rules::rules))]

ghost use Rattle.std.specs.Prelude.{◌≡◌, map, ◌*◌, ◌≤◌, length, count_by};
ghost use Rattle.lists.specs.Lists.{join};
ghost use Rattle.rows.specs.Rows.{Put};
ghost use Rattle.table.specs.Table.{standing};
ghost use Rattle.image.specs.Image.{saved_at, saved_size, image_long, saved_bytes, saved_row, is_saved_one, saved_rows, ImageWritten};

use image::{SAVED_AT, SAVED_SIZE, SavedRow};
use module_state::State;
use names::Kind;
use table::{Process, Table};

// ---- the rows: the saved processes, in table order

fn is_saved_one(p: Process) -> bool
    ensures { result ≡ is_saved_one p }
{
    matches!(p.kind, Kind::Saved)
}

fn saved_row(p: Process) -> SavedRow
    ensures { result ≡ saved_row p }
{
    SavedRow {
        owner: p.credential,
        next: p.next,
        name: p.name,
    }
}

#[tactic(auto)]
fn count_saved(t: Table) -> usize
    ensures { result ≡ count_by is_saved_one (standing t) }
{
    table::standing(&t)
        .iter()
        .filter(|p| is_saved_one(**p))
        .count()
}

fn put_saved(buffer: &mut [u8], t: Table)
    requires { image_long saved_at (length (saved_rows (standing t))) ≤ length buffer.old }
    ensures { Put saved_at (length (saved_rows (standing t)) * saved_size) (join (map saved_bytes (saved_rows (standing t)))) buffer.old buffer.new }
{
    let mut k: usize = 0;
    for i in 0..table::size(t) {
        let p = t.places[i];
        if is_saved_one(p) {
            let a = SAVED_AT + k * SAVED_SIZE;
            let e = a + SAVED_SIZE;
            image_row::put_row(&mut buffer[a..e], saved_row(p));
            k += 1;
        }
    }
}

// ---- the whole

// The image of a state, at the front of a buffer that has room for it. Its length; 0 where there is no room, and the buffer then stays.
pub fn write_image(buffer: &mut [u8], st: State) -> usize
    ensures { ImageWritten st buffer.old result buffer.new }
{
    let saved = count_saved(st.table);
    let long = SAVED_AT + saved * SAVED_SIZE;
    if buffer.len() < long {
        return 0;
    }
    image_front::put_front(buffer, st.credentials, saved as u16, SAVED_AT as u16);
    put_saved(buffer, st.table);
    long
}
