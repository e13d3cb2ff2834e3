// The table of a state, written into a slice: all of it, or the next number of one place. docs/STATE.md draws the layout.
#![tactic(auto, using(crate::proofs::Rules::rules))]

ghost use Rattle.std.specs.Prelude.{◌≡◌, map, ◌∷◌, ◌+◌, ◌*◌};
ghost use Rattle.lists.specs.Lists.{join};
ghost use Rattle.rows.specs.Bytes.{byte_of};
ghost use Rattle.rows.specs.Rows.{over, Put};
ghost use Rattle.names.specs.Names.{kind_number};
ghost use Rattle.table.specs.Table.{places};
ghost use Rattle.state_layout.specs.Layout.{place_size, count_at, count_size, places_at, process_bytes, next_written};

use names::Kind;
use state_layout::{
    COUNT_AT, KIND_AT, NAME_AT, NEXT_AT, OWNER_AT, PLACE_SIZE, PLACES_AT, SESSION_AT, STATE_LENGTH,
};
use table::{PLACES, Process, Table};

// ---- a place

// The number of its type.
fn kind_number(kind: Kind) -> u8
    ensures { result ≡ kind_number kind }
{
    names::type_number(names::type_of(kind))
}

fn process_bytes(p: Process) -> [u8; PLACE_SIZE]
    ensures { result ≡ process_bytes p }
{
    let mut place = [0; PLACE_SIZE];
    place[OWNER_AT] = rows::byte_of(usize::from(p.credential.0));
    place[KIND_AT] = kind_number(p.kind);
    place[SESSION_AT] = p.session.0;
    rows::put_number16(&mut place, NEXT_AT, p.next);
    place[NAME_AT..].copy_from_slice(&p.name.bytes);
    place
}

fn put_places(s: &mut [u8; STATE_LENGTH], l: [Process; PLACES])
    ensures { Put places_at (places * place_size) (join (map process_bytes l)) s.old s.new }
{
    for i in 0..PLACES {
        let start = PLACES_AT + i * PLACE_SIZE;
        s[start..start + PLACE_SIZE].copy_from_slice(&process_bytes(l[i]));
    }
}

// ---- the table

// The count and the places, in a slice that has room for a state. A shorter one stays.
pub fn put_table(s: &mut [u8], t: Table)
    ensures { s.new ≡ over count_at (count_size + places * place_size) (byte_of t.count ∷ join (map process_bytes t.places)) s.old }
{
    if let Some(s) = s.first_chunk_mut::<STATE_LENGTH>() {
        s[COUNT_AT] = rows::byte_of(t.count);
        put_places(s, t.places);
    }
}

// The next number of a place, in a slice of a state's length, and nothing else. One of another length stays, and so does one where there is no such place.
pub fn write_next(s: &mut [u8], at: usize, next: u16)
    ensures { s.new ≡ next_written s.old at next }
{
    if s.len() == STATE_LENGTH && at < PLACES {
        rows::put_number16(s, PLACES_AT + at * PLACE_SIZE + NEXT_AT, next);
    }
}
