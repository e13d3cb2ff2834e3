// The response AUTH_PROCESSES written, and the list call with its bytes.
#![tactic(auto, using(crate::proofs::Rules::rules))]

ghost use Rattle.std.specs.Prelude.{◌≡◌, ◌≤◌, length};
ghost use Rattle.table.specs.Table.{is_among, standing};
ghost use Rattle.calls.specs.Calls.{listed};
ghost use Rattle.calls.specs.Listing.{among_of, row_of, message_length};
ghost use Rattle.listing_messages.specs.Wire.{rows_among, rows_over, listing_over, listed_bytes};

use calls::{HEAD_LENGTH, Listed, Wanted};
use listing_messages::AUTH_PROCESSES;
use module_state::{Claim, State};
use names::{ROW_LENGTH, Row, Session};
use table::{Process, Table};

// ---- the rows of a table

fn is_listed(p: Process, wanted: Wanted) -> bool
    ensures { result ≡ is_among (among_of wanted) p }
{
    table::is_among(p, calls_list_tests::among_of(wanted))
}

fn row_of(p: Process) -> Row
    ensures { result ≡ row_of p }
{
    Row {
        credential: p.credential,
        kind: names::type_of(p.kind),
        name: p.name,
    }
}

// The rows, each in the 51 bytes from its own offset. How many there are.
fn put_rows(buffer: &mut [u8], t: Table, wanted: Wanted) -> usize
    requires { message_length (length (rows_among wanted (standing t))) ≤ length buffer.old }
    ensures { (result ≡ length (rows_among wanted (standing t))) × (buffer.new ≡ rows_over (rows_among wanted (standing t)) buffer.old) }
{
    let mut k = 0;
    for p in table::standing(&t) {
        if is_listed(*p, wanted) {
            let start = HEAD_LENGTH + k * ROW_LENGTH;
            listing_row::put_row(&mut buffer[start..start + ROW_LENGTH], row_of(*p));
            k += 1;
        }
    }
    k
}

// ---- the message

// The response, at the front of a buffer that has room for it.
fn put_listing(buffer: &mut [u8], t: Table, wanted: Wanted)
    requires { message_length (length (rows_among wanted (standing t))) ≤ length buffer.old }
    ensures { buffer.new ≡ listing_over (rows_among wanted (standing t)) buffer.old }
{
    let count = put_rows(buffer, t, wanted);
    listing_messages::put_message_head(buffer, AUTH_PROCESSES, count as u16);
}

// The list call: what calls decides for the room that the buffer has, and the response where it is accepted.
pub fn list(st: State, s: Session, claim: Claim, wanted: Wanted, buffer: &mut [u8]) -> Listed
    ensures { (result ≡ listed st s claim wanted (length buffer.old)) × (buffer.new ≡ listed_bytes st s claim wanted buffer.old) }
{
    let decided = calls_standing::list(st, s, claim, wanted, buffer.len());
    if decided.length != 0 {
        put_listing(buffer, st.table, wanted);
    }
    decided
}
