// The row that a listing has of a process: 51 bytes, written and read.
#![tactic(auto, using(crate::proofs::Rules::rules))]

ghost use Rattle.std.specs.Prelude.{◌≡◌};
ghost use Rattle.names.specs.Names.{row_in, is_row, read_row};

use names::{Credential, LAST_TYPE, ROW_CREDENTIAL_AT, ROW_LENGTH, ROW_NAME_AT, ROW_TYPE_AT, Row};

// The row, in a part of a row's length. A part of another length stays.
pub fn put_row(part: &mut [u8], row: Row)
    ensures { part.new ≡ row_in part.old row }
{
    if part.len() == ROW_LENGTH {
        rows::put_number16(part, ROW_CREDENTIAL_AT, row.credential.0);
        part[ROW_TYPE_AT] = names::type_number(row.kind);
        names::put_name(&mut part[ROW_NAME_AT..ROW_LENGTH], row.name);
    }
}

// Whether a slice is a row's: of its length, with the number of a type.
pub fn is_row(part: &[u8]) -> bool
    ensures { result ≡ is_row part.now }
{
    part.len() == ROW_LENGTH && part[ROW_TYPE_AT] <= LAST_TYPE
}

// The row that a slice says.
pub fn read_row(part: &[u8]) -> Option<Row>
    ensures { result ≡ read_row part.now }
{
    if !is_row(part) {
        return None;
    }
    Some(Row {
        credential: Credential(rows::number16(part, ROW_CREDENTIAL_AT)),
        kind: names::type_numbered(part[ROW_TYPE_AT]),
        name: names::read_name(&part[ROW_NAME_AT..ROW_LENGTH])?,
    })
}
