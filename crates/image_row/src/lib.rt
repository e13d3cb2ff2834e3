// The row that an image has of a saved process: 52 bytes, read and written. docs/IMAGE.md draws it.
#![tactic(auto, using(crate::proofs::Rules::rules), unfolding(image::specs::Image::is_whole, image::specs::Image::read_saved, image::specs::Image::saved_from))]

ghost use Rattle.std.specs.Prelude.{◌≡◌};
ghost use Rattle.image.specs.Image.{read_saved, saved_from, saved_over};

use image::{SAVED_NAME_AT, SAVED_NEXT_AT, SAVED_OWNER_AT, SAVED_SIZE, SavedRow};
use names::Credential;

// The row that its bytes say.
pub fn row_of(row: &[u8; SAVED_SIZE]) -> SavedRow
    ensures { result ≡ saved_from row.now }
{
    SavedRow {
        owner: Credential(rows::number16(row, SAVED_OWNER_AT)),
        next: rows::number16(row, SAVED_NEXT_AT),
        name: names::read_name(&row[SAVED_NAME_AT..]).unwrap(),
    }
}

// The row that a part of bytes says, where it is whole.
pub fn read_row(part: &[u8]) -> Option<SavedRow>
    ensures { result ≡ read_saved part.now }
{
    let row = <&[u8; SAVED_SIZE]>::try_from(part).ok()?;
    Some(row_of(row))
}

// The row, in a part of a row's length. A part of another length stays.
pub fn put_row(part: &mut [u8], row: SavedRow)
    ensures { part.new ≡ saved_over part.old row }
{
    if part.len() == SAVED_SIZE {
        rows::put_number16(part, SAVED_OWNER_AT, row.owner.0);
        rows::put_number16(part, SAVED_NEXT_AT, row.next);
        names::put_name(&mut part[SAVED_NAME_AT..SAVED_SIZE], row.name);
    }
}
