// The fields of a message of 004 clause 9.2 or of a piece of a list, and the bytes that follow them, written.
#![tactic(auto, using(crate::proofs::Rules::rules))]

ghost use Rattle.std.specs.Prelude.{◌≡◌, ◌&&◌, ◌+◌, ◌≤◌, leb, length};
ghost use Rattle.rows.specs.Rows.{over};
ghost use Rattle.message_fields.specs.Fields.{fields, head_long, field_bytes, are_allowed};
ghost use Rattle.message_fields_write.specs.Bodies.{body_bytes, body_long, number_for, given, written, written_in};

use message_fields::{FieldsTested, VALUES};
use message_formats::Shape;
use module_state::Refusal;

// Whether fields and the bytes that follow them have room from a place on.
fn has_room(room: usize, at: usize, long: usize, more: usize) -> bool
    ensures { result ≡ leb (at + (long + more)) room }
{
    at <= room && long <= room - at && more <= room - at - long
}

// The fields of a shape, from a place on, in a buffer that has room for them.
fn put_values(buffer: &mut [u8], start: usize, shape: Shape, values: [u64; VALUES])
    requires { start + head_long shape ≤ length buffer.old }
    ensures { buffer.new ≡ over start (head_long shape) (field_bytes (fields shape) values) buffer.old }
{
    let mut place = start;
    for at in 0..VALUES {
        let width = message_formats::form_of(message_places::field_of(shape, at)).width;
        rows::put_number(buffer, place, width, values[at]);
        place += width;
    }
}

// Fields and the bytes that follow them, from a place on, where these can be carried: how many bytes were written. Nothing is written before everything is
// tested.
pub fn write_body(
    buffer: &mut [u8],
    at: usize,
    shape: Shape,
    values: [u64; VALUES],
    rest: &[u8],
    carried: bool,
) -> Result<usize, Refusal>
    ensures { (written_in result ≡ written (number_for (at + body_long shape rest.now) (are_allowed (fields shape) values && carried) buffer.old) (at + body_long shape rest.now)) × (buffer.new ≡ given (number_for (at + body_long shape rest.now) (are_allowed (fields shape) values && carried) buffer.old) (over at (body_long shape rest.now) (body_bytes shape values rest.now) buffer.old) buffer.old) }
{
    let FieldsTested { long, allowed } = message_fields::test_fields(shape, values);
    if !has_room(buffer.len(), at, long, rest.len()) {
        return Err(Refusal::Room);
    }
    if !(allowed && carried) {
        return Err(Refusal::Message);
    }
    let end = at + long;
    put_values(buffer, at, shape, values);
    rows::put_bytes(buffer, end, rest);
    Ok(end + rest.len())
}
