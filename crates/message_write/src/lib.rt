// The messages of 004 clause 9.2 and the pieces of their lists, written.
#![tactic(auto, using(crate::proofs::Rules::rules))]

ghost use Rattle.std.specs.Prelude.{◌≡◌};
ghost use Rattle.message_fields_write.specs.Bodies.{body_bytes, body_long, written, written_in};
ghost use Rattle.message_write.specs.Written.{message_bytes, message_long, write_number, write_piece_number, written_over};

use message_fields::VALUES;
use message_formats::Shape;
use message_read::FIELDS_AT;
use module_state::Refusal;

// A message, at the front of a buffer that has room for it: how many bytes it has.
pub fn write_message(
    buffer: &mut [u8],
    code: u8,
    values: [u64; VALUES],
    rest: &[u8],
) -> Result<usize, Refusal>
    ensures { (written_in result ≡ written (write_number code values rest.now buffer.old) (message_long code values rest.now)) × (buffer.new ≡ written_over (write_number code values rest.now buffer.old) (message_long code values rest.now) (message_bytes code values rest.now) buffer.old) }
{
    let shape = message_codes::shape_of(code, values[0]);
    let carried = message_pieces::fits_rest(rest, message_formats::rest_of(shape), values);
    let long = message_fields_write::write_body(buffer, FIELDS_AT, shape, values, rest, carried)?;
    buffer[0] = code;
    buffer[1] = 0;
    Ok(long)
}

// A piece of a list, at the front of a buffer that has room for it: how many bytes it has.
pub fn write_piece(
    buffer: &mut [u8],
    shape: Shape,
    values: [u64; VALUES],
    rest: &[u8],
) -> Result<usize, Refusal>
    ensures { (written_in result ≡ written (write_piece_number shape values rest.now buffer.old) (body_long shape rest.now)) × (buffer.new ≡ written_over (write_piece_number shape values rest.now buffer.old) (body_long shape rest.now) (body_bytes shape values rest.now) buffer.old) }
{
    let follow = message_pieces::rest_length(message_formats::rest_of(shape), values);
    let carried = rest.len() as u64 == follow;
    message_fields_write::write_body(buffer, 0, shape, values, rest, carried)
}
