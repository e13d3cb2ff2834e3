// The messages of 004 clause 9.2 and the pieces of their lists, read and written for programs in C and Rust.
#![tactic(auto, using(crate::proofs::Rules::rules))]

ghost use Rattle.std.specs.Prelude.{◌≡◌, cond, ltb, Ok, Err};
ghost use Rattle.rows.specs.Bytes.{byte_of};
ghost use Rattle.module_state.specs.Refusals.{number_of};
ghost use Rattle.module_state.specs.declared.Refusal.TheVariants.{Argument};
ghost use Rattle.message_fields.specs.Fields.{head_long, values_of};
ghost use Rattle.message_pieces.specs.Pieces.{piece_long};
ghost use Rattle.message_codes.specs.Codes.{piece_of};
ghost use Rattle.message_fields_write.specs.Bodies.{body_bytes, body_long};
ghost use Rattle.message_write.specs.Written.{message_bytes, message_long};
ghost use Rattle.message_read.specs.Messages.{read_message};
ghost use Rattle.entries_messages.specs.Entries.{are_seven, kinds, read_message_number, write_message_number, read_piece_number, put_piece_number, ReadEntry, PieceEntry, WriteEntry};

use message_fields::VALUES;
use message_formats::Shape;
use module_state::{DONE, Refusal};

// The kinds of a piece are 0 to 4.
const KINDS: u32 = 5;

// ---- what is handed in, and what is answered

#[tactic(auto, unfolding(crate::specs::Entries::are_seven))]
fn seven(values: &[u64]) -> Result<[u64; VALUES], Refusal>
    ensures { result ≡ cond (are_seven values.now) (Ok values.now) (Err Argument) }
{
    <[u64; VALUES]>::try_from(values).map_err(|_| Refusal::Argument)
}

fn shape_of(kind: u32) -> Result<Shape, Refusal>
    ensures { result ≡ cond (ltb kind kinds) (Ok (piece_of kind)) (Err Argument) }
{
    if kind < KINDS {
        Ok(message_codes::piece_of(kind))
    } else {
        Err(Refusal::Argument)
    }
}

fn number_of(done: Result<(), Refusal>) -> u32
    ensures { result ≡ number_of done }
{
    match done {
        Ok(()) => DONE as u32,
        Err(refusal) => refusal as u32,
    }
}

// ---- messages

fn read_message(message: &[u8], values: &mut [u64], rest: &mut usize) -> Result<(), Refusal>
    ensures { ReadEntry (read_message_number message.now values.old) (read_message message.now).values (read_message message.now).rest values.old rest.old (number_of result) values.new rest.new }
{
    if values.len() != VALUES {
        return Err(Refusal::Argument);
    }
    let read = message_read::read_message(message)?;
    values.copy_from_slice(&read.values);
    *rest = read.rest;
    Ok(())
}

#[unsafe(no_mangle)]
pub extern "C" fn slavotuk_read_message(message: &[u8], values: &mut [u64], rest: &mut usize) -> u32
    ensures { ReadEntry (read_message_number message.now values.old) (read_message message.now).values (read_message message.now).rest values.old rest.old result values.new rest.new }
{
    number_of(read_message(message, values, rest))
}

fn write_message(
    buffer: &mut [u8],
    code: u32,
    values: &[u64],
    rest: &[u8],
    written: &mut usize,
) -> Result<(), Refusal>
    ensures { WriteEntry (write_message_number code values.now rest.now buffer.old) (message_long (byte_of code) values.now rest.now) (message_bytes (byte_of code) values.now rest.now) buffer.old written.old (number_of result) buffer.new written.new }
{
    let given = seven(values)?;
    let byte = rows::byte_of(code as usize);
    *written = message_write::write_message(buffer, byte, given, rest)?;
    Ok(())
}

#[unsafe(no_mangle)]
pub extern "C" fn slavotuk_write_message(
    buffer: &mut [u8],
    code: u32,
    values: &[u64],
    rest: &[u8],
    written: &mut usize,
) -> u32
    ensures { WriteEntry (write_message_number code values.now rest.now buffer.old) (message_long (byte_of code) values.now rest.now) (message_bytes (byte_of code) values.now rest.now) buffer.old written.old result buffer.new written.new }
{
    number_of(write_message(buffer, code, values, rest, written))
}

// ---- pieces

fn read_piece(
    bytes: &[u8],
    kind: u32,
    values: &mut [u64],
    rest: &mut usize,
    next: &mut usize,
) -> Result<(), Refusal>
    ensures { PieceEntry (read_piece_number kind bytes.now values.old) (values_of (piece_of kind) bytes.now) (head_long (piece_of kind)) (piece_long (piece_of kind) bytes.now) values.old rest.old next.old (number_of result) values.new rest.new next.new }
{
    let shape = shape_of(kind)?;
    if values.len() != VALUES {
        return Err(Refusal::Argument);
    }
    let Some(piece) = message_pieces::piece_in(bytes, shape) else {
        return Err(Refusal::Message);
    };
    values.copy_from_slice(&piece.values);
    *rest = piece.rest;
    *next = piece.long;
    Ok(())
}

#[unsafe(no_mangle)]
pub extern "C" fn slavotuk_read_piece(
    bytes: &[u8],
    kind: u32,
    values: &mut [u64],
    rest: &mut usize,
    next: &mut usize,
) -> u32
    ensures { PieceEntry (read_piece_number kind bytes.now values.old) (values_of (piece_of kind) bytes.now) (head_long (piece_of kind)) (piece_long (piece_of kind) bytes.now) values.old rest.old next.old result values.new rest.new next.new }
{
    number_of(read_piece(bytes, kind, values, rest, next))
}

fn write_piece(
    buffer: &mut [u8],
    kind: u32,
    values: &[u64],
    rest: &[u8],
    written: &mut usize,
) -> Result<(), Refusal>
    ensures { WriteEntry (put_piece_number kind values.now rest.now buffer.old) (body_long (piece_of kind) rest.now) (body_bytes (piece_of kind) values.now rest.now) buffer.old written.old (number_of result) buffer.new written.new }
{
    let shape = shape_of(kind)?;
    let given = seven(values)?;
    *written = message_write::write_piece(buffer, shape, given, rest)?;
    Ok(())
}

#[unsafe(no_mangle)]
pub extern "C" fn slavotuk_write_piece(
    buffer: &mut [u8],
    kind: u32,
    values: &[u64],
    rest: &[u8],
    written: &mut usize,
) -> u32
    ensures { WriteEntry (put_piece_number kind values.now rest.now buffer.old) (body_long (piece_of kind) rest.now) (body_bytes (piece_of kind) values.now rest.now) buffer.old written.old result buffer.new written.new }
{
    number_of(write_piece(buffer, kind, values, rest, written))
}
