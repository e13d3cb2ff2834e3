// The listing messages: GET_AUTH_PROCESSES and AUTH_PROCESSES. Both are read here, and the request and what both begin with are written.
#![tactic(auto, using(crate::proofs::Rules::rules))]

ghost use Rattle.std.specs.Prelude.{◌≡◌};
ghost use Rattle.std.specs.List.{list_all};
ghost use Rattle.rows.specs.Rows.{over};
ghost use Rattle.names.specs.Names.{is_row};
ghost use Rattle.module_state.specs.Refusals.{number_of};
ghost use Rattle.calls.specs.Listing.{head_length};
ghost use Rattle.listing_messages.specs.Wire.{head, is_headed, head_number, request, request_in, read_request, request_room, is_listing, count_in, read_count, row_in, read_row_at};

use calls::{HEAD_LENGTH, HEAD_NUMBER_AT};
use module_state::Refusal;
use names::{ROW_LENGTH, Row};

// 004 Tables 16 and 17
pub const GET_AUTH_PROCESSES: u8 = 0x8e;

pub const AUTH_PROCESSES: u8 = 0x0e;

// ---- what both messages begin with

// Whether a message has a code and a length. Byte 1 is not looked at.
fn is_headed(message: &[u8], code: u8, long: usize) -> bool
    ensures { result ≡ is_headed code long message.now }
{
    message.len() == long && rows::byte_at(message, 0) == code
}

// The number after the reserved byte.
fn head_number(message: &[u8]) -> u16
    ensures { result ≡ head_number message.now }
{
    rows::number16(message, HEAD_NUMBER_AT)
}

// A code, the reserved byte and a number, at the front of a buffer that has room for them.
pub fn put_message_head(buffer: &mut [u8], code: u8, number: u16)
    ensures { buffer.new ≡ over 0 head_length (head code number) buffer.old }
{
    let [low, high] = number.to_le_bytes();
    rows::put_bytes(buffer, 0, &[code, 0, low, high]);
}

// ---- GET_AUTH_PROCESSES

// The credential that a request asks for.
pub fn read_request(message: &[u8]) -> Result<u16, Refusal>
    ensures { request_in result ≡ read_request message.now }
{
    if !is_headed(message, GET_AUTH_PROCESSES, HEAD_LENGTH) {
        return Err(Refusal::Message);
    }
    Ok(head_number(message))
}

// The request, at the front of a buffer that has room for it.
pub fn put_request(buffer: &mut [u8], credential: u16) -> Result<(), Refusal>
    ensures { (number_of result ≡ request_room buffer.old) × (buffer.new ≡ over 0 head_length (request credential) buffer.old) }
{
    if buffer.len() < HEAD_LENGTH {
        return Err(Refusal::Room);
    }
    put_message_head(buffer, GET_AUTH_PROCESSES, credential);
    Ok(())
}

// ---- AUTH_PROCESSES read

// Whether each is a row.
fn are_rows(rows: &[[u8; ROW_LENGTH]]) -> bool
    ensures { result ≡ list_all is_row rows.now }
{
    rows.iter().all(|row| listing_row::is_row(row))
}

// Whether the message is as long as its count says, and each row is one.
fn is_listing(message: &[u8]) -> bool
    ensures { result ≡ is_listing message.now }
{
    let long = HEAD_LENGTH + ROW_LENGTH * usize::from(head_number(message));
    if !is_headed(message, AUTH_PROCESSES, long) {
        return false;
    }
    let (rows, _) = message[HEAD_LENGTH..].as_chunks::<ROW_LENGTH>();
    are_rows(rows)
}

// How many rows a response has.
pub fn read_count(message: &[u8]) -> Result<u16, Refusal>
    ensures { count_in result ≡ read_count message.now }
{
    if !is_listing(message) {
        return Err(Refusal::Message);
    }
    Ok(head_number(message))
}

// The row at a place of a response.
pub fn read_row_at(message: &[u8], at: usize) -> Result<Row, Refusal>
    ensures { row_in result ≡ read_row_at message.now at }
{
    let count = read_count(message)?;
    if usize::from(count) <= at {
        return Err(Refusal::Argument);
    }
    let start = HEAD_LENGTH + at * ROW_LENGTH;
    listing_row::read_row(&message[start..start + ROW_LENGTH]).ok_or(Refusal::Message)
}
