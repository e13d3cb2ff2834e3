// The listing's messages, read and written for programs in C and Rust.
#![tactic(auto, using(crate::proofs::Rules::rules))]

ghost use Rattle.std.specs.Prelude.{◌≡◌};
ghost use Rattle.rows.specs.Rows.{over};
ghost use Rattle.module_state.specs.Refusals.{refusal_number, number_of, place_in};
ghost use Rattle.calls.specs.Listing.{head_length};
ghost use Rattle.listing_messages.specs.Wire.{request, read_request, request_room, read_count};
ghost use Rattle.entries_listing.specs.Messages.{Given, RowEntry};

use module_state::{DONE, Refusal};
use names::NAME_LENGTH;

fn number(refusal: Refusal) -> u32
    ensures { result ≡ refusal_number refusal }
{
    u32::from(u8::from(refusal))
}

// A number that was read, through a parameter. Where it is refused, the parameter stays as it was.
fn given(read: Result<u16, Refusal>, value: &mut u16) -> u32
    ensures { Given (number_of read) (place_in read) value.old result value.new }
{
    match read {
        Ok(number) => {
            *value = number;
            u32::from(DONE)
        }
        Err(refusal) => number(refusal),
    }
}

#[unsafe(no_mangle)]
pub extern "C" fn slavotuk_read_request(message: &[u8], credential: &mut u16) -> u32
    ensures { Given (read_request message.now).number (read_request message.now).credential credential.old result credential.new }
{
    given(listing_messages::read_request(message), credential)
}

#[unsafe(no_mangle)]
pub extern "C" fn slavotuk_write_request(buffer: &mut [u8], credential: u16) -> u32
    ensures { (result ≡ request_room buffer.old) × (buffer.new ≡ over 0 head_length (request credential) buffer.old) }
{
    match listing_messages::put_request(buffer, credential) {
        Ok(()) => u32::from(DONE),
        Err(refusal) => number(refusal),
    }
}

#[unsafe(no_mangle)]
pub extern "C" fn slavotuk_read_count(message: &[u8], count: &mut u16) -> u32
    ensures { Given (read_count message.now).number (read_count message.now).count count.old result count.new }
{
    given(listing_messages::read_count(message), count)
}

#[unsafe(no_mangle)]
pub extern "C" fn slavotuk_read_row(
    message: &[u8],
    at: usize,
    credential: &mut u16,
    kind: &mut u8,
    name: &mut [u8],
) -> u32
    ensures { RowEntry message.now at credential.old kind.old name.old result credential.new kind.new name.new }
{
    let row = match listing_messages::read_row_at(message, at) {
        Ok(row) => row,
        Err(refusal) => return number(refusal),
    };
    if name.len() != NAME_LENGTH {
        return number(Refusal::Argument);
    }
    *credential = row.credential.0;
    *kind = names::type_number(row.kind);
    names::put_name(name, row.name);
    u32::from(DONE)
}
