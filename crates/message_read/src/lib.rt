// The messages of 004 clause 9.2, read.
#![tactic(auto, using(crate::proofs::Rules::rules))]

ghost use Rattle.std.specs.Prelude.{◌≡◌};
ghost use Rattle.message_read.specs.Messages.{shape_in, said_by, answer_in, read_message};

use message_fields::{FieldsRead, VALUES};
use message_formats::Shape;
use module_state::Refusal;

// The code and the reserved byte stand before the fields.
pub const FIELDS_AT: usize = 2;

// What a message says: the values of its fields, and where what follows them begins.
#[derive(Clone, Copy)]
pub struct MessageRead {
    pub values: [u64; VALUES],
    pub rest: usize,
}

// By the code and the first byte of the fields.
fn shape_in(message: &[u8]) -> Shape
    ensures { result ≡ shape_in message.now }
{
    let code = rows::byte_at(message, 0);
    let chooser = rows::byte_at(message, FIELDS_AT);
    message_codes::shape_of(code, u64::from(chooser))
}

fn said_by(message: &[u8]) -> Option<MessageRead>
    ensures { result ≡ said_by message.now }
{
    let behind = message.get(FIELDS_AT..)?;
    let shape = shape_in(message);
    let said = message_fields::read_fields(behind, shape);
    // Taken whether each value may stand in its field or not: the length is asked before what the fields say.
    let FieldsRead { long, values } = match said {
        Ok(read) | Err(read) => read,
    };
    let rest = behind.get(long..)?;
    if said.is_err() {
        return None;
    }
    if !message_pieces::fits_rest(rest, message_formats::rest_of(shape), values) {
        return None;
    }
    Some(MessageRead {
        values,
        rest: FIELDS_AT + long,
    })
}

#[tactic(auto, unfolding(crate::specs::Messages::said_by, crate::specs::Messages::read_message))]
pub fn read_message(message: &[u8]) -> Result<MessageRead, Refusal>
    ensures { answer_in result ≡ read_message message.now }
{
    said_by(message).ok_or(Refusal::Message)
}
