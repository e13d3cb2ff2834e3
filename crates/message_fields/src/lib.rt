// The fields of the messages of 004 clause 9.2, read and tested. Values are seven, of which those that a shape has no field for are 0.
#![tactic(auto, using(crate::proofs::Rules::rules))]

ghost use Rattle.std.specs.Prelude.{◌≡◌};
ghost use Rattle.message_formats.specs.Formats.{meant, is_allowed};
ghost use Rattle.message_fields.specs.Fields.{fields_read, fields_tested};

use message_formats::{Form, Shape};

pub const VALUES: usize = 7;

// What the fields at the front of a slice say: how many bytes they have, and their values.
#[derive(Clone, Copy)]
pub struct FieldsRead {
    pub long: usize,
    pub values: [u64; VALUES],
}

// How many bytes the fields have, and whether each value may stand in its field. A writer asks for the room first, so it needs both.
#[derive(Clone, Copy)]
pub struct FieldsTested {
    pub long: usize,
    pub allowed: bool,
}

// ---- one field

#[tactic(auto, unfolding(message_formats::specs::Formats::meant))]
fn meaning(form: Form, number: u64) -> u64
    ensures { result ≡ meant form number }
{
    if form.values == 0 {
        number
    } else {
        number % form.values
    }
}

#[tactic(auto, unfolding(message_formats::specs::Formats::is_allowed))]
fn is_allowed(form: Form, value: u64) -> bool
    ensures { result ≡ is_allowed form value }
{
    form.least <= value && value <= form.most
}

// ---- the fields of a shape. The form of each is looked up once

// The fields at the front of a slice: Ok, where each value may stand in its field; what was read all the same, where one may not. A byte past its end counts as 0.
pub fn read_fields(bytes: &[u8], shape: Shape) -> Result<FieldsRead, FieldsRead>
    ensures { result ≡ fields_read shape bytes.now }
{
    let mut values = [0; VALUES];
    let mut allowed = true;
    let mut place = 0;
    for at in 0..VALUES {
        let form = message_formats::form_of(message_places::field_of(shape, at));
        let value = meaning(form, rows::number_at(bytes, place, form.width));
        values[at] = value;
        allowed &= is_allowed(form, value);
        place += form.width;
    }
    let read = FieldsRead {
        long: place,
        values,
    };
    if allowed { Ok(read) } else { Err(read) }
}

// Values that are handed in, tested.
pub fn test_fields(shape: Shape, values: [u64; VALUES]) -> FieldsTested
    ensures { result ≡ fields_tested shape values }
{
    let mut allowed = true;
    let mut long = 0;
    for at in 0..VALUES {
        let form = message_formats::form_of(message_places::field_of(shape, at));
        allowed &= is_allowed(form, values[at]);
        long += form.width;
    }
    FieldsTested { long, allowed }
}
