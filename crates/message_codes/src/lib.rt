// Which shape a message of 004 clause 9.2 has, by its code: Tables 16 and 17.
#![tactic(auto, unfolding(crate::specs::Codes::find, crate::specs::Codes::operations, crate::specs::Codes::errors, crate::specs::Codes::requests, crate::specs::Codes::responses, crate::specs::Codes::shape_of, crate::specs::Codes::pieces, crate::specs::Codes::piece_of))]

ghost use Rattle.std.specs.Prelude.{◌≡◌};
ghost use Rattle.message_codes.specs.Codes.{find, operations, errors, requests, responses, shape_of, piece_of};

use message_formats::Shape;

// The shapes of a message whose first field is an operation: Tables 34 and 40.
fn by_operation(chooser: u64, change: Shape) -> Shape
    ensures { result ≡ find chooser (operations change) }
{
    match chooser {
        1 => change,
        2 | 3 => Shape::LockOrUnlocking,
        _ => Shape::NoMessage,
    }
}

// The shapes of an error: Table 21.
fn by_error(chooser: u64) -> Shape
    ensures { result ≡ find chooser errors }
{
    match chooser {
        1..=8 | 0x0a => Shape::PlainError,
        9 => Shape::UnsupportedRequest,
        0x0b => Shape::Terminated,
        0xff => Shape::VendorError,
        _ => Shape::NoMessage,
    }
}

fn request_shape(code: u8, chooser: u64) -> Shape
    ensures { result ≡ find code (requests chooser) }
{
    match code {
        0x81 => Shape::Plain,
        0x82 => Shape::VersionNumber,
        0x83 => by_operation(chooser, Shape::ChangeCredential),
        0x84 => Shape::OneCredential,
        0x85 => by_operation(chooser, Shape::ChangePolicies),
        0x86 => Shape::OneCredential,
        0x87 => Shape::StartAuth,
        0x88 => Shape::EndAuth,
        0x89 => Shape::Plain,
        0x8a => Shape::Plain,
        0x8b => Shape::Plain,
        0x8c => Shape::Reset,
        0x8d => Shape::Plain,
        0x8e => Shape::OneCredential,
        0x8f => Shape::CredentialAndName,
        _ => Shape::NoMessage,
    }
}

fn response_shape(code: u8, chooser: u64) -> Shape
    ensures { result ≡ find code (responses chooser) }
{
    match code {
        0x01 => Shape::VersionList,
        0x02 => Shape::Plain,
        0x03 => Shape::Plain,
        0x04 => Shape::CredentialParameters,
        0x05 => Shape::Plain,
        0x06 => Shape::PolicyAnswer,
        0x07 => Shape::StartAuthResponse,
        0x08 => Shape::OneCredential,
        0x09 => Shape::Plain,
        0x0a => Shape::Plain,
        0x0b => Shape::Capabilities,
        0x0c => Shape::Plain,
        0x0d => Shape::Plain,
        0x0e => Shape::ProcessList,
        0x0f => Shape::NameAlone,
        0x7f => by_error(chooser),
        _ => Shape::NoMessage,
    }
}

// The shape of a message, by its code and, for three codes, by the first field behind it: the operation or the error.
pub fn shape_of(code: u8, chooser: u64) -> Shape
    ensures { result ≡ shape_of code chooser }
{
    if code < 0x80 {
        response_shape(code, chooser)
    } else {
        request_shape(code, chooser)
    }
}

// The shape of a piece of a list.
pub fn piece_of(kind: u32) -> Shape
    ensures { result ≡ piece_of kind }
{
    match kind {
        0 => Shape::VersionPiece,
        1 => Shape::ProcessPiece,
        2 => Shape::OwnerPiece,
        3 => Shape::PolicyPiece,
        4 => Shape::ResetPiece,
        _ => Shape::NoMessage,
    }
}
