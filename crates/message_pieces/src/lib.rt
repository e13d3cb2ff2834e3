// What follows the fields of a message: bytes, or the parts of a list, tested where they lie. A part is one piece or two, each with fields and the bytes that
// they say.
#![tactic(auto, using(crate::proofs::Rules::rules))]

ghost use Rattle.std.specs.Prelude.{◌≡◌, get_or};
ghost use Rattle.message_pieces.specs.Pieces.{rest_long, piece_in, first, second, part_in, are_parts, fits_rest};

use message_fields::{FieldsRead, VALUES};
use message_formats::{Part, Rest, Shape};

// A piece at the front of a slice: what its fields say, where the bytes behind them begin, and where it ends.
#[derive(Clone, Copy)]
pub struct Piece {
    pub values: [u64; VALUES],
    pub rest: usize,
    pub long: usize,
}

// ---- a piece

// The value at a place; 0 where there is none.
fn value_at(values: [u64; VALUES], at: usize) -> u64
    ensures { result ≡ get_or values at 0 }
{
    values.get(at).copied().unwrap_or(0)
}

// How many bytes follow the fields of a piece.
#[tactic(auto, unfolding(crate::specs::Pieces::rest_long))]
pub fn rest_length(rest: Rest, values: [u64; VALUES]) -> u64
    ensures { result ≡ rest_long rest values }
{
    match rest {
        Rest::Exactly(n) => n as u64,
        Rest::Said(at) => value_at(values, at),
        Rest::SaidTo(..) | Rest::Parts(..) | Rest::Never => 0,
    }
}

pub fn piece_in(bytes: &[u8], shape: Shape) -> Option<Piece>
    ensures { result ≡ piece_in shape bytes.now }
{
    let said = message_fields::read_fields(bytes, shape);
    // Taken whether each value may stand in its field or not: the length is asked before what the fields say.
    let FieldsRead { long: rest, values } = match said {
        Ok(read) | Err(read) => read,
    };
    let room = bytes.len().checked_sub(rest)?;
    let follow = rest_length(message_formats::rest_of(shape), values);
    if (room as u64) < follow {
        return None;
    }
    if said.is_err() {
        return None;
    }
    Some(Piece {
        values,
        rest,
        long: rest + follow as usize,
    })
}

// ---- a part

#[tactic(auto, unfolding(crate::specs::Pieces::first))]
fn first_of(part: Part) -> Shape
    ensures { result ≡ first part }
{
    match part {
        Part::VersionEntry => Shape::VersionPiece,
        Part::ProcessInfo => Shape::ProcessPiece,
        Part::Owner | Part::Policy | Part::ResetElement => Shape::OwnerPiece,
    }
}

// The piece behind the first; it has no bytes where the part is one piece.
#[tactic(auto, unfolding(crate::specs::Pieces::second))]
fn second_of(part: Part) -> Shape
    ensures { result ≡ second part }
{
    match part {
        Part::VersionEntry | Part::ProcessInfo | Part::Owner => Shape::Plain,
        Part::Policy => Shape::PolicyPiece,
        Part::ResetElement => Shape::ResetPiece,
    }
}

// How long the part at the front of a slice is.
fn part_in(bytes: &[u8], part: Part) -> Option<usize>
    ensures { result ≡ part_in part bytes.now }
{
    let front = piece_in(bytes, first_of(part))?.long;
    let back = piece_in(&bytes[front..], second_of(part))?.long;
    Some(front + back)
}

// Whether a slice is so many parts, one after the other. Each step goes on where a part ends, so the time is that of the bytes, whatever the count says.
fn are_parts(bytes: &[u8], part: Part, count: u64) -> bool
    ensures { result ≡ are_parts part count bytes.now }
{
    let mut left = bytes;
    for _ in 0..count {
        let Some(long) = part_in(left, part) else {
            return false;
        };
        left = &left[long..];
    }
    left.is_empty()
}

// ---- what follows the fields of a message

#[tactic(auto, unfolding(crate::specs::Pieces::fits_rest))]
pub fn fits_rest(bytes: &[u8], rest: Rest, values: [u64; VALUES]) -> bool
    ensures { result ≡ fits_rest rest values bytes.now }
{
    match rest {
        Rest::Exactly(n) => bytes.len() == n,
        Rest::Said(at) => bytes.len() as u64 == value_at(values, at),
        Rest::SaidTo(at, limit) => value_at(values, at) <= bytes.len() as u64
            && bytes.len() <= limit,
        Rest::Parts(part, at) => are_parts(bytes, part, value_at(values, at)),
        Rest::Never => false,
    }
}
