// Bytes: numbers of up to eight of them, read and written little endian. `specs/` and `proofs/` have the records in rows of bytes as well.
#![tactic(auto, using(crate::proofs::Rules::rules), unfolding(crate::specs::Bytes::byte_of, crate::specs::Bytes::width_of))]

ghost use Rattle.std.specs.Prelude.{◌≡◌, length, get_or, drop, ℕ, ◌<◌};
ghost use Rattle.rows.specs.Bytes.{bytes_of, number_at, byte_of, width_of};
ghost use Rattle.rows.specs.Rows.{over};

use std::array;

// ---- a byte

// A number in one byte; one that a byte does not hold is 255.
pub fn byte_of(n: usize) -> u8
    ensures { result ≡ byte_of n }
{
    u8::try_from(n).unwrap_or(u8::MAX)
}

// ---- a width

// The bytes that the widest number has.
const WIDEST: usize = 8;

// The bytes that a number has; a width over 8 counts as 8.
fn width_of(width: usize) -> usize
    ensures { result ≡ width_of width }
{
    width.min(WIDEST)
}

// ---- read, from a place on: a byte past the end counts as 0

pub fn byte_at(bytes: &[u8], at: usize) -> u8
    ensures { result ≡ get_or bytes.now at 0 }
{
    bytes.get(at).copied().unwrap_or(0)
}

// The bytes from a place on; none past the end.
pub fn bytes_from(bytes: &[u8], at: usize) -> &[u8]
    ensures { result.now ≡ drop at bytes.now }
{
    bytes.get(at..).unwrap_or(&[])
}

// The first bytes, so many.
fn first_bytes<const N: usize>(bytes: &[u8]) -> [u8; N]
    ensures { (i : ℕ) → i < N → get_or result i 0 ≡ get_or bytes.now i 0 }
{
    array::from_fn(|i| byte_at(bytes, i))
}

// A number of any width. The highest byte comes first, so that each is added once. No more are read than it has: most fields of a message have one or none.
pub fn number_at(bytes: &[u8], at: usize, width: usize) -> u64
    ensures { result ≡ number_at (width_of width) at bytes.now }
{
    let size = width_of(width).min(bytes.len().saturating_sub(at));
    let mut number: u64 = 0;
    for i in (0..size).rev() {
        number = number * 256 + u64::from(bytes[at + i]);
    }
    number
}

// Of two bytes and of four: the claim's number and the grant word are read by these.
pub fn number16(bytes: &[u8], at: usize) -> u16
    ensures { result ≡ number_at 2 at bytes.now }
{
    u16::from_le_bytes(first_bytes(bytes_from(bytes, at)))
}

pub fn number32(bytes: &[u8], at: usize) -> u32
    ensures { result ≡ number_at 4 at bytes.now }
{
    u32::from_le_bytes(first_bytes(bytes_from(bytes, at)))
}

// ---- written, from a place on: a buffer that is too short stays as it was

// A number of any width, by its lowest bytes, one by one: for so few a copy, whose length the run alone knows, takes longer.
pub fn put_number(buffer: &mut [u8], at: usize, width: usize, number: u64)
    ensures { buffer.new ≡ over at (width_of width) (bytes_of (width_of width) number) buffer.old }
{
    let size = width_of(width);
    if size <= buffer.len() && at <= buffer.len() - size {
        let mut rest = number;
        for i in 0..size {
            buffer[at + i] = (rest % 256) as u8;
            rest /= 256;
        }
    }
}

// Of two bytes and of four.
pub fn put_number16(buffer: &mut [u8], at: usize, number: u16)
    ensures { buffer.new ≡ over at 2 (bytes_of 2 number) buffer.old }
{
    put_bytes(buffer, at, &number.to_le_bytes());
}

pub fn put_number32(buffer: &mut [u8], at: usize, number: u32)
    ensures { buffer.new ≡ over at 4 (bytes_of 4 number) buffer.old }
{
    put_bytes(buffer, at, &number.to_le_bytes());
}

// Bytes as they stand. One by one: a copy of a slice would ask for `memmove`, which the archive does without.
pub fn put_bytes(buffer: &mut [u8], at: usize, bytes: &[u8])
    ensures { buffer.new ≡ over at (length bytes.now) bytes.now buffer.old }
{
    if bytes.len() <= buffer.len() && at <= buffer.len() - bytes.len() {
        for (i, byte) in bytes.iter().enumerate() {
            buffer[at + i] = *byte;
        }
    }
}
