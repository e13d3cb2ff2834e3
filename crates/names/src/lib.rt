// What things are called, and the types of the row that a listing has of a process.
#![tactic(auto, using(crate::proofs::Rules::rules), unfolding(crate::specs::Names::read_name, crate::specs::Names::name_in))]

ghost use Rattle.std.specs.Prelude.{◌≡◌, ◌+◌, ◌≤◌};
ghost use Rattle.rows.specs.Bytes.{is_zero};
ghost use Rattle.names.specs.Names.{name_length, same_bytes, same_name, read_name, name_in, type_number, type_numbered, type_of, kind_of};
ghost use Rattle.names.specs.Words.{stride, Word, stirred, digest_of};

use std::array;

// A session, by its slot: which port's it is, and which of that port's. A credential cannot stand for it, nor it for a credential.
#[derive(Clone, Copy, PartialEq, Eq)]
pub struct Session(pub u8);

#[derive(Clone, Copy, PartialEq, Eq)]
pub struct Credential(pub u16);

// What a process is that stands in the table.
#[derive(Clone, Copy, PartialEq, Eq)]
pub enum Kind {
    User,
    Elevation,
    Saved,
}

// The type that a row has on the wire: 004 Table 46.
#[derive(Clone, Copy, PartialEq, Eq)]
pub enum RowType {
    ActiveUser = 0,
    ActiveElevation = 1,
    SavedUser = 2,
}

// The number of each type, and of the kind that has it.
pub const USER_TYPE: u8 = RowType::ActiveUser as u8;

pub const ELEVATION_TYPE: u8 = RowType::ActiveElevation as u8;

pub const SAVED_TYPE: u8 = RowType::SavedUser as u8;

pub const LAST_TYPE: u8 = SAVED_TYPE;

pub const NAME_LENGTH: usize = 48;

// Where the fields of a row begin, and its length: the credential, the type, the name.
pub const ROW_CREDENTIAL_AT: usize = 0;

pub const ROW_TYPE_AT: usize = ROW_CREDENTIAL_AT + 2;

pub const ROW_NAME_AT: usize = ROW_TYPE_AT + 1;

pub const ROW_LENGTH: usize = ROW_NAME_AT + NAME_LENGTH;

// How many bytes of a name are read at a time.
const STRIDE: usize = 8;

// How many times.
const WORDS: usize = NAME_LENGTH / STRIDE;

#[derive(Clone, Copy)]
pub struct Name {
    pub bytes: [u8; NAME_LENGTH],
}

#[derive(Clone, Copy)]
pub struct Row {
    pub credential: Credential,
    pub kind: RowType,
    pub name: Name,
}

// ---- types: the number of each is 004 Table 46's, on the wire and in the state

// The type of the row of a process.
pub fn type_of(kind: Kind) -> RowType
    ensures { result ≡ type_of kind }
{
    match kind {
        Kind::User => RowType::ActiveUser,
        Kind::Elevation => RowType::ActiveElevation,
        Kind::Saved => RowType::SavedUser,
    }
}

// The type's number.
pub fn type_number(kind: RowType) -> u8
    ensures { result ≡ type_number kind }
{
    kind as u8
}

// The type of a number; a number that is no type's is taken for the last.
pub fn type_numbered(number: u8) -> RowType
    ensures { result ≡ type_numbered number }
{
    match number {
        USER_TYPE => RowType::ActiveUser,
        ELEVATION_TYPE => RowType::ActiveElevation,
        _ => RowType::SavedUser,
    }
}

// The kind of a process that has a type.
pub fn kind_of(t: RowType) -> Kind
    ensures { result ≡ kind_of t }
{
    match t {
        RowType::ActiveUser => Kind::User,
        RowType::ActiveElevation => Kind::Elevation,
        RowType::SavedUser => Kind::Saved,
    }
}

// ---- names

// Eight bytes from an index on, as one number, the lowest first: one load.
fn word(bytes: &[u8; NAME_LENGTH], at: usize) -> u64
    requires { at + stride ≤ name_length }
    ensures { Word bytes.now at result }
{
    u64::from_le_bytes(array::from_fn(|i| bytes[at + i]))
}

// The bits in which two names differ, of all their words together: 0 where they agree in all 48 bytes.
fn differences(x: &[u8; NAME_LENGTH], y: &[u8; NAME_LENGTH]) -> u64
    ensures { is_zero result ≡ same_bytes x.now y.now }
{
    let mut d = 0;
    for i in 0..WORDS {
        d |= word(x, i * STRIDE) ^ word(y, i * STRIDE);
    }
    d
}

// What a half of a word holds.
const HALF: u64 = 0x100000000;

// Whether two names agree in all 48 bytes. All of both are read every time before it answers: order 4. The two halves of the differences are put together
// before the test, because of a test of all of them at once the compiler makes six tests, with an exit after each (docs/TRACE.md).
pub fn same(a: Name, b: Name) -> bool
    ensures { result ≡ same_name a b }
{
    let d = differences(&a.bytes, &b.bytes);
    (d / HALF | d % HALF) == 0
}

// A number that equal names have in common, and other names hardly ever: so that many names are told apart by one reading of each.
pub fn digest(name: Name) -> u64
    ensures { result ≡ digest_of name }
{
    let mut d = 0;
    for i in 0..WORDS {
        d = stirred(d, word(&name.bytes, i * STRIDE));
    }
    d
}

// A digest with one word more: it goes round by 19 bits, it is taken nine times, so that each bit moves others, and the word is added.
fn stirred(d: u64, word: u64) -> u64
    ensures { result ≡ stirred d word }
{
    let round = d % 0x200000000000 * 0x80000 + d / 0x200000000000;
    let nine = round.wrapping_add(round % 0x2000000000000000 * 8);
    nine.wrapping_add(word)
}

// The name that a slice of 48 bytes says.
pub fn read_name(bytes: &[u8]) -> Option<Name>
    ensures { result ≡ read_name bytes.now }
{
    let bytes = <[u8; NAME_LENGTH]>::try_from(bytes).ok()?;
    Some(Name { bytes })
}

// The name, in a part of 48 bytes. A part of another length stays.
pub fn put_name(part: &mut [u8], name: Name)
    ensures { part.new ≡ name_in part.old name }
{
    if part.len() == NAME_LENGTH {
        part.copy_from_slice(&name.bytes);
    }
}
