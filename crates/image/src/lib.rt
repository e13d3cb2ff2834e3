// The image of a module: where its numbers, its words and its rows lie. docs/IMAGE.md draws it; specs/Image.antt has the same names, and which bytes
// are an image. Each part begins where the one before it ends, and so does each field.
#![tactic(auto)]

use module_state::{CREDENTIALS, Grants, WORD_SIZE};
use names::{Credential, NAME_LENGTH, Name};

// ---- the five numbers at its head

pub const MASK_AT: usize = 0;

pub const WORD_COUNT_AT: usize = MASK_AT + 2;

pub const WORD_OFFSET_AT: usize = WORD_COUNT_AT + 2;

pub const ROW_COUNT_AT: usize = WORD_OFFSET_AT + 2;

pub const ROW_OFFSET_AT: usize = ROW_COUNT_AT + 2;

// ---- the grant words, the second words, and the rows where they begin

pub const WORDS_AT: usize = ROW_OFFSET_AT + 2;

pub const WORDS_SIZE: usize = CREDENTIALS * WORD_SIZE;

pub const SECONDS_AT: usize = WORDS_AT + WORDS_SIZE;

pub const SAVED_AT: usize = SECONDS_AT + WORDS_SIZE;

// The old layout has no second words: its rows lie where these would.
pub const OLD_SAVED_AT: usize = SECONDS_AT;

// ---- a row of a saved process

pub const SAVED_OWNER_AT: usize = 0;

pub const SAVED_NEXT_AT: usize = SAVED_OWNER_AT + 2;

pub const SAVED_NAME_AT: usize = SAVED_NEXT_AT + 2;

pub const SAVED_SIZE: usize = SAVED_NAME_AT + NAME_LENGTH;

// A saved process, as an image has it.
#[derive(Clone, Copy)]
pub struct SavedRow {
    pub owner: Credential,
    pub next: u16,
    pub name: Name,
}

// ---- what was read of bytes

// The five numbers that bytes say at their head: the mask, how many words there are and from where on, how many rows and from where on.
#[derive(Clone, Copy)]
pub struct ImageHead {
    pub mask: u16,
    pub words: usize,
    pub from: usize,
    pub rows: usize,
    pub offset: usize,
}

// What the test of an image reads of bytes, before their rows: the head and the credentials that they say.
#[derive(Clone, Copy)]
pub struct ImageParts {
    pub head: ImageHead,
    pub grants: [Grants; CREDENTIALS],
}
