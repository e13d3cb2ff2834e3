// The module's state in the bytes that the host lends: where each part and each field of it lies. docs/STATE.md draws it; specs/Layout.antt has the
// same names, and which bytes hold a state. Each part begins where the one before it ends, and so does each field.
#![tactic(auto)]

use module_state::{CREDENTIALS, SESSIONS, WORD_SIZE};
use names::NAME_LENGTH;
use table::PLACES;

// ---- a session: a byte of one of these values

pub const CLOSED_BYTE: u8 = 0;

pub const OPENED_BYTE: u8 = 1;

pub const CHOSEN_BYTE: u8 = 2;

pub const LAST_PHASE: u8 = CHOSEN_BYTE;

pub const SESSION_SIZE: usize = 1;

// ---- a credential: the flag that it is provisioned, which then has this value, its grant word and its second word

pub const SET_FLAG: u8 = 1;

pub const FLAG_AT: usize = 0;

pub const WORD_AT: usize = FLAG_AT + 1;

pub const SECOND_AT: usize = WORD_AT + WORD_SIZE;

pub const CREDENTIAL_SIZE: usize = SECOND_AT + WORD_SIZE;

// ---- a place

pub const OWNER_AT: usize = 0;

pub const KIND_AT: usize = OWNER_AT + 1;

pub const SESSION_AT: usize = KIND_AT + 1;

pub const NEXT_AT: usize = SESSION_AT + 1;

pub const NEXT_SIZE: usize = 2;

pub const NAME_AT: usize = NEXT_AT + NEXT_SIZE;

pub const PLACE_SIZE: usize = NAME_AT + NAME_LENGTH;

// ---- the whole: sessions, credentials, the count, places

pub const SESSIONS_AT: usize = 0;

pub const CREDENTIALS_AT: usize = SESSIONS_AT + SESSIONS * SESSION_SIZE;

pub const COUNT_AT: usize = CREDENTIALS_AT + CREDENTIALS * CREDENTIAL_SIZE;

pub const COUNT_SIZE: usize = 1;

pub const PLACES_AT: usize = COUNT_AT + COUNT_SIZE;

pub const STATE_LENGTH: usize = PLACES_AT + PLACES * PLACE_SIZE;
