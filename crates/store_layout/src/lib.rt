// The store in the bytes that the host lends beside the state: where each part and each field of it lies. docs/STORE.md draws it; specs/Layout.antt has the
// same names, and which bytes are a store. Each part begins where the one before it ends, and so does each field.
#![tactic(auto)]

use module_state::CREDENTIALS;

// ---- the head of a credential: the flag that it is locked, and the length of its parameters

pub const LOCK_AT: usize = 0;

pub const LENGTH_AT: usize = LOCK_AT + 1;

pub const LENGTH_SIZE: usize = 2;

pub const HEAD_SIZE: usize = LENGTH_AT + LENGTH_SIZE;

// ---- the room for its parameters

pub const PARAMETERS_SIZE: usize = 512;

// The largest length that a head may say.
pub const LAST_LENGTH: u16 = PARAMETERS_SIZE as u16;

// ---- the whole: ownership, the heads, the parameters

pub const OWNED_AT: usize = 0;

pub const OWNED_SIZE: usize = 1;

pub const HEADS_AT: usize = OWNED_AT + OWNED_SIZE;

pub const PARAMETERS_AT: usize = HEADS_AT + CREDENTIALS * HEAD_SIZE;

pub const STORE_LENGTH: usize = PARAMETERS_AT + CREDENTIALS * PARAMETERS_SIZE;

// What a store says of a credential but for the parameters themselves: whether it is locked, and how long they are.
#[derive(Clone, Copy)]
pub struct Head {
    pub locked: bool,
    pub length: u16,
}

// The first bytes of a store by value: whether the module is owned, and the head of each credential. The parameters stay where they lie.
#[derive(Clone, Copy)]
pub struct Heads {
    pub owned: bool,
    pub each: [Head; CREDENTIALS],
}
