// Ownership, and what is held of a credential, written into a store where it lies. docs/STORE.md draws the layout. A slice of another length stays, and so does
// one where there is no such credential.
#![tactic(auto, using(crate::proofs::Rules::rules))]

ghost use Rattle.std.specs.Prelude.{◌≡◌, replicate};
ghost use Rattle.rows.specs.Rows.{over};
ghost use Rattle.store_layout.specs.Store.{nothing};
ghost use Rattle.store_layout.specs.Layout.{can_write, owned_written, head_written, room_written, held_written, cleared_from};

use module_state::CREDENTIALS;
use names::Credential;
use store_layout::{
    HEAD_SIZE, HEADS_AT, Head, LENGTH_AT, LOCK_AT, OWNED_AT, PARAMETERS_AT, PARAMETERS_SIZE,
    STORE_LENGTH,
};

// ---- ownership

pub fn put_owned(store: &mut [u8], owned: bool)
    ensures { store.new ≡ owned_written store.old owned }
{
    if store.len() == STORE_LENGTH {
        store[OWNED_AT] = u8::from(owned);
    }
}

// ---- a credential

fn can_write(store: &[u8], c: Credential) -> bool
    ensures { result ≡ can_write store.now c }
{
    store.len() == STORE_LENGTH && module_state::is_credential(c)
}

pub fn put_head(store: &mut [u8], c: Credential, head: Head)
    ensures { store.new ≡ head_written store.old c head }
{
    if can_write(store, c) {
        let a = HEADS_AT + usize::from(c.0) * HEAD_SIZE;
        store[a + LOCK_AT] = u8::from(head.locked);
        rows::put_number16(store, a + LENGTH_AT, head.length);
    }
}

// Zeros, n of them from a place on. A buffer that is too short stays.
fn put_zeros(buffer: &mut [u8], at: usize, n: usize)
    ensures { buffer.new ≡ over at n (replicate n 0) buffer.old }
{
    if n <= buffer.len() && at <= buffer.len() - n {
        buffer[at..at + n].fill(0);
    }
}

// Parameters, and zeros behind them. A slice stays where they are longer than the room.
pub fn put_room(store: &mut [u8], c: Credential, parameters: &[u8])
    ensures { store.new ≡ room_written store.old c parameters.now }
{
    let n = parameters.len();
    if can_write(store, c) && n <= PARAMETERS_SIZE {
        let a = PARAMETERS_AT + usize::from(c.0) * PARAMETERS_SIZE;
        rows::put_bytes(store, a, parameters);
        put_zeros(store, a + n, PARAMETERS_SIZE - n);
    }
}

// The room, and the head that says its length.
pub fn put_held(store: &mut [u8], c: Credential, locked: bool, parameters: &[u8])
    ensures { store.new ≡ held_written store.old c (record { locked = locked; parameters = parameters.now }) }
{
    let length = (parameters.len() % 65536) as u16;
    put_room(store, c, parameters);
    put_head(store, c, Head { locked, length });
}

// ---- nothing held

fn put_nothing(store: &mut [u8], c: Credential)
    ensures { store.new ≡ held_written store.old c nothing }
{
    put_held(store, c, false, b"");
}

// Of each credential whose flag is set.
pub fn clear(store: &mut [u8], gone: [bool; CREDENTIALS])
    ensures { store.new ≡ cleared_from 0 gone store.old }
{
    for i in 0..CREDENTIALS {
        if gone[i] {
            put_nothing(store, Credential(i as u16));
        }
    }
}
