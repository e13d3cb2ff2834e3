// The heads of a store, read into a value, and the parameters of a credential, copied out of it. docs/STORE.md draws the layout.
#![tactic(auto, using(crate::proofs::Rules::rules))]

ghost use Rattle.std.specs.Prelude.{◌≡◌, map, ◌<◌, ◌≤◌};
ghost use Rattle.module_state.specs.Module.{credential_count};
ghost use Rattle.store_layout.specs.Store.{no_head, held_of, heads_of, parameters_size};
ghost use Rattle.store_layout.specs.Layout.{heads_in, store_of};
ghost use Rattle.store_read.specs.Reads.{head_in, head_part, length_from, head_from, parameters_over};

use module_state::CREDENTIALS;
use names::Credential;
use state_layout::SET_FLAG;
use store_layout::{
    HEAD_SIZE, HEADS_AT, Head, Heads, LAST_LENGTH, LENGTH_AT, LOCK_AT, OWNED_AT, PARAMETERS_AT,
    PARAMETERS_SIZE, STORE_LENGTH,
};

// ---- the heads

fn no_head() -> Head
    ensures { result ≡ no_head }
{
    Head {
        locked: false,
        length: 0,
    }
}

// The length that a head says; one over that of the room counts as the room's. A byte past the end counts as 0.
#[tactic(auto, unfolding(crate::specs::Reads::length_from, store_layout::specs::Layout::length_in))]
fn length_from(part: &[u8]) -> u16
    ensures { result ≡ length_from part.now }
{
    rows::number16(part, LENGTH_AT).min(LAST_LENGTH)
}

#[tactic(auto, unfolding(crate::specs::Reads::head_from))]
fn head_from(part: &[u8]) -> Head
    ensures { result ≡ head_from part.now }
{
    Head {
        locked: rows::byte_at(part, LOCK_AT) == SET_FLAG,
        length: length_from(part),
    }
}

// The bytes of a credential's head; none where there is no such credential.
#[tactic(auto, using(crate::proofs::Rules::rules), unfolding(crate::specs::Reads::head_in))]
pub fn head_part(store: &[u8; STORE_LENGTH], at: usize) -> &[u8]
    ensures { result.now ≡ head_part store.now at }
{
    if at < CREDENTIALS {
        let a = HEADS_AT + at * HEAD_SIZE;
        &store[a..a + HEAD_SIZE]
    } else {
        &[]
    }
}

fn each_head(store: &[u8; STORE_LENGTH]) -> [Head; CREDENTIALS]
    ensures { result ≡ map head_from (heads_in store.now) }
{
    let mut out = [no_head(); CREDENTIALS];
    for i in 0..CREDENTIALS {
        out[i] = head_from(head_part(store, i));
    }
    out
}

// The heads that a slice says, whatever its bytes are. A slice of another length says those of an empty store.
pub fn read_heads(store: &[u8]) -> Heads
    ensures { result ≡ heads_of (store_of store.now) }
{
    match <&[u8; STORE_LENGTH]>::try_from(store) {
        Ok(store) => Heads {
            owned: store[OWNED_AT] == SET_FLAG,
            each: each_head(store),
        },
        Err(_) => Heads {
            owned: false,
            each: [no_head(); CREDENTIALS],
        },
    }
}

// ---- the parameters of a credential

// How many bytes they are.
fn length_of(store: &[u8; STORE_LENGTH], at: usize) -> usize
    requires { at < credential_count }
    ensures said { result ≡ length_from (head_in store.now at) }
    ensures few { result ≤ parameters_size }
{
    usize::from(length_from(head_part(store, at)))
}

// Copied to the front of a buffer. There are none in a slice of another length, nor of what is no credential; a buffer that is too short stays.
pub fn copy_parameters(store: &[u8], c: Credential, buffer: &mut [u8])
    ensures { buffer.new ≡ parameters_over (held_of (store_of store.now) c).parameters buffer.old }
{
    let at = usize::from(c.0);
    if let Ok(store) = <&[u8; STORE_LENGTH]>::try_from(store) {
        if at < CREDENTIALS {
            let a = PARAMETERS_AT + at * PARAMETERS_SIZE;
            let e = a + length_of(store, at);
            rows::put_bytes(buffer, 0, &store[a..e]);
        }
    }
}
