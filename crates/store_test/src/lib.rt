// Whether a slice is a store, tested where it lies, and whether the heads of one fit a state's credentials. docs/STORE.md draws the layout.
#![tactic(auto, using(crate::proofs::Rules::rules))]

ghost use Rattle.std.specs.Prelude.{◌≡◌, drop};
ghost use Rattle.rows.specs.Bytes.{is_zero};
ghost use Rattle.rows.specs.Rows.{every};
ghost use Rattle.store_layout.specs.Store.{head_fits, fits};
ghost use Rattle.store_layout.specs.Layout.{head_fits_in, room_fits_in, rooms_fit, heads_in, rooms_in, is_store};

use module_state::{CREDENTIALS, Grants};
use state_layout::SET_FLAG;
use store_layout::{
    Head, Heads, LAST_LENGTH, LENGTH_AT, LOCK_AT, OWNED_AT, PARAMETERS_AT, PARAMETERS_SIZE,
    STORE_LENGTH,
};

// ---- the heads

#[tactic(auto, unfolding(store_layout::specs::Layout::head_fits_in, store_layout::specs::Layout::length_in))]
fn head_fits_in(part: &[u8]) -> bool
    ensures { result ≡ head_fits_in part.now }
{
    rows::byte_at(part, LOCK_AT) <= SET_FLAG && rows::number16(part, LENGTH_AT) <= LAST_LENGTH
}

fn heads_fit(store: &[u8; STORE_LENGTH]) -> bool
    ensures { result ≡ every head_fits_in (heads_in store.now) }
{
    for i in 0..CREDENTIALS {
        if !head_fits_in(store_read::head_part(store, i)) {
            return false;
        }
    }
    true
}

// ---- the rooms of the parameters

// Whether every byte from a place on is zero. There is no exit, so that many are read at a time.
fn is_clear(room: &[u8], from: usize) -> bool
    ensures { result ≡ every is_zero (drop from room.now) }
{
    let mut d = 0;
    for i in from..room.len() {
        d |= room[i];
    }
    d == 0
}

#[tactic(auto, unfolding(store_layout::specs::Layout::room_fits_in, store_layout::specs::Layout::length_in))]
fn room_fits_in(head: &[u8], room: &[u8]) -> bool
    ensures { result ≡ room_fits_in head.now room.now }
{
    is_clear(room, usize::from(rows::number16(head, LENGTH_AT)))
}

fn rooms_fit(store: &[u8; STORE_LENGTH]) -> bool
    ensures { result ≡ rooms_fit (heads_in store.now) (rooms_in store.now) }
{
    for i in 0..CREDENTIALS {
        let a = PARAMETERS_AT + i * PARAMETERS_SIZE;
        let e = a + PARAMETERS_SIZE;
        if !room_fits_in(store_read::head_part(store, i), &store[a..e]) {
            return false;
        }
    }
    true
}

// ---- the whole

// Of a slice of a store's length.
fn parts_fit(store: &[u8; STORE_LENGTH]) -> bool
    ensures { result ≡ is_store store.now }
{
    store[OWNED_AT] <= SET_FLAG && heads_fit(store) && rooms_fit(store)
}

pub fn is_store(store: &[u8]) -> bool
    ensures { result ≡ is_store store.now }
{
    match <&[u8; STORE_LENGTH]>::try_from(store) {
        Ok(store) => parts_fit(store),
        Err(_) => false,
    }
}

// ---- beside a state

// Whether a head may stand beside a credential's grants: one that is not provisioned has neither lock nor parameters.
#[tactic(auto, unfolding(store_layout::specs::Store::head_fits))]
fn head_fits(g: Grants, h: Head) -> bool
    ensures { result ≡ head_fits g h }
{
    g.provisioned || !h.locked && h.length == 0
}

pub fn fits(credentials: [Grants; CREDENTIALS], heads: Heads) -> bool
    ensures { result ≡ fits credentials heads }
{
    for i in 0..CREDENTIALS {
        if !head_fits(credentials[i], heads.each[i]) {
            return false;
        }
    }
    true
}
