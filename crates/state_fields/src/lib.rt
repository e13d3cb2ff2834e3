// Whether the fields of a slice are in their ranges, each place may stand by itself, and no two are rivals, tested where they lie. docs/STATE.md draws the layout.
#![tactic(auto, using(crate::proofs::Rules::rules))]

ghost use Rattle.std.specs.Prelude.{◌≡◌};
ghost use Rattle.state_layout.specs.Layout.{process_from, process_fits, state_of, is_owned};
ghost use Rattle.state_fields.specs.Keys.{key_of, Key};
ghost use Rattle.state_fields.specs.Stands.{stands, stand_together, all_fit};

use module_state::{CREDENTIALS, LAST_CREDENTIAL, LAST_SESSION, SESSIONS};
use names::{ELEVATION_TYPE, SAVED_TYPE, USER_TYPE};
use state_layout::{
    CHOSEN_BYTE, CREDENTIAL_SIZE, CREDENTIALS_AT, KIND_AT, NEXT_AT, OWNER_AT, PLACE_SIZE,
    SESSION_AT, SET_FLAG, STATE_LENGTH,
};

// ---- a place by itself

// A credential is a byte there.
const LAST_OWNER: u8 = LAST_CREDENTIAL as u8;

fn process_fits(place: &[u8; PLACE_SIZE]) -> bool
    ensures { result ≡ process_fits place.now }
{
    let session = place[SESSION_AT];
    place[OWNER_AT] <= LAST_OWNER
        && session <= LAST_SESSION
        && match place[KIND_AT] {
            USER_TYPE => true,
            ELEVATION_TYPE => rows::number16(place, NEXT_AT) == 0,
            SAVED_TYPE => session == 0 && 1 <= rows::number16(place, NEXT_AT),
            _ => false,
        }
}

// Whether the owner of a place is provisioned, and its session open with version 1.0 where it is active.
fn is_owned<'a>(s: &'a [u8; STATE_LENGTH], place: &'a [u8; PLACE_SIZE]) -> bool
    ensures { result ≡ is_owned (state_of s.now) (process_from place.now) }
{
    let credential = usize::from(place[OWNER_AT]);
    let session = usize::from(place[SESSION_AT]);
    credential < CREDENTIALS
        && s[CREDENTIALS_AT + credential * CREDENTIAL_SIZE] == SET_FLAG
        && (SAVED_TYPE <= place[KIND_AT] || session < SESSIONS && s[session] == CHOSEN_BYTE)
}

// Whether a place may stand by itself: its fields in their ranges, its owner and its session as they must be.
fn stands<'a>(s: &'a [u8; STATE_LENGTH], place: &'a [u8; PLACE_SIZE]) -> bool
    ensures { result ≡ stands s.now place.now }
{
    process_fits(place) && is_owned(s, place)
}

// ---- all places: rivals by their keys

// A user process's key is that of its session and its credential, an elevation's that of its session. A place without one, a saved process's, has a number
// that is never taken.
const USER_KEYS: usize = SESSIONS * CREDENTIALS;

const NO_KEY: usize = USER_KEYS + SESSIONS;

const KEY_COUNT: usize = NO_KEY + 1;

// The key of a place, by remainders, so that any bytes have one.
fn key_of(place: &[u8; PLACE_SIZE]) -> usize
    ensures { Key (key_of place.now) result }
{
    let session = usize::from(place[SESSION_AT]) % SESSIONS;
    match place[KIND_AT] {
        USER_TYPE => session * CREDENTIALS + usize::from(place[OWNER_AT]) % CREDENTIALS,
        ELEVATION_TYPE => USER_KEYS + session,
        _ => NO_KEY,
    }
}

// Whether each place may stand, and no two are rivals. It goes from the last place to the first, so that the keys of the later ones are taken; once over all of
// them for both, since most of the time of an entry is the test of its slice.
fn all_stand<'a>(s: &'a [u8; STATE_LENGTH], places: &'a [[u8; PLACE_SIZE]]) -> bool
    ensures { result ≡ stand_together s.now places.now }
{
    let mut taken = [false; KEY_COUNT];
    for i in (0..places.len()).rev() {
        let place = &places[i];
        if !stands(s, place) {
            return false;
        }
        let key = key_of(place);
        if taken[key] {
            return false;
        }
        taken[key] = true;
        taken[NO_KEY] = false;
    }
    true
}

// ---- all of them, the cheapest tests first

pub fn all_fit(s: &[u8]) -> bool
    ensures { result ≡ all_fit s.now }
{
    let Ok(state) = <&[u8; STATE_LENGTH]>::try_from(s) else {
        return false;
    };
    state_ranges::rest_is_free(s)
        && state_ranges::owners_fit(s)
        && all_stand(state, state_ranges::standing(state))
}
