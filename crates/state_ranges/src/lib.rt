// Whether the parts of a slice are in their ranges, tested where they lie: the count and the places past it, the sessions and the credentials.
// docs/STATE.md draws the layout.
#![tactic(auto, using(crate::proofs::Rules::rules), unfolding(state_layout::specs::Layout::rest_is_free, state_layout::specs::Layout::count_in, state_layout::specs::Layout::owners_fit))]

ghost use Rattle.std.specs.Prelude.{◌≡◌, ◌+◌, ◌*◌, ◌≤◌, leb, drop, min};
ghost use Rattle.std.specs.List.{list_all};
ghost use Rattle.rows.specs.Bytes.{is_zero};
ghost use Rattle.rows.specs.Rows.{rows, every};
ghost use Rattle.table.specs.Table.{places};
ghost use Rattle.module_state.specs.Module.{session_count, credential_count};
ghost use Rattle.state_layout.specs.Layout.{credential_size, place_size, session_size, credentials_at, places_at, session_fits, grants_fit, last_phase, count_in, rest_is_free, owners_fit};

use module_state::SESSIONS;
use state_layout::{
    COUNT_AT, CREDENTIAL_SIZE, CREDENTIALS_AT, FLAG_AT, LAST_PHASE, PLACE_SIZE, PLACES_AT,
    SECOND_AT, SET_FLAG, STATE_LENGTH, WORD_AT,
};
use table::PLACES;

// ---- the count, the places that stand, and those past it

// The places that stand: as many as the count says, all twelve where it says more.
pub fn standing(s: &[u8; STATE_LENGTH]) -> &[[u8; PLACE_SIZE]]
    ensures { result.now ≡ rows (min (count_in s.now) places) place_size (drop places_at s.now) }
{
    let n = usize::from(s[COUNT_AT]).min(PLACES);
    let (places, _) = s[PLACES_AT..].as_chunks::<PLACE_SIZE>();
    &places[..n]
}

// How many bytes are read at a time; those of two parts; what rounds up to these.
const BLOCK: usize = 32;

const BLOCKS: usize = 2 * BLOCK;

const ROUND_UP: usize = BLOCKS - 1;

// Whether every byte from the place n on is zero. There is no exit, so that many are read at a time: those of a first part with those of a second.
// Both are a multiple of a block long, so that none is read by itself; they may overlap.
fn are_free(s: &[u8; STATE_LENGTH], n: usize) -> bool
    requires { n ≤ places }
    ensures { result ≡ every is_zero (drop (places_at + n * place_size) s.now) }
{
    let first = PLACES_AT + n * PLACE_SIZE;
    let part = (STATE_LENGTH - first + ROUND_UP) / BLOCKS * BLOCK;
    let second = STATE_LENGTH - part;
    let mut d: u8 = 0;
    for i in 0..part {
        d = d | s[first + i] | s[second + i];
    }
    d == 0
}

pub fn rest_is_free(s: &[u8]) -> bool
    ensures { result ≡ rest_is_free s.now }
{
    let Ok(s) = <&[u8; STATE_LENGTH]>::try_from(s) else {
        return false;
    };
    let n = usize::from(s[COUNT_AT]);
    n <= PLACES && are_free(s, n)
}

// ---- the sessions and the credentials

fn sessions_fit(phases: &[u8]) -> bool
    ensures { result ≡ list_all (λ x. leb x last_phase) phases.now }
{
    phases.iter().all(|phase| *phase <= LAST_PHASE)
}

fn grants_fit(part: &[u8; CREDENTIAL_SIZE]) -> bool
    ensures { result ≡ grants_fit part.now }
{
    match part[FLAG_AT] {
        SET_FLAG => true,
        0 => rows::number32(part, WORD_AT) == 0 && rows::number32(part, SECOND_AT) == 0,
        _ => false,
    }
}

fn credentials_fit(credentials: &[[u8; CREDENTIAL_SIZE]]) -> bool
    ensures { result ≡ list_all grants_fit credentials.now }
{
    credentials.iter().all(grants_fit)
}

pub fn owners_fit(s: &[u8]) -> bool
    ensures { result ≡ owners_fit s.now }
{
    let Ok(s) = <&[u8; STATE_LENGTH]>::try_from(s) else {
        return false;
    };
    let (credentials, _) = s[CREDENTIALS_AT..COUNT_AT].as_chunks::<CREDENTIAL_SIZE>();
    sessions_fit(&s[..SESSIONS]) && credentials_fit(credentials)
}
