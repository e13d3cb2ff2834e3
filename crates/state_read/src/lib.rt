// The state that a slice says, read into a value. docs/STATE.md draws the layout.
#![tactic(auto, using(crate::proofs::Rules::rules))]

ghost use Rattle.std.specs.Prelude.{◌≡◌, map, drop};
ghost use Rattle.rows.specs.Rows.{rows};
ghost use Rattle.names.specs.Names.{kind_numbered};
ghost use Rattle.module_state.specs.Module.{session_count, credential_count};
ghost use Rattle.state_layout.specs.Layout.{credential_size, session_size, credentials_at, phase_from, session_from, grants_from, process_from, places_in, nothing_held, state_of};

use module_state::{
    CREDENTIALS, Grants, Phase, SESSIONS, SessionState, State, UNPROVISIONED, Words,
};
use names::{Credential, Kind, Session};
use state_layout::{
    CHOSEN_BYTE, COUNT_AT, CREDENTIAL_SIZE, CREDENTIALS_AT, FLAG_AT, KIND_AT, NAME_AT, NEXT_AT,
    OPENED_BYTE, OWNER_AT, PLACE_SIZE, PLACES_AT, SECOND_AT, SESSION_AT, SET_FLAG, STATE_LENGTH,
    WORD_AT,
};
use std::array;
use table::{PLACES, Process, Table};

// ---- a session

// The phase of a byte; closed, where a byte is no phase's.
pub fn phase_from(byte: u8) -> Phase
    ensures { result ≡ phase_from byte }
{
    match byte {
        OPENED_BYTE => Phase::Opened,
        CHOSEN_BYTE => Phase::Chosen,
        _ => Phase::Closed,
    }
}

fn read_sessions(s: &[u8; STATE_LENGTH]) -> [SessionState; SESSIONS]
    ensures { result ≡ map session_from (rows session_count session_size s.now) }
{
    array::from_fn(|i| SessionState {
        phase: phase_from(s[i]),
    })
}

// ---- a credential's grants

// A byte past the end counts as 0.
pub fn grants_from(part: &[u8]) -> Grants
    ensures { result ≡ grants_from part.now }
{
    Grants {
        provisioned: rows::byte_at(part, FLAG_AT) == SET_FLAG,
        words: Words {
            grant: rows::number32(part, WORD_AT),
            second: rows::number32(part, SECOND_AT),
        },
    }
}

fn read_credentials(s: &[u8; STATE_LENGTH]) -> [Grants; CREDENTIALS]
    ensures { result ≡ map grants_from (rows credential_count credential_size (drop credentials_at s.now)) }
{
    let (credentials, _) = s[CREDENTIALS_AT..].as_chunks::<CREDENTIAL_SIZE>();
    array::from_fn(|i| grants_from(&credentials[i]))
}

// ---- a place

// The kind that has the type of a number.
fn kind_numbered(number: u8) -> Kind
    ensures { result ≡ kind_numbered number }
{
    names::kind_of(names::type_numbered(number))
}

fn process_of(place: &[u8; PLACE_SIZE]) -> Process
    ensures { result ≡ process_from place.now }
{
    Process {
        credential: Credential(u16::from(place[OWNER_AT])),
        kind: kind_numbered(place[KIND_AT]),
        session: Session(place[SESSION_AT]),
        next: rows::number16(place, NEXT_AT),
        name: names::read_name(&place[NAME_AT..]).unwrap(),
    }
}

fn read_places(s: &[u8; STATE_LENGTH]) -> [Process; PLACES]
    ensures { result ≡ places_in s.now }
{
    let (places, _) = s[PLACES_AT..].as_chunks::<PLACE_SIZE>();
    array::from_fn(|i| process_of(&places[i]))
}

// ---- the whole

fn nothing_held() -> State
    ensures { result ≡ nothing_held }
{
    module_state::closed_module([UNPROVISIONED; CREDENTIALS], table::empty())
}

// The state that a slice says, whatever its bytes are. A slice of another length says that nothing is held.
pub fn read(s: &[u8]) -> State
    ensures { result ≡ state_of s.now }
{
    let Ok(s) = <&[u8; STATE_LENGTH]>::try_from(s) else {
        return nothing_held();
    };
    State {
        sessions: read_sessions(s),
        credentials: read_credentials(s),
        table: Table {
            places: read_places(s),
            count: usize::from(s[COUNT_AT]),
        },
    }
}
