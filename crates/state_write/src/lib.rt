// The bytes of a state, written into a slice. docs/STATE.md draws the layout.
#![tactic(auto, using(crate::proofs::Rules::rules))]

ghost use Rattle.std.specs.Prelude.{◌≡◌, map, ◌*◌};
ghost use Rattle.lists.specs.Lists.{join};
ghost use Rattle.rows.specs.Rows.{Put};
ghost use Rattle.state_layout.specs.Layout.{credential_size, sessions_at, session_size, credentials_at, phase_byte, session_bytes, grants_bytes, state_written};
ghost use Rattle.module_state.specs.Module.{session_count, credential_count};

use module_state::{CREDENTIALS, Grants, Phase, SESSIONS, SessionState, State};
use state_layout::{
    CHOSEN_BYTE, CLOSED_BYTE, CREDENTIAL_SIZE, CREDENTIALS_AT, FLAG_AT, OPENED_BYTE, SECOND_AT,
    STATE_LENGTH, WORD_AT,
};

// ---- a session

fn phase_byte(phase: Phase) -> u8
    ensures { result ≡ phase_byte phase }
{
    match phase {
        Phase::Closed => CLOSED_BYTE,
        Phase::Opened => OPENED_BYTE,
        Phase::Chosen => CHOSEN_BYTE,
    }
}

fn put_sessions(s: &mut [u8; STATE_LENGTH], l: [SessionState; SESSIONS])
    ensures { Put sessions_at (session_count * session_size) (join (map session_bytes l)) s.old s.new }
{
    s[..SESSIONS].copy_from_slice(&l.map(|session| phase_byte(session.phase)));
}

// ---- a credential's grants

// `SET_FLAG` is the number of `true`.
fn grants_bytes(g: Grants) -> [u8; CREDENTIAL_SIZE]
    ensures { result ≡ grants_bytes g }
{
    let mut credential = [0; CREDENTIAL_SIZE];
    credential[FLAG_AT] = u8::from(g.provisioned);
    rows::put_number32(&mut credential, WORD_AT, g.words.grant);
    rows::put_number32(&mut credential, SECOND_AT, g.words.second);
    credential
}

fn put_credentials(s: &mut [u8; STATE_LENGTH], l: [Grants; CREDENTIALS])
    ensures { Put credentials_at (credential_count * credential_size) (join (map grants_bytes l)) s.old s.new }
{
    for i in 0..CREDENTIALS {
        let start = CREDENTIALS_AT + i * CREDENTIAL_SIZE;
        s[start..start + CREDENTIAL_SIZE].copy_from_slice(&grants_bytes(l[i]));
    }
}

// ---- the whole

// The bytes of a state, in a slice of its length. One of another length stays.
pub fn write(s: &mut [u8], st: State)
    ensures { s.new ≡ state_written s.old st }
{
    if let Some(s) = s.as_mut_array::<STATE_LENGTH>() {
        let State {
            sessions,
            credentials,
            table,
        } = st;
        put_sessions(s, sessions);
        put_credentials(s, credentials);
        state_write_table::put_table(s, table);
    }
}
