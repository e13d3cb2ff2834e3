// The check of a claim on the state that a slice says, where it lies: nothing is read but what its tests come to. docs/STATE.md draws the layout.
#![tactic(auto, using(crate::proofs::Rules::rules))]

ghost use Rattle.std.specs.Prelude.{◌≡◌, drop};
ghost use Rattle.rows.specs.Rows.{rows};
ghost use Rattle.table.specs.Table.{places, size, is_active, find_active};
ghost use Rattle.module_state.specs.Module.{phase_of, grants_of, credential_count};
ghost use Rattle.module_state.specs.Claim.{admitted};
ghost use Rattle.module_state.specs.Refusals.{refusal_number, placed_in};
ghost use Rattle.state_layout.specs.Layout.{place_size, places_at, credential_size, credentials_at, nothing_held, process_from, state_of};
ghost use Rattle.state_find.specs.Checks.{claim_place, checked_place, tested, tested_in};

use module_state::{Claim, ClaimCheck, Grants, Phase, Refusal, SESSIONS, UNPROVISIONED, UserClaim};
use names::{Credential, ELEVATION_TYPE, Session, USER_TYPE};
use state_layout::{
    COUNT_AT, CREDENTIAL_SIZE, CREDENTIALS_AT, KIND_AT, NEXT_AT, OWNER_AT, PLACE_SIZE, PLACES_AT,
    SESSION_AT, STATE_LENGTH,
};
use table::{Active, PLACES};

// ---- sessions and credentials

// The phase of a session; closed where there is no such session.
fn phase_of(s: &[u8; STATE_LENGTH], session: Session) -> Phase
    ensures { result ≡ phase_of (state_of s.now) session }
{
    match s[..SESSIONS].get(usize::from(session.0)) {
        Some(byte) => state_read::phase_from(*byte),
        None => Phase::Closed,
    }
}

fn credentials(s: &[u8; STATE_LENGTH]) -> &[[u8; CREDENTIAL_SIZE]]
    ensures { result.now ≡ rows credential_count credential_size (drop credentials_at s.now) }
{
    let (credentials, _) = s[CREDENTIALS_AT..COUNT_AT].as_chunks::<CREDENTIAL_SIZE>();
    credentials
}

// The grants of a credential; not provisioned, where there is no such credential.
fn grants_of(s: &[u8; STATE_LENGTH], c: Credential) -> Grants
    ensures { result ≡ grants_of (state_of s.now) c }
{
    match credentials(s).get(usize::from(c.0)) {
        Some(credential) => state_read::grants_from(credential),
        None => UNPROVISIONED,
    }
}

// ---- processes

fn places(s: &[u8; STATE_LENGTH]) -> &[[u8; PLACE_SIZE]]
    ensures { result.now ≡ rows places place_size (drop places_at s.now) }
{
    let (places, _) = s[PLACES_AT..].as_chunks::<PLACE_SIZE>();
    places
}

// How many processes stand: a count past 12 says that all 12 do.
fn size_in(s: &[u8; STATE_LENGTH]) -> usize
    ensures { result ≡ size (state_of s.now).table }
{
    usize::from(s[COUNT_AT]).min(PLACES)
}

fn is_active(place: &[u8; PLACE_SIZE], which: Active) -> bool
    ensures { result ≡ is_active which (process_from place.now) }
{
    match which {
        Active::UserOf(s, c) => {
            place[KIND_AT] == USER_TYPE
                && place[SESSION_AT] == s.0
                && u16::from(place[OWNER_AT]) == c.0
        }
        Active::ElevationIn(s) => place[KIND_AT] == ELEVATION_TYPE && place[SESSION_AT] == s.0,
    }
}

// The first process that is active so. Document 01 names the form of a search: a loop whose break carries the place found, or the count where none is.
fn find_active(s: &[u8; STATE_LENGTH], which: Active) -> Option<usize>
    ensures { result ≡ find_active (state_of s.now).table which }
{
    let places = places(s);
    let count = size_in(s);
    let mut i: usize = 0;
    let at = loop {
        if count <= i || is_active(&places[i], which) {
            break i;
        }
        i += 1;
    };
    if at < count { Some(at) } else { None }
}

// The next number of a process.
fn next_number(place: &[u8; PLACE_SIZE]) -> u16
    ensures { result ≡ (process_from place.now).next }
{
    rows::number16(place, NEXT_AT)
}

// The credential of a process.
fn credential_of(place: &[u8; PLACE_SIZE]) -> Credential
    ensures { result ≡ (process_from place.now).credential }
{
    Credential(u16::from(place[OWNER_AT]))
}

// ---- the check of a claim, in the order of its tests

fn elevated_place(s: &[u8; STATE_LENGTH], session: Session) -> Result<usize, Refusal>
    ensures { placed_in result ≡ claim_place (state_of s.now) session Claim.Elevated }
{
    let Some(place) = find_active(s, claim_check::sought(session, Claim::Elevated)) else {
        return Err(Refusal::NoProcess);
    };
    Ok(place)
}

// Of a credential that is not provisioned no process is sought.
fn user_place(s: &[u8; STATE_LENGTH], session: Session, u: UserClaim) -> Result<usize, Refusal>
    ensures { placed_in result ≡ claim_place (state_of s.now) session (Claim.ByUser u) }
{
    if !grants_of(s, u.credential).provisioned {
        return Err(Refusal::Credential);
    }
    let Some(place) = find_active(s, claim_check::sought(session, Claim::ByUser(u))) else {
        return Err(Refusal::NoProcess);
    };
    claim_check::turn_number(next_number(&places(s)[place]), u)?;
    Ok(place)
}

// The tests of the claim itself.
fn claim_place(s: &[u8; STATE_LENGTH], session: Session, claim: Claim) -> Result<usize, Refusal>
    ensures { placed_in result ≡ claim_place (state_of s.now) session claim }
{
    match claim {
        Claim::Elevated => elevated_place(s, session),
        Claim::ByUser(u) => user_place(s, session, u),
    }
}

// All of them, and the place of the claim's process.
fn checked_place(s: &[u8; STATE_LENGTH], session: Session, claim: Claim) -> Result<usize, Refusal>
    ensures { placed_in result ≡ checked_place (state_of s.now) session claim }
{
    if !claim_check::is_in_range(claim) {
        return Err(Refusal::Argument);
    }
    module_state::phase_number(session, phase_of(s, session))?;
    claim_place(s, session, claim)
}

// Why a claim is refused on a slice of another length: no session is open there.
fn refusal_elsewhere(session: Session, claim: Claim) -> Refusal
    ensures { refusal_number result ≡ admitted nothing_held session claim }
{
    if claim_check::is_in_range(claim) && module_state::is_session(session) {
        Refusal::Session
    } else {
        Refusal::Argument
    }
}

// What a call goes on with whose claim passed, or why the claim is refused.
pub fn check(s: &[u8], session: Session, claim: Claim) -> Result<ClaimCheck, Refusal>
    ensures { tested_in result ≡ tested (state_of s.now) session claim }
{
    let Ok(s) = <&[u8; STATE_LENGTH]>::try_from(s) else {
        return Err(refusal_elsewhere(session, claim));
    };
    let place = checked_place(s, session, claim)?;
    let process = &places(s)[place];
    let credential = claim_check::speaks_for(claim, credential_of(process));
    Ok(ClaimCheck {
        claim,
        place: Ok(place),
        next: next_number(process),
        credential,
        grants: grants_of(s, credential),
    })
}
