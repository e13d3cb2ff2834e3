// The calls without a claim as programs in C and Rust call them: numbers and byte slices, the state in a slice that they lend. Also a fresh module,
// whether a slice holds a state, and the library's version.
#![tactic(auto)]

ghost use Rattle.std.specs.Prelude.{◌≡◌, true, ◌&&◌, is_some, unwrap_or};
ghost use Rattle.rows.specs.Bytes.{byte_of};
ghost use Rattle.names.specs.Names.{read_name, zero_name};
ghost use Rattle.calls.specs.Calls.{Open, Close, Select, Start, Continue, Elevate, Drop};
ghost use Rattle.entries_call.specs.CallEntry.{holds_number, CallEntry};
ghost use Rattle.entries_arguments.specs.Arguments.{session_of, credential_of, is_flag, flag_of, handed, pairs_from, are_pairs};
ghost use Rattle.entries_unprotected.specs.Fresh.{FreshEntry};
ghost use Rattle.entries_unprotected.specs.Version.{library_version};

use module_state::{CREDENTIALS, DONE, Grants, Refusal, UNPROVISIONED, Words};
use state_layout::STATE_LENGTH;

// ---- the calls

#[unsafe(no_mangle)]
pub extern "C" fn slavotuk_open(state: &mut [u8], port: u32, session: u32) -> u32
    ensures { CallEntry true state.old (Open (session_of port session)) result state.new }
{
    if !entries_call::is_ready(true, state) {
        return Refusal::Argument as u32;
    }
    let st = state_read::read(state);
    entries_call::put_back(
        state,
        calls_session::open_session(st, entries_arguments::session_of(port, session)),
    )
}

#[unsafe(no_mangle)]
pub extern "C" fn slavotuk_close(state: &mut [u8], port: u32, session: u32) -> u32
    ensures { CallEntry true state.old (Close (session_of port session)) result state.new }
{
    if !entries_call::is_ready(true, state) {
        return Refusal::Argument as u32;
    }
    let st = state_read::read(state);
    entries_call::put_back(
        state,
        calls_session::close_session(st, entries_arguments::session_of(port, session)),
    )
}

#[unsafe(no_mangle)]
pub extern "C" fn slavotuk_select(state: &mut [u8], port: u32, session: u32, version: u32) -> u32
    ensures { CallEntry true state.old (Select (session_of port session) (byte_of version)) result state.new }
{
    if !entries_call::is_ready(true, state) {
        return Refusal::Argument as u32;
    }
    let st = state_read::read(state);
    entries_call::put_back(
        state,
        calls_session::select_version(
            st,
            entries_arguments::session_of(port, session),
            rows::byte_of(version as usize),
        ),
    )
}

#[unsafe(no_mangle)]
pub extern "C" fn slavotuk_start(
    state: &mut [u8],
    port: u32,
    session: u32,
    credential: u32,
    name: &[u8],
) -> u32
    ensures { CallEntry (is_some (read_name name.now)) state.old (Start (session_of port session) (credential_of credential) (unwrap_or (read_name name.now) zero_name)) result state.new }
{
    let Some(name) = names::read_name(name) else {
        return Refusal::Argument as u32;
    };
    if !entries_call::is_ready(true, state) {
        return Refusal::Argument as u32;
    }
    let st = state_read::read(state);
    entries_call::put_back(
        state,
        calls_unprotected::start(
            st,
            entries_arguments::session_of(port, session),
            entries_arguments::credential_of(credential),
            name,
        ),
    )
}

#[unsafe(no_mangle)]
pub extern "C" fn slavotuk_continue(
    state: &mut [u8],
    port: u32,
    session: u32,
    credential: u32,
    name: &[u8],
) -> u32
    ensures { CallEntry (is_some (read_name name.now)) state.old (Continue (session_of port session) (credential_of credential) (unwrap_or (read_name name.now) zero_name)) result state.new }
{
    let Some(name) = names::read_name(name) else {
        return Refusal::Argument as u32;
    };
    if !entries_call::is_ready(true, state) {
        return Refusal::Argument as u32;
    }
    let st = state_read::read(state);
    entries_call::put_back(
        state,
        calls_unprotected::continue_saved(
            st,
            entries_arguments::session_of(port, session),
            entries_arguments::credential_of(credential),
            name,
        ),
    )
}

#[unsafe(no_mangle)]
pub extern "C" fn slavotuk_elevate(
    state: &mut [u8],
    port: u32,
    session: u32,
    credential: u32,
    name: &[u8],
    verdict: u32,
) -> u32
    ensures { CallEntry (is_some (read_name name.now) && is_flag verdict) state.old (Elevate (session_of port session) (credential_of credential) (unwrap_or (read_name name.now) zero_name) (flag_of verdict)) result state.new }
{
    let Some(name) = names::read_name(name) else {
        return Refusal::Argument as u32;
    };
    if !entries_call::is_ready(entries_arguments::is_flag(verdict), state) {
        return Refusal::Argument as u32;
    }
    let st = state_read::read(state);
    entries_call::put_back(
        state,
        calls_unprotected::elevate(
            st,
            entries_arguments::session_of(port, session),
            entries_arguments::credential_of(credential),
            name,
            verdict == 1,
        ),
    )
}

#[unsafe(no_mangle)]
pub extern "C" fn slavotuk_drop(state: &mut [u8], port: u32, session: u32) -> u32
    ensures { CallEntry true state.old (Drop (session_of port session)) result state.new }
{
    if !entries_call::is_ready(true, state) {
        return Refusal::Argument as u32;
    }
    let st = state_read::read(state);
    entries_call::put_back(
        state,
        calls_unprotected::drop_elevation(st, entries_arguments::session_of(port, session)),
    )
}

// ---- a fresh module

fn pairs_of(provisioned: &[u8], words: &[u32], seconds: &[u32]) -> [Grants; CREDENTIALS]
    requires { are_pairs (handed provisioned.now words.now seconds.now) ≡ true }
    ensures { result ≡ pairs_from provisioned.now words.now seconds.now }
{
    let mut pairs = [UNPROVISIONED; CREDENTIALS];
    for i in 0..CREDENTIALS {
        pairs[i] = Grants {
            provisioned: provisioned[i] == 1,
            words: Words {
                grant: words[i],
                second: seconds[i],
            },
        };
    }
    pairs
}

#[unsafe(no_mangle)]
pub extern "C" fn slavotuk_fresh(
    state: &mut [u8],
    provisioned: &[u8],
    words: &[u32],
    seconds: &[u32],
) -> u32
    ensures { FreshEntry state.old (handed provisioned.now words.now seconds.now) result state.new }
{
    if state.len() != STATE_LENGTH {
        return Refusal::Argument as u32;
    }
    if !entries_arguments::are_pairs(provisioned, words, seconds) {
        return Refusal::Argument as u32;
    }
    let next = calls_effects::fresh(pairs_of(provisioned, words, seconds));
    state_write::write(state, next);
    DONE as u32
}

// ---- about a slice, and about the library

#[unsafe(no_mangle)]
pub extern "C" fn slavotuk_holds(state: &[u8]) -> u32
    ensures { result ≡ holds_number state.now }
{
    if state_test::holds(state) {
        return DONE as u32;
    }
    Refusal::Argument as u32
}

// major * 65536 + minor * 256 + patch: include/slavotuk.h and host/Cargo.toml have the same version
const LIBRARY_VERSION: u32 = 0x040100;

#[unsafe(no_mangle)]
pub extern "C" fn slavotuk_version() -> u32
    ensures { result ≡ library_version }
{
    LIBRARY_VERSION
}
