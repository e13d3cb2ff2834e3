// The protected calls as programs in C and Rust call them: numbers and byte slices, the state in a slice that they lend.
#![tactic(auto)]

ghost use Rattle.std.specs.Prelude.{◌≡◌, ◌&&◌, is_some, unwrap_or};
ghost use Rattle.names.specs.Names.{read_name, zero_name};
ghost use Rattle.module_state.specs.Module.{both_words};
ghost use Rattle.module_state.specs.Refusals.{number_of};
ghost use Rattle.calls.specs.Calls.{End, Record, Kill, SetWord};
ghost use Rattle.entries_call.specs.CallEntry.{CallEntry};
ghost use Rattle.entries_arguments.specs.Arguments.{session_of, class_of, credential_of, wanted_of, is_flag, flag_of, user_claim_of, claim_of, are_claim_flags};
ghost use Rattle.entries_protected.specs.Listing.{ListEntry};

use module_state::{Refusal, Words};

#[unsafe(no_mangle)]
pub extern "C" fn slavotuk_end(
    state: &mut [u8],
    port: u32,
    session: u32,
    credential: u32,
    number: u16,
    verdict: u32,
    keep: u32,
) -> u32
    ensures { CallEntry (is_flag verdict && is_flag keep) state.old (End (session_of port session) (user_claim_of credential number verdict) (flag_of keep)) result state.new }
{
    if !entries_call::is_ready(entries_arguments::are_flags(verdict, keep), state) {
        return Refusal::Argument as u32;
    }
    let st = state_read::read(state);
    entries_call::put_back(
        state,
        calls_ending::end(
            st,
            entries_arguments::session_of(port, session),
            entries_arguments::user_claim_of(credential, number, verdict),
            keep == 1,
        ),
    )
}

// The number of what a record answers.
fn told(answer: Result<(), Refusal>) -> u32
    ensures { result ≡ number_of answer }
{
    match answer {
        Ok(()) => 0,
        Err(refusal) => refusal as u32,
    }
}

#[unsafe(no_mangle)]
pub extern "C" fn slavotuk_record(
    state: &mut [u8],
    port: u32,
    session: u32,
    kind: u32,
    credential: u32,
    number: u16,
    verdict: u32,
    class: u32,
) -> u32
    ensures { CallEntry (are_claim_flags kind verdict) state.old (Record (session_of port session) (claim_of kind credential number verdict) (class_of class)) result state.new }
{
    if !entries_arguments::are_claim_flags(kind, verdict) {
        return Refusal::Argument as u32;
    }
    told(entries_record::record(
        state,
        entries_arguments::session_of(port, session),
        entries_arguments::claim_of(kind, credential, number, verdict),
        entries_arguments::class_of(class),
    ))
}

#[unsafe(no_mangle)]
pub extern "C" fn slavotuk_list(
    state: &mut [u8],
    port: u32,
    session: u32,
    kind: u32,
    credential: u32,
    number: u16,
    verdict: u32,
    wanted: u32,
    response: &mut [u8],
    long: &mut usize,
) -> u32
    ensures { ListEntry (are_claim_flags kind verdict) state.old (session_of port session) (claim_of kind credential number verdict) (wanted_of wanted) response.old result state.new response.new long.new }
{
    if !entries_call::is_ready(entries_arguments::are_claim_flags(kind, verdict), state) {
        *long = 0;
        return Refusal::Argument as u32;
    }
    let st = state_read::read(state);
    let listed = listing_call::list(
        st,
        entries_arguments::session_of(port, session),
        entries_arguments::claim_of(kind, credential, number, verdict),
        entries_arguments::wanted_of(wanted),
        response,
    );
    *long = listed.length;
    entries_call::put_back(state, listed.outcome)
}

#[unsafe(no_mangle)]
pub extern "C" fn slavotuk_kill(
    state: &mut [u8],
    port: u32,
    session: u32,
    kind: u32,
    credential: u32,
    number: u16,
    verdict: u32,
    name: &[u8],
) -> u32
    ensures { CallEntry (is_some (read_name name.now) && are_claim_flags kind verdict) state.old (Kill (session_of port session) (claim_of kind credential number verdict) (unwrap_or (read_name name.now) zero_name)) result state.new }
{
    let Some(name) = names::read_name(name) else {
        return Refusal::Argument as u32;
    };
    if !entries_call::is_ready(entries_arguments::are_claim_flags(kind, verdict), state) {
        return Refusal::Argument as u32;
    }
    let st = state_read::read(state);
    entries_call::put_back(
        state,
        calls_ending::kill(
            st,
            entries_arguments::session_of(port, session),
            entries_arguments::claim_of(kind, credential, number, verdict),
            name,
        ),
    )
}

#[unsafe(no_mangle)]
pub extern "C" fn slavotuk_set_word(
    state: &mut [u8],
    port: u32,
    session: u32,
    kind: u32,
    credential: u32,
    number: u16,
    verdict: u32,
    target: u32,
    word: u32,
    second: u32,
) -> u32
    ensures { CallEntry (are_claim_flags kind verdict) state.old (SetWord (session_of port session) (claim_of kind credential number verdict) (credential_of target) (both_words word second)) result state.new }
{
    if !entries_call::is_ready(entries_arguments::are_claim_flags(kind, verdict), state) {
        return Refusal::Argument as u32;
    }
    let words = Words {
        grant: word,
        second,
    };
    let st = state_read::read(state);
    entries_call::put_back(
        state,
        calls_standing::set_word(
            st,
            entries_arguments::session_of(port, session),
            entries_arguments::claim_of(kind, credential, number, verdict),
            entries_arguments::credential_of(target),
            words,
        ),
    )
}
