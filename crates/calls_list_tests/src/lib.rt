// What the list call asks, ahead of the check of its claim and after it: the length of its message, or why it is refused.
#![tactic(auto, using(calls::proofs::Rules::rules), unfolding(calls::specs::Calls::is_wanted, calls::specs::Calls::is_own, calls::specs::Calls::is_short, calls::specs::Calls::list_tests, calls::specs::Calls::asked, calls::specs::Calls::measured))]

ghost use Rattle.std.specs.Prelude.{◌≡◌, length};
ghost use Rattle.module_state.specs.Claim.{grant_number};
ghost use Rattle.module_state.specs.Numbers.{◌unless◌, ◌▸◌};
ghost use Rattle.module_state.specs.Refusals.{number_of, checked_in};
ghost use Rattle.calls.specs.Listing.{among_of, rows_of, message_length};
ghost use Rattle.calls.specs.Calls.{list_others, is_wanted, is_own, list_tests, asked, measured, measured_in};

use calls::{HEAD_LENGTH, Measured, Wanted};
use module_state::{Checked, ClaimCheck, DONE, LIST_OTHERS, Refusal, State};
use names::{Credential, ROW_LENGTH};
use table::Among;

fn is_wanted(wanted: Wanted) -> bool
    ensures { result ≡ is_wanted wanted }
{
    match wanted {
        Wanted::Every => true,
        Wanted::Only(c) => module_state::is_credential(c),
    }
}

// The processes that a listing has.
pub fn among_of(wanted: Wanted) -> Among
    ensures { result ≡ among_of wanted }
{
    match wanted {
        Wanted::Every => Among::All,
        Wanted::Only(c) => Among::Of(c),
    }
}

fn is_own(c: Credential, wanted: Wanted) -> bool
    ensures { result ≡ is_own c wanted }
{
    wanted == Wanted::Only(c)
}

// The tests of the claim and of the grant, which one's own need not.
fn others_number(by: ClaimCheck, wanted: Wanted) -> Result<(), Refusal>
    ensures { number_of result ≡ (checked_in by).number ▸ grant_number (checked_in by) list_others unless is_own by.credential wanted }
{
    by.place?;
    if is_own(by.credential, wanted) {
        return Ok(());
    }
    module_state::grant_test(by, LIST_OTHERS)
}

#[tactic(auto, using(calls::proofs::Rules::rules))]
fn message_length(st: State, wanted: Wanted) -> usize
    ensures { result ≡ message_length (length (rows_of st wanted)) }
{
    HEAD_LENGTH + ROW_LENGTH * table_search::count_among(st.table, among_of(wanted))
}

// The length of the message. Kept out of the call, where the table that it counts would be copied more often.
#[inline(never)]
pub fn list_test(st: State, by: ClaimCheck, wanted: Wanted, room: usize) -> Result<usize, Refusal>
    ensures { measured_in result ≡ measured (asked (list_tests st wanted room) (checked_in by)) (message_length (length (rows_of st wanted))) }
{
    if !is_wanted(wanted) {
        return Err(Refusal::Argument);
    }
    others_number(by, wanted)?;
    let length = message_length(st, wanted);
    if room < length {
        return Err(Refusal::Room);
    }
    Ok(length)
}

fn refused(n: u8) -> Measured
    ensures { result ≡ record { number = n; length = 0 } }
{
    Measured {
        number: n,
        length: 0,
    }
}

// The number, and the length of the message, for callers that hold numbers: what the check of a claim came to is told in them.
pub fn list_number(st: State, by: Checked, wanted: Wanted, room: usize) -> Measured
    ensures { result ≡ measured (asked (list_tests st wanted room) by) (message_length (length (rows_of st wanted))) }
{
    if !is_wanted(wanted) {
        return refused(Refusal::Argument as u8);
    }
    if by.number != DONE {
        return refused(by.number);
    }
    let passed = ClaimCheck {
        claim: by.claim,
        place: Ok(by.place),
        next: by.next,
        credential: by.credential,
        grants: by.grants,
    };
    match list_test(st, passed, wanted, room) {
        Ok(length) => Measured {
            number: DONE,
            length,
        },
        Err(refusal) => refused(u8::from(refusal)),
    }
}
