// What each protected call but list asks, ahead of the check of its claim and after it: done, or why it is refused.
#![tactic(auto, using(crate::proofs::Rules::rules), unfolding(module_state::specs::Claim::placed, module_state::specs::Module::provisioned, calls::specs::Calls::is_device, calls::specs::Calls::reach, calls::specs::Calls::has_named, calls::specs::Calls::named_place, calls::specs::Calls::end_tests, calls::specs::Calls::record_tests, calls::specs::Calls::kill_tests, calls::specs::Calls::set_word_tests, calls::specs::Calls::asked))]

ghost use Rattle.std.specs.Prelude.{◌≡◌};
ghost use Rattle.module_state.specs.Claim.{placed};
ghost use Rattle.module_state.specs.Refusals.{number_of, place_in, placed_in, checked_in};
ghost use Rattle.calls.specs.Calls.{is_device, named_place, reach, end_tests, record_tests, kill_tests, set_word_tests, asked};

use module_state::{
    Checked, ClaimCheck, Class, DONE, KILL_OTHERS, Placed, Refusal, SAVE_OWN, SET_WORDS, State,
};
use names::{Credential, Name};
use table::Among;

// ---- end

// Of a protected call: its tests go on where the check of its claim ended. The place is that of the claim's process. Kept out of the
// call, where the state would be copied more often.
#[inline(never)]
pub fn end_test(by: ClaimCheck, keep: bool) -> Result<usize, Refusal>
    ensures { placed_in result ≡ placed (asked (end_tests keep) (checked_in by)) (place_in by.place) }
{
    let place = by.place?;
    if keep {
        module_state::grant_test(by, SAVE_OWN)?;
    }
    Ok(place)
}

// The number of these tests, for callers that hold numbers: what the check of a claim came to is told in them, and so it is below.
pub fn end_number(by: Checked, keep: bool) -> u8
    ensures { result ≡ asked (end_tests keep) by }
{
    if by.number != DONE {
        return by.number;
    }
    if !keep {
        return DONE;
    }
    module_state::grant_number(by, SAVE_OWN)
}

// ---- record

// Whether a class is one of device operations, which are what a record is of.
pub fn is_device(class: Class) -> bool
    ensures { result ≡ is_device class }
{
    matches!(class.0, 4..=31)
}

pub fn record_test(by: ClaimCheck, class: Class) -> Result<(), Refusal>
    ensures { number_of result ≡ asked (record_tests class) (checked_in by) }
{
    if !is_device(class) {
        return Err(Refusal::Argument);
    }
    by.place?;
    module_state::grant_test(by, class)
}

// The number of these tests.
pub fn record_number(by: Checked, class: Class) -> u8
    ensures { result ≡ asked (record_tests class) by }
{
    if !is_device(class) {
        return Refusal::Argument as u8;
    }
    if by.number != DONE {
        return by.number;
    }
    module_state::grant_number(by, class)
}

// ---- kill

// Which processes a claim may kill.
fn reach(by: ClaimCheck) -> Among
    ensures { result ≡ reach (checked_in by) }
{
    match module_state::grant_test(by, KILL_OTHERS) {
        Ok(()) => Among::All,
        Err(_) => Among::Of(by.credential),
    }
}

// The place of the process that is killed.
#[tactic(auto, using(crate::proofs::Rules::rules))]
pub fn kill_test(st: State, by: ClaimCheck, name: Name) -> Result<usize, Refusal>
    ensures { placed_in result ≡ placed (asked (kill_tests st name) (checked_in by)) (named_place st name (reach (checked_in by))) }
{
    by.place?;
    let Some(place) = table_search::find_named(st.table, name, reach(by)) else {
        return Err(Refusal::NoProcess); // to a stranger's name too, so that nobody learns that it exists
    };
    Ok(place)
}

// The number of these tests, and the place of the process that is killed.
#[tactic(auto, using(crate::proofs::Rules::rules))]
pub fn kill_number(st: State, by: Checked, name: Name) -> Placed
    ensures { result ≡ placed (asked (kill_tests st name) by) (named_place st name (reach by)) }
{
    if by.number != DONE {
        return Placed {
            number: by.number,
            place: 0,
        };
    }
    let passed = ClaimCheck {
        claim: by.claim,
        place: Ok(by.place),
        next: by.next,
        credential: by.credential,
        grants: by.grants,
    };
    match kill_test(st, passed, name) {
        Ok(place) => Placed {
            number: DONE,
            place,
        },
        Err(refusal) => Placed {
            number: u8::from(refusal),
            place: 0,
        },
    }
}

// ---- set word

pub fn set_word_test(st: State, by: ClaimCheck, target: Credential) -> Result<(), Refusal>
    ensures { number_of result ≡ asked (set_word_tests st target) (checked_in by) }
{
    if !module_state::is_credential(target) {
        return Err(Refusal::Argument);
    }
    by.place?;
    module_state::grant_test(by, SET_WORDS)?;
    if !module_state::grants_of(st, target).provisioned {
        return Err(Refusal::Credential);
    }
    Ok(())
}

// The number of these tests.
pub fn set_word_number(st: State, by: Checked, target: Credential) -> u8
    ensures { result ≡ asked (set_word_tests st target) by }
{
    if !module_state::is_credential(target) {
        return Refusal::Argument as u8;
    }
    if by.number != DONE {
        return by.number;
    }
    let grant = module_state::grant_number(by, SET_WORDS);
    if grant != DONE {
        return grant;
    }
    let grants = module_state::grants_of(st, target);
    if !grants.provisioned {
        return Refusal::Credential as u8;
    }
    DONE
}
