// The record call where the state lies: nothing is read for it but what the check of its claim asks, and nothing is written but the two bytes of a next number.
#![tactic(auto, using(crate::proofs::Rules::rules), unfolding(crate::specs::Recorded::are_in_range))]

ghost use Rattle.std.specs.Prelude.{◌≡◌, true};
ghost use Rattle.module_state.specs.Claim.{checked};
ghost use Rattle.module_state.specs.Refusals.{number_of, checked_in};
ghost use Rattle.calls.specs.Calls.{Record};
ghost use Rattle.state_layout.specs.Layout.{state_of};
ghost use Rattle.entries_call.specs.CallEntry.{CallEntry};
ghost use Rattle.entries_record.specs.Recorded.{are_in_range, counted_in};

use module_state::{Claim, ClaimCheck, Class, Refusal};
use names::Session;

// Whether the arguments of a record are in their ranges. They are asked ahead of the slice, whose test takes most of a call's time: it is refused with 1 either way.
fn are_in_range(s: Session, claim: Claim, class: Class) -> bool
    ensures { result ≡ are_in_range s claim class }
{
    module_state::is_session(s)
        && claim_check::is_in_range(claim)
        && calls_protected_tests::is_device(class)
}

// A claim that passed, counted. An elevated one has no number.
fn count(state: &mut [u8], s: Session, claim: Claim, by: ClaimCheck)
    requires { (checked_in by ≡ checked (state_of state.old) s claim) × (number_of by.place ≡ 0) }
    ensures { state.new ≡ counted_in state.old s claim }
{
    if let (Claim::ByUser(_), Ok(place)) = (claim, by.place) {
        state_write_table::write_next(state, place, by.next + 1);
    }
}

// What a record answers. Where its claim passed, refused afterwards or not, and is a user's, its process's next number is one more. A slice that holds no state
// is refused.
pub fn record(state: &mut [u8], s: Session, claim: Claim, class: Class) -> Result<(), Refusal>
    ensures { CallEntry true state.old (Record s claim class) (number_of result) state.new }
{
    if !entries_call::is_ready(are_in_range(s, claim, class), state) {
        return Err(Refusal::Argument);
    }
    let by = state_find::check(state, s, claim)?;
    count(state, s, claim, by);
    calls_protected_tests::record_test(by, class)
}
