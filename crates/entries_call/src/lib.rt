// What every entry begins and ends with: whether its call is made on a slice; and what the call made of the state, put back into the slice that it was read from.
#![tactic(auto, using(crate::proofs::Rules::rules))]

ghost use Rattle.std.specs.Prelude.{◌≡◌};
ghost use Rattle.entries_call.specs.CallEntry.{Ready};
ghost use Rattle.entries_call.specs.PutBack.{may_change, PutBack};

use calls::{Answer, Outcome};

// Whether a call is made on a slice: the arguments that are no part of it are in order, and the slice holds a state.
pub fn is_ready(fine: bool, state: &[u8]) -> bool
    ensures { Ready fine state.now result }
{
    fine && state_test::holds(state)
}

// Whether the state of an outcome can be another than the one that the call was made on: a call without a claim that is refused leaves it.
#[tactic(auto, unfolding(crate::specs::PutBack::may_change))]
fn may_change(answer: Answer) -> bool
    ensures { result ≡ may_change answer }
{
    !matches!(answer, Answer::Refused(_))
}

// The number of an outcome; its state is written where it may have changed, and else stands in the slice already.
pub fn put_back(state: &mut [u8], outcome: Outcome) -> u32
    ensures { PutBack state.old outcome result state.new }
{
    let number = u32::from(calls::answer_number(outcome.answer));
    if may_change(outcome.answer) {
        state_write::write(state, outcome.state);
    }
    number
}
