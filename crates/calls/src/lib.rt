// What a call answers and leaves. `specs` defines each call; the code of its tests and of what it does is in the crates above.
#![tactic(auto)]

ghost use Rattle.std.specs.Prelude.{◌≡◌};
ghost use Rattle.calls.specs.Calls.{answer_number};

use module_state::{Claim, DONE, State};
use names::Credential;

// The code, the reserved byte and a number in two bytes stand before the rows of a listing.
pub const HEAD_NUMBER_AT: usize = 2;

pub const HEAD_LENGTH: usize = HEAD_NUMBER_AT + 2;

// Whose processes a listing is to have.
#[derive(Clone, Copy, PartialEq, Eq)]
pub enum Wanted {
    Every,
    Only(Credential),
}

#[derive(Clone, Copy)]
pub enum Answer {
    Done,
    // of a call without a claim: its number
    Refused(u8),
    // of a protected call: its number, and the claim that it was given
    RefusedClaim(u8, Claim),
}

#[derive(Clone, Copy)]
pub struct Outcome {
    pub state: State,
    pub answer: Answer,
}

// What the tests of a list call come to, for callers that hold numbers: their number, and the length of its message where that is 0.
#[derive(Clone, Copy)]
pub struct Measured {
    pub number: u8,
    pub length: usize,
}

// The outcome of a list call, and the length of its message.
#[derive(Clone, Copy)]
pub struct Listed {
    pub outcome: Outcome,
    pub length: usize,
}

// The page's number of an answer.
pub fn answer_number(answer: Answer) -> u8
    ensures { result ≡ answer_number answer }
{
    match answer {
        Answer::Done => DONE,
        Answer::Refused(n) | Answer::RefusedClaim(n, _) => n,
    }
}
