// List and set word, which leave every process standing: state in by value, answer and state out by value. Each asks its tests, counts the claim where it passed, and does what it does where no test refuses it.
#![tactic(auto, using(calls_claim::proofs::Rules::rules), unfolding(calls::specs::Calls::listed))]

ghost use Rattle.std.specs.Prelude.{◌≡◌};
ghost use Rattle.calls.specs.Calls.{SetWord, outcome, listed};

use calls::{Listed, Outcome, Wanted};
use module_state::{Claim, Grants, State, Words};
use names::{Credential, Session};

// ---- list

// The decision of a listing: the next state and the length of its message. `room` is the length of the response's buffer.
pub fn list(st: State, s: Session, claim: Claim, wanted: Wanted, room: usize) -> Listed
    ensures { result ≡ listed st s claim wanted room }
{
    let by = calls_claim::check(st, s, claim);
    let tested = calls_list_tests::list_number(st, by, wanted, room);
    let counted = calls_claim::charged_by(st, by, tested);
    match tested {
        Ok(length) => Listed {
            outcome: calls_effects::accepted(counted),
            length,
        },
        Err(refusal) => Listed {
            outcome: calls_effects::refused_claim(counted, u8::from(refusal), claim),
            length: 0,
        },
    }
}

// ---- set word

pub fn set_word(st: State, s: Session, claim: Claim, target: Credential, words: Words) -> Outcome
    ensures { result ≡ outcome st (SetWord s claim target words) }
{
    let by = calls_claim::check(st, s, claim);
    let tested = calls_protected_tests::set_word_number(st, by, target);
    let counted = calls_claim::charged_by(st, by, tested);
    if let Err(refusal) = tested {
        return calls_effects::refused_claim(counted, u8::from(refusal), claim);
    }
    let grants = Grants {
        provisioned: true,
        words,
    };
    calls_effects::accepted(calls_effects::with_grants(counted, target, grants))
}
