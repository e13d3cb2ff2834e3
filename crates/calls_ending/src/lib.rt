// The protected calls that end a process: state in by value, answer and state out by value. Each asks its tests, counts the claim where it passed, and does what it does where no test refuses it.
#![tactic(auto, using(calls_claim::proofs::Rules::rules))]

ghost use Rattle.std.specs.Prelude.{◌≡◌};
ghost use Rattle.calls.specs.Calls.{End, Kill, outcome};

use calls::Outcome;
use module_state::{Claim, State, UserClaim};
use names::{Name, Session};

// ---- end

pub fn end(st: State, s: Session, u: UserClaim, keep: bool) -> Outcome
    ensures { result ≡ outcome st (End s u keep) }
{
    let claim = Claim::ByUser(u);
    let by = calls_claim::check(st, s, claim);
    let tested = calls_protected_tests::end_number(by, keep);
    let counted = calls_claim::charged_by(st, by, tested);
    match tested {
        Ok(place) => calls_effects::accepted(calls_effects::ended(counted, place, keep)),
        Err(refusal) => calls_effects::refused_claim(counted, u8::from(refusal), claim),
    }
}

// ---- kill

pub fn kill(st: State, s: Session, claim: Claim, name: Name) -> Outcome
    ensures { result ≡ outcome st (Kill s claim name) }
{
    let by = calls_claim::check(st, s, claim);
    let tested = calls_protected_tests::kill_number(st, by, name);
    let counted = calls_claim::charged_by(st, by, tested);
    match tested {
        Ok(place) => calls_effects::accepted(calls_effects::with_table(
            counted,
            table_removal::removed(counted.table, place),
        )),
        Err(refusal) => calls_effects::refused_claim(counted, u8::from(refusal), claim),
    }
}
