// The check of a claim, on what a state tells of it: once for all protected calls, wherever the state lies.
#![tactic(auto, using(crate::proofs::Rules::rules), unfolding(module_state::specs::Claim::sought, module_state::specs::Claim::is_in_range, module_state::specs::Claim::is_spent, module_state::specs::Claim::turn_number, module_state::specs::Claim::claim_number, module_state::specs::Claim::check_number, module_state::specs::Claim::placed, module_state::specs::Claim::check_of, module_state::specs::Claim::passed_by))]

ghost use Rattle.std.specs.Prelude.{◌≡◌};
ghost use Rattle.table.specs.Table.{found_place};
ghost use Rattle.module_state.specs.Claim.{sought, speaks_for, is_in_range, is_spent, turn_number, claim_number, check_number, placed, check_of, passed_by};
ghost use Rattle.module_state.specs.Refusals.{number_of, placed_in, checked_in};

use module_state::{Checked, Claim, ClaimCheck, ClaimView, DONE, Refusal, UserClaim};
use names::{Credential, Session};
use table::Active;

// Whether a claim's credential, where it has one, is in its range.
pub fn is_in_range(claim: Claim) -> bool
    ensures { result ≡ is_in_range claim }
{
    match claim {
        Claim::Elevated => true,
        Claim::ByUser(u) => module_state::is_credential(u.credential),
    }
}

// Whether a next number is the last, which no claim may have.
pub fn is_spent(next: u16) -> bool
    ensures { result ≡ is_spent next }
{
    next == u16::MAX
}

// The tests that ask for the turn, of a process with that next number.
pub fn turn_number(next: u16, u: UserClaim) -> Result<(), Refusal>
    ensures { number_of result ≡ turn_number next u }
{
    if is_spent(next) {
        return Err(Refusal::Spent);
    }
    if u.number != next {
        return Err(Refusal::OutOfTurn);
    }
    if !u.verdict {
        return Err(Refusal::Verdict);
    }
    Ok(())
}

// The active process under which a claim is made.
pub fn sought(s: Session, claim: Claim) -> Active
    ensures { result ≡ sought s claim }
{
    match claim {
        Claim::Elevated => Active::ElevationIn(s),
        Claim::ByUser(u) => Active::UserOf(s, u.credential),
    }
}

// Whom a claim speaks for, by the owner of the process under which it is made.
pub fn speaks_for(claim: Claim, owner: Credential) -> Credential
    ensures { result ≡ speaks_for claim owner }
{
    match claim {
        Claim::Elevated => owner,
        Claim::ByUser(u) => u.credential,
    }
}

fn user_number(u: UserClaim, view: ClaimView) -> Result<usize, Refusal>
    ensures { placed_in result ≡ placed (claim_number (Claim.ByUser u) view) (found_place 0 view.found) }
{
    if !view.grants.provisioned {
        return Err(Refusal::Credential);
    }
    let Some(place) = view.found else {
        return Err(Refusal::NoProcess);
    };
    turn_number(view.next, u)?;
    Ok(place)
}

fn elevated_number(view: ClaimView) -> Result<usize, Refusal>
    ensures { placed_in result ≡ placed (claim_number Claim.Elevated view) (found_place 0 view.found) }
{
    let Some(place) = view.found else {
        return Err(Refusal::NoProcess);
    };
    Ok(place)
}

fn claim_number(claim: Claim, view: ClaimView) -> Result<usize, Refusal>
    ensures { placed_in result ≡ placed (claim_number claim view) (found_place 0 view.found) }
{
    match claim {
        Claim::Elevated => elevated_number(view),
        Claim::ByUser(u) => user_number(u, view),
    }
}

fn check_number(s: Session, claim: Claim, view: ClaimView) -> Result<usize, Refusal>
    ensures { placed_in result ≡ placed (check_number s claim view) (found_place 0 view.found) }
{
    if !is_in_range(claim) {
        return Err(Refusal::Argument);
    }
    module_state::phase_number(s, view.phase)?;
    claim_number(claim, view)
}

// The tests that all protected calls begin with, the claim's check the last of them, wherever the state lies that the view is of.
pub fn check_claim(s: Session, claim: Claim, view: ClaimView) -> ClaimCheck
    ensures { checked_in result ≡ check_of s claim view }
{
    ClaimCheck {
        claim,
        place: check_number(s, claim, view),
        next: view.next,
        credential: view.credential,
        grants: view.grants,
    }
}

// Whether a claim passed its check, by what that came to and what its call answers: ahead of a claim a call is refused with 1 alone, and after it never.
pub fn passed_with<T: Copy>(by: ClaimCheck, answer: Result<T, Refusal>) -> bool
    ensures { result ≡ passed_by (checked_in by) (number_of answer) }
{
    by.place.is_ok() && !matches!(answer, Err(Refusal::Argument))
}

// The same by a check and an answer that are told in numbers.
pub fn passed_by(by: Checked, n: u8) -> bool
    ensures { result ≡ passed_by by n }
{
    by.number == DONE && n != Refusal::Argument as u8
}
