// What a program in C or Rust hands in, as the numbers that it comes in: the values that a call takes, and whether it fits.
#![tactic(auto, using(crate::proofs::Rules::rules), unfolding(crate::specs::Arguments::session_of, crate::specs::Arguments::class_of, crate::specs::Arguments::credential_of, crate::specs::Arguments::wanted_of, crate::specs::Arguments::is_flag, crate::specs::Arguments::user_claim_of, crate::specs::Arguments::claim_of, crate::specs::Arguments::are_claim_flags, crate::specs::Arguments::are_pairs))]

ghost use Rattle.std.specs.Prelude.{◌≡◌, ◌&&◌};
ghost use Rattle.std.specs.List.{list_all};
ghost use Rattle.entries_arguments.specs.Arguments.{session_of, class_of, credential_of, wanted_of, is_flag, user_claim_of, claim_of, are_claim_flags, handed, are_pairs};

use calls::Wanted;
use module_state::{CREDENTIALS, Claim, Class, Handle, Port, UserClaim};
use names::{Credential, Session};

// All credentials, where a listing wants them. A number over it is handed on as this, the largest of 16 bits, which is no credential's.
const EVERY: u16 = u16::MAX;

pub fn session_of(port: u32, handle: u32) -> Session
    ensures { result ≡ session_of port handle }
{
    module_state::slot_of(
        Port(rows::byte_of(port as usize)),
        Handle(rows::byte_of(handle as usize)),
    )
}

pub fn class_of(n: u32) -> Class
    ensures { result ≡ class_of n }
{
    Class(rows::byte_of(n as usize))
}

pub fn credential_of(n: u32) -> Credential
    ensures { result ≡ credential_of n }
{
    Credential(u16::try_from(n).unwrap_or(EVERY))
}

pub fn wanted_of(n: u32) -> Wanted
    ensures { result ≡ wanted_of n }
{
    if n == u32::from(EVERY) {
        Wanted::Every
    } else {
        Wanted::Only(credential_of(n))
    }
}

pub fn is_flag(n: u32) -> bool
    ensures { result ≡ is_flag n }
{
    n <= 1
}

pub fn are_flags(m: u32, n: u32) -> bool
    ensures { result ≡ is_flag m && is_flag n }
{
    both(is_flag(m), is_flag(n))
}

pub fn user_claim_of(credential: u32, number: u16, verdict: u32) -> UserClaim
    ensures { result ≡ user_claim_of credential number verdict }
{
    UserClaim {
        credential: credential_of(credential),
        number,
        verdict: verdict == 1,
    }
}

pub fn claim_of(kind: u32, credential: u32, number: u16, verdict: u32) -> Claim
    ensures { result ≡ claim_of kind credential number verdict }
{
    if kind == 1 {
        Claim::Elevated
    } else {
        Claim::ByUser(user_claim_of(credential, number, verdict))
    }
}

pub fn are_claim_flags(kind: u32, verdict: u32) -> bool
    ensures { result ≡ are_claim_flags kind verdict }
{
    kind == 1 || (kind == 0 && is_flag(verdict))
}

pub fn both(a: bool, b: bool) -> bool
    ensures { result ≡ a && b }
{
    a && b
}

// ---- the pairs of a fresh module

fn are_all_flags(flags: &[u8]) -> bool
    ensures { result ≡ list_all is_flag flags.now }
{
    flags.iter().all(|flag| is_flag(u32::from(*flag)))
}

pub fn are_pairs(provisioned: &[u8], words: &[u32], seconds: &[u32]) -> bool
    ensures { result ≡ are_pairs (handed provisioned.now words.now seconds.now) }
{
    provisioned.len() == CREDENTIALS
        && words.len() == CREDENTIALS
        && seconds.len() == CREDENTIALS
        && are_all_flags(provisioned)
}
