// Open, close and select: state in by value, answer and state out by value. Each asks its tests, in their order, for a refusal, and does what it does where there is none.
#![tactic(auto, using(crate::proofs::Rules::rules), unfolding(calls::specs::Calls::number, calls::specs::Calls::protection, calls::specs::Calls::is_version))]

ghost use Rattle.std.specs.Prelude.{◌≡◌};
ghost use Rattle.calls.specs.Calls.{Open, Close, Select, is_version, number, outcome};
ghost use Rattle.module_state.specs.Refusals.{number_of};

use calls::Outcome;
use module_state::{Phase, Refusal, State};
use names::Session;

// ---- open

fn open_number(st: State, s: Session) -> Result<(), Refusal>
    ensures { number_of result ≡ number st (Open s) }
{
    if !module_state::is_session(s) {
        return Err(Refusal::Argument);
    }
    if !module_state::is_closed(st, s) {
        return Err(Refusal::Session);
    }
    Ok(())
}

pub fn open_session(st: State, s: Session) -> Outcome
    ensures { result ≡ outcome st (Open s) }
{
    if let Err(refusal) = open_number(st, s) {
        return calls_effects::refused(st, u8::from(refusal));
    }
    calls_effects::accepted(calls_effects::with_phase(st, s, Phase::Opened))
}

// ---- close

// The tests of close, with which those of select begin.
fn close_number(st: State, s: Session) -> Result<(), Refusal>
    ensures { number_of result ≡ number st (Close s) }
{
    if !module_state::is_session(s) {
        return Err(Refusal::Argument);
    }
    if module_state::is_closed(st, s) {
        return Err(Refusal::Session);
    }
    Ok(())
}

pub fn close_session(st: State, s: Session) -> Outcome
    ensures { result ≡ outcome st (Close s) }
{
    if let Err(refusal) = close_number(st, s) {
        return calls_effects::refused(st, u8::from(refusal));
    }
    let left = calls_effects::with_table(st, table_removal::without_session(st.table, s));
    calls_effects::accepted(calls_effects::with_phase(left, s, Phase::Closed))
}

// ---- select

fn is_version(byte: u8) -> bool
    ensures { result ≡ is_version byte }
{
    byte == 0x10
}

fn select_number(st: State, s: Session, byte: u8) -> Result<(), Refusal>
    ensures { number_of result ≡ number st (Select s byte) }
{
    close_number(st, s)?;
    if !is_version(byte) {
        return Err(Refusal::Version);
    }
    Ok(())
}

// Choosing 0x10 a second time is done, and changes nothing.
pub fn select_version(st: State, s: Session, byte: u8) -> Outcome
    ensures { result ≡ outcome st (Select s byte) }
{
    if let Err(refusal) = select_number(st, s, byte) {
        return calls_effects::refused(st, u8::from(refusal));
    }
    calls_effects::accepted(calls_effects::with_phase(st, s, Phase::Chosen))
}
