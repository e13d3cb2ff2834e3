// Start, continue, elevate and drop: state in by value, answer and state out by value. Each asks its tests, in their order, for a refusal. Where there is none, start and
// elevate append a process, and continue and drop go on from the place at which their tests found the process.
#![tactic(auto, using(crate::proofs::Rules::rules), unfolding(calls::specs::Calls::number, calls::specs::Calls::is_full, module_state::specs::Module::provisioned))]

ghost use Rattle.std.specs.Prelude.{◌≡◌};
ghost use Rattle.module_state.specs.Numbers.{◌when◌, ◌unless◌, ◌▸◌};
ghost use Rattle.module_state.specs.Numbers as No;
ghost use Rattle.module_state.specs.Module.{is_credential, provisioned, active_place};
ghost use Rattle.module_state.specs.Claim.{entered, placed};
ghost use Rattle.module_state.specs.Refusals.{number_of, placed_in};
ghost use Rattle.table.specs.Table.{process_at, replaced};
ghost use Rattle.table.specs.declared.Active.TheVariants.{ElevationIn};
ghost use Rattle.table.specs.declared.Among.TheVariants.{All, SavedOf};
ghost use Rattle.calls.specs.Calls.{Start, Continue, Elevate, Drop, is_full, has_named, named_place, number, with_table, activated, outcome};

use calls::Outcome;
use module_state::{Refusal, State};
use names::{Credential, Name, Session};
use table::{Active, Among, PLACES};

// The tests that start, continue and elevate begin with.
fn known_number(st: State, s: Session, c: Credential) -> Result<(), Refusal>
    ensures { number_of result ≡ No.argument unless is_credential c ▸ entered st s ▸ No.credential unless provisioned st c }
{
    if !module_state::is_credential(c) {
        return Err(Refusal::Argument);
    }
    module_state::entered(st, s)?;
    if !module_state::grants_of(st, c).provisioned {
        return Err(Refusal::Credential);
    }
    Ok(())
}

// The tests that start and elevate end with.
fn new_number(st: State, name: Name) -> Result<(), Refusal>
    ensures { number_of result ≡ No.name_taken when has_named st name All ▸ No.full when is_full st }
{
    if table_search::find_named(st.table, name, Among::All).is_some() {
        return Err(Refusal::NameTaken);
    }
    if PLACES <= table::size(st.table) {
        return Err(Refusal::Full);
    }
    Ok(())
}

// ---- start

fn start_number(st: State, s: Session, c: Credential, name: Name) -> Result<(), Refusal>
    ensures { number_of result ≡ number st (Start s c name) }
{
    known_number(st, s, c)?;
    if table_search::find_active(st.table, Active::UserOf(s, c)).is_some() {
        return Err(Refusal::AlreadyActive);
    }
    new_number(st, name)
}

#[tactic(auto, using(crate::proofs::Rules::rules), unfolding(calls::specs::Calls::protection))]
pub fn start(st: State, s: Session, c: Credential, name: Name) -> Outcome
    ensures { result ≡ outcome st (Start s c name) }
{
    match start_number(st, s, c, name) {
        Ok(()) => {
            let p = calls_effects::user_process(s, c, name);
            let t = table_change::appended(st.table, p);
            calls_effects::accepted(calls_effects::with_table(st, t))
        }
        Err(refusal) => calls_effects::refused(st, u8::from(refusal)),
    }
}

// ---- continue

// The place of the saved process.
#[tactic(auto, using(crate::proofs::Rules::continue_rules), unfolding(calls::specs::Calls::number))]
fn continue_number(st: State, s: Session, c: Credential, name: Name) -> Result<usize, Refusal>
    ensures { placed_in result ≡ placed (number st (Continue s c name)) (named_place st name (SavedOf c)) }
{
    known_number(st, s, c)?;
    let Some(place) = table_search::find_named(st.table, name, Among::SavedOf(c)) else {
        return Err(Refusal::NoProcess);
    };
    if table_search::find_active(st.table, Active::UserOf(s, c)).is_some() {
        return Err(Refusal::AlreadyActive);
    }
    Ok(place)
}

fn continued(st: State, s: Session, at: usize) -> State
    ensures { result ≡ with_table st (replaced st.table at (activated s (process_at st.table at))) }
{
    let p = calls_effects::activated(table::process_at(st.table, at), s);
    calls_effects::with_table(st, table_change::replaced(st.table, at, p))
}

#[tactic(auto, using(crate::proofs::Rules::rules), unfolding(calls::specs::Calls::protection))]
pub fn continue_saved(st: State, s: Session, c: Credential, name: Name) -> Outcome
    ensures { result ≡ outcome st (Continue s c name) }
{
    match continue_number(st, s, c, name) {
        Ok(place) => calls_effects::accepted(continued(st, s, place)),
        Err(refusal) => calls_effects::refused(st, u8::from(refusal)),
    }
}

// ---- elevate

fn elevate_number(
    st: State,
    s: Session,
    c: Credential,
    name: Name,
    verdict: bool,
) -> Result<(), Refusal>
    ensures { number_of result ≡ number st (Elevate s c name verdict) }
{
    known_number(st, s, c)?;
    if !verdict {
        return Err(Refusal::Verdict);
    }
    if table_search::find_active(st.table, Active::ElevationIn(s)).is_some() {
        return Err(Refusal::AlreadyActive);
    }
    new_number(st, name)
}

#[tactic(auto, using(crate::proofs::Rules::rules), unfolding(calls::specs::Calls::protection))]
pub fn elevate(st: State, s: Session, c: Credential, name: Name, verdict: bool) -> Outcome
    ensures { result ≡ outcome st (Elevate s c name verdict) }
{
    match elevate_number(st, s, c, name, verdict) {
        Ok(()) => {
            let p = calls_effects::elevation(s, c, name);
            let t = table_change::appended(st.table, p);
            calls_effects::accepted(calls_effects::with_table(st, t))
        }
        Err(refusal) => calls_effects::refused(st, u8::from(refusal)),
    }
}

// ---- drop

// The place of the elevation.
fn drop_number(st: State, s: Session) -> Result<usize, Refusal>
    ensures { placed_in result ≡ placed (number st (Drop s)) (active_place st (ElevationIn s)) }
{
    module_state::entered(st, s)?;
    let Some(place) = table_search::find_active(st.table, Active::ElevationIn(s)) else {
        return Err(Refusal::NoProcess);
    };
    Ok(place)
}

#[tactic(auto, using(crate::proofs::Rules::rules), unfolding(calls::specs::Calls::protection))]
pub fn drop_elevation(st: State, s: Session) -> Outcome
    ensures { result ≡ outcome st (Drop s) }
{
    match drop_number(st, s) {
        Ok(place) => {
            let t = table_removal::removed(st.table, place);
            calls_effects::accepted(calls_effects::with_table(st, t))
        }
        Err(refusal) => calls_effects::refused(st, u8::from(refusal)),
    }
}
