// A table of at most 12 processes, in the order of their starts. It goes in by value and comes back by value.
#![tactic(auto, using(crate::proofs::Rules::rules), unfolding(crate::specs::Table::is_active, crate::specs::Table::is_active_in, crate::specs::Table::is_among, crate::specs::Table::is_named, crate::specs::Table::size, crate::specs::Table::standing, crate::specs::Table::process_at, crate::specs::Table::table_of, lists::specs::Lists::padded))]

ghost use Rattle.std.specs.Prelude.{◌≡◌, []};
ghost use Rattle.table.specs.Table.{standing, size, table_of, free_place, is_active, is_active_in, is_among, is_named, process_at};

use names::{Credential, Kind, NAME_LENGTH, Name, Session};

#[derive(Clone, Copy)]
pub struct Process {
    pub credential: Credential,
    pub kind: Kind,
    pub session: Session,
    pub next: u16,
    pub name: Name,
}

pub const PLACES: usize = 12;

// The processes that stand are those of the first `count` places; a count past 12 says that all 12 do.
#[derive(Clone, Copy)]
pub struct Table {
    pub places: [Process; PLACES],
    pub count: usize,
}

// An active process, by what it is active as.
#[derive(Clone, Copy)]
pub enum Active {
    UserOf(Session, Credential),
    ElevationIn(Session),
}

// Which processes a name is looked for among.
#[derive(Clone, Copy)]
pub enum Among {
    All,
    Of(Credential),
    SavedOf(Credential),
}

// How many processes stand.
pub fn size(t: Table) -> usize
    ensures { result ≡ size t }
{
    t.count.min(PLACES)
}

// The processes that stand, in the order of their starts.
pub fn standing(t: &Table) -> &[Process]
    ensures { result.now ≡ standing t.now }
{
    let n = size(*t);
    &t.places[..n]
}

// What a free place holds.
pub fn free_place() -> Process
    ensures { result ≡ free_place }
{
    Process {
        credential: Credential(0),
        kind: Kind::User,
        session: Session(0),
        next: 0,
        name: Name {
            bytes: [0; NAME_LENGTH],
        },
    }
}

// The table in which none stands.
pub fn empty() -> Table
    ensures { result ≡ table_of [] }
{
    Table {
        places: [free_place(); PLACES],
        count: 0,
    }
}

pub fn is_active(p: Process, which: Active) -> bool
    ensures { result ≡ is_active which p }
{
    match (which, p.kind) {
        (Active::UserOf(s, c), Kind::User) => p.session == s && p.credential == c,
        (Active::ElevationIn(s), Kind::Elevation) => p.session == s,
        _ => false,
    }
}

// Whether p is active in a session, as a user's or as the elevation.
pub fn is_active_in(p: Process, session: Session) -> bool
    ensures { result ≡ is_active_in session p }
{
    match p.kind {
        Kind::User | Kind::Elevation => p.session == session,
        Kind::Saved => false, // it is in no session
    }
}

// Whether p is among those.
pub fn is_among(p: Process, among: Among) -> bool
    ensures { result ≡ is_among among p }
{
    match (among, p.kind) {
        (Among::All, _) => true,
        (Among::Of(c), _) => p.credential == c,
        (Among::SavedOf(c), Kind::Saved) => p.credential == c,
        (Among::SavedOf(_), _) => false,
    }
}

pub fn is_named(p: Process, name: Name, among: Among) -> bool
    ensures { result ≡ is_named name among p }
{
    is_among(p, among) && names::same(p.name, name)
}

// The process that stands at a place; what a free place holds, where none does.
pub fn process_at(t: Table, at: usize) -> Process
    ensures { result ≡ process_at t at }
{
    if at < size(t) {
        t.places[at]
    } else {
        free_place()
    }
}
