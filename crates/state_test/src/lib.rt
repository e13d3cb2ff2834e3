// Whether a slice holds a state, tested where it lies. docs/STATE.md draws the layout.
#![tactic(auto, using(crate::proofs::Rules::rules))]

ghost use Rattle.std.specs.Prelude.{◌≡◌, ◌≤◌, length};
ghost use Rattle.rows.specs.Rows.{pairwise};
ghost use Rattle.state_layout.specs.Layout.{process_from, holds_state};
ghost use Rattle.state_test.specs.Digests.{sum_of, again, standing_in, Digests, Sums, Behind, other_names, Unless, later_others};
ghost use Rattle.table.specs.Table.{places};

use names::{NAME_LENGTH, Name};
use state_layout::{NAME_AT, PLACE_SIZE, STATE_LENGTH};
use table::PLACES;

// ---- names

fn name_of(place: &[u8; PLACE_SIZE]) -> Name
    ensures { result ≡ (process_from place.now).name }
{
    Name {
        bytes: <[u8; NAME_LENGTH]>::try_from(&place[NAME_AT..]).unwrap(),
    }
}

// The digest of the name at each place. Of every name all bytes are read, whatever they are. What stands behind them are numbers of their own, so that
// all twelve can be compared.
fn digests(rows: &[[u8; PLACE_SIZE]]) -> [u64; PLACES]
    requires { length rows.now ≤ places }
    ensures { Digests rows.now result }
{
    let mut digests = [1, 2, 3, 4, 5, 6, 7, 8, 9, 10, 11, 12];
    for (i, place) in rows.iter().enumerate() {
        digests[i] = names::digest(name_of(place));
    }
    digests
}

// What a half of a digest holds.
const HALF: u64 = 0x100000000;

// A sum of the two halves of a digest, of 32 bits: equal digests have one sum.
fn sum_of(digest: u64) -> u32
    ensures { result ≡ sum_of digest }
{
    ((digest / HALF + digest % HALF * 3) % HALF) as u32
}

// How many sums stand once more behind the last, and how many there are then.
const AGAIN: usize = PLACES / 2;

const ROUND: usize = PLACES + AGAIN;

// The sum of each digest: four of them are compared at a time. The first six stand once more behind the last, so that of each two places one stands at most six
// behind the other.
fn sums(digests: [u64; PLACES]) -> [u32; ROUND]
    ensures { Sums digests result }
{
    let mut sums = [0; ROUND];
    for i in 0..ROUND {
        sums[i] = sum_of(digests[i % PLACES]);
    }
    sums
}

// Whether two sums are equal of which one stands so far behind the other. There is no exit, so that many are compared at a time.
fn meet_behind(sums: &[u32; ROUND], behind: usize) -> bool
    requires { behind ≤ again }
    ensures { Behind sums.now behind result }
{
    let mut met = false;
    for i in 0..PLACES {
        met |= sums[i] == sums[i + behind];
    }
    met
}

// Whether the digests of two names have one sum. All twelve are compared, so that the compiler knows how many.
fn digests_meet(rows: &[[u8; PLACE_SIZE]]) -> bool
    requires { length rows.now ≤ places }
    ensures { Unless result (pairwise other_names (standing_in rows.now)) }
{
    let sums = sums(digests(rows));
    let mut met = false;
    for behind in 1..=AGAIN {
        met |= meet_behind(&sums, behind);
    }
    met
}

// ---- pairs

// Whether the names of two places differ.
fn names_differ<'a>(a: &'a [u8; PLACE_SIZE], b: &'a [u8; PLACE_SIZE]) -> bool
    ensures { result ≡ other_names (process_from a.now) (process_from b.now) }
{
    !names::same(name_of(a), name_of(b))
}

// Whether the name at a place differs from each later one.
fn differs_later<'a>(place: &'a [u8; PLACE_SIZE], later: &'a [[u8; PLACE_SIZE]]) -> bool
    ensures { result ≡ later_others place.now later.now }
{
    later.iter().all(|other| names_differ(place, other))
}

// Whether each name differs from each later one.
fn every_differs(rows: &[[u8; PLACE_SIZE]]) -> bool
    ensures { result ≡ pairwise other_names (standing_in rows.now) }
{
    for (i, place) in rows.iter().enumerate() {
        if !differs_later(place, &rows[i + 1..]) {
            return false;
        }
    }
    true
}

// The same, by digests first: where no two of them meet, the names need not be compared.
fn all_differ(rows: &[[u8; PLACE_SIZE]]) -> bool
    requires { length rows.now ≤ places }
    ensures { result ≡ pairwise other_names (standing_in rows.now) }
{
    !digests_meet(rows) || every_differs(rows)
}

// ---- the whole

// Whether a slice holds a state.
pub fn holds(s: &[u8]) -> bool
    ensures { result ≡ holds_state s.now }
{
    let Ok(state) = <&[u8; STATE_LENGTH]>::try_from(s) else {
        return false;
    };
    let rows = state_ranges::standing(state);
    state_fields::all_fit(s) && (rows.len() < 2 || all_differ(rows))
}
