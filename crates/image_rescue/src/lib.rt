// Rescue of a damaged image: which of its rows are kept, what is reported, and the good image written to a second buffer. Document 02, order 8.
#![tactic(auto, using(crate::proofs::Rules::rules))]

ghost use Rattle.std.specs.Prelude.{◌≡◌, true, not, map, ◌+◌, ◌*◌, ◌≤◌, length, take, drop};
ghost use Rattle.std.specs.List.{list_all};
ghost use Rattle.names.specs.Names.{same_name};
ghost use Rattle.lists.specs.Lists.{sum, join};
ghost use Rattle.rows.specs.Rows.{rows, over, Put};
ghost use Rattle.table.specs.Table.{places};
ghost use Rattle.image.specs.Image.{saved_size, is_row_offset, image_long, Image, image_bytes, head_in, saved_from, saved_bytes};
ghost use Rattle.image_damaged.specs.Rescue.{is_usable, nonzero, words_cleared, is_kept, rescued_in, RescueWritten};
ghost use Rattle.image_rescue.specs.Sorted.{SortedAs};

use image::{ImageHead, SAVED_SIZE, SavedRow};
use image_damaged::Report;
use module_state::{CREDENTIALS, Grants, Refusal};
use names::{Credential, NAME_LENGTH, Name};
use table::PLACES;

// The rows that are kept, in front; how many; and the places of those that are dropped, in the bits of a number.
#[derive(Clone, Copy)]
struct Sorted {
    pub rows: [SavedRow; PLACES],
    pub kept: usize,
    pub dropped: u16,
}

// ---- the head and the words

// Whether the head fits and all words are there. A whole header is asked for by that.
fn is_usable(b: &[u8], h: ImageHead) -> bool
    requires { h ≡ head_in b.now }
    ensures { result ≡ is_usable b.now }
{
    image_head::head_fits(h) && h.offset <= b.len()
}

fn nonzero(word: u32) -> u16
    ensures { result ≡ nonzero word }
{
    u16::from(word != 0)
}

fn words_cleared(g: Grants) -> u16
    ensures { result ≡ words_cleared g }
{
    if g.provisioned {
        0
    } else {
        nonzero(g.words.grant) + nonzero(g.words.second)
    }
}

fn cleared_in(grants: [Grants; CREDENTIALS]) -> u16
    ensures { result ≡ sum (map words_cleared grants) }
{
    let mut cleared: u16 = 0;
    for i in 0..CREDENTIALS {
        cleared += words_cleared(grants[i]);
    }
    cleared
}

// ---- the rows

// Whether a row's name differs from that of each of those kept before.
#[tactic(auto)]
fn is_new(held: &[SavedRow], row: SavedRow) -> bool
    ensures { result ≡ list_all (λ q. not (same_name q.name row.name)) held.now }
{
    held.iter().all(|q| !names::same(q.name, row.name))
}

// The row at a place, where it is whole.
fn saved_at(b: &[u8], at: usize) -> SavedRow
    requires { at + saved_size ≤ length b.now }
    ensures { result ≡ saved_from (take saved_size (drop at b.now)) }
{
    let e = at + SAVED_SIZE;
    image_row::read_row(&b[at..e]).unwrap()
}

// Whether the row at a place is kept: one that the bytes do not have whole is not.
fn is_kept(b: &[u8], at: usize, grants: [Grants; CREDENTIALS], held: &[SavedRow]) -> bool
    requires { at ≤ 65535 }
    ensures { result ≡ is_kept grants held.now (take saved_size (drop at b.now)) }
{
    let e = at + SAVED_SIZE;
    if b.len() < e {
        return false;
    }
    image_test::is_keepable(grants, &b[at..e]) && is_new(held, saved_at(b, at))
}

// A row for each place, until one is kept there.
fn no_rows() -> [SavedRow; PLACES] {
    let none = SavedRow {
        owner: Credential(0),
        next: 0,
        name: Name {
            bytes: [0; NAME_LENGTH],
        },
    };
    [none; PLACES]
}

// The n stated rows, from an offset on: those kept, and the places of those dropped.
fn sort_rows(b: &[u8], offset: usize, n: usize, grants: [Grants; CREDENTIALS]) -> Sorted
    requires offset_value { is_row_offset offset ≡ true }
    requires n_le_places { n ≤ places }
    ensures { SortedAs grants (rows n saved_size (drop offset b.now)) result }
{
    let mut held = no_rows();
    let mut kept: usize = 0;
    let mut dropped: u16 = 0;
    let mut bit: u16 = 1;
    for i in 0..n {
        let at = offset + i * SAVED_SIZE;
        if is_kept(b, at, grants, &held[..kept]) {
            held[kept] = saved_at(b, at);
            kept += 1;
        } else {
            dropped += bit;
        }
        bit *= 2;
    }
    Sorted {
        rows: held,
        kept,
        dropped,
    }
}

// ---- the image written

fn put_rows(buffer: &mut [u8], offset: usize, held: &[SavedRow])
    requires offset_value { is_row_offset offset ≡ true }
    requires held_few { length held.now ≤ places }
    requires room { image_long offset (length held.now) ≤ length buffer.old }
    ensures { Put offset (length held.now * saved_size) (join (map saved_bytes held.now)) buffer.old buffer.new }
{
    for i in 0..held.len() {
        let a = offset + i * SAVED_SIZE;
        let e = a + SAVED_SIZE;
        image_row::put_row(&mut buffer[a..e], held[i]);
    }
}

// The image of these credentials and rows, at the front of a buffer that has room for it.
fn put_image(buffer: &mut [u8], offset: usize, grants: [Grants; CREDENTIALS], held: &[SavedRow])
    requires offset_value { is_row_offset offset ≡ true }
    requires held_few { length held.now ≤ places }
    requires room { image_long offset (length held.now) ≤ length buffer.old }
    ensures { buffer.new ≡ over 0 (image_long offset (length held.now)) (image_bytes (record { offset = offset; grants = grants; saved = held.now })) buffer.old }
{
    image_front::put_front(buffer, grants, held.len() as u16, offset as u16);
    put_rows(buffer, offset, held);
}

// ---- the whole

// The good image that bytes make, at the front of a buffer that has room for it, and the report. On a refusal the buffer stays.
pub fn rescue(b: &[u8], buffer: &mut [u8]) -> Result<Report, Refusal>
    ensures { RescueWritten b.now buffer.old (rescued_in result) buffer.new }
{
    let head = image_head::read_head(b);
    if !is_usable(b, head) {
        return Err(Refusal::Message);
    }
    let offset = head.offset;
    let grants = image_head::read_grants(b, head.mask, offset);
    let sorted = sort_rows(b, offset, head.rows, grants);
    let kept = sorted.kept;
    let long = offset + kept * SAVED_SIZE;
    if buffer.len() < long {
        return Err(Refusal::Room);
    }
    put_image(buffer, offset, grants, &sorted.rows[..kept]);
    Ok(Report {
        length: long,
        cleared: cleared_in(grants),
        kept: kept as u16,
        dropped: sorted.dropped,
    })
}
