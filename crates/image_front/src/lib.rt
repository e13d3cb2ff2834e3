// What stands before the rows of an image, its head and its words, in either layout, written at the front of a buffer. docs/IMAGE.md draws it.
#![tactic(auto, using(crate::proofs::Rules::rules))]

ghost use Rattle.std.specs.Prelude.{◌≡◌, ◌++◌, map, ◌+◌, ◌-◌, ◌≤◌, length};
ghost use Rattle.rows.specs.Rows.{over, Put};
ghost use Rattle.module_state.specs.Module.{word_size};
ghost use Rattle.image.specs.Image.{words_at, words_size, has_seconds, numbers_bytes, head_numbers, mask_of, grant_in, second_in, seconds_bytes, front_bytes, front_long};

use image::{
    MASK_AT, OLD_SAVED_AT, ROW_COUNT_AT, ROW_OFFSET_AT, SAVED_AT, SECONDS_AT, WORD_COUNT_AT,
    WORD_OFFSET_AT, WORDS_AT,
};
use module_state::{CREDENTIALS, Grants, WORD_SIZE};

// ---- the head

// The mask of provisioned credentials: bit i is credential i's. It goes from the last to the first, so that each doubles those after it.
fn mask_of(l: [Grants; CREDENTIALS]) -> u16
    ensures { result ≡ mask_of l }
{
    let mut mask: u16 = 0;
    for i in (0..CREDENTIALS).rev() {
        mask = mask * 2 + u16::from(l[i].provisioned);
    }
    mask
}

fn put_numbers(buffer: &mut [u8], mask: u16, n: u16, offset: u16)
    requires { words_at ≤ length buffer.old }
    ensures { Put 0 words_at (numbers_bytes 2 (head_numbers mask n offset)) buffer.old buffer.new }
{
    rows::put_number16(buffer, MASK_AT, mask);
    rows::put_number16(buffer, WORD_COUNT_AT, CREDENTIALS as u16);
    rows::put_number16(buffer, WORD_OFFSET_AT, WORDS_AT as u16);
    rows::put_number16(buffer, ROW_COUNT_AT, n);
    rows::put_number16(buffer, ROW_OFFSET_AT, offset);
}

// ---- the words

fn grants_in(l: [Grants; CREDENTIALS]) -> [u32; CREDENTIALS]
    ensures { result ≡ map grant_in l }
{
    l.map(|g| module_state::words_of(g).grant)
}

fn seconds_in(l: [Grants; CREDENTIALS]) -> [u32; CREDENTIALS]
    ensures { result ≡ map second_in l }
{
    l.map(|g| module_state::words_of(g).second)
}

fn put_words(buffer: &mut [u8], at: usize, words: [u32; CREDENTIALS])
    requires { at + words_size ≤ length buffer.old }
    ensures { Put at words_size (numbers_bytes word_size words) buffer.old buffer.new }
{
    for (i, word) in words.iter().enumerate() {
        rows::put_number32(buffer, at + i * WORD_SIZE, *word);
    }
}

// ---- the layout

// Whether an image whose rows begin at this offset has second words.
fn has_seconds(offset: u16) -> bool
    ensures { result ≡ has_seconds offset }
{
    usize::from(offset) == SAVED_AT
}

fn front_long(offset: u16) -> usize
    ensures { result ≡ front_long offset }
{
    if has_seconds(offset) {
        SAVED_AT
    } else {
        OLD_SAVED_AT
    }
}

// ---- the whole

// The grant words, and the second words after them where the layout has any.
fn put_both(buffer: &mut [u8], l: [Grants; CREDENTIALS], offset: u16)
    requires { front_long offset ≤ length buffer.old }
    ensures { Put words_at (front_long offset - words_at) (numbers_bytes word_size (map grant_in l) ++ seconds_bytes offset l) buffer.old buffer.new }
{
    put_words(buffer, WORDS_AT, grants_in(l));
    if has_seconds(offset) {
        put_words(buffer, SECONDS_AT, seconds_in(l));
    }
}

// The head and the words of an image of either layout, at the front of a buffer. One that is too short for them stays.
pub fn put_front(buffer: &mut [u8], grants: [Grants; CREDENTIALS], n: u16, offset: u16)
    ensures { buffer.new ≡ over 0 (front_long offset) (front_bytes grants n offset) buffer.old }
{
    if front_long(offset) <= buffer.len() {
        put_numbers(buffer, mask_of(grants), n, offset);
        put_both(buffer, grants, offset);
    }
}
