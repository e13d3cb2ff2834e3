// What an image holds, in figures, and the line that a sheet of a drawer gets: document 02, order 6. docs/FIGURES.md tells how the desk uses it.
#![tactic(auto, using(crate::proofs::Rules::rules))]

ghost use Rattle.std.specs.Prelude.{◌≡◌, Ok, max, fold};
ghost use Rattle.rows.specs.Bytes.{number_at};
ghost use Rattle.image.specs.Image.{saved_next_at, image_test};
ghost use Rattle.image_figures.specs.Figures.{classes_held, classes_granted, figures_in, size_said, line_of};

use image::{ImageParts, SAVED_NEXT_AT, SAVED_SIZE};
use module_state::{CREDENTIALS, Grants};

// Bytes of the length before an image.
pub const LENGTH_SIZE: usize = 2;

#[derive(Clone, Copy)]
pub struct Figures {
    pub rows: u64,
    pub classes: u64,
    pub largest: u64,
}

// ---- the figures of an image

fn classes_held(word: u32) -> u32
    ensures { result ≡ classes_held word }
{
    u32::count_ones(word)
}

fn classes_granted(grants: [Grants; CREDENTIALS]) -> u32
    ensures { result ≡ classes_granted grants }
{
    let mut sum = 0;
    for i in 0..CREDENTIALS {
        sum += classes_held(grants[i].words.grant);
    }
    sum
}

#[tactic(auto)]
fn largest_next(saved: &[[u8; SAVED_SIZE]]) -> u16
    ensures { result ≡ fold (λ largest row. max largest (number_at 2 saved_next_at row)) 0 saved.now }
{
    saved.iter().fold(
        0,
        |largest, row| largest.max(rows::number16(row, SAVED_NEXT_AT)),
    )
}

// The figures of an image, by what its test read.
fn figures_in(b: &[u8], parts: ImageParts) -> Figures
    requires { image_test b.now ≡ Ok parts }
    ensures { result ≡ figures_in b.now }
{
    let head = parts.head;
    Figures {
        rows: head.rows as u64,
        classes: u64::from(classes_granted(parts.grants)),
        largest: u64::from(largest_next(image_test::saved_rows(b, head.offset))),
    }
}

// ---- a sheet of a drawer: of a length, and of the image after it, the bytes that are there

// How many bytes are to follow; none where the length is not whole.
pub fn size_said(said: &[u8]) -> u16
    ensures { result ≡ size_said said.now }
{
    if said.len() == LENGTH_SIZE {
        rows::number16(said, 0)
    } else {
        0
    }
}

// The figures of a good image. After a length that is not whole no byte follows, and no bytes are no image.
pub fn line_of(said: &[u8], image: &[u8]) -> Option<Figures>
    ensures { result ≡ line_of said.now image.now }
{
    if image.len() != usize::from(size_said(said)) {
        return None;
    }
    match image_test::test_image(image) {
        Ok(parts) => Some(figures_in(image, parts)),
        Err(_) => None,
    }
}
