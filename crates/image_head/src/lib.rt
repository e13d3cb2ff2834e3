// The head of an image: its five numbers tested, and the credentials that its mask and its words say. docs/IMAGE.md draws both layouts.
#![tactic(auto, using(crate::proofs::Rules::rules), unfolding(image::specs::Image::head_in, image::specs::Image::has_seconds, image::specs::Image::is_row_offset, image::specs::Image::head_fits, image::specs::Image::seconds_from))]

ghost use Rattle.std.specs.Prelude.{◌≡◌, ◌≤◌};
ghost use Rattle.image.specs.Image.{seconds_at, is_row_offset, head_in, words_from, seconds_from, grants_said, grants_among, head_fits};

use image::{
    ImageHead, MASK_AT, OLD_SAVED_AT, ROW_COUNT_AT, ROW_OFFSET_AT, SAVED_AT, SECONDS_AT,
    WORD_COUNT_AT, WORD_OFFSET_AT, WORDS_AT,
};
use module_state::{CREDENTIALS, Grants, UNPROVISIONED, WORD_SIZE, Words};
use table::PLACES;

// ---- the numbers

pub fn read_head(b: &[u8]) -> ImageHead
    ensures { result ≡ head_in b.now }
{
    ImageHead {
        mask: rows::number16(b, MASK_AT),
        words: usize::from(rows::number16(b, WORD_COUNT_AT)),
        from: usize::from(rows::number16(b, WORD_OFFSET_AT)),
        rows: usize::from(rows::number16(b, ROW_COUNT_AT)),
        offset: usize::from(rows::number16(b, ROW_OFFSET_AT)),
    }
}

// Where rows may begin, by the layout.
fn is_row_offset(offset: usize) -> bool
    ensures { result ≡ is_row_offset offset }
{
    offset == SAVED_AT || offset == OLD_SAVED_AT
}

pub fn head_fits(h: ImageHead) -> bool
    ensures { result ≡ head_fits h }
{
    h.mask < 256
        && h.words == CREDENTIALS
        && h.from == WORDS_AT
        && h.rows <= PLACES
        && is_row_offset(h.offset)
}

// ---- the credentials

// Eight words from a place on.
fn read_words(b: &[u8], at: usize) -> [u32; CREDENTIALS]
    requires { at ≤ seconds_at }
    ensures { result ≡ words_from at b.now }
{
    let mut words: [u32; CREDENTIALS] = [0; CREDENTIALS];
    for i in 0..CREDENTIALS {
        words[i] = rows::number32(b, at + i * WORD_SIZE);
    }
    words
}

// The second words: zero in the old layout, whose rows begin where they would lie.
fn read_seconds(b: &[u8], offset: usize) -> [u32; CREDENTIALS]
    ensures { result ≡ seconds_from offset b.now }
{
    if offset == SAVED_AT {
        read_words(b, SECONDS_AT)
    } else {
        [0; CREDENTIALS]
    }
}

// A mask, grant words and second words: bit i is credential i's.
fn grants_said(
    mask: u16,
    words: [u32; CREDENTIALS],
    seconds: [u32; CREDENTIALS],
) -> [Grants; CREDENTIALS]
    ensures { result ≡ grants_said mask words seconds }
{
    let mut grants = [UNPROVISIONED; CREDENTIALS];
    let mut left = mask;
    for i in 0..CREDENTIALS {
        grants[i] = Grants {
            provisioned: left % 2 == 1,
            words: Words {
                grant: words[i],
                second: seconds[i],
            },
        };
        left = left / 2;
    }
    grants
}

// The credentials of a mask and the words that bytes have whose rows begin at an offset.
pub fn read_grants(b: &[u8], mask: u16, offset: usize) -> [Grants; CREDENTIALS]
    ensures { result ≡ grants_among mask offset b.now }
{
    grants_said(mask, read_words(b, WORDS_AT), read_seconds(b, offset))
}
