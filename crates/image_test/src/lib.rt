// Whether bytes are an image, tested where they lie. docs/IMAGE.md draws it.
#![tactic(auto, using(crate::proofs::Rules::rules), unfolding(image::specs::Image::saved_from, image::specs::Image::words_fit, image::specs::Image::is_owner, image::specs::Image::is_keepable, image::specs::Image::differ))]

ghost use Rattle.std.specs.Prelude.{◌≡◌, ◌/◌, true, map, eqb, length, drop};
ghost use Rattle.std.specs.List.{list_all};
ghost use Rattle.rows.specs.Rows.{rows, pairwise};
ghost use Rattle.image.specs.Image.{saved_size, image_long, saved_from, is_owner, is_keepable, differ, head_fits, words_fit, image_test};
ghost use Rattle.image_test.specs.Tests.{rest_fits};

use image::{ImageHead, ImageParts, SAVED_NAME_AT, SAVED_NEXT_AT, SAVED_OWNER_AT, SAVED_SIZE};
use module_state::{CREDENTIALS, Grants};
use names::{Credential, Name};

// ---- the words

// Whether a credential is provisioned, or has neither word.
fn words_fit(g: Grants) -> bool
    ensures { result ≡ words_fit g }
{
    g.provisioned || (g.words.grant == 0 && g.words.second == 0)
}

// Kept out of its caller, where the grants would lie field by field, and be put together again for each row.
#[inline(never)]
fn all_fit(grants: [Grants; CREDENTIALS]) -> bool
    ensures { result ≡ list_all words_fit grants }
{
    grants.iter().all(|one| words_fit(*one))
}

// ---- the rows, each by itself

// Whether a row's owner is provisioned: nobody over 7 is.
fn is_owner(grants: [Grants; CREDENTIALS], c: Credential) -> bool
    ensures { result ≡ is_owner grants c }
{
    let owner = usize::from(c.0);
    owner < CREDENTIALS && grants[owner].provisioned
}

// Whether a row may be kept, by its owner and its next number.
pub fn is_keepable(grants: [Grants; CREDENTIALS], row: &[u8]) -> bool
    ensures { result ≡ is_keepable grants (saved_from row.now) }
{
    let owner = Credential(rows::number16(row, SAVED_OWNER_AT));
    is_owner(grants, owner) && 1 <= rows::number16(row, SAVED_NEXT_AT)
}

fn are_keepable(saved: &[[u8; SAVED_SIZE]], grants: [Grants; CREDENTIALS]) -> bool
    ensures { result ≡ list_all (λ row. is_keepable grants (saved_from row)) saved.now }
{
    for i in 0..saved.len() {
        if !is_keepable(grants, &saved[i]) {
            return false;
        }
    }
    true
}

// ---- the rows' names

fn name_of(row: &[u8; SAVED_SIZE]) -> Name
    ensures { result ≡ (saved_from row.now).name }
{
    names::read_name(&row[SAVED_NAME_AT..]).unwrap()
}

fn differ(a: &[u8; SAVED_SIZE], b: &[u8; SAVED_SIZE]) -> bool
    ensures { result ≡ differ (saved_from a.now) (saved_from b.now) }
{
    !names::same(name_of(a), name_of(b))
}

// Whether the name of a row differs from that of each later one.
fn differs(first: &[u8; SAVED_SIZE], later: &[[u8; SAVED_SIZE]]) -> bool
    ensures { result ≡ list_all (λ other. differ (saved_from first.now) (saved_from other)) later.now }
{
    later.iter().all(|other| differ(first, other))
}

#[tactic(auto, using(crate::proofs::Rules::rules))]
fn all_differ(saved: &[[u8; SAVED_SIZE]]) -> bool
    ensures { result ≡ pairwise differ (map saved_from saved.now) }
{
    let mut rest = saved;
    while let [first, later @ ..] = rest {
        if !differs(first, later) {
            return false;
        }
        rest = later;
    }
    true
}

// ---- the whole

// The rows that stand whole from an offset on: those of an image whose rows begin there.
#[tactic(auto, using(crate::proofs::Rules::rules))]
pub fn saved_rows(b: &[u8], offset: usize) -> &[[u8; SAVED_SIZE]]
    ensures { result.now ≡ rows (length (drop offset b.now) / saved_size) saved_size (drop offset b.now) }
{
    let (saved, _) = rows::bytes_from(b, offset).as_chunks::<SAVED_SIZE>();
    saved
}

// Whether bytes are as long as an image with this head.
#[tactic(auto, using(crate::proofs::Rules::rules))]
fn is_long(b: &[u8], h: ImageHead) -> bool
    requires { head_fits h ≡ true }
    ensures { result ≡ eqb (length b.now) (image_long h.offset h.rows) }
{
    b.len() == h.offset + h.rows * SAVED_SIZE
}

// Whether the words and the rows fit, of bytes whose head does: the length that it asks for is then a small number. Kept out of its
// caller: within what makes a module of the image it would have the places cleared and copied three times.
#[inline(never)]
#[tactic(auto, using(crate::proofs::Rules::rules))]
fn rest_fits(b: &[u8], h: ImageHead, grants: [Grants; CREDENTIALS]) -> bool
    requires { head_fits h ≡ true }
    ensures { result ≡ rest_fits b.now h grants }
{
    if !is_long(b, h) {
        return false;
    }
    let saved = saved_rows(b, h.offset);
    all_fit(grants) && are_keepable(saved, grants) && all_differ(saved)
}

// Whether bytes are an image; and, whether they are or not, what was read for it.
#[tactic(auto, using(crate::proofs::Rules::rules))]
pub fn test_image(b: &[u8]) -> Result<ImageParts, ImageParts>
    ensures { result ≡ image_test b.now }
{
    let head = image_head::read_head(b);
    let grants = image_head::read_grants(b, head.mask, head.offset);
    let parts = ImageParts { head, grants };
    if image_head::head_fits(head) && rest_fits(b, head, grants) {
        Ok(parts)
    } else {
        Err(parts)
    }
}
