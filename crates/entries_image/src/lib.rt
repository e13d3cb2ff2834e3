// The image of a module as programs in C and Rust write it, restore a module from it and rescue a damaged one: byte slices that they lend.
#![tactic(auto, using(crate::proofs::Rules::rules))]

ghost use Rattle.std.specs.Prelude.{◌≡◌};
ghost use Rattle.entries_image.specs.Entries.{ImageEntry, RestoreEntry, RescueEntry};

use module_state::{DONE, Refusal};
use state_layout::STATE_LENGTH;

#[unsafe(no_mangle)]
pub extern "C" fn slavotuk_image(state: &[u8], image: &mut [u8], long: &mut usize) -> u32
    ensures { ImageEntry state.now image.old result image.new long.new }
{
    if !state_test::holds(state) {
        *long = 0;
        return Refusal::Argument as u32;
    }
    let written = image_write::write_image(image, state_read::read(state));
    *long = written;
    if written == 0 {
        return Refusal::Room as u32;
    }
    u32::from(DONE)
}

#[unsafe(no_mangle)]
pub extern "C" fn slavotuk_restore(state: &mut [u8], image: &[u8]) -> u32
    ensures { RestoreEntry state.old image.now result state.new }
{
    if state.len() != STATE_LENGTH {
        return Refusal::Argument as u32;
    }
    let Some(next) = image_read::read_image(image) else {
        return Refusal::Message as u32;
    };
    state_write::write(state, next);
    u32::from(DONE)
}

#[unsafe(no_mangle)]
pub extern "C" fn slavotuk_rescue(
    bytes: &[u8],
    image: &mut [u8],
    long: &mut usize,
    cleared: &mut u16,
    kept: &mut u16,
    dropped: &mut u16,
) -> u32
    ensures { RescueEntry bytes.now image.old cleared.old kept.old dropped.old result image.new long.new cleared.new kept.new dropped.new }
{
    match image_rescue::rescue(bytes, image) {
        Ok(report) => {
            *long = report.length;
            *cleared = report.cleared;
            *kept = report.kept;
            *dropped = report.dropped;
            u32::from(DONE)
        }
        Err(refusal) => {
            *long = 0;
            u32::from(u8::from(refusal))
        }
    }
}
