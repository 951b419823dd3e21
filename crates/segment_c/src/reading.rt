//! Reads the sizes and the bytes of containers.
ghost use Rattle.std.specs.Prelude.{◌≡◌, ◌≢◌, ◌≤◌};
ghost use Rattle.seg_types.specs.{Commands.Get, declared.kinds.Kind.TheVariants.Strings as StringsKind};
ghost use Rattle.segment_c.specs.Reads.{AreSizes, Copies, CopiesAnswer, IsCoded, CopiesBytes};
ghost use Rattle.segment_c.specs.{Handles.ReadsDirectory, Handles.ReadsHandle, Passed.key_of, Passed.key_wrong};
ghost use Rattle.segment_manager.specs.{containers.Contents.bytes_at, containers.Contents.sizes_at, Step.step_of_kind};
ghost use Rattle.segment_manager.specs.{Directory.Directory, State.DenotesCurrent};

use crate::calls::{enter, passed};
use crate::codes::{DONE, code_for, code_of};
use crate::images::copy_out;
use crate::keys::CKey;
use crate::slot::{Slot, put};

/// Counts the elements (`len`) and the places (`slots`) of the vector or string of a key. For the map of a key, `len`
/// is the number of pairs and `slots` is 0.
#[unsafe(no_mangle)]
pub extern "C" fn zx_measure(h: &mut Slot, key: &CKey, len: &mut u64, slots: &mut u64) -> u32
    ensures read { ReadsDirectory (key_wrong key.now) result h.old h.new
        (λ d. IsCoded (AreSizes len.new slots.new) result (sizes_at d (key_of key.now))) }
    ensures outputs_on_error { 1 ≤ result → (len.new ≡ len.old) × (slots.new ≡ slots.old) }
{
    let (which, segment) = passed!(enter(h, key));
    let code =
        code_for!(segment.measure(&which), (elements, capacity) => { *len = elements; *slots = capacity; });
    put(code, h, segment)
}

/// Copies the bytes of the string of a key to the front of the buffer `text`, if the buffer has room for them. Sets
/// `len` to the number of these bytes, even if the buffer is too short.
#[unsafe(no_mangle)]
pub extern "C" fn zx_read_string(h: &mut Slot, key: &CKey, text: &mut [u8], len: &mut u64) -> u32
    ensures read { ReadsDirectory (key_wrong key.now) result h.old h.new
        (λ d. Copies text.old text.new len.new result (bytes_at d (key_of key.now))) }
    ensures outputs_on_error { 1 ≤ result → text.new ≡ text.old }
    ensures length { 1 ≤ result → result ≢ 24 → len.new ≡ len.old }
{
    let (which, segment) = passed!(enter(h, key));
    let code = match segment.string_bytes(&which) {
        Ok(bytes) => copy_text(bytes, text, len),
        Err(why) => code_of(why),
    };
    put(code, h, segment)
}

/// Copies the string at `index` in the vector of strings of a key to the front of the buffer `text`, if the buffer has
/// room for it. Sets `len` to the number of bytes of the string, even if the buffer is too short.
#[unsafe(no_mangle)]
pub extern "C" fn zx_read_text(
    h: &mut Slot,
    key: &CKey,
    index: u64,
    text: &mut [u8],
    len: &mut u64,
) -> u32
    ensures read { ReadsHandle (key_wrong key.now) result h.old h.new
        (λ s. (d : Directory) → DenotesCurrent s.cut.bytes d
        → CopiesAnswer text.old text.new len.new result
        (step_of_kind s.mode d (key_of key.now) StringsKind (Get (key_of key.now) index)).0) }
    ensures outputs_on_error { 1 ≤ result → text.new ≡ text.old }
    ensures length { 1 ≤ result → result ≢ 24 → len.new ≡ len.old }
{
    let (which, segment) = passed!(enter(h, key));
    let code = match segment.texts_get(&which, index) {
        Ok(bytes) => copy_text(bytes, text, len),
        Err(why) => code_of(why),
    };
    put(code, h, segment)
}

/// Copies bytes to the front of the buffer `text`, if the buffer has room for them. Sets `len` to the number of these
/// bytes in any case.
fn copy_text(bytes: &[u8], text: &mut [u8], len: &mut u64) -> u32
    ensures copy { CopiesBytes bytes.now text.old text.new len.new result }
    ensures unchanged_on_error { 1 ≤ result → text.new ≡ text.old }
    ensures max_len { 1 ≤ result → result ≡ 24 }
{
    *len = bytes.len() as u64;
    copy_out(bytes, text)
}
