//! Reads, writes, copies and checks one link.
ghost use Rattle.std.specs.Prelude.{◌≡◌, ◌+◌, ◌%◌, ◌≤◌, Option, Some, None, IfOk, is_err, length};
ghost use Rattle.raw_region.specs.Memory.{bytes_of, patched};
ghost use Rattle.raw_region.specs.Regions.{with_bytes};
ghost use Rattle.offset_link.specs.Link.{link_at, link};
ghost use Rattle.offset_link.specs.Relinked.{IsLink, is_bad};

use raw_region::Window;
use thiserror::Error;

/// The word of a null link.
pub const NULL: u64 = 1;

/// The error of `checked`: no block's payload can begin at the link's target.
#[derive(Debug, Drop, Error)]
#[error("bad link")]
pub struct BadLink;

/// Returns the target of the link at `at`, or `None` if it is null.
pub fn load(w: &Window, at: u64) -> Option<u64>
    requires aligned { at % 8 ≡ 0 }
    requires in_bounds { at + 8 ≤ length w.now.bytes }
    ensures { result ≡ link_at (bytes_of w.now.bytes) at }
{
    let word = w.read_u64(at);
    if word == NULL {
        return None;
    }
    Some(at.wrapping_add(word))
}

/// Sets the link at `at` to `target`, a multiple of 16.
pub fn store(w: &mut Window, at: u64, target: u64)
    requires aligned { at % 8 ≡ 0 }
    requires in_bounds { at + 8 ≤ length w.old.bytes }
    requires target { target % 16 ≡ 0 }
    ensures len { length w.new.bytes ≡ length w.old.bytes }
    ensures link_target { link_at (bytes_of w.new.bytes) at ≡ Some target }
    ensures output { w.new ≡ with_bytes w.old (patched w.old.bytes at (link at (Some target))) }
{
    w.write_u64(at, target.wrapping_sub(at));
}

/// Sets the link at `at` to null.
#[tactic(auto, using(crate::proofs::link::Targets::links))]
pub fn store_null(w: &mut Window, at: u64)
    requires aligned { at % 8 ≡ 0 }
    requires in_bounds { at + 8 ≤ length w.old.bytes }
    ensures len { length w.new.bytes ≡ length w.old.bytes }
    ensures link_target { link_at (bytes_of w.new.bytes) at ≡ None }
    ensures output { w.new ≡ with_bytes w.old (patched w.old.bytes at (link at None)) }
{
    w.write_u64(at, NULL);
}

/// Copies the link at `from` to `to`. The link must be null or have a target that is a multiple of 16.
pub fn copy(w: &mut Window, from: u64, to: u64)
    requires from_aligned { from % 8 ≡ 0 }
    requires to_aligned { to % 8 ≡ 0 }
    requires from_in_bounds { from + 8 ≤ length w.old.bytes }
    requires to_in_bounds { to + 8 ≤ length w.old.bytes }
    requires target { IsLink (bytes_of w.old.bytes) from }
    ensures len { length w.new.bytes ≡ length w.old.bytes }
    ensures link_target { link_at (bytes_of w.new.bytes) to ≡ link_at (bytes_of w.old.bytes) from }
    ensures output { w.new ≡ with_bytes w.old (patched w.old.bytes to (link to (link_at (bytes_of w.old.bytes) from))) }
{
    match load(w, from) {
        Some(target) => store(w, to, target),
        None => store_null(w, to),
    }
}

/// Returns the target of the link at `at`, or `None` if the link is null. The window can have any bytes.
///
/// # Errors
///
/// If the target is not a multiple of 16 from 144 to the window's size less 32.
pub fn checked(w: &Window, at: u64) -> Result<Option<u64>, BadLink>
    requires aligned { at % 8 ≡ 0 }
    requires in_bounds { at + 8 ≤ length w.now.bytes }
    ensures on_ok { IfOk result (λ target. target ≡ link_at (bytes_of w.now.bytes) at) }
    ensures on_error { is_err result ≡ is_bad (length w.now.bytes) (link_at (bytes_of w.now.bytes) at) }
{
    match load(w, at) {
        None => Ok(None),
        Some(target) => {
            let size = w.size();
            if target % 16 == 0 && target >= 144 && target < size && size - target >= 32 {
                return Ok(Some(target));
            }
            Err(BadLink)
        }
    }
}
