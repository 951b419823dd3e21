//! What objects say of themselves, by key and one after another, and the blocks and gaps.
ghost use Rattle.std.specs.declared.option.Option.TheVariants.{None, Some};
ghost use Rattle.std.specs.Prelude.{◌≡◌, ◌≤◌, slice_get};
ghost use Rattle.best_fit.specs.Extents.{spans};
ghost use Rattle.seg_types.specs.{Commands.NumNamed, Commands.NumUnique};
ghost use Rattle.segment_c.specs.Lists.{IsInfo, WritesInfo, TellsAlone, TellsBlock, WritesInfoOf};
ghost use Rattle.segment_c.specs.Handles.{AsksSegment, ReadsDirectory, ReadsHandle};
ghost use Rattle.segment_c.specs.Passed.{key_of, key_wrong};
ghost use Rattle.segment_manager.specs.Directory.{Object, live, named_objects, object_at, unique_objects};
ghost use Rattle.segment_manager.specs.{Answers.Number, indexes.NamesFrom.IsFirstFrom, objects.Instances.IsInstance};

use crate::calls::{ask, enter, passed};
use crate::codes::{DONE, NOT_FOUND, OUT_OF_RANGE, SHORT_BUFFER};
use crate::keys::CKey;
use crate::slot::{Slot, put, take};
use block_tags::Role;
use seg_types::Class;
use segment_manager::Instance;
use segment_manager::unchecked::{named_instance, unique_instance};

/// What an object says of itself. Its class is 0 if it is found by its handle alone, 1 by its name, 2 as the one of its
/// kind. The code of its kind, the number of its elements (1 for a container), the length of its name and its handle
/// follow.
#[repr(C)]
#[derive(Clone, Copy)]
pub struct Info {
    /// How the object is found again.
    pub found_by: u32,
    /// The code of its kind.
    pub kind: u32,
    /// The number of its elements, 1 for a container.
    pub count: u32,
    /// The length of its name.
    pub name_len: u64,
    /// Its handle.
    pub handle: u64,
}

/// A block in use or a gap: where it begins, its length, and its use (0 a gap, 1 an object, 2 an index, 3 elements, 4 a
/// pair).
#[repr(C)]
#[derive(Clone, Copy)]
pub struct CBlock {
    /// Where the block or gap begins.
    pub offset: u64,
    /// Its length in bytes.
    pub len: u64,
    /// What it is for.
    pub use_of: u32,
}

/// Writes the object's information to `info` and its name to the front of the buffer, if the buffer has room for it.
fn tell(said: &Instance<'_>, info: &mut Info, name: &mut [u8]) -> u32
    ensures read { (o : Object) → IsInstance o said.now → WritesInfo o info.new name.old name.new result }
    ensures unchanged_on_error { 1 ≤ result → (info.new ≡ info.old) × (name.new ≡ name.old) }
{
    if name.len() < said.name.len() {
        return SHORT_BUFFER;
    }
    name[..said.name.len()].copy_from_slice(said.name);
    *info = Info::of(said);
    DONE
}

impl Info {
    /// Returns what an object says of itself, but for its name.
    fn of(said: &Instance<'_>) -> Info
        ensures { (o : Object) → IsInstance o said.now → IsInfo o result }
    {
        Info {
            found_by: match said.class {
                Class::Anonymous => 0,
                Class::Named => 1,
                Class::Unique => 2,
            },
            kind: said.kind.code(),
            count: said.count,
            name_len: said.name.len() as u64,
            handle: said.handle,
        }
    }
}

/// Returns what the object of a key says of itself.
#[unsafe(no_mangle)]
pub extern "C" fn zx_tell(h: &mut Slot, key: &CKey, info: &mut Info, name: &mut [u8]) -> u32
    ensures read { ReadsHandle (key_wrong key.now) result h.old h.new
        (λ s. WritesInfoOf s (λ d. object_at d (key_of key.now)) 6 info.new name.old name.new result) }
    ensures outputs_on_error { 1 ≤ result → (info.new ≡ info.old) × (name.new ≡ name.old) }
{
    let (which, segment) = passed!(enter(h, key));
    let code = match segment.instance(&which) {
        Ok(said) => tell(&said, info, name),
        Err(_) => NOT_FOUND,
    };
    put(code, h, segment)
}

/// Returns what the object says of itself whose name has `index` others before it, in the order of their bytes.
#[unsafe(no_mangle)]
pub extern "C" fn zx_named_at(h: &mut Slot, index: u64, info: &mut Info, name: &mut [u8]) -> u32
    ensures read { ReadsHandle 0 result h.old h.new
        (λ s. WritesInfoOf s (λ d. slice_get (named_objects d) index) 8 info.new name.old name.new result) }
    ensures outputs_on_error { 1 ≤ result → (info.new ≡ info.old) × (name.new ≡ name.old) }
{
    let segment = passed!(take(h));
    if index >= segment.num_named() {
        return put(OUT_OF_RANGE, h, segment);
    }
    let code = tell(&named_instance(&segment, index), info, name);
    put(code, h, segment)
}

/// Returns how many names stand before a text: the place, for `zx_named_at`, of the first name that does not, if there
/// is one.
#[unsafe(no_mangle)]
pub extern "C" fn zx_named_from(h: &mut Slot, text: &[u8], index: &mut u64) -> u32
    ensures read { ReadsHandle 0 result h.old h.new
        (λ s. (result ≡ 0) × IsFirstFrom s text.now index.new) }
    ensures outputs_on_error { 1 ≤ result → index.new ≡ index.old }
{
    ask!(h, index, segment => segment.named_place(text))
}

/// Returns what the unique object says of itself whose kind has `index` others before it, in the order of their codes.
#[unsafe(no_mangle)]
pub extern "C" fn zx_unique_at(h: &mut Slot, index: u64, info: &mut Info) -> u32
    ensures read { ReadsDirectory 0 result h.old h.new
        (λ d. TellsAlone info.new result (slice_get (unique_objects d) index)) }
    ensures outputs_on_error { 1 ≤ result → info.new ≡ info.old }
{
    let segment = passed!(take(h));
    if index >= segment.num_unique() {
        return put(OUT_OF_RANGE, h, segment);
    }
    *info = Info::of(&unique_instance(&segment, index));
    put(DONE, h, segment)
}

/// Returns the block or gap with `index` others before it.
#[unsafe(no_mangle)]
pub extern "C" fn zx_tile_at(h: &mut Slot, index: u64, block: &mut CBlock) -> u32
    ensures read { ReadsDirectory 0 result h.old h.new
        (λ d. TellsBlock block.new result (slice_get (spans (live d)) index)) }
    ensures outputs_on_error { 1 ≤ result → block.new ≡ block.old }
{
    let segment = passed!(take(h));
    let Some(span) = segment.tile(index) else {
        return put(OUT_OF_RANGE, h, segment);
    };
    *block = CBlock {
        offset: span.offset,
        len: span.len,
        use_of: match span.use_of {
            None => 0,
            Some(Role::Object) => 1,
            Some(Role::Index) => 2,
            Some(Role::Storage) => 3,
            Some(Role::Node) => 4,
        },
    };
    put(DONE, h, segment)
}

/// Returns the number of objects with names.
#[unsafe(no_mangle)]
pub extern "C" fn zx_num_named(h: &mut Slot, count: &mut u64) -> u32
    ensures call { AsksSegment Number 0 NumNamed result h.old h.new count.old count.new }
{
    ask!(h, count, segment => segment.num_named())
}

/// Returns the number of kinds with a unique object.
#[unsafe(no_mangle)]
pub extern "C" fn zx_num_unique(h: &mut Slot, count: &mut u64) -> u32
    ensures call { AsksSegment Number 0 NumUnique result h.old h.new count.old count.new }
{
    ask!(h, count, segment => segment.num_unique())
}
