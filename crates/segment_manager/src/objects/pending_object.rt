//! The construction of an object: it allocates its blocks and writes its head. After the object is filled, it links its
//! entry, or frees the blocks.
ghost use Rattle.std.specs.Prelude.{length, ◌<◌, ◌^◌, ◌≡◌, ◌≤◌};
ghost use Rattle.raw_region.specs.Memory.{WindowState};
ghost use Rattle.seg_types.specs.{Keys.new_key_seen, Names.Key as AnyKey, Names.NoKey};
ghost use Rattle.seg_index.specs.{Held.HasIndex, Held.index_at, declared.keys.Entry.Entry as AnyEntry};
ghost use Rattle.segment_manager.specs.{indexes.Indexed.class_of_index, objects.PendingObjects.WritesUnindexedObject};
ghost use Rattle.segment_manager.specs.State.{IsSegment};
ghost use Rattle.segment_manager.specs.objects.NewObjects.{IsNewKeyOf, IsOfKind, Requests};
ghost use Rattle.segment_manager.specs.objects.PendingObjects.{BeginsEntry, BeginsObject, Ends, GivesAllBack, IsEnding};

use crate::containers::fillings::ObjectShape;
use crate::layout::{HEAD_LEN, value_at};
use crate::objects::head::write_head;
use best_fit::{Heap, NoSpace};
use block_tags::Role;
use raw_region::Steps;
use seg_index::{Entry, Growth, Index, Lookup};
use seg_types::{Class, Handle, NewKey, Refusal};

/// The entry of a new object: its index, its place, and the block that the index grows into.
#[derive(Drop)]
pub(crate) struct PendingEntry {
    pub(crate) index: Index,
    pub(crate) place: u64,
    pub(crate) growth: Growth,
}

/// A new object: its blocks are in use and its head is written, but no entry leads to it yet.
#[derive(Drop)]
pub(crate) struct PendingObject {
    pub(crate) handle: u64,
    /// The offset of its value from the handle.
    pub(crate) at: u64,
    /// Its entry, or `None` if it is anonymous.
    pub(crate) entry: Option<PendingEntry>,
}

/// Allocates the blocks of a new object, and writes its head.
///
/// # Errors
///
/// `Exists` if an object has the key; otherwise `NoSpace`. The blocks in use and their bytes do not change.
pub(crate) fn begin_object(
    heap: &mut Heap,
    key: &NewKey,
    shape: ObjectShape,
) -> Result<PendingObject, Refusal>
    requires segment { IsSegment heap.old.bytes }
    requires kind { IsOfKind (new_key_seen key.now) shape.kind }
    requires max_size { shape.len < 2 ^ 40 }
    ensures { BeginsObject heap.old heap.new (new_key_seen key.now) shape.kind shape.count shape.len result }
{
    match key {
        NewKey::Name(name) => {
            let bytes = name.as_bytes();
            begin_entered(heap, Index::Named, Entry::Name(bytes), bytes, shape)
        }
        NewKey::Unique(unique) => {
            begin_entered(heap, Index::Unique, Entry::Code(unique.code()), &[], shape)
        }
        NewKey::Anonymous => begin_alone(heap, shape),
    }
}

/// Allocates the blocks of a new object with an index entry, and writes its head.
fn begin_entered(
    heap: &mut Heap,
    index: Index,
    entry: Entry<'_>,
    name: &[u8],
    shape: ObjectShape,
) -> Result<PendingObject, Refusal>
    requires segment { IsSegment heap.old.bytes }
    requires key { (key : AnyKey) × IsNewKeyOf index entry key name.now shape.kind }
    requires max_size { shape.len < 2 ^ 40 }
    ensures { (key : AnyKey) → IsNewKeyOf index entry.entry key name.now shape.kind
        → BeginsObject heap.old heap.new key shape.kind shape.count shape.len result }
{
    match index.lookup(heap, entry, &mut Steps::new()) {
        Lookup::Found(_) => Err(Refusal::Exists),
        Lookup::Absent(place) => begin_at(heap, index, place, name, shape),
    }
}

/// Allocates the blocks of a new object whose key is free and whose entry belongs at `place`, and writes its head.
pub(crate) fn begin_at(
    heap: &mut Heap,
    index: Index,
    place: u64,
    name: &[u8],
    shape: ObjectShape,
) -> Result<PendingObject, Refusal>
    requires index { HasIndex heap.old (index_at index) }
    requires max_len { length name.now ≤ 255 }
    requires max_size { shape.len < 2 ^ 40 }
    ensures { (key : AnyKey) (entry : AnyEntry)
        → BeginsEntry heap.old heap.new index place entry key name.now shape.kind shape.count shape.len result }
{
    let at = value_at(name.len() as u64);
    let Ok(requested) = request(heap, index, at + shape.len) else {
        return Err(Refusal::NoSpace);
    };
    let Requested { handle, growth } = requested;
    write_head(heap, handle, shape.kind, shape.count, class_of(index), name);
    let entry = Some(PendingEntry {
        index,
        place,
        growth,
    });
    Ok(PendingObject { handle, at, entry })
}

/// Allocates the block of a new anonymous object, and writes its head.
fn begin_alone(heap: &mut Heap, shape: ObjectShape) -> Result<PendingObject, Refusal>
    requires { shape.len < 2 ^ 40 }
    ensures { BeginsObject heap.old heap.new NoKey shape.kind shape.count shape.len result }
{
    let Ok(handle) = heap.allocate(HEAD_LEN + shape.len, Role::Object, &mut Steps::new()) else {
        return Err(Refusal::NoSpace);
    };
    write_head(heap, handle, shape.kind, shape.count, Class::Anonymous, &[]);
    Ok(PendingObject {
        handle,
        at: HEAD_LEN,
        entry: None,
    })
}

/// Returns the class of the objects in an index.
pub(crate) fn class_of(index: Index) -> Class
    ensures { result ≡ class_of_index index }
{
    match index {
        Index::Named => Class::Named,
        Index::Unique => Class::Unique,
    }
}

/// If the object was filled, links its entry to it and returns its handle. Otherwise frees all blocks that were
/// allocated for it.
#[inline(always)]
pub(crate) fn finish_object(
    heap: &mut Heap,
    begun: PendingObject,
    filled: Result<(), Refusal>,
) -> Result<Handle, Refusal>
    requires { IsEnding heap.old begun.handle begun.entry filled }
    ensures { Ends heap.old heap.new begun.handle begun.entry filled result }
{
    let handle = begun.handle;
    let entry = begun.entry;
    match filled {
        Err(why) => {
            give_back(heap, handle, entry);
            Err(why)
        }
        Ok(()) => {
            if let Some(new) = entry {
                new.index
                    .add(heap, new.place, handle, new.growth, &mut Steps::new());
            }
            Ok(handle)
        }
    }
}

/// Frees the blocks that were allocated for an object.
fn give_back(heap: &mut Heap, handle: u64, entry: Option<PendingEntry>)
    requires { (old : WindowState) × WritesUnindexedObject old heap.old handle entry }
    ensures { GivesAllBack heap.old heap.new handle entry }
{
    heap.deallocate(handle, &mut Steps::new());
    if let Some(new) = entry {
        Index::give_back(new.growth, heap, &mut Steps::new());
    }
}

/// The blocks of a new object: its own, and the one that its index grows into. Both are in use, but no entry leads to
/// them yet.
#[derive(Drop)]
pub(crate) struct Requested {
    pub(crate) handle: u64,
    pub(crate) growth: Growth,
}

/// Allocates the blocks of a new object with an entry in an index. A full index first gets a larger block; then the
/// object gets a block of `len` bytes. If no gap is long enough for the second, it frees the first.
pub(crate) fn request(heap: &mut Heap, index: Index, len: u64) -> Result<Requested, NoSpace>
    requires { HasIndex heap.old (index_at index) }
    ensures { Requests heap.old heap.new (index_at index) len result }
{
    let growth = index.prepare(heap, &mut Steps::new())?;
    match heap.allocate(len, Role::Object, &mut Steps::new()) {
        Ok(handle) => Ok(Requested { handle, growth }),
        Err(NoSpace) => {
            Index::give_back(growth, heap, &mut Steps::new());
            Err(NoSpace)
        }
    }
}
