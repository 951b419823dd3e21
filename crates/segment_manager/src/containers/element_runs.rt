//! The places in the image of the elements of arrays, vectors of scalars and strings.
ghost use Rattle.std.specs.Option.{unwrap_or};
ghost use Rattle.std.specs.Prelude.{◌%◌, ◌+◌, ◌≡◌, ◌≤◌, IfOk, IsTrue};
ghost use Rattle.raw_region.specs.{Format.current, Memory.bytes_of, Memory.word_at};
ghost use Rattle.offset_link.specs.Link.{link_at};
ghost use Rattle.best_fit.specs.Heap.{IsHeap, has_room, live_of};
ghost use Rattle.segment_manager.specs.containers.ElementRuns.{IsRunOf, run_at, run_of};
ghost use Rattle.segment_manager.specs.objects.Standing.{HasObject, IsObjectInBlock};
ghost use Rattle.segment_manager.specs.{Directory.Object as DirectoryObject, State.AnswersWith};
ghost use Rattle.segment_manager.specs.{objects.BoundObjects.key_of, objects.Located.IsObject, objects.Located.located};

use crate::objects::object_ref::{Object, ObjectRef, locate};
use crate::segment::Segment;
use best_fit::Heap;
use seg_types::{Kind, Refusal, ScalarKind};

/// Elements that lie in the image one after another, as encoded values.
#[derive(Clone, Copy, Debug, PartialEq, Eq)]
pub struct ElementRun {
    /// The offset of the first element, in bytes from the start of the segment; 0 if a container has no storage.
    pub offset: u64,
    /// The number of elements.
    pub count: u64,
    /// The kind of the elements: `U8` for a string.
    pub kind: ScalarKind,
}

impl Segment {
    /// Returns the place of an object's elements in the image. The object is an array of scalars, a vector of scalars
    /// or a string. The place is valid until a call moves the elements.
    ///
    /// Example: `let run = segment.element_run(&name)?`.
    ///
    /// # Errors
    ///
    /// `NotFound` if no object has the key, `WrongKind` if its elements are not scalars.
    #[inline(always)]
    pub fn element_run<O: ObjectRef>(&self, key: &O) -> Result<ElementRun, Refusal>
        ensures run { AnswersWith self.now (λ d. run_at d (O.key key.now)) result }
        ensures bytes { IfOk result (λ run. IsRunOf self.now (O.key key.now) run) }
    {
        let object = locate(self, key)?;
        element_run_of(self, object)
    }
}

/// As [`Segment::element_run`] on a located object.
///
/// Example: `let run = element_run_of(&segment, object)?`.
///
/// # Conditions
///
/// The object is there. `Segment::element_run` looks it up and has no condition.
#[inline(always)]
pub fn element_run_of(segment: &Segment, object: Object) -> Result<ElementRun, Refusal>
    requires { IsObject object segment.now }
    ensures run { AnswersWith segment.now (λ d. run_at d (key_of object)) result }
    ensures bytes { IfOk result (λ run. IsRunOf segment.now (key_of object) run) }
{
    read_run(&segment.heap, object)
}

/// Returns the place of an object's elements.
#[inline(always)]
fn read_run(heap: &Heap, object: Object) -> Result<ElementRun, Refusal>
    requires heap { IsHeap current heap.now.bytes }
    requires object { HasObject heap.now.bytes object.handle }
    requires text { (o : DirectoryObject) → IsObjectInBlock heap.now.bytes object.handle o → object ≡ located o }
    ensures { (o : DirectoryObject) → IsObjectInBlock heap.now.bytes object.handle o → result ≡ run_of o }
{
    let handle = object.handle;
    let at = object.value_at();
    match object.kind {
        Kind::Scalar(kind) => Ok(ElementRun {
            offset: handle + at,
            count: u64::from(object.count),
            kind,
        }),
        Kind::Vector(kind) => Ok(storage_run(heap, handle, at, kind)),
        Kind::String => Ok(storage_run(heap, handle, at, ScalarKind::U8)),
        _ => Err(Refusal::WrongKind),
    }
}

/// Returns the elements in the storage of the container whose three words are at `at` in a block.
#[inline(always)]
fn storage_run(heap: &Heap, handle: u64, at: u64, kind: ScalarKind) -> ElementRun
    requires aligned { at % 8 ≡ 0 }
    requires max_value { at ≤ 4096 }
    requires room { IsTrue (has_room (live_of heap.now.bytes) handle (at + 24)) }
    ensures offset { result.offset ≡ unwrap_or (link_at (bytes_of heap.now.bytes) (handle + at)) 0 }
    ensures count { result.count ≡ word_at (bytes_of heap.now.bytes) (handle + (at + 8)) }
    ensures kind { result.kind ≡ kind }
{
    ElementRun {
        offset: heap.link(handle, at).unwrap_or(0),
        count: heap.word(handle, at + 8),
        kind,
    }
}
