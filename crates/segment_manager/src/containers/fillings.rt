//! The initial contents of new objects: numbers, or a container with its elements in blocks of its own. Elements of
//! arrays are encoded and read as bytes.
ghost use Rattle.std.specs.Prelude.{IsTrue, length, map, replicate, ⊤, ◌%◌, ◌*◌, ◌+◌, ◌≡◌, ◌≤◌};
ghost use Rattle.raw_region.specs.{Format.current, Memory.HasBytesAt, Memory.bytes_of, Memory.read};
ghost use Rattle.best_fit.specs.Heap.{ChangesBytes, IsHeap, has_room, live_of};
ghost use Rattle.seg_types.specs.Commands.{Bytes, Content, Elements, NoPairs, Numbers, Strings};
ghost use Rattle.segment_manager.specs.{Directory.value_len, Plan.bare, objects.Standing.repeated};
ghost use Rattle.segment_manager.specs.containers.Filled.{IsShapeOf, MakesValue, container_shape, numbers_shape};

use crate::bound::texts::judge_all;
use crate::layout::CONTAINER_LEN;
use best_fit::Heap;
use raw_region::bytes_are_octets;
use seg_map::SegMap;
use seg_types::{Kind, MAX_ARRAY_LEN, Refusal, Scalar, ScalarKind};
use seg_vector::{Place, SegString, SegTexts, SegVec};

/// The greatest length of an encoded scalar, in bytes.
pub(crate) const LONGEST: usize = 8;

/// The greatest number of elements of an array of scalars.
pub(crate) const MAX_COUNT: u32 = MAX_ARRAY_LEN as u32;

/// The properties of an object that are known before its block is allocated.
#[derive(Clone, Copy)]
pub struct ObjectShape {
    /// Its kind.
    pub kind: Kind,
    /// The number of its elements if it is an array, and 1 otherwise.
    pub count: u32,
    /// The length of its value in its own block, in bytes.
    pub len: u64,
}

/// The initial contents of a new object. There is one type here for each form of contents.
pub trait ObjectInit {
    // The contents of the object, as in a command.
    ghost content: { Self → Content };

    // Whether an object can have these contents.
    ghost stands: { Self → Type 0 };

    /// Returns the shape of an object with these contents.
    fn shape(&self) -> ObjectShape
        requires { stands self.now }
        ensures { IsShapeOf (content self.now) result };

    /// Initialises the value at a place in the block of the object. The old bytes can be anything.
    ///
    /// # Errors
    ///
    /// `NoSpace` if no gap is long enough for the elements. Then `fill` frees the blocks that it allocated.
    fn fill(&self, heap: &mut Heap, place: Place) -> Result<(), Refusal>
        requires object { stands self.now }
        requires heap { IsHeap current heap.old.bytes }
        requires aligned { place.at % 8 ≡ 0 }
        requires room { IsTrue
            (has_room (live_of heap.old.bytes) place.handle (place.at + value_len (bare (content self.now)))) }
        ensures { MakesValue (content self.now) heap.old heap.new place result };
}

/// A value, `count` times.
#[derive(Drop)]
pub struct NewNumbers<T> {
    /// The number of copies, from 1 to 1048576.
    pub count: u32,
    /// The value.
    pub value: T,
}

impl<T: Scalar> ObjectInit for NewNumbers<T> {
    ghost content = { λ f. Numbers T.kind (replicate f.count (T.whole f.value)) };

    ghost stands = { λ f. (1 ≤ f.count) × (f.count ≤ 1048576) };

    #[inline(always)]
    fn shape(&self) -> ObjectShape {
        numbers(T::kind(), self.count)
    }

    #[inline(always)]
    fn fill(&self, heap: &mut Heap, place: Place) -> Result<(), Refusal> {
        let mut bytes = [0; LONGEST];
        let spelling = &mut bytes[..T::SIZE as usize];
        self.value.write(spelling);
        write_elements(heap, place.handle, place.at, self.count, spelling);
        Ok(())
    }
}

/// The values of a vector.
#[derive(Drop)]
pub struct NewVector<'a, T> {
    /// The values.
    pub values: &'a [T],
}

impl<T: Scalar> ObjectInit for NewVector<'_, T> {
    ghost content = { λ f. Elements T.kind (map T.whole f.values.now) };

    ghost stands = { λ f. ⊤ };

    #[inline(always)]
    fn shape(&self) -> ObjectShape {
        container(Kind::Vector(T::kind()))
    }

    #[inline(always)]
    fn fill(&self, heap: &mut Heap, place: Place) -> Result<(), Refusal> {
        SegVec::<T>::new(heap, place).assign(heap, self.values)
    }
}

/// The bytes of a string.
#[derive(Drop)]
pub struct NewString<'a> {
    /// The bytes.
    pub bytes: &'a [u8],
}

impl ObjectInit for NewString<'_> {
    ghost content = { λ f. Bytes f.bytes.now };

    ghost stands = { λ f. ⊤ };

    #[inline(always)]
    fn shape(&self) -> ObjectShape {
        container(Kind::String)
    }

    #[inline(always)]
    fn fill(&self, heap: &mut Heap, place: Place) -> Result<(), Refusal> {
        bytes_are_octets(self.bytes);
        SegString::with_bytes(heap, place, self.bytes)
    }
}

/// The texts of a vector of strings.
#[derive(Drop)]
pub struct NewTexts<'a> {
    /// The texts.
    pub texts: &'a [&'a [u8]],
}

impl ObjectInit for NewTexts<'_> {
    ghost content = { λ f. Strings (map (λ text. text.now) f.texts.now) };

    ghost stands = { λ f. ⊤ };

    #[inline(always)]
    fn shape(&self) -> ObjectShape {
        container(Kind::Strings)
    }

    #[inline(always)]
    fn fill(&self, heap: &mut Heap, place: Place) -> Result<(), Refusal> {
        judge_all(self.texts);
        SegTexts::with_texts(heap, place, self.texts)
    }
}

/// An empty map of two kinds.
#[derive(Drop)]
pub struct NewMap {
    /// The kind of its keys.
    pub keys: ScalarKind,
    /// The kind of its values.
    pub values: ScalarKind,
}

impl ObjectInit for NewMap {
    ghost content = { λ f. NoPairs f.keys f.values };

    ghost stands = { λ f. ⊤ };

    #[inline(always)]
    fn shape(&self) -> ObjectShape {
        container(Kind::Map(self.keys, self.values))
    }

    // The bytes of an empty map are the same for all types.
    #[inline(always)]
    fn fill(&self, heap: &mut Heap, place: Place) -> Result<(), Refusal> {
        SegMap::<u8, u8>::new(heap, place);
        Ok(())
    }
}

/// Returns the shape of an array of `count` numbers of a kind.
#[inline(always)]
pub(crate) fn numbers(kind: ScalarKind, count: u32) -> ObjectShape
    requires { count ≤ 1048576 }
    ensures { result ≡ numbers_shape kind count }
{
    ObjectShape {
        kind: Kind::Scalar(kind),
        count,
        len: kind.size() * u64::from(count),
    }
}

/// Returns the shape of a container of a kind.
#[inline(always)]
fn container(kind: Kind) -> ObjectShape
    ensures { result ≡ container_shape kind }
{
    ObjectShape {
        kind,
        count: 1,
        len: CONTAINER_LEN,
    }
}

/// Writes `count` copies of the same bytes, from `at` on in a block.
pub(crate) fn write_elements(heap: &mut Heap, handle: u64, at: u64, count: u32, bytes: &[u8])
    requires heap { IsHeap current heap.old.bytes }
    requires room { IsTrue (has_room (live_of heap.old.bytes) handle (at + length bytes.now * count)) }
    ensures changes { ChangesBytes current heap.old heap.new (handle + at) (length bytes.now * count) }
    ensures content { HasBytesAt (bytes_of heap.new.bytes) (handle + at) (repeated count bytes.now) }
{
    let len = bytes.len() as u64;
    for i in 0..u64::from(count) {
        heap.write(handle, at + len * i, bytes);
    }
}

/// Returns the `size` bytes at `at` in a block.
pub(crate) fn element(heap: &Heap, handle: u64, at: u64, size: u64) -> &[u8]
    requires heap { IsHeap current heap.now.bytes }
    requires room { IsTrue (has_room (live_of heap.now.bytes) handle (at + size)) }
    ensures bytes { result.now ≡ read (bytes_of heap.now.bytes) (handle + at) size }
    ensures len { length result.now ≡ size }
{
    let payload = heap.block(handle);
    &payload[at as usize..(at + size) as usize]
}
