//! Constructs objects of any contents, or finds them: arrays with several copies of one number, vectors, strings and
//! maps.
ghost use Rattle.std.specs.Prelude.{map, true, ◌≡◌, ◌≤◌};
ghost use Rattle.seg_types.specs.Commands.{Bytes, Elements, NoPairs, Strings};
ghost use Rattle.seg_types.specs.{Names.Key as AnyKey, Values.kind_of_scalar, Values.value_of_scalar};
ghost use Rattle.seg_types.specs.declared.kinds.Kind.TheVariants.{Map as MapOf, Scalar as ScalarOf};
ghost use Rattle.seg_types.specs.declared.kinds.Kind.TheVariants.{String as StringKind, Strings as StringsKind};
ghost use Rattle.seg_types.specs.declared.kinds.Kind.TheVariants.{Vector as VectorOf};
ghost use Rattle.segment_manager.specs.{Directory.kind_of, objects.Counted.RefusesCount, objects.Counted.is_count};
ghost use Rattle.segment_manager.specs.{Keeping.IsBoundKey, Keeping.UnchangedWhere, objects.NewObjects.IsNewKeyOf};
ghost use Rattle.segment_manager.specs.{Plan.bare, State.IsSegment, State.UnchangedIfRefused};
ghost use Rattle.segment_manager.specs.containers.Filled.{ConstructsObject, FillsObject, FindsOrConstructs};
ghost use Rattle.segment_manager.specs.containers.Filled.{FindsOrMakes, HasBegun, equal_numbers, with_count};

use crate::containers::fillings::{
    MAX_COUNT, NewMap, NewNumbers, NewString, NewTexts, NewVector, ObjectInit,
};
use crate::objects::construct_keys::{ConstructKey, FindOrConstructKey};
use crate::objects::finding::{entry_of, found_of};
use crate::objects::pending_object::{PendingObject, begin_at, begin_object, finish_object};
use crate::segment::{Result, Segment};
use best_fit::Heap;
use raw_region::Steps;
use seg_index::{Entry, Index, Lookup};
use seg_types::{Handle, Refusal, Scalar, ScalarKind, ScalarValue, by_value};
use seg_vector::Place;

impl Segment {
    /// Makes an array of `count` copies of a value, from 1 to 1048576, and returns its handle. A key with a kind must
    /// have the value's kind.
    ///
    /// Example: `let handle = segment.construct(&name, 1, 640i64)?`.
    ///
    /// # Conditions
    ///
    /// `count` is from 1 to 1048576; `construct_array` has no such condition. The key suits the kind: a key with a kind
    /// has this kind ([`ConstructKey`]).
    ///
    /// # Errors
    ///
    /// `ReadOnly` if the segment is open for reading. Otherwise `Exists` if an object has the key: nothing changes.
    /// Otherwise `NoSpace` if no gap is long enough: the objects do not change, but bytes of gaps can.
    pub fn construct<T: Scalar, D: ConstructKey>(
        &mut self,
        key: &D,
        count: u32,
        value: T,
    ) -> Result<Handle>
        requires kind { D.suits key.now (ScalarOf T.kind) }
        requires non_empty { 1 ≤ count }
        requires max_count { count ≤ 1048576 }
        ensures step { ConstructsObject self.old self.new (D.key key.now (ScalarOf T.kind))
            (equal_numbers T.kind count (T.whole value)) result }
        ensures refused { UnchangedIfRefused self.old self.new result }
    {
        self.construct_under(key, &NewNumbers { count, value })
    }

    /// Makes an array of `count` copies of a value, and returns its handle.
    ///
    /// Example: `let handle = segment.construct_array(&name, count, 0u8)?`.
    ///
    /// # Conditions and errors
    ///
    /// `ReadOnly` if the segment is open for reading. Otherwise `OutOfRange` if `count` is 0 or above 1048576: nothing
    /// changes. Otherwise as `construct`, except for the count.
    pub fn construct_array<T: Scalar, D: ConstructKey>(
        &mut self,
        key: &D,
        count: u32,
        value: T,
    ) -> Result<Handle>
        requires kind { D.suits key.now (ScalarOf T.kind) }
        ensures step { is_count count ≡ true
            → ConstructsObject self.old self.new (D.key key.now (ScalarOf T.kind))
            (equal_numbers T.kind count (T.whole value)) result }
        ensures count { RefusesCount count self.old self.new result }
        ensures refused { UnchangedIfRefused self.old self.new result }
    {
        if count == 0 || count > MAX_COUNT {
            return Err(self.refusal_of_count());
        }
        self.construct(key, count, value)
    }

    /// Makes an array of `count` copies of a value of a kind, and returns its handle. The conditions and errors of
    /// `construct` apply.
    ///
    /// Example: `segment.construct_value(&name, 1, ScalarValue::I64(640))?`.
    pub fn construct_value<D: ConstructKey>(
        &mut self,
        key: &D,
        count: u32,
        value: ScalarValue,
    ) -> Result<Handle>
        requires kind { D.suits key.now (ScalarOf (kind_of_scalar value)) }
        requires non_empty { 1 ≤ count }
        requires max_count { count ≤ 1048576 }
        ensures step { ConstructsObject self.old self.new (D.key key.now (ScalarOf (kind_of_scalar value)))
            (equal_numbers (kind_of_scalar value) count (value_of_scalar value)) result }
        ensures refused { UnchangedIfRefused self.old self.new result }
    {
        by_value!(value, it => self.construct(key, count, it))
    }

    /// Makes an object with these contents, and returns its handle.
    ///
    /// Example: `let handle = segment.construct_under(&name, &NewString { bytes: b"text" })?`.
    ///
    /// # Conditions
    ///
    /// An object can have these contents: an array has 1 to 1048576 numbers. The key suits the kind ([`ConstructKey`]).
    ///
    /// # Errors
    ///
    /// The errors of `construct` apply.
    #[inline(always)]
    pub fn construct_under<F: ObjectInit, D: ConstructKey>(
        &mut self,
        key: &D,
        filling: &F,
    ) -> Result<Handle>
        requires object { F.stands filling.now }
        requires kind { D.suits key.now (kind_of (bare (F.content filling.now))) }
        ensures step { ConstructsObject self.old self.new (D.key key.now (kind_of (bare (F.content filling.now))))
            (F.content filling.now) result }
        ensures refused { UnchangedIfRefused self.old self.new result }
    {
        if self.is_read_only() {
            return Err(Refusal::ReadOnly);
        }
        let shape = filling.shape();
        let key = key.key_for(shape.kind);
        let begun = begin_object(&mut self.heap, &key, shape)?;
        build(&mut self.heap, begun, filling)
    }

    /// Returns the handle and the number of elements of the array of scalars of a key. If no object has the key, makes
    /// an array of `count` copies of a value, from 1 to 1048576; an array found stays as it is, for any `count`. A key
    /// with a kind must have the value's kind.
    ///
    /// Example: `let (handle, count) = segment.find_or_construct(&name, 1, 640i64)?`.
    ///
    /// # Conditions and errors
    ///
    /// As `construct`, but `WrongKind` instead of `Exists`, if the object has another kind.
    pub fn find_or_construct<T: Scalar, D: FindOrConstructKey>(
        &mut self,
        key: &D,
        count: u32,
        value: T,
    ) -> Result<(Handle, u32)>
        requires kind { D.suits key.now (ScalarOf T.kind) }
        requires non_empty { 1 ≤ count }
        requires max_count { count ≤ 1048576 }
        ensures step { FindsOrMakes self.old self.new (D.key key.now (ScalarOf T.kind))
            (equal_numbers T.kind count (T.whole value)) result }
        ensures refused { UnchangedIfRefused self.old self.new result }
        ensures search { UnchangedWhere self.old self.new (IsBoundKey (D.key key.now (ScalarOf T.kind))) }
    {
        self.find_or_construct_under(key, &NewNumbers { count, value })
    }

    /// Returns the handle and the number of elements of the array of scalars of a key, or makes an array whose count is
    /// known only at run time.
    ///
    /// Example: `let (handle, count) = segment.find_or_construct_array(&name, count, 0u8)?`.
    ///
    /// # Conditions and errors
    ///
    /// `ReadOnly` if the segment is open for reading. Otherwise `OutOfRange` if `count` is 0 or above 1048576: nothing
    /// changes. Otherwise as `find_or_construct`, except for the count.
    pub fn find_or_construct_array<T: Scalar, D: FindOrConstructKey>(
        &mut self,
        key: &D,
        count: u32,
        value: T,
    ) -> Result<(Handle, u32)>
        requires kind { D.suits key.now (ScalarOf T.kind) }
        ensures step { is_count count ≡ true
            → FindsOrMakes self.old self.new (D.key key.now (ScalarOf T.kind))
            (equal_numbers T.kind count (T.whole value)) result }
        ensures count { RefusesCount count self.old self.new result }
        ensures refused { UnchangedIfRefused self.old self.new result }
        ensures search { UnchangedWhere self.old self.new (IsBoundKey (D.key key.now (ScalarOf T.kind))) }
    {
        if count == 0 || count > MAX_COUNT {
            return Err(self.refusal_of_count());
        }
        self.find_or_construct(key, count, value)
    }

    /// Returns the handle and the number of elements of the array of scalars of a key, or makes an array of a value of
    /// a kind. The conditions and errors of `find_or_construct` apply.
    ///
    /// Example: `segment.find_or_construct_value(&name, 1, ScalarValue::I64(640))?`.
    pub fn find_or_construct_value<D: FindOrConstructKey>(
        &mut self,
        key: &D,
        count: u32,
        value: ScalarValue,
    ) -> Result<(Handle, u32)>
        requires kind { D.suits key.now (ScalarOf (kind_of_scalar value)) }
        requires non_empty { 1 ≤ count }
        requires max_count { count ≤ 1048576 }
        ensures step { FindsOrMakes self.old self.new (D.key key.now (ScalarOf (kind_of_scalar value)))
            (equal_numbers (kind_of_scalar value) count (value_of_scalar value)) result }
        ensures refused { UnchangedIfRefused self.old self.new result }
        ensures search { UnchangedWhere self.old self.new
            (IsBoundKey (D.key key.now (ScalarOf (kind_of_scalar value)))) }
    {
        by_value!(value, it => self.find_or_construct(key, count, it))
    }

    /// Returns the handle and the count of the object of a key, or makes an object with these contents. An object found
    /// stays as it is.
    ///
    /// Example: `let (handle, count) = segment.find_or_construct_under(&name, &NewString { bytes: b"text" })?`.
    ///
    /// # Conditions and errors
    ///
    /// As `construct_under`, but `WrongKind` instead of `Exists`, if the object has another kind.
    #[inline(always)]
    pub fn find_or_construct_under<F: ObjectInit, D: FindOrConstructKey>(
        &mut self,
        key: &D,
        filling: &F,
    ) -> Result<(Handle, u32)>
        requires object { F.stands filling.now }
        requires kind { D.suits key.now (kind_of (bare (F.content filling.now))) }
        ensures step { FindsOrMakes self.old self.new (D.key key.now (kind_of (bare (F.content filling.now))))
            (F.content filling.now) result }
        ensures refused { UnchangedIfRefused self.old self.new result }
        ensures search { UnchangedWhere self.old self.new
            (IsBoundKey (D.key key.now (kind_of (bare (F.content filling.now))))) }
    {
        if self.is_read_only() {
            return Err(Refusal::ReadOnly);
        }
        let key = key.entry_for(filling.shape().kind);
        let (index, entry, name) = entry_of(&key);
        find_or_construct_entered(&mut self.heap, index, entry, name, filling)
    }

    /// Makes a vector of values, with a capacity of exactly their number, and returns its handle. A key with a kind
    /// must have the kind of this vector. The conditions and errors of `construct` apply, except for the count.
    ///
    /// Example: `segment.construct_vec::<i64, _>(&name, &[])?`.
    pub fn construct_vec<T: Scalar, D: ConstructKey>(
        &mut self,
        key: &D,
        values: &[T],
    ) -> Result<Handle>
        requires kind { D.suits key.now (VectorOf T.kind) }
        ensures step { ConstructsObject self.old self.new (D.key key.now (VectorOf T.kind))
            (Elements T.kind (map T.whole values.now)) result }
        ensures refused { UnchangedIfRefused self.old self.new result }
    {
        self.construct_under(key, &NewVector { values })
    }

    /// Makes a string of bytes, with a capacity of exactly their number, and returns its handle. A key with a kind must
    /// have the kind `String`. The conditions and errors of `construct` apply, except for the count.
    ///
    /// Example: `segment.construct_string(&name, b"red")?`.
    pub fn construct_string<D: ConstructKey>(&mut self, key: &D, bytes: &[u8]) -> Result<Handle>
        requires kind { D.suits key.now StringKind }
        ensures step { ConstructsObject self.old self.new (D.key key.now StringKind) (Bytes bytes.now) result }
        ensures refused { UnchangedIfRefused self.old self.new result }
    {
        self.construct_under(key, &NewString { bytes })
    }

    /// Returns the handle of the vector, and the count 1. If no object has the key, makes a vector of the values; a
    /// vector found stays as it is. A key with a kind must have the kind of this vector. The conditions and errors of
    /// `find_or_construct` apply, except for the count.
    ///
    /// Example: `segment.find_or_construct_vec(&name, &[1i64, 2])?`.
    pub fn find_or_construct_vec<T: Scalar, D: FindOrConstructKey>(
        &mut self,
        key: &D,
        values: &[T],
    ) -> Result<(Handle, u32)>
        requires kind { D.suits key.now (VectorOf T.kind) }
        ensures step { FindsOrMakes self.old self.new (D.key key.now (VectorOf T.kind))
            (Elements T.kind (map T.whole values.now)) result }
        ensures refused { UnchangedIfRefused self.old self.new result }
        ensures search { UnchangedWhere self.old self.new (IsBoundKey (D.key key.now (VectorOf T.kind))) }
    {
        self.find_or_construct_under(key, &NewVector { values })
    }

    /// Returns the handle of the string, and the count 1. If no object has the key, makes a string of the bytes; a
    /// string found stays as it is. A key with a kind must have the kind `String`. The conditions and errors of
    /// `find_or_construct` apply, except for the count.
    ///
    /// Example: `segment.find_or_construct_string(&name, b"red")?`.
    pub fn find_or_construct_string<D: FindOrConstructKey>(
        &mut self,
        key: &D,
        bytes: &[u8],
    ) -> Result<(Handle, u32)>
        requires kind { D.suits key.now StringKind }
        ensures step { FindsOrMakes self.old self.new (D.key key.now StringKind) (Bytes bytes.now) result }
        ensures refused { UnchangedIfRefused self.old self.new result }
        ensures search { UnchangedWhere self.old self.new (IsBoundKey (D.key key.now StringKind)) }
    {
        self.find_or_construct_under(key, &NewString { bytes })
    }

    /// Makes a vector of texts, with a capacity of exactly their number and a block for each text that is not empty,
    /// and returns its handle. A key with a kind must have the kind `Strings`. The conditions and errors of `construct`
    /// apply, except for the count.
    ///
    /// Example: `segment.construct_texts(&name, &[b"apples", b"pears"])?`.
    pub fn construct_texts<D: ConstructKey>(&mut self, key: &D, texts: &[&[u8]]) -> Result<Handle>
        requires kind { D.suits key.now StringsKind }
        ensures step { ConstructsObject self.old self.new (D.key key.now StringsKind)
            (Strings (map (λ text. text.now) texts.now)) result }
        ensures refused { UnchangedIfRefused self.old self.new result }
    {
        self.construct_under(key, &NewTexts { texts })
    }

    /// Returns the handle of the vector of strings, and the count 1. If no object has the key, makes a vector of the
    /// texts; a vector found stays as it is. A key with a kind must have the kind `Strings`. The conditions and errors
    /// of `find_or_construct` apply, except for the count.
    ///
    /// Example: `segment.find_or_construct_texts(&name, &[])?`.
    pub fn find_or_construct_texts<D: FindOrConstructKey>(
        &mut self,
        key: &D,
        texts: &[&[u8]],
    ) -> Result<(Handle, u32)>
        requires kind { D.suits key.now StringsKind }
        ensures step { FindsOrMakes self.old self.new (D.key key.now StringsKind)
            (Strings (map (λ text. text.now) texts.now)) result }
        ensures refused { UnchangedIfRefused self.old self.new result }
        ensures search { UnchangedWhere self.old self.new (IsBoundKey (D.key key.now StringsKind)) }
    {
        self.find_or_construct_under(key, &NewTexts { texts })
    }

    /// Makes an empty map, and returns its handle. A key with a kind must have the kind of this map. The conditions and
    /// errors of `construct` apply, except for the count.
    ///
    /// Example: `segment.construct_map::<i32, i64, _>(&name)?`.
    pub fn construct_map<K: Scalar, V: Scalar, D: ConstructKey>(
        &mut self,
        key: &D,
    ) -> Result<Handle>
        requires kind { D.suits key.now (MapOf K.kind V.kind) }
        ensures step { ConstructsObject self.old self.new (D.key key.now (MapOf K.kind V.kind))
            (NoPairs K.kind V.kind) result }
        ensures refused { UnchangedIfRefused self.old self.new result }
    {
        self.construct_map_of(key, K::kind(), V::kind())
    }

    /// Makes an empty map of two kinds, and returns its handle. The conditions and errors of `construct` apply, except
    /// for the count.
    ///
    /// Example: `segment.construct_map_of(&name, ScalarKind::I32, ScalarKind::I64)?`.
    pub fn construct_map_of<D: ConstructKey>(
        &mut self,
        key: &D,
        keys: ScalarKind,
        values: ScalarKind,
    ) -> Result<Handle>
        requires kind { D.suits key.now (MapOf keys values) }
        ensures step { ConstructsObject self.old self.new (D.key key.now (MapOf keys values)) (NoPairs keys values)
            result }
        ensures refused { UnchangedIfRefused self.old self.new result }
    {
        self.construct_under(key, &NewMap { keys, values })
    }

    /// Returns the handle of the map, and the count 1. If no object has the key, makes an empty map; a map found stays
    /// as it is. A key with a kind must have the kind of this map. The conditions and errors of `find_or_construct`
    /// apply, except for the count.
    ///
    /// Example: `segment.find_or_construct_map::<i32, i64, _>(&name)?`.
    pub fn find_or_construct_map<K: Scalar, V: Scalar, D: FindOrConstructKey>(
        &mut self,
        key: &D,
    ) -> Result<(Handle, u32)>
        requires kind { D.suits key.now (MapOf K.kind V.kind) }
        ensures step { FindsOrMakes self.old self.new (D.key key.now (MapOf K.kind V.kind))
            (NoPairs K.kind V.kind) result }
        ensures refused { UnchangedIfRefused self.old self.new result }
        ensures search { UnchangedWhere self.old self.new (IsBoundKey (D.key key.now (MapOf K.kind V.kind))) }
    {
        self.find_or_construct_map_of(key, K::kind(), V::kind())
    }

    /// Returns the handle of the map, and the count 1. If no object has the key, makes an empty map of two kinds. The
    /// conditions and errors of `find_or_construct` apply, except for the count.
    ///
    /// Example: `segment.find_or_construct_map_of(&name, ScalarKind::I32, ScalarKind::I64)?`.
    pub fn find_or_construct_map_of<D: FindOrConstructKey>(
        &mut self,
        key: &D,
        keys: ScalarKind,
        values: ScalarKind,
    ) -> Result<(Handle, u32)>
        requires kind { D.suits key.now (MapOf keys values) }
        ensures step { FindsOrMakes self.old self.new (D.key key.now (MapOf keys values)) (NoPairs keys values) result }
        ensures refused { UnchangedIfRefused self.old self.new result }
        ensures search { UnchangedWhere self.old self.new (IsBoundKey (D.key key.now (MapOf keys values))) }
    {
        self.find_or_construct_under(key, &NewMap { keys, values })
    }
}

/// Fills a new object with its contents, and links its entry to it. If there is no space for its elements, it frees
/// everything that was allocated for the object.
#[inline(always)]
pub(crate) fn build<F: ObjectInit>(
    heap: &mut Heap,
    begun: PendingObject,
    filling: &F,
) -> Result<Handle>
    requires start { HasBegun heap.old (F.content filling.now) begun.handle begun.at begun.entry }
    requires object { F.stands filling.now }
    ensures { FillsObject heap.old heap.new begun.handle begun.at begun.entry (F.content filling.now) result }
{
    let place = Place {
        handle: begun.handle,
        at: begun.at,
    };
    let filled = filling.fill(heap, place);
    finish_object(heap, begun, filled)
}

/// Returns the handle and the count of the object of an index entry, or makes the object. The segment of the heap is
/// open for writing.
fn find_or_construct_entered<F: ObjectInit>(
    heap: &mut Heap,
    index: Index,
    entry: Entry<'_>,
    name: &[u8],
    filling: &F,
) -> Result<(Handle, u32)>
    requires segment { IsSegment heap.old.bytes }
    requires object { F.stands filling.now }
    requires key { (key : AnyKey) × IsNewKeyOf index entry key name.now (kind_of (bare (F.content filling.now))) }
    ensures { (key : AnyKey) → IsNewKeyOf index entry.entry key name.now (kind_of (bare (F.content filling.now)))
        → FindsOrConstructs heap.old heap.new key (F.content filling.now) result }
{
    let shape = filling.shape();
    let place = match index.lookup(heap, entry, &mut Steps::new()) {
        Lookup::Found(place) => return found_of(heap, index.at(heap, place), shape.kind),
        Lookup::Absent(place) => place,
    };
    let begun = begin_at(heap, index, place, name, shape)?;
    counted(build(heap, begun, filling), shape.count)
}

/// Returns a handle with the count of its object.
#[inline(always)]
pub(crate) fn counted(made: Result<Handle>, count: u32) -> Result<(Handle, u32)>
    ensures { result ≡ with_count count made }
{
    let handle = made?;
    Ok((handle, count))
}
