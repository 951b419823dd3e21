//! Makes arrays of scalars, reads and sets elements of arrays, vectors and strings, inserts and erases elements of
//! vectors: one with a value as callers write it, or several of a type.
ghost use Rattle.std.specs.Prelude.{◌≡◌, ◌*◌, ◌≤◌, MatchResult, OnErr, OnOk, false, length, map, List, ℤ};
ghost use Rattle.std.specs.Iterator.{YieldsFirst, item_count};
ghost use Rattle.seg_types.specs.declared.kinds.Kind.TheVariants.{Scalar as ScalarOf, Vector as VectorOf};
ghost use Rattle.seg_types.specs.{Keys.key_seen, Keys.new_key_seen, Values.kind_of_scalar, Written.literal_seen};
ghost use Rattle.seg_types.specs.{Names.ByHandle, Written.NoText, declared.kinds.ScalarKind.ScalarKind as AnyScalar};
ghost use Rattle.seg_types.specs.Commands.{ConstructIt, Erase, Get, Set};
ghost use Rattle.segment_manager.specs.{Calls.scalar_reply, Keeping.ChangesElement, State.handle_answer};
ghost use Rattle.segment_manager.specs.objects.{BoundObjects.IsBound, Located.IsObject, NewObjects.IsOfKind};
ghost use Rattle.segment_manager.specs.State.{AnswersWith, TakesStep, TakesStepOfKind, UnchangedIfRefused, done_answer};
ghost use Rattle.segment_manager.specs.{State.scalar_answer, Step.is_read_only};
ghost use Rattle.segment_values.specs.Changes.{IsChangeableObject, IsUnchangeable, command_at};
ghost use Rattle.segment_values.specs.Ranges.{AreSpelled, is_slice, range_at, read_into};

use seg_types::theorems::scalar_is_number;
use seg_types::{
    Handle, Key, Kind, NewKey, Refusal, Scalar, ScalarKind, ScalarValue, WrittenValue, by_kind,
    by_value,
};
use segment_manager::unchecked::element_run_of;
use segment_manager::{
    ArrayMut, Mode, Object, ObjectRef, Segment, StringMut, StringsMut, VectorMut, locate,
};

/// The position of a new element in a vector.
#[derive(Clone, Copy)]
pub enum InsertSpot {
    /// After the last element.
    End,
    /// Before the element at this index.
    Before(u64),
}

/// An iterator over the values of a row.
#[derive(Drop)]
struct SliceItems<'a, T> {
    left: &'a [T],
}

impl<'a, T: Scalar> Iterator for SliceItems<'a, T> {
    type Item = T;

    ghost next_gives = { YieldsFirst (λ items. items.left.now) };

    ghost remaining = { item_count (λ items. items.left.now) };

    fn next(&mut self) -> Option<T> {
        let (first, others) = self.left.split_first()?;
        self.left = others;
        Some(*first)
    }
}

/// Makes an array with the values of a row, and returns its handle.
///
/// # Conditions
///
/// The row has from 1 to 1048576 values. A unique key has the array's kind.
///
/// # Errors
///
/// `ReadOnly` if the segment is open for reading. Otherwise `Exists` if an object has the key: nothing changes.
/// Otherwise `NoSpace` if no gap is long enough: the objects do not change, but bytes of gaps can.
pub fn construct_array<T: Scalar>(
    segment: &mut Segment,
    key: &NewKey,
    series: &[T],
) -> Result<Handle, Refusal>
    requires kind { IsOfKind (new_key_seen key.now) (ScalarOf T.kind) }
    requires non_empty { 1 ≤ length series.now }
    requires max_count { length series.now ≤ 1048576 }
    ensures step { TakesStep segment.old segment.new
        (ConstructIt (new_key_seen key.now) T.kind (length series.now) (map T.whole series.now)) (handle_answer
        result) }
    ensures refused { UnchangedIfRefused segment.old segment.new result }
{
    let mut items = SliceItems { left: series };
    segment.construct_it(key, series.len() as u32, &mut items)
}

/// Returns the object of a key, for a change.
///
/// # Errors
///
/// `ReadOnly` if the segment is open for reading. Otherwise `NotFound` if no object has the key.
pub fn object_to_change(segment: &Segment, key: &Key) -> Result<Object, Refusal>
    ensures { MatchResult result (IsChangeableObject segment.now (key_seen key.now))
        (IsUnchangeable segment.now (key_seen key.now)) }
{
    if segment.mode() == Mode::ReadOnly {
        return Err(Refusal::ReadOnly);
    }
    locate(segment, key)
}

/// Returns the element at `index`. The object is an array of scalars, a vector of scalars, or a string, whose elements
/// are bytes.
///
/// # Errors
///
/// `NotFound` if no object has the key, `WrongKind` if its elements are not scalars, `OutOfRange` if `index` is not
/// below the length.
#[inline(always)]
pub fn get<O: ObjectRef>(segment: &Segment, key: &O, index: u64) -> Result<ScalarValue, Refusal>
    ensures { AnswersWith segment.now
        (λ d. scalar_reply segment.now.mode d (O.key key.now) (Get (O.key key.now) index)) (scalar_answer result) }
{
    let object = locate(segment, key)?;
    get_element(segment, object, index)
}

/// Returns the element at `index` of a located object, as `get` does.
#[inline(always)]
pub fn get_element(segment: &Segment, object: Object, index: u64) -> Result<ScalarValue, Refusal>
    requires { IsObject object segment.now }
    ensures { AnswersWith segment.now
        (λ d. scalar_reply segment.now.mode d (ByHandle object.handle) (Get (ByHandle object.handle) index))
        (scalar_answer result) }
{
    let image = segment.as_bytes();
    let run = element_run_of(segment, object)?;
    if index >= run.count {
        return Err(Refusal::OutOfRange);
    }
    let size = run.kind.size();
    let from = (run.offset + size * index) as usize;
    let bytes = &image[from..from + size as usize];
    // an `i64`, the kind that is read most, is read without a call
    let value = match run.kind {
        ScalarKind::I64 => scalar_is_number::<i64>(bytes).map(ScalarValue::I64),
        kind => ScalarValue::read(kind, bytes),
    };
    value.ok_or(Refusal::WrongKind)
}

/// Copies elements of a located object into a row: as many as the row has, from `first` on. The object is an array or a
/// vector of scalars of the type.
///
/// # Errors
///
/// `WrongKind` if the object has another kind, `OutOfRange` if it has too few elements from `first` on. The row is
/// unchanged.
pub fn read_elements<T: Scalar>(
    segment: &Segment,
    object: Object,
    first: u64,
    series: &mut [T],
) -> Result<(), Refusal>
    requires { IsObject object segment.now }
    ensures read { AnswersWith segment.now (λ d.
        range_at d (ByHandle object.handle) T.kind first (length series.old)) (read_into T.whole series.new result) }
    ensures unchanged { OnErr result (series.new ≡ series.old) }
{
    if !is_slice::<T>(object.kind) {
        return Err(Refusal::WrongKind);
    }
    let image = segment.as_bytes();
    let source = element_run_of(segment, object)?;
    if first > source.count || series.len() as u64 > source.count - first {
        return Err(Refusal::OutOfRange);
    }
    let from = (source.offset + T::SIZE * first) as usize;
    let len = T::SIZE as usize * series.len();
    read_values(&image[from..from + len], series);
    Ok(())
}

/// Returns true if objects of the kind are arrays or vectors of scalars of the type.
fn is_slice<T: Scalar>(kind: Kind) -> bool
    ensures { result ≡ is_slice T.kind kind }
{
    Kind::Vector(T::kind()).code() == kind.code() || Kind::Scalar(T::kind()).code() == kind.code()
}

/// Reads as many values as the row has from their encodings.
fn read_values<T: Scalar>(bytes: &[u8], series: &mut [T])
    requires { length bytes.now ≡ T.SIZE * length series.old }
    ensures { (zs : List ℤ) → AreSpelled T.kind (length series.old) zs bytes.now → map T.whole series.new ≡ zs }
{
    let each = T::SIZE as usize;
    'values: for i in 0..series.len() {
        series[i] = scalar_is_number(&bytes[each * i..each * (i + 1)]).unwrap_or(series[i]);
    }
}

/// Sets the element at `index`. The object is an array of scalars, a vector of scalars or of strings, or a string,
/// whose elements are bytes. In an array no other byte changes.
///
/// # Errors
///
/// The first that applies, after those of [`object_to_change`]; nothing changes:
/// - `WrongKind` if the object has no elements, or the value does not have their form;
/// - `OutOfRange` if the value is outside their range, or `index` is not below the length;
/// - `NoSpace` if no gap is long enough for a text.
#[inline(never)]
pub fn set<L: WrittenValue>(
    segment: &mut Segment,
    key: &Key,
    index: u64,
    value: &L,
    scratch: &mut L::Scratch,
) -> Result<(), Refusal>
    requires { L.fits value.now }
    ensures step { TakesStep segment.old segment.new (Set (key_seen key.now) index (L.literal value.now))
        (done_answer result) }
    ensures refused { OnErr result (segment.new ≡ segment.old) }
    ensures element { OnOk result ((k : AnyScalar)
        → ChangesElement segment.old segment.new (key_seen key.now) k index) }
{
    let object = object_to_change(segment, key)?;
    match object.kind {
        Kind::Scalar(kind) => {
            let scalar = value.value_of(kind)?;
            set_array_element(segment, object, index, scalar)
        }
        Kind::Vector(kind) => {
            let scalar = value.value_of(kind)?;
            set_vector_element(segment, object, index, scalar)
        }
        Kind::String => match value.value_of(ScalarKind::U8)? {
            ScalarValue::U8(byte) => StringMut::at(segment, object).set(index, byte),
            _ => Err(Refusal::WrongKind),
        },
        Kind::Strings => match value.text(scratch) {
            Some(text) => StringsMut::at(segment, object).set(index, text),
            None => Err(Refusal::WrongKind),
        },
        Kind::Map(_, _) => Err(Refusal::WrongKind),
    }
}

/// Sets the element at `index` of a located array of scalars of the value's kind. No other byte changes.
///
/// # Errors
///
/// `OutOfRange` if `index` is not below the length. Nothing changes.
pub fn set_array_element(
    segment: &mut Segment,
    object: Object,
    index: u64,
    value: ScalarValue,
) -> Result<(), Refusal>
    requires object { IsBound (ScalarOf (kind_of_scalar value)) object segment.old }
    requires writing { is_read_only segment.old.mode ≡ false }
    ensures step { TakesStepOfKind segment.old segment.new (ByHandle object.handle) (ScalarOf (kind_of_scalar value))
        (Set (ByHandle object.handle) index (literal_seen value)) (done_answer result) }
    ensures refused { OnErr result (segment.new ≡ segment.old) }
    ensures element { OnOk result
        (ChangesElement segment.old segment.new (ByHandle object.handle) (kind_of_scalar value) index) }
{
    by_value!(value, it => ArrayMut::at(segment, object).set(index, it))
}

/// Sets the element at `index` of a vector of scalars of the value's kind.
fn set_vector_element(
    segment: &mut Segment,
    object: Object,
    index: u64,
    value: ScalarValue,
) -> Result<(), Refusal>
    requires object { IsBound (VectorOf (kind_of_scalar value)) object segment.old }
    requires writing { is_read_only segment.old.mode ≡ false }
    ensures step { TakesStepOfKind segment.old segment.new (ByHandle object.handle) (VectorOf (kind_of_scalar value))
        (Set (ByHandle object.handle) index (literal_seen value)) (done_answer result) }
    ensures refused { OnErr result (segment.new ≡ segment.old) }
{
    by_value!(value, it => VectorMut::at(segment, object).set(index, it))
}

/// Inserts an element into a vector.
///
/// # Errors
///
/// The first that applies, after those of [`object_to_change`]; nothing changes, except after `NoSpace`:
/// - `WrongKind` if the object is no vector, or the value does not have the form of its elements;
/// - `OutOfRange` if the value is outside their range, or the position is above the length;
/// - `NoSpace` if the vector is full and its storage cannot be regrown, or if no gap is long enough for a text. All
///   objects are then unchanged; nothing changes at all if the value is no text.
#[inline(never)]
pub fn add<L: WrittenValue>(
    segment: &mut Segment,
    key: &Key,
    spot: InsertSpot,
    value: &L,
    scratch: &mut L::Scratch,
) -> Result<(), Refusal>
    requires { L.fits value.now }
    ensures step { TakesStep segment.old segment.new (command_at spot (key_seen key.now) (L.literal value.now))
        (done_answer result) }
    ensures refused { UnchangedIfRefused segment.old segment.new result }
    ensures scalar { NoText (L.literal value.now) → OnErr result (segment.new ≡ segment.old) }
{
    let object = object_to_change(segment, key)?;
    match object.kind {
        Kind::Vector(kind) => {
            let element = value.value_of(kind)?;
            insert_scalar(segment, object, spot, element)
        }
        Kind::Strings => match value.text(scratch) {
            Some(text) => match spot {
                InsertSpot::End => StringsMut::at(segment, object).push(text),
                InsertSpot::Before(index) => StringsMut::at(segment, object).insert(index, text),
            },
            None => Err(Refusal::WrongKind),
        },
        _ => Err(Refusal::WrongKind),
    }
}

/// Inserts a scalar into a located vector of the scalar's kind.
///
/// # Errors
///
/// `OutOfRange` and `NoSpace`, as `add`. Nothing changes.
#[inline(always)]
pub fn insert_scalar(
    segment: &mut Segment,
    object: Object,
    spot: InsertSpot,
    value: ScalarValue,
) -> Result<(), Refusal>
    requires object { IsBound (VectorOf (kind_of_scalar value)) object segment.old }
    requires writing { is_read_only segment.old.mode ≡ false }
    ensures step { TakesStepOfKind segment.old segment.new (ByHandle object.handle) (VectorOf (kind_of_scalar value))
        (command_at spot (ByHandle object.handle) (literal_seen value)) (done_answer result) }
    ensures refused { OnErr result (segment.new ≡ segment.old) }
{
    match spot {
        InsertSpot::End => by_value!(value, it => VectorMut::at(segment, object).push(it)),
        InsertSpot::Before(index) => {
            by_value!(value, it => VectorMut::at(segment, object).insert(index, it))
        }
    }
}

/// Removes the element at `index` from a vector of scalars or of strings.
///
/// # Errors
///
/// Those of [`object_to_change`]. Otherwise `WrongKind` if the object is no vector, `OutOfRange` if `index` is not
/// below the length. Nothing changes.
#[inline(never)]
pub fn erase(segment: &mut Segment, key: &Key, index: u64) -> Result<(), Refusal>
    ensures step { TakesStep segment.old segment.new (Erase (key_seen key.now) index) (done_answer result) }
    ensures refused { OnErr result (segment.new ≡ segment.old) }
{
    let object = object_to_change(segment, key)?;
    match object.kind {
        Kind::Vector(element) => erase_element(segment, object, element, index),
        Kind::Strings => StringsMut::at(segment, object).erase(index),
        _ => Err(Refusal::WrongKind),
    }
}

/// Removes an element from a vector of scalars of `kind`.
fn erase_element(
    segment: &mut Segment,
    object: Object,
    kind: ScalarKind,
    index: u64,
) -> Result<(), Refusal>
    requires object { IsBound (VectorOf kind) object segment.old }
    requires writing { is_read_only segment.old.mode ≡ false }
    ensures step { TakesStepOfKind segment.old segment.new (ByHandle object.handle) (VectorOf kind)
        (Erase (ByHandle object.handle) index) (done_answer result) }
    ensures refused { OnErr result (segment.new ≡ segment.old) }
{
    macro_rules! erase {
        ($type:ty, $kind:ident) => {
            VectorMut::<$type>::at(segment, object).erase(index)
        };
    }
    by_kind!(kind, erase)
}
