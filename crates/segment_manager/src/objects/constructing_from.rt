//! Constructs arrays of scalars from the items of an iterator, or finds them.
ghost use Rattle.std.specs.Prelude.{◌≡◌, ℤ, ◌+◌, ◌*◌, ◌≤◌, IsTrue, OnOk, length, true, false};
ghost use Rattle.std.specs.{Iterator.HoldsAlong, List.AllByRecursion};
ghost use Rattle.raw_region.specs.{Format.current, Memory.WindowState as ACut};
ghost use Rattle.best_fit.specs.Heap.{IsHeap, has_room, live_of};
ghost use Rattle.seg_types.specs.declared.kinds.{Kind.TheVariants.Scalar as ScalarOf, ScalarKind.ScalarKind as AnyKind};
ghost use Rattle.seg_types.specs.{Names.Key as AnyKey, Keys.new_key_seen, Kinds.is_value, Kinds.size_of};
ghost use Rattle.seg_types.specs.{Kinds.spelling as spelling_of};
ghost use Rattle.seg_types.specs.Values.{kind_of_scalar, value_of_scalar};
ghost use Rattle.segment_manager.specs.objects.PendingObjects.{Fills, BeginsObjectOk, IsNextOfKind, WritesNext};
ghost use Rattle.segment_manager.specs.objects.Counted.{RefusesCount, is_count, refusal_of_count};
ghost use Rattle.segment_manager.specs.objects.Items.{ConstructsFromItems, FindsOrTakes, FindsOrTakesIn, TakesItemsIn};
ghost use Rattle.segment_manager.specs.objects.NewObjects.{IsNewKeyOf, IsOfItsKind};
ghost use Rattle.segment_manager.specs.{State.IsSegment};

use crate::containers::fillings::{LONGEST, MAX_COUNT, numbers};
use crate::objects::construct_keys::{ConstructKey, FindOrConstructKey};
use crate::objects::constructing::counted;
use crate::objects::finding::{entry_of, found_of};
use crate::objects::pending_object::{PendingObject, begin_at, begin_object, finish_object};
use crate::segment::{Result, Segment};
use best_fit::Heap;
use raw_region::Steps;
use seg_index::{Entry, Index, Lookup};
use seg_types::{Handle, Kind, NewKey, Refusal, Scalar, ScalarKind, ScalarValue};

impl Segment {
    /// Makes an array of the next `count` items, and returns its handle. It takes no item before all blocks are
    /// allocated.
    ///
    /// Example: `segment.construct_it(&name, 5, &mut primes)?`.
    ///
    /// # Conditions
    ///
    /// The key suits the kind: a key with a kind has this kind ([`ConstructKey`]).
    ///
    /// # Errors
    ///
    /// `ReadOnly` if the segment is open for reading. Otherwise `OutOfRange` if `count` is 0 or above 1048576.
    /// Otherwise `Exists` if an object has the key. Otherwise `NoSpace` if no gap is long enough: it takes no item.
    /// `OutOfRange` if the iterator ends before `count` items. The objects do not change.
    pub fn construct_it<T: Scalar, I: Iterator<Item = T>, D: ConstructKey>(
        &mut self,
        key: &D,
        count: u32,
        items: &mut I,
    ) -> Result<Handle>
        requires kind { D.suits key.now (ScalarOf T.kind) }
        requires well_formed { I.can_next items.old }
        ensures count { RefusesCount count self.old self.new result }
        ensures not_taken { is_count count ≡ false → items.new ≡ items.old }
        ensures items { is_count count ≡ true → ConstructsFromItems I.next_gives T.whole self.old self.new
            (D.key key.now (ScalarOf T.kind)) T.kind count items.old items.new result }
    {
        if count == 0 || count > MAX_COUNT {
            return Err(self.refusal_of_count());
        }
        let key = key.key_for(Kind::Scalar(T::kind()));
        self.construct_items::<OfType, T, I>(&key, T::kind(), count, items)
    }

    /// Returns the handle and the number of elements of the array of scalars of a key. If no object has the key, makes
    /// an array of the next `count` items. An array found stays as it is, for any `count`, and no item is taken.
    ///
    /// Example: `let (handle, count) = segment.find_or_construct_it(&name, 5, &mut primes)?`.
    ///
    /// # Conditions and errors
    ///
    /// As `construct_it`, but `WrongKind` instead of `Exists`, if the object has another kind.
    pub fn find_or_construct_it<T: Scalar, I: Iterator<Item = T>, D: FindOrConstructKey>(
        &mut self,
        key: &D,
        count: u32,
        items: &mut I,
    ) -> Result<(Handle, u32)>
        requires kind { D.suits key.now (ScalarOf T.kind) }
        requires well_formed { I.can_next items.old }
        ensures count { RefusesCount count self.old self.new result }
        ensures not_taken { is_count count ≡ false → items.new ≡ items.old }
        ensures items { is_count count ≡ true → FindsOrTakes I.next_gives T.whole self.old self.new
            (D.key key.now (ScalarOf T.kind)) T.kind count items.old items.new result }
    {
        if count == 0 || count > MAX_COUNT {
            return Err(self.refusal_of_count());
        }
        if self.is_read_only() {
            return Err(Refusal::ReadOnly);
        }
        let key = key.entry_for(Kind::Scalar(T::kind()));
        let (index, entry, name) = entry_of(&key);
        find_or_take(&mut self.heap, index, entry, name, count, items)
    }

    /// Returns the error for a count out of range: `ReadOnly` if the segment is open for reading, otherwise
    /// `OutOfRange`.
    pub(crate) fn refusal_of_count(&self) -> Refusal
        ensures { result ≡ refusal_of_count self.now }
    {
        if self.is_read_only() {
            Refusal::ReadOnly
        } else {
            Refusal::OutOfRange
        }
    }

    /// Makes an array of the next `count` values of a kind, and returns its handle.
    ///
    /// Example: `segment.construct_values(&name, ScalarKind::I64, 5, &mut values)?`.
    ///
    /// # Conditions and errors
    ///
    /// `count` is from 1 to 1048576, and each item has the kind. `construct_it` takes items of a type and has no such
    /// condition. The other conditions and errors of `construct_it` apply.
    pub fn construct_values<I: Iterator<Item = ScalarValue>, D: ConstructKey>(
        &mut self,
        key: &D,
        kind: ScalarKind,
        count: u32,
        items: &mut I,
    ) -> Result<Handle>
        requires kind { D.suits key.now (ScalarOf kind) }
        requires non_empty { 1 ≤ count }
        requires max_count { count ≤ 1048576 }
        requires well_formed { I.can_next items.old }
        requires kind_fit { HoldsAlong I.next_gives items.old (AllByRecursion (λ v. kind_of_scalar v ≡ kind)) }
        ensures { ConstructsFromItems I.next_gives value_of_scalar self.old self.new (D.key key.now (ScalarOf kind))
            kind count
            items.old items.new result }
    {
        let key = key.key_for(Kind::Scalar(kind));
        self.construct_items::<OfKind, ScalarValue, I>(&key, kind, count, items)
    }

    /// Makes an array of the next `count` numbers of a kind, under a key that suits it.
    fn construct_items<S: Spelling<A>, A, I: Iterator<Item = A>>(
        &mut self,
        key: &NewKey,
        kind: ScalarKind,
        count: u32,
        items: &mut I,
    ) -> Result<Handle>
        requires kind { IsOfItsKind (new_key_seen key.now) kind }
        requires non_empty { 1 ≤ count }
        requires max_count { count ≤ 1048576 }
        requires well_formed { I.can_next items.old }
        requires kind_fit { HoldsAlong I.next_gives items.old (AllByRecursion (λ item. S.kind item ≡ kind)) }
        ensures { ConstructsFromItems I.next_gives S.whole self.old self.new (new_key_seen key.now) kind count
            items.old items.new result }
    {
        if self.is_read_only() {
            return Err(Refusal::ReadOnly);
        }
        let begun = begin_object(&mut self.heap, key, numbers(kind, count))?;
        take_items::<S, A, I>(&mut self.heap, begun, kind, count, items)
    }
}

/// Fills a new array with `count` items, and links its entry to it. If the iterator ends before `count` items, it frees
/// everything that was allocated for the array.
pub(crate) fn take_items<S: Spelling<A>, A, I: Iterator<Item = A>>(
    heap: &mut Heap,
    begun: PendingObject,
    kind: ScalarKind,
    count: u32,
    items: &mut I,
) -> Result<Handle>
    requires start { (old : ACut) × (IsSegment old.bytes × ((key : AnyKey)
        × BeginsObjectOk old heap.old key (ScalarOf kind) count (size_of kind * count) begun.handle begun.at
        begun.entry)) }
    requires non_empty { 1 ≤ count }
    requires max_count { count ≤ 1048576 }
    requires well_formed { I.can_next items.old }
    requires kind_fit { HoldsAlong I.next_gives items.old (AllByRecursion (λ item. S.kind item ≡ kind)) }
    ensures { (old : ACut) (key : AnyKey) → IsSegment old.bytes
        → BeginsObjectOk old heap.old key (ScalarOf kind) count (size_of kind * count) begun.handle begun.at begun.entry
        → TakesItemsIn I.next_gives S.whole old heap.new key kind count items.old items.new result }
{
    let filled = fill_items::<S, A, I>(heap, begun.handle, begun.at, kind, count, items);
    finish_object(heap, begun, filled)
}

/// Returns the handle and the count of the object of an index entry, which it looks up once, or makes an array of the
/// next `count` items.
fn find_or_take<T: Scalar, I: Iterator<Item = T>>(
    heap: &mut Heap,
    index: Index,
    entry: Entry<'_>,
    name: &[u8],
    count: u32,
    items: &mut I,
) -> Result<(Handle, u32)>
    requires segment { IsSegment heap.old.bytes }
    requires key { (key : AnyKey) × IsNewKeyOf index entry key name.now (ScalarOf T.kind) }
    requires non_empty { 1 ≤ count }
    requires max_count { count ≤ 1048576 }
    requires well_formed { I.can_next items.old }
    ensures { (key : AnyKey) → IsNewKeyOf index entry.entry key name.now (ScalarOf T.kind)
        → FindsOrTakesIn I.next_gives T.whole heap.old heap.new key T.kind count items.old items.new result }
{
    let kind = T::kind();
    let place = match index.lookup(heap, entry, &mut Steps::new()) {
        Lookup::Found(place) => return found_of(heap, index.at(heap, place), Kind::Scalar(kind)),
        Lookup::Absent(place) => place,
    };
    let begun = begin_at(heap, index, place, name, numbers(kind, count))?;
    counted(
        take_items::<OfType, T, I>(heap, begun, kind, count, items),
        count,
    )
}

/// The encoding of an iterator's items.
pub(crate) trait Spelling<A> {
    ghost kind: { A → AnyKind };

    ghost whole: { A → ℤ };

    /// Encodes an item into `to`, which has as many bytes as a value of its kind.
    fn spell(item: A, to: &mut [u8])
        requires { length to.old ≡ size_of (kind item) }
        ensures value { IsTrue (is_value (kind item) (whole item)) }
        ensures bytes { to.new ≡ spelling_of (kind item) (whole item) };
}

/// The items are values of their type.
pub(crate) struct OfType;

impl<T: Scalar> Spelling<T> for OfType {
    ghost kind = { λ item. T.kind };

    ghost whole = { λ item. T.whole item };

    fn spell(item: T, to: &mut [u8]) {
        item.write(to);
    }
}

/// The items are values of a kind known only at run time.
pub(crate) struct OfKind;

impl Spelling<ScalarValue> for OfKind {
    ghost kind = { λ item. kind_of_scalar item };

    ghost whole = { λ item. value_of_scalar item };

    fn spell(item: ScalarValue, to: &mut [u8]) {
        item.write(to);
    }
}

/// Takes `count` items and encodes them one after another, from `at` on in a block.
///
/// # Errors
///
/// `OutOfRange` if the iterator ends before.
fn fill_items<S: Spelling<A>, A, I: Iterator<Item = A>>(
    heap: &mut Heap,
    handle: u64,
    at: u64,
    kind: ScalarKind,
    count: u32,
    items: &mut I,
) -> Result<()>
    requires heap { IsHeap current heap.old.bytes }
    requires room { IsTrue (has_room (live_of heap.old.bytes) handle (at + size_of kind * count)) }
    requires well_formed { I.can_next items.old }
    requires kind_fit { HoldsAlong I.next_gives items.old (AllByRecursion (λ item. S.kind item ≡ kind)) }
    ensures { Fills I.next_gives S.whole heap.old heap.new kind (handle + at) count items.old items.new result }
{
    let size = kind.size();
    for i in 0..u64::from(count) {
        write_item::<S, A, I>(heap, handle, at + size * i, kind, items)?;
    }
    Ok(())
}

/// Takes an item of a kind and encodes it at `at` in a block.
///
/// # Errors
///
/// `OutOfRange` if the iterator has ended.
fn write_item<S: Spelling<A>, A, I: Iterator<Item = A>>(
    heap: &mut Heap,
    handle: u64,
    at: u64,
    kind: ScalarKind,
    items: &mut I,
) -> Result<()>
    requires room { IsTrue (has_room (live_of heap.old.bytes) handle (at + size_of kind)) }
    requires well_formed { I.can_next items.old }
    requires kind_fit { IsNextOfKind I.next_gives S.kind items.old kind }
    ensures next { WritesNext I.next_gives S.whole heap.old heap.new kind (handle + at) items.old items.new result }
    ensures well_formed { OnOk result (I.can_next items.new) }
{
    let Some(item) = items.next() else {
        return Err(Refusal::OutOfRange);
    };
    let mut bytes = [0; LONGEST];
    let spelling = &mut bytes[..kind.size() as usize];
    S::spell(item, spelling);
    heap.write(handle, at, spelling);
    Ok(())
}
