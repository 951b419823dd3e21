//! Strings and vectors of strings: calls on a looked-up object, and calls by a key. A call by a key looks the object
//! up, and then calls the function of `StringRef`, `StringMut`, `Strings` or `StringsMut`. An error of the look-up
//! comes first, and changes nothing.
ghost use Rattle.std.specs.List.{list_all};
ghost use Rattle.std.specs.Prelude.{Err, IfErr, IsTrue, MatchResult, Ok, OnErr, [], length, map, pos, ◌∷◌, ◌≡◌, ◌⊎◌};
ghost use Rattle.raw_region.specs.Memory.{are_bytes};
ghost use Rattle.best_fit.specs.Heap.{KeepsGaps};
ghost use Rattle.seg_types.specs.Commands.{Append, Assign, Erase, Get, Insert, Pop, Push, Quoted, Set, literal_of};
ghost use Rattle.seg_types.specs.declared.kinds.Kind.TheVariants.{String as StringKind, Strings as StringsKind};
ghost use Rattle.seg_types.specs.declared.kinds.ScalarKind.TheVariants.{U8 as ByteKind};
ghost use Rattle.seg_types.specs.declared.refusals.Refusal.TheVariants.{NoSpace as NoSpaceLeft, OutOfRange as PastEnd};
ghost use Rattle.segment_manager.specs.{Answers.TextElement, containers.Contents.bytes_at, objects.BoundObjects.key_of};
ghost use Rattle.segment_manager.specs.{containers.TextLists.LeadsOnOfKind, objects.ElementLists.length_at_kind};
ghost use Rattle.segment_manager.specs.Keeping.{KeepsUnused, LacksArray, LacksFirst, UnchangedWhere};
ghost use Rattle.segment_manager.specs.State.{AnswersQueryOfKind, AnswersWith, TakesStepOfKind, UnchangedIfRefused};
ghost use Rattle.segment_manager.specs.State.{answer_of, done_answer, refusal_in};

use crate::bound::{Bound, BoundContent, BoundMut};
use crate::objects::object_ref::ObjectRef;
use crate::segment::{Result, Segment};
use raw_region::bytes_are_octets;
use seg_types::Kind;
use seg_vector::{SegString, SegTexts};

/// The bytes of a string.
#[derive(Drop)]
pub struct StringBytes;

/// A string that was looked up, for reading. `String` is the type of std.
pub type StringRef<'a> = Bound<'a, StringBytes>;

/// A string that was looked up, to change it.
pub type StringMut<'a> = BoundMut<'a, StringBytes>;

impl BoundContent for StringBytes {
    ghost kind = { StringKind };

    fn kind() -> Kind {
        Kind::String
    }
}

impl<'a> Bound<'a, StringBytes> {
    /// Returns the bytes, borrowed from the segment.
    #[inline(always)]
    pub fn as_bytes(&self) -> &'a [u8]
        ensures { AnswersWith self.now.segment.now (λ d. bytes_at d (key_of self.now.object)) (Ok result.now) }
    {
        let place = self.object.own_container();
        let segment = self.segment;
        SegString { place }.as_bytes(&segment.heap)
    }
}

impl<'a> BoundMut<'a, StringBytes> {
    ghost use Rattle.segment_manager.specs.Bounds.{SameBound};

    /// Sets the byte at `index`.
    ///
    /// # Errors
    ///
    /// `OutOfRange` if `index` is not below the length. Nothing changes.
    #[inline(always)]
    pub fn set(&mut self, index: u64, byte: u8) -> Result<()>
        ensures unchanged { SameBound self.old self.new }
        ensures step { TakesStepOfKind self.old.segment.now self.new.segment.now (key_of self.old.object) StringKind
            (Set (key_of self.old.object) index (literal_of ByteKind (pos byte))) (done_answer result) }
        ensures refused { OnErr result (self.new.segment.now ≡ self.old.segment.now) }
        ensures error { IfErr result (λ why. why ≡ PastEnd) }
        ensures gaps { KeepsGaps self.old.segment.now.cut self.new.segment.now.cut }
    {
        let place = self.object.own_container();
        let segment = &mut *self.segment;
        SegString { place }.set(&mut segment.heap, index, byte)
    }

    /// Appends bytes. If the capacity is too small, it doubles, to at least 16 and at least the new length.
    ///
    /// # Errors
    ///
    /// `NoSpace` if the storage cannot be regrown. Nothing changes.
    #[inline(always)]
    pub fn append(&mut self, bytes: &[u8]) -> Result<()>
        ensures unchanged { SameBound self.old self.new }
        ensures step { TakesStepOfKind self.old.segment.now self.new.segment.now (key_of self.old.object) StringKind
            (Append (key_of self.old.object) bytes.now) (done_answer result) }
        ensures refused { OnErr result (self.new.segment.now ≡ self.old.segment.now) }
        ensures error { IfErr result (λ why. why ≡ NoSpaceLeft) }
        ensures gaps { KeepsUnused self.old.segment.now self.new.segment.now }
    {
        let place = self.object.own_container();
        let segment = &mut *self.segment;
        SegString { place }.append(&mut segment.heap, bytes)
    }

    /// Replaces the bytes. If they do not fit, the capacity becomes their number. The error of `append` applies.
    #[inline(always)]
    pub fn assign(&mut self, bytes: &[u8]) -> Result<()>
        ensures unchanged { SameBound self.old self.new }
        ensures step { TakesStepOfKind self.old.segment.now self.new.segment.now (key_of self.old.object) StringKind
            (Assign (key_of self.old.object) (Quoted bytes.now ∷ [])) (done_answer result) }
        ensures refused { OnErr result (self.new.segment.now ≡ self.old.segment.now) }
        ensures error { IfErr result (λ why. why ≡ NoSpaceLeft) }
        ensures gaps { KeepsUnused self.old.segment.now self.new.segment.now }
    {
        let place = self.object.own_container();
        let segment = &mut *self.segment;
        SegString { place }.assign(&mut segment.heap, bytes)
    }
}

/// Strings, one after another.
#[derive(Drop)]
pub struct Texts;

/// A vector of strings that was looked up, for reading.
pub type Strings<'a> = Bound<'a, Texts>;

/// A vector of strings that was looked up, to change it.
pub type StringsMut<'a> = BoundMut<'a, Texts>;

impl BoundContent for Texts {
    ghost kind = { StringsKind };

    fn kind() -> Kind {
        Kind::Strings
    }
}

impl<'a> Bound<'a, Texts> {
    /// Returns the bytes of the text at `index`, borrowed from the segment.
    ///
    /// # Errors
    ///
    /// `OutOfRange` if `index` is not below the length.
    #[inline(always)]
    pub fn get(&self, index: u64) -> Result<&'a [u8]>
        ensures reply { AnswersQueryOfKind self.now.segment.now (key_of self.now.object) StringsKind
            (Get (key_of self.now.object) index) (answer_of (λ text. TextElement text.now) result) }
        ensures error { IfErr result (λ why. why ≡ PastEnd) }
    {
        let place = self.object.own_container();
        let segment = self.segment;
        SegTexts { place }.get(&segment.heap, index)
    }

    /// Returns the number of texts.
    pub fn len(&self) -> u64
        ensures { AnswersWith self.now.segment.now (λ d.
            length_at_kind d (key_of self.now.object) StringsKind) (Ok result) }
    {
        let place = self.object.own_container();
        let segment = self.segment;
        SegTexts { place }.len(&segment.heap)
    }
}

impl<'a> BoundMut<'a, Texts> {
    ghost use Rattle.segment_manager.specs.Bounds.{SameBound};

    /// Replaces the text at `index`. It allocates the new text's block before it frees the old one.
    ///
    /// # Errors
    ///
    /// `OutOfRange` if `index` is not below the length; else `NoSpace` if no gap fits the text. Nothing changes.
    #[inline(always)]
    pub fn set(&mut self, index: u64, text: &[u8]) -> Result<()>
        ensures unchanged { SameBound self.old self.new }
        ensures step { TakesStepOfKind self.old.segment.now self.new.segment.now (key_of self.old.object) StringsKind
            (Set (key_of self.old.object) index (Quoted text.now)) (done_answer result) }
        ensures refused { OnErr result (self.new.segment.now ≡ self.old.segment.now) }
        ensures error { IfErr result (λ why. (why ≡ PastEnd) ⊎ (why ≡ NoSpaceLeft)) }
    {
        let place = self.object.own_container();
        let segment = &mut *self.segment;
        SegTexts { place }.set(&mut segment.heap, index, text)
    }

    /// Appends a text. A full vector first doubles its capacity, to at least 4.
    ///
    /// # Errors
    ///
    /// `NoSpace` if the vector is full and its array cannot be regrown, or if no gap is long enough for the text. All
    /// objects and blocks are then unchanged; bytes of gaps can change if an array was allocated.
    #[inline(always)]
    pub fn push(&mut self, text: &[u8]) -> Result<()>
        ensures unchanged { SameBound self.old self.new }
        ensures step { TakesStepOfKind self.old.segment.now self.new.segment.now (key_of self.old.object) StringsKind
            (Push (key_of self.old.object) (Quoted text.now)) (done_answer result) }
        ensures refused { UnchangedIfRefused self.old.segment.now self.new.segment.now result }
        ensures error { IfErr result (λ why. why ≡ NoSpaceLeft) }
        ensures first { UnchangedWhere self.old.segment.now self.new.segment.now
            (LacksFirst (key_of self.old.object) text.now) }
    {
        let place = self.object.own_container();
        let segment = &mut *self.segment;
        SegTexts { place }.push(&mut segment.heap, text)
    }

    /// Replaces all texts. For one or more texts it allocates a new array with a capacity of exactly their number, and
    /// then their blocks, before it frees the old blocks. Without texts the array stays.
    ///
    /// # Errors
    ///
    /// `NoSpace` if no gap is long enough for the array or a text. All objects and blocks are then unchanged; bytes of
    /// gaps can change if an array was allocated.
    #[inline(always)]
    pub fn assign(&mut self, texts: &[&[u8]]) -> Result<()>
        ensures unchanged { SameBound self.old self.new }
        ensures step { TakesStepOfKind self.old.segment.now self.new.segment.now (key_of self.old.object) StringsKind
            (Assign (key_of self.old.object) (map Quoted (map (λ text. text.now) texts.now))) (done_answer result) }
        ensures refused { UnchangedIfRefused self.old.segment.now self.new.segment.now result }
        ensures error { IfErr result (λ why. why ≡ NoSpaceLeft) }
        ensures first { UnchangedWhere self.old.segment.now self.new.segment.now (LacksArray (length texts.now)) }
    {
        judge_all(texts);
        let place = self.object.own_container();
        let segment = &mut *self.segment;
        SegTexts { place }.assign(&mut segment.heap, texts)
    }

    /// Removes the last text, and frees its block. The capacity stays.
    ///
    /// # Errors
    ///
    /// `OutOfRange` if the vector is empty. Nothing changes.
    #[inline(always)]
    pub fn pop(&mut self) -> Result<()>
        ensures unchanged { SameBound self.old self.new }
        ensures step { LeadsOnOfKind self.old.segment.now self.new.segment.now (key_of self.old.object) StringsKind
            (Pop (key_of self.old.object)) (refusal_in result) }
        ensures refused { OnErr result (self.new.segment.now ≡ self.old.segment.now) }
        ensures error { IfErr result (λ why. why ≡ PastEnd) }
    {
        let place = self.object.own_container();
        let segment = &mut *self.segment;
        SegTexts { place }.pop(&mut segment.heap)
    }

    /// Inserts a text before the one at `index`. The texts from there on move up. A full vector first doubles its
    /// capacity, to at least 4.
    ///
    /// # Errors
    ///
    /// `OutOfRange` if `index` is above the length, and nothing changes. Otherwise as `push`.
    #[inline(always)]
    pub fn insert(&mut self, index: u64, text: &[u8]) -> Result<()>
        ensures unchanged { SameBound self.old self.new }
        ensures step { TakesStepOfKind self.old.segment.now self.new.segment.now (key_of self.old.object) StringsKind
            (Insert (key_of self.old.object) index (Quoted text.now)) (done_answer result) }
        ensures refused { UnchangedIfRefused self.old.segment.now self.new.segment.now result }
        ensures error { IfErr result (λ why. (why ≡ PastEnd) ⊎ (why ≡ NoSpaceLeft)) }
        ensures first { UnchangedWhere self.old.segment.now self.new.segment.now
            (LacksFirst (key_of self.old.object) text.now) }
    {
        let place = self.object.own_container();
        let segment = &mut *self.segment;
        SegTexts { place }.insert(&mut segment.heap, index, text)
    }

    /// Removes the text at `index`, and frees its block. The texts after it move down; the capacity stays.
    ///
    /// # Errors
    ///
    /// `OutOfRange` if `index` is not below the length. Nothing changes.
    #[inline(always)]
    pub fn erase(&mut self, index: u64) -> Result<()>
        ensures unchanged { SameBound self.old self.new }
        ensures step { TakesStepOfKind self.old.segment.now self.new.segment.now (key_of self.old.object) StringsKind
            (Erase (key_of self.old.object) index) (done_answer result) }
        ensures refused { OnErr result (self.new.segment.now ≡ self.old.segment.now) }
        ensures error { IfErr result (λ why. why ≡ PastEnd) }
    {
        let place = self.object.own_container();
        let segment = &mut *self.segment;
        SegTexts { place }.erase(&mut segment.heap, index)
    }
}

/// States that the texts consist of bytes. Their type implies it, for one slice at a time.
pub(crate) fn judge_all(texts: &[&[u8]])
    ensures { IsTrue (list_all are_bytes (map (λ text. text.now) texts.now)) }
{
    for text in texts {
        bytes_are_octets(text);
    }
}

impl Segment {
    /// As [`StringRef::as_bytes`] on the string of a key. Also `NotFound`, `WrongKind`.
    ///
    /// Example: `let bytes = segment.string_bytes(&name)?`.
    pub fn string_bytes<O: ObjectRef>(&self, key: &O) -> Result<&[u8]>
        ensures { MatchResult result (λ bytes. AnswersWith self.now (λ d. bytes_at d (O.key key.now)) (Ok bytes.now))
            (λ why. AnswersWith self.now (λ d. bytes_at d (O.key key.now)) (Err why)) }
    {
        Ok(StringRef::of(self, key)?.as_bytes())
    }

    /// As [`StringMut::set`] on the string of a key. Also `ReadOnly`, `NotFound`, `WrongKind`.
    ///
    /// Example: `segment.string_set(&name, 0, b'R')?`.
    pub fn string_set<O: ObjectRef>(&mut self, key: &O, index: u64, byte: u8) -> Result<()>
        ensures step { TakesStepOfKind self.old self.new (O.key key.now) StringKind
            (Set (O.key key.now) index (literal_of ByteKind (pos byte))) (done_answer result) }
        ensures refused { OnErr result (self.new ≡ self.old) }
        ensures gaps { KeepsGaps self.old.cut self.new.cut }
    {
        StringMut::of(self, key)?.set(index, byte)
    }

    /// As [`StringMut::append`] on the string of a key. Also `ReadOnly`, `NotFound`, `WrongKind`.
    ///
    /// Example: `segment.string_append(&name, b"-black")?`.
    pub fn string_append<O: ObjectRef>(&mut self, key: &O, bytes: &[u8]) -> Result<()>
        ensures step { TakesStepOfKind self.old self.new (O.key key.now) StringKind
            (Append (O.key key.now) bytes.now) (done_answer result) }
        ensures refused { OnErr result (self.new ≡ self.old) }
        ensures gaps { KeepsUnused self.old self.new }
    {
        StringMut::of(self, key)?.append(bytes)
    }

    /// As [`StringMut::assign`] on the string of a key. Also `ReadOnly`, `NotFound`, `WrongKind`.
    ///
    /// Example: `segment.string_assign(&name, b"splay")?`.
    pub fn string_assign<O: ObjectRef>(&mut self, key: &O, bytes: &[u8]) -> Result<()>
        ensures step { TakesStepOfKind self.old self.new (O.key key.now) StringKind
            (Assign (O.key key.now) (Quoted bytes.now ∷ [])) (done_answer result) }
        ensures refused { OnErr result (self.new ≡ self.old) }
        ensures gaps { KeepsUnused self.old self.new }
    {
        StringMut::of(self, key)?.assign(bytes)
    }

    /// As [`Strings::get`] on the vector of strings of a key. Also `NotFound`, `WrongKind`.
    ///
    /// Example: `let text = segment.texts_get(&name, 0)?`.
    pub fn texts_get<O: ObjectRef>(&self, key: &O, index: u64) -> Result<&[u8]>
        ensures { AnswersQueryOfKind self.now (O.key key.now) StringsKind
            (Get (O.key key.now) index) (answer_of (λ text. TextElement text.now) result) }
    {
        Strings::of(self, key)?.get(index)
    }

    /// As [`StringsMut::set`] on the vector of strings of a key. Also `ReadOnly`, `NotFound`, `WrongKind`.
    ///
    /// Example: `segment.texts_set(&name, 0, b"plums")?`.
    pub fn texts_set<O: ObjectRef>(&mut self, key: &O, index: u64, text: &[u8]) -> Result<()>
        ensures step { TakesStepOfKind self.old self.new (O.key key.now) StringsKind
            (Set (O.key key.now) index (Quoted text.now)) (done_answer result) }
        ensures refused { OnErr result (self.new ≡ self.old) }
    {
        StringsMut::of(self, key)?.set(index, text)
    }

    /// As [`StringsMut::push`] on the vector of strings of a key. Also `ReadOnly`, `NotFound`, `WrongKind`.
    ///
    /// Example: `segment.texts_push(&name, b"plums")?`.
    pub fn texts_push<O: ObjectRef>(&mut self, key: &O, text: &[u8]) -> Result<()>
        ensures step { TakesStepOfKind self.old self.new (O.key key.now) StringsKind
            (Push (O.key key.now) (Quoted text.now)) (done_answer result) }
        ensures refused { UnchangedIfRefused self.old self.new result }
        ensures first { UnchangedWhere self.old self.new (LacksFirst (O.key key.now) text.now) }
    {
        StringsMut::of(self, key)?.push(text)
    }

    /// As [`StringsMut::assign`] on the vector of strings of a key. Also `ReadOnly`, `NotFound`, `WrongKind`.
    ///
    /// Example: `segment.texts_assign(&name, &[b"apples", b"pears"])?`.
    pub fn texts_assign<O: ObjectRef>(&mut self, key: &O, texts: &[&[u8]]) -> Result<()>
        ensures step { TakesStepOfKind self.old self.new (O.key key.now) StringsKind
            (Assign (O.key key.now) (map Quoted (map (λ text. text.now) texts.now))) (done_answer result) }
        ensures refused { UnchangedIfRefused self.old self.new result }
        ensures first { UnchangedWhere self.old self.new (LacksArray (length texts.now)) }
    {
        StringsMut::of(self, key)?.assign(texts)
    }

    /// As [`StringsMut::pop`] on the vector of strings of a key. Also `ReadOnly`, `NotFound`, `WrongKind`.
    ///
    /// Example: `segment.texts_pop(&name)?`.
    pub fn texts_pop<O: ObjectRef>(&mut self, key: &O) -> Result<()>
        ensures step { LeadsOnOfKind self.old self.new (O.key key.now) StringsKind (Pop (O.key key.now))
            (refusal_in result) }
        ensures refused { OnErr result (self.new ≡ self.old) }
    {
        StringsMut::of(self, key)?.pop()
    }

    /// As [`StringsMut::insert`] on the vector of strings of a key. Also `ReadOnly`, `NotFound`, `WrongKind`.
    ///
    /// Example: `segment.texts_insert(&name, 0, b"plums")?`.
    pub fn texts_insert<O: ObjectRef>(&mut self, key: &O, index: u64, text: &[u8]) -> Result<()>
        ensures step { TakesStepOfKind self.old self.new (O.key key.now) StringsKind
            (Insert (O.key key.now) index (Quoted text.now)) (done_answer result) }
        ensures refused { UnchangedIfRefused self.old self.new result }
        ensures first { UnchangedWhere self.old self.new (LacksFirst (O.key key.now) text.now) }
    {
        StringsMut::of(self, key)?.insert(index, text)
    }

    /// As [`StringsMut::erase`] on the vector of strings of a key. Also `ReadOnly`, `NotFound`, `WrongKind`.
    ///
    /// Example: `segment.texts_erase(&name, 0)?`.
    pub fn texts_erase<O: ObjectRef>(&mut self, key: &O, index: u64) -> Result<()>
        ensures step { TakesStepOfKind self.old self.new (O.key key.now) StringsKind
            (Erase (O.key key.now) index) (done_answer result) }
        ensures refused { OnErr result (self.new ≡ self.old) }
    {
        StringsMut::of(self, key)?.erase(index)
    }
}
