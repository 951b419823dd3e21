//! An object that was looked up once: it is there and has the kind that its calls are for, so they refuse for no other
//! reason than their own.
ghost use Rattle.std.specs.Borrow.{RestsIfErr, sem};
ghost use Rattle.std.specs.Prelude.{◌≡◌, IfOk, MatchResult, false, true, ⊤};
ghost use Rattle.seg_types.specs.declared.kinds.Kind.{Kind as AnyKind};
ghost use Rattle.seg_types.specs.{Names.ByHandle, declared.refusals.Refusal.TheVariants.WrongKind as OtherKind};
ghost use Rattle.segment_manager.specs.objects.BoundObjects.{IsBound, LacksKind};
ghost use Rattle.segment_manager.specs.{State.AnswersWith, objects.Found.is_object_at};
ghost use Rattle.segment_manager.specs.{Step.is_read_only, objects.Located.IsLocated, objects.Located.IsObject};
ghost use Rattle.segment_manager.specs.{containers.ToChange.IsNotToChange, contracts.segment.Segment.the_row};

use crate::objects::object_ref::{Object, ObjectRef, read_of_kind};
use crate::segment::Segment;
use seg_types::{Handle, Kind, Refusal};
use std::alloc::AllocError;
use std::marker::PhantomData;

pub(crate) mod maps;
pub(crate) mod slices;
pub(crate) mod texts;

/// What an object contains: it says the kind of the object.
pub trait BoundContent {
    ghost kind: { AnyKind };

    /// Returns the kind of the object.
    fn kind() -> Kind
        ensures { result ≡ kind };
}

/// An object that was looked up, in a segment that does not change meanwhile. There can be any number of them.
pub struct Bound<'a, C: BoundContent> {
    pub(crate) segment: &'a Segment,
    pub(crate) object: Object,
    pub(crate) of: PhantomData<C>,
    ghost live: { IsBound C.kind object segment.now },
}

impl<'a, C: BoundContent> Clone for Bound<'a, C> {
    ghost is_clone = { λ x y. y ≡ x };

    ghost is_infallible = { λ _. ⊤ };

    fn clone(&self) -> Result<Self, AllocError> {
        Ok(*self)
    }
}

impl<'a, C: BoundContent> Copy for Bound<'a, C> {}

impl<'a, C: BoundContent> Bound<'a, C> {
    /// Looks the object of a key up.
    ///
    /// Examples: `let years = Map::<i32, i64>::of(&segment, &name)?`.
    ///
    /// # Errors
    ///
    /// `NotFound` if no object has the key, `WrongKind` if the object has another kind.
    #[inline(always)]
    pub fn of<O: ObjectRef>(segment: &'a Segment, key: &O) -> Result<Bound<'a, C>, Refusal>
        ensures location { MatchResult result (λ b. IsLocated segment.now (O.key key.now) b.object)
            (LacksKind segment.now (O.key key.now) C.kind) }
        ensures segment { IfOk result (λ b. b.segment.now ≡ segment.now) }
    {
        let object = locate_of_kind(segment, key, C::kind())?;
        Ok(Bound::at(segment, object))
    }

    /// Binds an object that was located.
    ///
    /// Example: `let years = Map::<i32, i64>::at(&segment, object)`.
    ///
    /// # Conditions
    ///
    /// The object is there and has the kind. `of` looks an object up and has no condition.
    #[inline(always)]
    pub fn at(segment: &'a Segment, object: Object) -> Bound<'a, C>
        requires { IsBound C.kind object segment.now }
        ensures object { result.object ≡ object }
        ensures segment { result.segment.now ≡ segment.now }
    {
        Bound {
            segment,
            object,
            of: PhantomData,
        }
    }

    /// Returns the segment.
    ///
    /// Example: `let size = years.segment().size()`.
    pub fn segment(&self) -> &'a Segment
        ensures { result.now ≡ self.now.segment.now }
    {
        self.segment
    }

    /// Returns the object as it was looked up.
    ///
    /// Example: `let handle = years.object().handle`.
    pub fn object(&self) -> Object
        ensures object { result ≡ self.now.object }
        ensures location { IsObject result self.now.segment.now }
    {
        self.object
    }
}

/// An object that was looked up, in a segment that can be written. Its calls change the object.
#[derive(Drop)]
pub struct BoundMut<'a, C: BoundContent> {
    pub(crate) segment: &'a mut Segment,
    pub(crate) object: Object,
    of: PhantomData<C>,
    ghost live: { IsBound C.kind object segment.now },
    ghost writing: { is_read_only segment.now.mode ≡ false },
}

impl<'a, C: BoundContent> BoundMut<'a, C> {
    /// Looks the object of a key up, to change it.
    ///
    /// Examples: `let mut years = MapMut::<i32, i64>::of(&mut segment, &name)?`.
    ///
    /// # Errors
    ///
    /// `ReadOnly` if the segment is open for reading. Otherwise `NotFound` if no object has the key, `WrongKind` if the
    /// object has another kind. Nothing changes.
    #[inline(always)]
    pub fn of<O: ObjectRef>(segment: &'a mut Segment, key: &O) -> Result<BoundMut<'a, C>, Refusal>
        ensures* frame { sem 𝓛 (RestsIfErr the_row segment.entry (λ b. b.segment.ghost_name) result
            (λ last. last ≡ segment.old)) }
        ensures location { MatchResult result (λ b. IsLocated segment.old (O.key key.now) b.object)
            (IsNotToChange segment.old (O.key key.now) C.kind) }
        ensures loan { IfOk result (λ b. b.segment.ghost_name ≡ segment.entry.ghost_name) }
        ensures segment { IfOk result (λ b. b.segment.now ≡ segment.old) }
    {
        if segment.is_read_only() {
            return Err(Refusal::ReadOnly);
        }
        let object = locate_of_kind(segment, key, C::kind())?;
        Ok(BoundMut::at(segment, object))
    }

    /// Binds an object that was located, to change it.
    ///
    /// Example: `let mut years = MapMut::<i32, i64>::at(&mut segment, object)`.
    ///
    /// # Conditions
    ///
    /// The object is there and has the kind, and the segment is open for writing. `of` has no condition.
    #[inline(always)]
    pub fn at(segment: &'a mut Segment, object: Object) -> BoundMut<'a, C>
        requires object { IsBound C.kind object segment.old }
        requires writing { is_read_only segment.old.mode ≡ false }
        ensures loan { result.segment.ghost_name ≡ segment.entry.ghost_name }
        ensures segment { result.segment.now ≡ segment.old }
        ensures object { result.object ≡ object }
    {
        BoundMut {
            segment,
            object,
            of: PhantomData,
        }
    }

    /// Returns the object for reading, as long as it does not change.
    ///
    /// Example: `let year = years.read().get(5)`.
    #[inline(always)]
    pub fn read(&self) -> Bound<'_, C>
        ensures segment { result.segment.now ≡ self.now.segment.now }
        ensures object { result.object ≡ self.now.object }
    {
        Bound {
            segment: self.segment,
            object: self.object,
            of: PhantomData,
        }
    }
}

/// Looks the object of a key up, an object of a kind.
#[inline(always)]
fn locate_of_kind<O: ObjectRef>(segment: &Segment, key: &O, kind: Kind) -> Result<Object, Refusal>
    ensures location { MatchResult result (IsLocated segment.now (O.key key.now))
        (LacksKind segment.now (O.key key.now) kind) }
    ensures kind { IfOk result (λ o. o.kind ≡ kind) }
{
    match key.find(segment) {
        None => Err(Refusal::NotFound),
        Some(handle) => read_of_kind(&segment.heap, handle, kind),
    }
}

/// Returns the object with a handle, an object of a kind, without a look-up. `Bound::at` and `BoundMut::at` bind it.
///
/// Example: `let object = object_of_kind(&segment, handle, Kind::Map(ScalarKind::I32, ScalarKind::I64))?`.
///
/// # Errors
///
/// `WrongKind` if the object has another kind.
///
/// # Conditions
///
/// An object of the segment has the handle. `locate` looks it up and has no condition.
#[inline(always)]
pub fn object_of_kind(segment: &Segment, handle: Handle, kind: Kind) -> Result<Object, Refusal>
    requires { AnswersWith segment.now (λ d. is_object_at d handle) true }
    ensures location { MatchResult result (IsLocated segment.now (ByHandle handle))
        (LacksKind segment.now (ByHandle handle) kind) }
    ensures kind { IfOk result (λ o. o.kind ≡ kind) }
{
    read_of_kind(&segment.heap, handle, kind)
}

/// Returns the object if it has the kind.
///
/// # Errors
///
/// `WrongKind` if it has another kind.
#[inline(always)]
pub(crate) fn of_kind(object: Object, kind: Kind) -> Result<Object, Refusal>
    ensures { MatchResult result (λ o. (o ≡ object) × (o.kind ≡ kind))
        (λ why. (why ≡ OtherKind) × (object.kind ≡ kind → ⊥)) }
{
    let wanted = kind.code();
    let own = object.kind.code();
    if wanted != own {
        return Err(Refusal::WrongKind);
    }
    Ok(object)
}
