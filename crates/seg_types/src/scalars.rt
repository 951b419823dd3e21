//! The types of the scalar kinds.
ghost use Rattle.std.specs.Prelude.{◌≡◌, ℤ, int_lt, pos, refl, true};
ghost use Rattle.seg_types.specs.declared.kinds.ScalarKind.{ScalarKind};
ghost use Rattle.seg_types.specs.declared.kinds.ScalarKind.TheVariants.{Bool as BoolKind, I32, I64, U64, U8};
ghost use Rattle.seg_types.specs.Kinds.{is_value as is_value_of, spelling as spelling_of, size_of, scalar_code};
ghost use Rattle.seg_types.specs.Kinds.{truth_number};
ghost use Rattle.seg_types.specs.ScalarLaws as laws;

use crate::kinds;
use crate::plain::Plain;

/// A type of a scalar kind: `bool`, `u8`, `i32`, `i64` or `u64`.
///
/// Its values are the whole numbers of the kind, with the kind's code, size, encoding and order. The implementation
/// proves that the laws of the kind's numbers hold for the type. So a caller can implement the trait only for one of
/// the five types under another name.
pub trait Scalar: Plain {
    ghost kind: { ScalarKind };

    // The value as a whole number: 0 for `false` and 1 for `true`.
    ghost whole: { Self → ℤ };

    /// Returns the kind.
    fn kind() -> kinds::ScalarKind
        ensures { result ≡ kind };

    ghost code: { Self.CODE ≡ scalar_code kind };

    ghost size: { Self.SIZE ≡ size_of kind };

    // A value is a whole number in the range of the kind.
    ghost values: { (x : Self) → Self.is_value x ≡ is_value_of kind (whole x) };

    ghost spelled: { (x : Self) → Self.spelling x ≡ spelling_of kind (whole x) };

    ghost ordered: { (x y : Self) → Self.order x y ≡ int_lt (whole x) (whole y) };

    // Each whole number in the range of the kind is a value.
    ghost reached: { (z : ℤ) → is_value_of kind z ≡ true → (x : Self) × (whole x ≡ z) };
}

/// One byte, 0 for `false` and 1 for `true`.
impl Plain for bool {
    const SIZE: u64 = 1;

    const CODE: u32 = 1;

    ghost SIZE = { 1 };

    ghost CODE = { 1 };

    ghost is_value = { λ x. true };

    ghost spelling = { λ x. spelling_of BoolKind (truth_number x) };

    ghost order = { λ x y. int_lt (truth_number x) (truth_number y) };

    ghost reading = { laws.bool-reading };

    fn write(self, to: &mut [u8]) {
        to[0] = u8::from(self);
    }

    fn read(from: &[u8]) -> Option<bool> {
        match from[0] {
            0 => Some(false),
            1 => Some(true),
            _ => None,
        }
    }

    fn precedes(self, other: bool) -> bool {
        !self & other
    }

    ghost sizes = { laws.sizes BoolKind };

    ghost spells = { λ x h. laws.spells BoolKind (truth_number x) (laws.truth-value x) };

    ghost reads = { laws.bool-reads };

    ghost differs = { λ x y h k e.
        laws.same_truth x y (laws.differs BoolKind (truth_number x) (truth_number y) (laws.truth-value x)
        (laws.truth-value y) e) };

    ghost irreflexive = { λ x. laws.irreflexive (truth_number x) };

    ghost transitive = { λ x y z. laws.transitive (truth_number x) (truth_number y) (truth_number z) };

    ghost total = { λ x y h k e f. laws.same_truth x y (laws.total (truth_number x) (truth_number y) e f) };
}

impl Scalar for bool {
    ghost kind = { BoolKind };

    ghost whole = { truth_number };

    fn kind() -> kinds::ScalarKind {
        kinds::ScalarKind::Bool
    }

    ghost code = { refl };

    ghost size = { refl };

    ghost values = { laws.truth-values };

    ghost spelled = { λ x. refl };

    ghost ordered = { λ x y. refl };

    ghost reached = { laws.reached-bool };
}

/// One byte.
impl Plain for u8 {
    const SIZE: u64 = 1;

    const CODE: u32 = 2;

    ghost SIZE = { 1 };

    ghost CODE = { 2 };

    ghost is_value = { λ x. is_value_of U8 (pos x) };

    ghost spelling = { λ x. spelling_of U8 (pos x) };

    ghost order = { λ x y. int_lt (pos x) (pos y) };

    ghost reading = { laws.u8-reading };

    fn write(self, to: &mut [u8]) {
        to.copy_from_slice(&u8::to_le_bytes(self));
    }

    fn read(from: &[u8]) -> Option<u8> {
        Some(u8::from_le_bytes(*from.as_array()?))
    }

    fn precedes(self, other: u8) -> bool {
        self < other
    }

    ghost sizes = { laws.sizes U8 };

    ghost spells = { λ x. laws.spells U8 (pos x) };

    ghost reads = { laws.u8-reads };

    ghost differs = { λ x y h k e. laws.same_number x y (laws.differs U8 (pos x) (pos y) h k e) };

    ghost irreflexive = { λ x. laws.irreflexive (pos x) };

    ghost transitive = { λ x y z. laws.transitive (pos x) (pos y) (pos z) };

    ghost total = { λ x y h k e f. laws.same_number x y (laws.total (pos x) (pos y) e f) };
}

impl Scalar for u8 {
    ghost kind = { U8 };

    ghost whole = { pos };

    fn kind() -> kinds::ScalarKind {
        kinds::ScalarKind::U8
    }

    ghost code = { refl };

    ghost size = { refl };

    ghost values = { λ x. refl };

    ghost spelled = { λ x. refl };

    ghost ordered = { λ x y. refl };

    ghost reached = { laws.reached-u8 };
}

/// Four bytes in two's complement, lowest byte first.
impl Plain for i32 {
    const SIZE: u64 = 4;

    const CODE: u32 = 3;

    ghost SIZE = { 4 };

    ghost CODE = { 3 };

    ghost is_value = { is_value_of I32 };

    ghost spelling = { spelling_of I32 };

    ghost order = { int_lt };

    ghost reading = { laws.whole-reading I32 };

    fn write(self, to: &mut [u8]) {
        to.copy_from_slice(&i32::to_le_bytes(self));
    }

    fn read(from: &[u8]) -> Option<i32> {
        Some(i32::from_le_bytes(*from.as_array()?))
    }

    fn precedes(self, other: i32) -> bool {
        self < other
    }

    ghost sizes = { laws.sizes I32 };

    ghost spells = { laws.spells I32 };

    ghost reads = { laws.whole-reads I32 };

    ghost differs = { laws.differs I32 };

    ghost irreflexive = { laws.irreflexive };

    ghost transitive = { laws.transitive };

    ghost total = { λ x y h k. laws.total x y };
}

impl Scalar for i32 {
    ghost kind = { I32 };

    ghost whole = { λ x. x };

    fn kind() -> kinds::ScalarKind {
        kinds::ScalarKind::I32
    }

    ghost code = { refl };

    ghost size = { refl };

    ghost values = { λ x. refl };

    ghost spelled = { λ x. refl };

    ghost ordered = { λ x y. refl };

    ghost reached = { λ z h. (z, refl) };
}

/// Eight bytes in two's complement, lowest byte first.
impl Plain for i64 {
    const SIZE: u64 = 8;

    const CODE: u32 = 4;

    ghost SIZE = { 8 };

    ghost CODE = { 4 };

    ghost is_value = { is_value_of I64 };

    ghost spelling = { spelling_of I64 };

    ghost order = { int_lt };

    ghost reading = { laws.whole-reading I64 };

    fn write(self, to: &mut [u8]) {
        to.copy_from_slice(&i64::to_le_bytes(self));
    }

    fn read(from: &[u8]) -> Option<i64> {
        Some(i64::from_le_bytes(*from.as_array()?))
    }

    fn precedes(self, other: i64) -> bool {
        self < other
    }

    ghost sizes = { laws.sizes I64 };

    ghost spells = { laws.spells I64 };

    ghost reads = { laws.whole-reads I64 };

    ghost differs = { laws.differs I64 };

    ghost irreflexive = { laws.irreflexive };

    ghost transitive = { laws.transitive };

    ghost total = { λ x y h k. laws.total x y };
}

impl Scalar for i64 {
    ghost kind = { I64 };

    ghost whole = { λ x. x };

    fn kind() -> kinds::ScalarKind {
        kinds::ScalarKind::I64
    }

    ghost code = { refl };

    ghost size = { refl };

    ghost values = { λ x. refl };

    ghost spelled = { λ x. refl };

    ghost ordered = { λ x y. refl };

    ghost reached = { λ z h. (z, refl) };
}

/// Eight bytes, lowest byte first.
impl Plain for u64 {
    const SIZE: u64 = 8;

    const CODE: u32 = 5;

    ghost SIZE = { 8 };

    ghost CODE = { 5 };

    ghost is_value = { λ x. is_value_of U64 (pos x) };

    ghost spelling = { λ x. spelling_of U64 (pos x) };

    ghost order = { λ x y. int_lt (pos x) (pos y) };

    ghost reading = { laws.u64-reading };

    fn write(self, to: &mut [u8]) {
        to.copy_from_slice(&u64::to_le_bytes(self));
    }

    fn read(from: &[u8]) -> Option<u64> {
        Some(u64::from_le_bytes(*from.as_array()?))
    }

    fn precedes(self, other: u64) -> bool {
        self < other
    }

    ghost sizes = { laws.sizes U64 };

    ghost spells = { λ x. laws.spells U64 (pos x) };

    ghost reads = { laws.u64-reads };

    ghost differs = { λ x y h k e. laws.same_number x y (laws.differs U64 (pos x) (pos y) h k e) };

    ghost irreflexive = { λ x. laws.irreflexive (pos x) };

    ghost transitive = { λ x y z. laws.transitive (pos x) (pos y) (pos z) };

    ghost total = { λ x y h k e f. laws.same_number x y (laws.total (pos x) (pos y) e f) };
}

impl Scalar for u64 {
    ghost kind = { U64 };

    ghost whole = { pos };

    fn kind() -> kinds::ScalarKind {
        kinds::ScalarKind::U64
    }

    ghost code = { refl };

    ghost size = { refl };

    ghost values = { λ x. refl };

    ghost spelled = { λ x. refl };

    ghost ordered = { λ x y. refl };

    ghost reached = { laws.reached-u64 };
}
