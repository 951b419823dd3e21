//! Values of a fixed number of bytes, as containers store them.
ghost use Rattle.std.specs.Prelude.{◌≡◌, ℕ, ◌≤◌, Bool, true, false, List, Option, Some, length};
ghost use Rattle.seg_types.specs.Plain.{Decodes};

/// The greatest length of an encoded value in bytes.
pub const MAX_SPELLING_LEN: usize = 4096;

/// The greatest length in bytes for which a short buffer is used. A buffer for the longest values would be cleared at
/// each use.
pub const SHORT_SPELLING_LEN: usize = 16;

/// A type with a fixed number of bytes for each value, one encoding of each value, and a strict total order.
///
/// The five scalar types implement it, and callers can implement it for types of their own. The implementation proves
/// the laws of encodings and of the order.
pub trait Plain: Copy {
    /// The number of bytes of an encoded value, from 1 to 4096.
    const SIZE: u64;

    /// The type's code in an image.
    const CODE: u32;

    ghost SIZE: { ℕ };

    ghost CODE: { ℕ };

    // Whether this is a value. A number in a law has no bound, so without this the laws would cover too many numbers.
    ghost is_value: { Self → Bool };

    // The bytes of an encoded value.
    ghost spelling: { Self → List ℕ };

    // Whether the first value precedes the second.
    ghost order: { Self → Self → Bool };

    // The value that these bytes encode. For bytes that encode no value the result is arbitrary.
    ghost reading: { List ℕ → Option Self };

    /// Encodes the value into `to`, which has `SIZE` bytes. It writes all of them.
    fn write(self, to: &mut [u8])
        requires { length to.old ≡ SIZE }
        ensures value { is_value self ≡ true }
        ensures bytes { to.new ≡ spelling self };

    /// Returns the value that the `SIZE` bytes of `from` encode, or `None` if they encode no value.
    fn read(from: &[u8]) -> Option<Self>
        requires { length from.now ≡ SIZE }
        ensures { Decodes is_value spelling from.now result };

    /// Returns true if the value precedes `other`.
    fn precedes(self, other: Self) -> bool
        ensures values { (is_value self ≡ true) × (is_value other ≡ true) }
        ensures answer { result ≡ order self other };

    // An encoded value has 1 to 4096 bytes.
    ghost sizes: { (1 ≤ SIZE) × (SIZE ≤ 4096) };

    // Each value is encoded in `SIZE` bytes.
    ghost spells: { (x : Self) → is_value x ≡ true → length (spelling x) ≡ SIZE };

    // The encoding of a value is read back as the value.
    ghost reads: { (x : Self) → is_value x ≡ true → reading (spelling x) ≡ Some x };

    // Two different values have different encodings.
    ghost differs: { (x y : Self) → is_value x ≡ true → is_value y ≡ true → spelling x ≡ spelling y → x ≡ y };

    // No value precedes itself.
    ghost irreflexive: { (x : Self) → order x x ≡ false };

    // The order is transitive.
    ghost transitive: { (x y z : Self) → order x y ≡ true → order y z ≡ true → order x z ≡ true };

    // Of two different values one precedes the other.
    ghost total: { (x y : Self) → is_value x ≡ true → is_value y ≡ true → order x y ≡ false → order y x ≡ false
        → x ≡ y };
}
