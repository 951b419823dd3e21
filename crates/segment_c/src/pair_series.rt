//! Pairs of maps, several read by one call.
ghost use Rattle.std.specs.Prelude.{◌≡◌, ◌≤◌};
ghost use Rattle.seg_types.specs.Values.{kind_of_scalar, value_of_scalar};
ghost use Rattle.seg_types.specs.declared.kinds.Kind.TheVariants.{Map as MapOf};
ghost use Rattle.segment_c.specs.Passed.{key_of, key_wrong, literal_in, or_else, value_wrong};
ghost use Rattle.segment_c.specs.Series.{FillsFrom, FillsSeries, bits_of, pairs_from_at};
ghost use Rattle.segment_c.specs.{Handles.ReadsDirectory, Reads.IsCoded};
ghost use Rattle.segment_manager.specs.objects.BoundObjects.{IsBound};

use crate::calls::{enter_with, passed};
use crate::codes::{DONE, code_of};
use crate::keys::CKey;
use crate::maps::map_of;
use crate::slot::{Slot, put};
use crate::values::CScalar;
use seg_types::{Scalar, ScalarKind, ScalarValue, WrittenValue, by_kind, by_value};
use segment_manager::{Map, Object, Segment};

/// The most pairs whose nodes are listed at once.
const MOST: usize = 32;

/// A scalar as C reads it in a series of keys or of values.
pub trait Bits: Scalar {
    /// Returns the value as 64 bits with a sign. A `u64` keeps its bits.
    fn bits(self) -> i64
        ensures { result ≡ bits_of (Self.whole self) };
}

impl Bits for bool {
    #[inline(always)]
    fn bits(self) -> i64 {
        i64::from(self)
    }
}

impl Bits for u8 {
    #[inline(always)]
    fn bits(self) -> i64 {
        i64::from(self)
    }
}

impl Bits for i32 {
    #[inline(always)]
    fn bits(self) -> i64 {
        i64::from(self)
    }
}

impl Bits for i64 {
    #[inline(always)]
    fn bits(self) -> i64 {
        self
    }
}

impl Bits for u64 {
    #[inline(always)]
    fn bits(self) -> i64 {
        const LOW: u64 = 1 << 63;
        if self < LOW {
            self as i64
        } else {
            (self - LOW) as i64 + i64::MIN
        }
    }
}

/// Reads the pairs of the map of a key whose keys are not below `from`, or above it if `past` is set, by rising keys,
/// into the first places of two series of 64 bits: as many as there are and both have places for. `read` is their
/// number; the other places keep what they have.
#[unsafe(no_mangle)]
pub extern "C" fn zx_read_pairs_from(
    h: &mut Slot,
    key: &CKey,
    from: &CScalar,
    past: bool,
    keys: &mut [i64],
    values: &mut [i64],
    read: &mut usize,
) -> u32
    ensures read { ReadsDirectory (or_else (key_wrong key.now) (value_wrong from.now)) result h.old h.new
        (λ d. IsCoded (λ ps. FillsSeries ps keys.old keys.new values.old values.new read.new) result
        (pairs_from_at d (key_of key.now) past (literal_in from.now))) }
    ensures outputs_on_error { 1 ≤ result
        → (keys.new ≡ keys.old) × (values.new ≡ values.old) × (read.new ≡ read.old) }
{
    let (which, bound, segment) = passed!(enter_with(h, key, from));
    match map_of(&segment, &which) {
        Ok((object, of_keys, of_values)) => match bound.value_of(of_keys) {
            Ok(from) => {
                *read = read_of_kinds(&segment, object, from, past, of_values, keys, values);
                put(DONE, h, segment)
            }
            Err(why) => put(code_of(why), h, segment),
        },
        Err(why) => put(code_of(why), h, segment),
    }
}

/// Reads pairs of a located map of the kind of `from` to the kind `to` into two series: the pairs whose keys are not
/// below `from`, or above it if `past` is set. Returns how many they are.
fn read_of_kinds(
    segment: &Segment,
    object: Object,
    from: ScalarValue,
    past: bool,
    to: ScalarKind,
    keys: &mut [i64],
    values: &mut [i64],
) -> usize
    requires { IsBound (MapOf (kind_of_scalar from) to) object segment.now }
    ensures { FillsFrom segment.now object (kind_of_scalar from) to past (value_of_scalar from) keys.old keys.new
        values.old values.new result }
{
    by_value!(from, at => read_from_key(segment, object, at, past, to, keys, values))
}

/// Reads pairs of a located map of the type of `from` to the kind `to`.
#[inline(always)]
fn read_from_key<K: Bits>(
    segment: &Segment,
    object: Object,
    from: K,
    past: bool,
    to: ScalarKind,
    keys: &mut [i64],
    values: &mut [i64],
) -> usize
    requires { IsBound (MapOf K.kind to) object segment.now }
    ensures { FillsFrom segment.now object K.kind to past (K.whole from) keys.old keys.new values.old values.new
        result }
{
    macro_rules! read {
        ($type:ty, $kind:ident) => {
            read_typed::<K, $type>(segment, object, from, past, keys, values)
        };
    }
    by_kind!(to, read)
}

/// Reads pairs of a located map of two types. One pass of the loop lists the nodes of up to 32 pairs, or reads a pair.
fn read_typed<K: Bits, V: Bits>(
    segment: &Segment,
    object: Object,
    from: K,
    past: bool,
    keys: &mut [i64],
    values: &mut [i64],
) -> usize
    requires { IsBound (MapOf K.kind V.kind) object segment.now }
    ensures { FillsFrom segment.now object K.kind V.kind past (K.whole from) keys.old keys.new values.old values.new
        result }
{
    let map = Map::<K, V>::at(segment, object);
    let capacity = keys.len().min(values.len());
    let mut nodes = [0; MOST];
    let (mut after, mut above) = (from, past);
    let (mut read, mut at, mut count, mut room) = (0, 0, 0, 0);
    'pairs: while read < capacity {
        if at == count {
            if count < room {
                return read;
            }
            room = MOST.min(capacity - read);
            count = map.nodes_from(after, above, &mut nodes[..room]);
            at = 0;
            continue;
        }
        match map.pair_of(nodes[at]) {
            Some(pair) => {
                let key_bits = pair.0.bits();
                let value_bits = pair.1.bits();
                keys[read] = key_bits;
                values[read] = value_bits;
                (after, above) = (pair.0, true);
                (read, at) = (read + 1, at + 1);
            }
            None => return read,
        }
    }
    read
}
