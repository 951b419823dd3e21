//! The values of a line as a type has them, in place.
ghost use Rattle.std.specs.Prelude.{◌≡◌, ◌≤◌, IsTrue, MatchResult, Ok, Err, length, map, true};
ghost use Rattle.std.specs.List.{AllByRecursion};
ghost use Rattle.seg_types.specs.Kinds.{is_value};
ghost use Rattle.seg_types.specs.Values.{kind_of_scalar, value_of_scalar};
ghost use Rattle.segment_manager.specs.Step.{text_among};
ghost use Rattle.segment_scripts.specs.Changes.{ReadsInto};
ghost use Rattle.segment_scripts.specs.Replies.{bytes_taken};

use seg_types::theorems::scalar_is_number;
use seg_types::{Refusal, Scalar, ScalarValue, WrittenValue};
use segment_lang::{Buffer, LineBuffer, Literal, LiteralValues, Literals};

/// The longest spelling of a scalar, in bytes.
const LONGEST: usize = 8;

/// Values of a type, as many as a line may have: each takes a byte, and another parts it from the next.
pub type ValueBuffer<T> = Buffer<T, 2048>;

/// A row for each type that values of a line may have.
#[derive(Drop)]
pub struct ScalarBuffers {
    pub truths: ValueBuffer<bool>,
    pub bytes: ValueBuffer<u8>,
    pub i32s: ValueBuffer<i32>,
    pub i64s: ValueBuffer<i64>,
    pub u64s: ValueBuffer<u64>,
}

/// A call whose last argument is the row of a kind: `on_buffer!(kind, scalars, assign_buffer(segment, object,
/// values))`.
macro_rules! on_buffer {
    ($kind:expr, $scalars:ident, $call:ident($($argument:ident),*)) => {
        match $kind {
            ScalarKind::Bool => $call($($argument),*, &mut $scalars.truths),
            ScalarKind::U8 => $call($($argument),*, &mut $scalars.bytes),
            ScalarKind::I32 => $call($($argument),*, &mut $scalars.i32s),
            ScalarKind::I64 => $call($($argument),*, &mut $scalars.i64s),
            ScalarKind::U64 => $call($($argument),*, &mut $scalars.u64s),
        }
    };
}

pub(crate) use on_buffer;

impl ScalarBuffers {
    /// Makes rows without values.
    pub fn new() -> ScalarBuffers {
        ScalarBuffers {
            truths: ValueBuffer::new(),
            bytes: ValueBuffer::new(),
            i32s: ValueBuffer::new(),
            i64s: ValueBuffer::new(),
            u64s: ValueBuffer::new(),
        }
    }
}

/// Returns a value as its type has it.
fn as_type<T: Scalar>(value: ScalarValue) -> T
    requires kind { kind_of_scalar value ≡ T.kind }
    requires range { is_value T.kind (value_of_scalar value) ≡ true }
    ensures { T.whole result ≡ value_of_scalar value }
{
    let mut bytes = [0; LONGEST];
    let spelling = &mut bytes[..T::SIZE as usize];
    value.write(spelling);
    match scalar_is_number::<T>(spelling) {
        Some(value) => value,
        None => unreachable!(),
    }
}

/// Copies the values of a line into a row. They are of the type's kind.
pub fn copy_values<T: Scalar>(values: LiteralValues<'_>, buffer: &mut ValueBuffer<T>)
    requires kind { values.kind ≡ T.kind }
    requires range { AllByRecursion (λ z. IsTrue (is_value T.kind z)) values.numbers }
    requires max_count { length values.numbers ≤ 2048 }
    ensures { map T.whole buffer.new ≡ values.entry.numbers }
{
    buffer.clear();
    'values: for value in values {
        buffer.push(as_type(value));
    }
}

/// Copies literals into a row, as values for a vector of a type.
///
/// # Errors
///
/// `WrongKind` if a literal has another form than the kind. Otherwise `OutOfRange` if one is outside its range. The row
/// has no meaning then.
pub fn copy_literals<T: Scalar>(
    literals: Literals<'_>,
    buffer: &mut ValueBuffer<T>,
) -> Result<(), Refusal>
    requires { bytes_taken literals ≤ 4097 }
    ensures { ReadsInto T.kind T.whole literals.entry buffer.new result }
{
    buffer.clear();
    let mut fits = true;
    'literals: for literal in literals {
        match literal.value_of(T::kind()) {
            Ok(value) => {
                if fits {
                    buffer.push(as_type(value));
                }
            }
            Err(why) => match why {
                Refusal::WrongKind => return Err(why),
                _ => fits = false,
            },
        }
    }
    if fits {
        Ok(())
    } else {
        Err(Refusal::OutOfRange)
    }
}

/// Returns the one text that a string is assigned.
///
/// # Errors
///
/// `WrongKind` if there is none, or more than one, or a value of another form.
pub fn only_text<'a>(
    mut literals: Literals<'a>,
    scratch: &'a mut LineBuffer,
) -> Result<&'a [u8], Refusal>
    requires { bytes_taken literals ≤ 4097 }
    ensures { MatchResult result (λ text. text_among literals.entry ≡ Ok text.now) (λ why.
        text_among literals.entry ≡ Err why) }
{
    let Some(Literal::Quoted(text)) = literals.next() else {
        return Err(Refusal::WrongKind);
    };
    if literals.next().is_some() {
        return Err(Refusal::WrongKind);
    }
    Ok(text.bytes(scratch))
}
