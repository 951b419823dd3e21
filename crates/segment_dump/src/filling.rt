//! Filling of objects with the values in the lines of a dump.
ghost use Rattle.std.specs.Prelude.{◌≡◌, ℕ, length, Ok};
ghost use Rattle.raw_region.specs.Memory.{SameSurroundings};
ghost use Rattle.seg_types.specs.declared.kinds.Kind.TheVariants.{Map as MapOf, Scalar as ScalarOf};
ghost use Rattle.seg_types.specs.declared.kinds.Kind.TheVariants.{Strings as StringsKind, Vector as VectorOf};
ghost use Rattle.segment_dump.specs.Builders.{AddsElement, FillsElements, FillsNew, HasLocatedObject, IsVectorKind};

use crate::building::{BuildError, ObjectLine, build_error_of, syntax_error};
use crate::faults::DumpFault;
use crate::filling_texts::{fill_string, push_text};
use crate::tokens::{Lines, next_pair, next_value};
use seg_types::{Kind, Refusal, ScalarKind};
use segment_lang::LineBuffer;
use segment_manager::unchecked::reserve_object;
use segment_manager::{Object, Segment};
use segment_values::{InsertSpot, insert_pair, insert_scalar, set_array_element};

/// Fills an object with the values of the next lines.
pub fn fill(
    segment: &mut Segment,
    object: Object,
    shape: ObjectLine,
    lines: &mut Lines<'_>,
    room: &mut [u8],
    scratch: &mut LineBuffer,
) -> Result<(), BuildError>
    requires { HasLocatedObject segment.old object }
    ensures filling { FillsNew segment.old segment.new object.handle object.kind shape.count lines.old lines.new
        (length room.old) result }
    ensures place { SameSurroundings segment.old.cut segment.new.cut }
{
    match object.kind {
        Kind::String => fill_string(segment, object, lines, scratch),
        Kind::Vector(_) => fill_reserved(segment, object, shape, lines, room, scratch),
        Kind::Strings => fill_reserved(segment, object, shape, lines, room, scratch),
        _ => fill_elements(segment, object, shape.count, lines, room, scratch),
    }
}

/// Fills a vector, with places for just as many elements.
fn fill_reserved(
    segment: &mut Segment,
    object: Object,
    shape: ObjectLine,
    lines: &mut Lines<'_>,
    room: &mut [u8],
    scratch: &mut LineBuffer,
) -> Result<(), BuildError>
    requires { HasLocatedObject segment.old object }
    ensures filling { IsVectorKind object.kind
        → FillsNew segment.old segment.new object.handle object.kind shape.count lines.old lines.new
        (length room.old) result }
    ensures place { SameSurroundings segment.old.cut segment.new.cut }
{
    match reserve_object(segment, object, shape.count) {
        Ok(()) => fill_elements(segment, object, shape.count, lines, room, scratch),
        Err(why) => Err(build_error_of(why, shape.at)),
    }
}

/// Adds `count` elements to an object.
fn fill_elements(
    segment: &mut Segment,
    object: Object,
    count: u64,
    lines: &mut Lines<'_>,
    room: &mut [u8],
    scratch: &mut LineBuffer,
) -> Result<(), BuildError>
    requires { HasLocatedObject segment.old object }
    ensures filling { FillsElements segment.old segment.new object.handle object.kind count lines.old lines.new
        (length room.old) result }
    ensures place { SameSurroundings segment.old.cut segment.new.cut }
{
    'elements: for index in 0..count {
        add_element(segment, object, index, lines, room, scratch)?;
    }
    Ok(())
}

/// Adds the element of the next lines after those before it.
fn add_element(
    segment: &mut Segment,
    object: Object,
    index: u64,
    lines: &mut Lines<'_>,
    room: &mut [u8],
    scratch: &mut LineBuffer,
) -> Result<(), BuildError>
    requires { HasLocatedObject segment.old object }
    ensures visits { AddsElement segment.old segment.new object.handle object.kind index lines.old lines.new
        (length room.old) result }
    ensures place { SameSurroundings segment.old.cut segment.new.cut }
    ensures in_place { HasLocatedObject segment.new object }
{
    match object.kind {
        Kind::Scalar(kind) => set_next(segment, object, kind, index, lines),
        Kind::Vector(kind) => push_next(segment, object, kind, lines),
        Kind::Map(keys, values) => put_next(segment, object, keys, values, lines),
        Kind::Strings => push_text(segment, object, lines, room, scratch),
        Kind::String => Err(syntax_error(lines.at(), DumpFault::BadCount)),
    }
}

/// Makes the value of the next line the element at an index of an array.
fn set_next(
    segment: &mut Segment,
    object: Object,
    kind: ScalarKind,
    index: u64,
    lines: &mut Lines<'_>,
) -> Result<(), BuildError>
    requires object { HasLocatedObject segment.old object }
    requires kind { object.kind ≡ ScalarOf kind }
    ensures visits { (room : ℕ) → AddsElement segment.old segment.new object.handle (ScalarOf kind) index lines.old
        lines.new room result }
    ensures place { SameSurroundings segment.old.cut segment.new.cut }
    ensures in_place { HasLocatedObject segment.new object }
{
    let at = lines.at();
    let value = next_value(lines, kind)?;
    ended(set_array_element(segment, object, index, value), at)
}

/// Puts the value of the next line after the elements of a vector.
fn push_next(
    segment: &mut Segment,
    object: Object,
    kind: ScalarKind,
    lines: &mut Lines<'_>,
) -> Result<(), BuildError>
    requires object { HasLocatedObject segment.old object }
    requires kind { object.kind ≡ VectorOf kind }
    ensures visits { (index room : ℕ)
        → AddsElement segment.old segment.new object.handle (VectorOf kind) index lines.old lines.new room result }
    ensures place { SameSurroundings segment.old.cut segment.new.cut }
    ensures in_place { HasLocatedObject segment.new object }
{
    let at = lines.at();
    let value = next_value(lines, kind)?;
    ended(insert_scalar(segment, object, InsertSpot::End, value), at)
}

/// Puts the pair of the next line into a map.
fn put_next(
    segment: &mut Segment,
    object: Object,
    keys: ScalarKind,
    values: ScalarKind,
    lines: &mut Lines<'_>,
) -> Result<(), BuildError>
    requires object { HasLocatedObject segment.old object }
    requires kind { object.kind ≡ MapOf keys values }
    ensures visits { (index room : ℕ)
        → AddsElement segment.old segment.new object.handle (MapOf keys values) index lines.old lines.new room result }
    ensures place { SameSurroundings segment.old.cut segment.new.cut }
    ensures in_place { HasLocatedObject segment.new object }
{
    let at = lines.at();
    let (key, value) = next_pair(lines, keys, values)?;
    match insert_pair(segment, object, key, value) {
        Ok(_) => Ok(()),
        Err(why) => Err(build_error_of(why, at)),
    }
}

/// Returns that a call ended, or why it stopped.
pub fn ended(called: Result<(), Refusal>, at: usize) -> Result<(), BuildError>
    ensures { called ≡ Ok tt → result ≡ Ok tt }
{
    match called {
        Ok(()) => Ok(()),
        Err(why) => Err(build_error_of(why, at)),
    }
}
