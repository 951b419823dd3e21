//! Makes objects from the lines of a dump. No line needs to be trusted: `load` compares the finished segment with the
//! whole text.
ghost use Rattle.std.specs.Prelude.{◌≡◌, ⊤, length, option_map, IfOk, Some, None, if◌then◌else◌};
ghost use Rattle.raw_region.specs.{Format.current, Memory.SameSurroundings};
ghost use Rattle.seg_types.specs.Commands.{Construct};
ghost use Rattle.seg_types.specs.Keys.{name_seen};
ghost use Rattle.seg_types.specs.Names.{is_name};
ghost use Rattle.segment_lang.specs.Seen.{bytes_said};
ghost use Rattle.seg_types.specs.declared.kinds.Kind.{Kind as AnyKind};
ghost use Rattle.seg_types.specs.declared.kinds.Kind.TheVariants.{Scalar as ScalarOf, Vector as VectorOf};
ghost use Rattle.segment_manager.specs.State.{IsSegment, TakesStep, handle_answer};
ghost use Rattle.segment_dump.specs.Builders.{BuildsAllObjects, BuildsObject, IsCountOf, AcceptsEnd, HasObjectAt};
ghost use Rattle.segment_dump.specs.Builders.{ReadsClass};
ghost use Rattle.segment_dump.specs.Builders.{ReadsKindAndCount, StartsNamed, StartsNext, StartsUnder, first_content};

use crate::faults::{DumpFault, SyntaxError};
use crate::filling::fill;
use crate::tokens::{LineTokens, Lines, is_same};
use seg_types::{Class, Handle, Kind, MAX_ARRAY_LEN, Name, Refusal, ScalarKind, by_kind};
use segment_lang::{LineBuffer, Token, numbers_are_decimals, texts_are_spelled};
use segment_manager::unchecked::object_here;
use segment_manager::{AnonymousInstance, ConstructKey, Segment, UniqueInstance};

/// Why building stops.
#[derive(Clone, Copy)]
pub enum BuildError {
    /// The text is no dump.
    Syntax(SyntaxError),
    /// The segment is too small for the lines from this offset on.
    NoSpace(usize),
    /// The piece of a text at this offset does not fit into the caller's buffer.
    LongText(usize),
}

impl From<SyntaxError> for BuildError {
    ghost from_gives = { λ misfit stop. ⊤ };

    fn from(misfit: SyntaxError) -> BuildError {
        BuildError::Syntax(misfit)
    }
}

/// The part of an object's line after its key.
#[derive(Clone, Copy)]
pub struct ObjectLine {
    /// The kind.
    pub kind: Kind,
    /// The number of elements.
    pub count: u64,
    /// The offset of the kind in the text.
    pub at: usize,
}

/// Makes all objects that the lines describe, up to the line `end`.
pub fn build(
    segment: &mut Segment,
    lines: &mut Lines<'_>,
    room: &mut [u8],
    most: usize,
) -> Result<(), BuildError>
    ensures objects { BuildsAllObjects segment.old segment.new lines.old most (length room.old) result }
    ensures place { SameSurroundings segment.old.cut segment.new.cut }
{
    let mut scratch = LineBuffer::new();
    'objects: for _ in 0..most {
        let mut tokens = lines.next_line()?;
        if tokens.are(b"end") {
            return finish(lines);
        }
        build_object(segment, &mut tokens, lines, room, &mut scratch)?;
    }
    Err(syntax_error(lines.at(), DumpFault::Cut))
}

/// Checks that nothing stands after the last line.
fn finish(lines: &Lines<'_>) -> Result<(), BuildError>
    ensures { AcceptsEnd lines.now result }
{
    if lines.is_empty() {
        return Ok(());
    }
    Err(syntax_error(lines.at(), DumpFault::More))
}

/// Builds the object of a line, and fills it from the lines that follow.
fn build_object(
    segment: &mut Segment,
    tokens: &mut LineTokens<'_>,
    lines: &mut Lines<'_>,
    room: &mut [u8],
    scratch: &mut LineBuffer,
) -> Result<(), BuildError>
    ensures object { BuildsObject segment.old segment.new tokens.old lines.old lines.new (length room.old) result }
    ensures place { SameSurroundings segment.old.cut segment.new.cut }
{
    let (handle, shape) = start_next(segment, tokens, scratch)?;
    let object = object_here(segment, handle);
    fill(segment, object, shape, lines, room, scratch)
}

/// Constructs the object of a line: zeros if its kind is scalar, and otherwise empty.
fn start_next(
    segment: &mut Segment,
    tokens: &mut LineTokens<'_>,
    scratch: &mut LineBuffer,
) -> Result<(Handle, ObjectLine), BuildError>
    ensures start { StartsNext segment.old segment.new tokens.old result }
    ensures place { SameSurroundings segment.old.cut segment.new.cut }
    ensures in_place { IfOk result (λ made. HasObjectAt segment.new made.0) }
{
    match next_class(tokens)? {
        Class::Named => start_named(segment, tokens, scratch),
        Class::Unique => start_under(segment, tokens, &UniqueInstance),
        Class::Anonymous => start_under(segment, tokens, &AnonymousInstance),
    }
}

/// Returns the class that comes next.
fn next_class(tokens: &mut LineTokens<'_>) -> Result<Class, SyntaxError>
    ensures { ReadsClass tokens.old tokens.new result }
{
    let at = tokens.at();
    let token = tokens.next_bare()?;
    if is_same(token, b"named") {
        Ok(Class::Named)
    } else if is_same(token, b"unique") {
        Ok(Class::Unique)
    } else if is_same(token, b"anonymous") {
        Ok(Class::Anonymous)
    } else {
        Err(SyntaxError {
            at,
            cause: DumpFault::BadSyntax,
        })
    }
}

/// Returns the error that the text is wrong at offset `at`, for this cause.
pub fn syntax_error(at: usize, cause: DumpFault) -> BuildError {
    BuildError::Syntax(SyntaxError { at, cause })
}

/// Makes an object under the name that comes next.
fn start_named(
    segment: &mut Segment,
    tokens: &mut LineTokens<'_>,
    scratch: &mut LineBuffer,
) -> Result<(Handle, ObjectLine), BuildError>
    ensures start { StartsNamed segment.old segment.new tokens.old result }
    ensures place { SameSurroundings segment.old.cut segment.new.cut }
    ensures in_place { IfOk result (λ made. HasObjectAt segment.new made.0) }
{
    texts_are_spelled();
    let at = tokens.at();
    let token = tokens.next_token()?;
    match name_of(token, scratch) {
        Some(name) => start_under(segment, tokens, &name),
        None => Err(syntax_error(at, DumpFault::BadName)),
    }
}

/// Returns the token's text as a name, or `None` if it is no valid name.
fn name_of<'a>(token: Token<'a>, scratch: &'a mut LineBuffer) -> Option<Name<'a>>
    ensures { option_map name_seen result
        ≡ (if is_name current (bytes_said token.entry) then Some (bytes_said token.entry) else None) }
{
    match token {
        Token::Bare(bytes) => Name::new(bytes),
        Token::Text(text) => text.to_name(scratch),
    }
}

/// Reads a kind and a count, and constructs an object of that kind: that many zeros if it is scalar, and otherwise
/// empty.
fn start_under<D: ConstructKey>(
    segment: &mut Segment,
    tokens: &mut LineTokens<'_>,
    under: &D,
) -> Result<(Handle, ObjectLine), BuildError>
    requires { (kind : AnyKind) → D.suits under.now kind }
    ensures start { StartsUnder segment.old segment.new (D.key under.now) tokens.old result }
    ensures place { SameSurroundings segment.old.cut segment.new.cut }
    ensures in_place { IfOk result (λ made. HasObjectAt segment.new made.0) }
{
    let shape = next_shape(tokens)?;
    // The contract of `as_bytes` gives `IsSegment`, which `construct` requires.
    let _ = segment.as_bytes();
    match construct(segment, under, shape) {
        Ok(handle) => Ok((handle, shape)),
        Err(why) => Err(build_error_of(why, shape.at)),
    }
}

/// Returns the kind and the count that come next, if nothing follows them in the line.
fn next_shape(tokens: &mut LineTokens<'_>) -> Result<ObjectLine, SyntaxError>
    ensures { ReadsKindAndCount tokens.old result }
{
    numbers_are_decimals();
    let at = tokens.at();
    let kind = tokens.next_kind()?;
    let count = tokens.next_number()?;
    tokens.finish()?;
    Ok(ObjectLine { kind, count, at })
}

/// Converts a refusal by the segment into the error at offset `at`.
pub fn build_error_of(why: Refusal, at: usize) -> BuildError {
    match why {
        Refusal::NoSpace => BuildError::NoSpace(at),
        Refusal::Exists => syntax_error(at, DumpFault::Exists),
        _ => syntax_error(at, DumpFault::BadCount),
    }
}

/// Makes an object of a shape.
fn construct<D: ConstructKey>(
    segment: &mut Segment,
    under: &D,
    shape: ObjectLine,
) -> Result<Handle, Refusal>
    requires fit { (kind : AnyKind) → D.suits under.now kind }
    requires segment { IsSegment segment.old.cut.bytes }
    ensures step { IsCountOf shape.kind shape.count
        → TakesStep segment.old segment.new
        (Construct (D.key under.now shape.kind) (first_content shape.kind shape.count)) (handle_answer result) }
    ensures place { SameSurroundings segment.old.cut segment.new.cut }
    ensures in_place { IfOk result (HasObjectAt segment.new) }
{
    match shape.kind {
        Kind::Scalar(kind) => construct_scalars(segment, under, kind, shape.count),
        Kind::Vector(kind) => construct_vector(segment, under, kind),
        Kind::String => segment.construct_string(under, b""),
        Kind::Strings => segment.construct_texts(under, &[]),
        Kind::Map(keys, values) => segment.construct_map_of(under, keys, values),
    }
}

/// Makes an object of `count` zeros of a kind.
fn construct_scalars<D: ConstructKey>(
    segment: &mut Segment,
    under: &D,
    kind: ScalarKind,
    count: u64,
) -> Result<Handle, Refusal>
    requires { (kind : AnyKind) → D.suits under.now kind }
    ensures step { IsCountOf (ScalarOf kind) count
        → TakesStep segment.old segment.new
        (Construct (D.key under.now (ScalarOf kind)) (first_content (ScalarOf kind) count)) (handle_answer result) }
    ensures count { IfOk result (λ handle. IsCountOf (ScalarOf kind) count) }
    ensures place { SameSurroundings segment.old.cut segment.new.cut }
{
    if count < 1 || count > MAX_ARRAY_LEN {
        return Err(Refusal::OutOfRange);
    }
    let count = count as u32;
    macro_rules! construct {
        ($type:ty, $kind:ident) => {
            segment.construct(under, count, <$type>::default())
        };
    }
    by_kind!(kind, construct)
}

/// Makes an empty vector for elements of a kind.
fn construct_vector<D: ConstructKey>(
    segment: &mut Segment,
    under: &D,
    kind: ScalarKind,
) -> Result<Handle, Refusal>
    requires { (kind : AnyKind) → D.suits under.now kind }
    ensures { TakesStep segment.old segment.new
        (Construct (D.key under.now (VectorOf kind)) (first_content (VectorOf kind) 0)) (handle_answer result) }
{
    macro_rules! construct {
        ($type:ty, $kind:ident) => {
            segment.construct_vec::<$type, D>(under, &[])
        };
    }
    by_kind!(kind, construct)
}
