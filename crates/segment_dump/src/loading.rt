//! A segment built from a dump. The lines are executed, and then the segment is compared with the whole text, so that
//! no line needs to be trusted.
ghost use Rattle.std.specs.Prelude.{◌≡◌, ◌↔◌, ◌%◌, ◌++◌, ℕ, List, length, IfOk, IfSome, IsTrue, MatchResult, OnOk};
ghost use Rattle.std.specs.Prelude.{Some, None};
ghost use Rattle.std.specs.Bool.{OnTrue};
ghost use Rattle.best_fit.specs.Ends.{EndsAt};
ghost use Rattle.raw_region.specs.Memory.{SameSurroundings};
ghost use Rattle.segment_lang.specs.{Lexing.Bare, Tokens.next_token};
ghost use Rattle.segment_manager.specs.declared.modes.Mode.TheVariants.{Write};
ghost use Rattle.segment_dump.specs.Counting.{IsDumpPrefix, fronted};
ghost use Rattle.segment_dump.specs.Notes.{without_notes};
ghost use Rattle.segment_dump.specs.Lines.{BeginsWithEntries, BeginsWithPrefix, BeginsWithSize, BeginsWithVersion};
ghost use Rattle.segment_dump.specs.Reads.{Any, ended};
ghost use Rattle.segment_dump.specs.Succeeding.{AreNumbers, IsNumber, JudgesDump, LiesOf, MakesObjects, ReadsLead};
ghost use Rattle.segment_dump.specs.Succeeding.{CapacitiesOf, IndexesOf, KeepsCapacities, KeepsIndexes, Sizes};
ghost use Rattle.segment_dump.specs.Succeeding.{Succeeds, SucceedsOf, Takes, Trims, entries_said, size_said};
ghost use Rattle.segment_dump.specs.Succeeding.{version_said};
ghost use Rattle.segment_dump.specs.Loading.{HasExactIndexes, HasSize, IsRequestedSize, IsExact, IsJudged, IsLacking};
ghost use Rattle.segment_dump.specs.Loading.{HasExactCapacities, IsLetGo, IsLoaded, LetsGoOfDumps};
ghost use Rattle.segment_dump.specs.Loading.{LiesIn, LoadsUnlessLacking, IsNotLoaded, IsRefusalOf, IsWrong, asked_of};
ghost use Rattle.segment_dump.specs.Loading.{cause_in};
ghost use Rattle.segment_dump.specs.Loading.{refusal_for};

use crate::building::{BuildError, build, build_error_of};
use crate::comparing::compare;
use crate::counting::{Count, DumpPrefix, count_dump};
use crate::faults::{BadDump, DumpFault, LoadError, LoadRefused, SyntaxError};
use crate::line_columns::line_column_at;
use crate::notes::without_notes;
use crate::tokens::{LineTokens, Lines};
use block_tags::is_legal_size;
use raw_region::RawRegion;
use segment_lang::numbers_are_decimals;
use segment_manager::unchecked::cut_end;
use segment_manager::{CreateRefused, Mode, Segment};

/// Makes a segment from a dump, in the `size` bytes of the region from `base` on. `base` is a multiple of 16. If `size`
/// is `None`, the segment takes as many bytes as the dump says, and then keeps only those up to its last block, so that
/// nothing in it is free. The new segment has the same objects as the dumped one: the same names, classes, kinds and
/// values, and anonymous objects in the same order. `room` holds the longest text of a vector of strings: as many bytes
/// as the dump has are enough. `load` leaves out notes after the dump ([`without_notes`]), so the new segment does not
/// keep the capacities. Each index, vector and string of the new segment has exactly the capacity for its elements.
///
/// # Errors
///
/// `BadDump` says where the text is no dump, and why. If `load` cannot count the lines, `BadDump` is the only error.
/// `BadSize`: no segment can have the size. `RegionTooSmall`: the region has too few bytes from `base` on. `NoSpace`:
/// the objects need more bytes than the size, so the dumped segment was longer. `LongText`: a vector of strings has a
/// text that is longer than the room. If no segment was begun, as for the last four errors, `load` gives the region
/// back unchanged; otherwise it drops the region. The region also comes back if one of the first three lines is not as
/// a dump has it.
pub fn load(
    text: &[u8],
    room: &mut [u8],
    region: RawRegion,
    base: u64,
    size: Option<u64>,
) -> Result<Segment, LoadRefused>
    requires aligned { base % 16 ≡ 0 }
    ensures completion { MatchResult result (IsLoaded (without_notes text.now) size)
        (IsNotLoaded (without_notes text.now) region base size (length room.old)) }
    ensures exact { IsExact (without_notes text.now) (length region) base size (length room.old) (cause_in result) }
    ensures cause { IfSome (cause_in result)
        (IsLacking (without_notes text.now) (length region) base size (length room.old)) }
    ensures success { Succeeds (without_notes text.now) (length region) base size (length room.old) result }
    ensures place { IfOk result (LiesIn (without_notes text.now) region base size) }
    ensures indexes { IfOk result (HasExactIndexes (without_notes text.now)) }
    ensures capacities { IfOk result (HasExactCapacities (without_notes text.now)) }
    ensures region { LetsGoOfDumps (without_notes text.now) result }
{
    load_lines(without_notes(text), room, region, base, size)
}

/// Makes a segment of a dump without notes.
fn load_lines(
    text: &[u8],
    room: &mut [u8],
    region: RawRegion,
    base: u64,
    size: Option<u64>,
) -> Result<Segment, LoadRefused>
    requires aligned { base % 16 ≡ 0 }
    ensures completion { MatchResult result (IsLoaded text.now size)
        (IsNotLoaded text.now region base size (length room.old)) }
    ensures exact { IsExact text.now (length region) base size (length room.old) (cause_in result) }
    ensures cause { IfSome (cause_in result) (IsLacking text.now (length region) base size (length room.old)) }
    ensures success { Succeeds text.now (length region) base size (length room.old) result }
    ensures place { IfOk result (LiesIn text.now region base size) }
    ensures indexes { IfOk result (HasExactIndexes text.now) }
    ensures capacities { IfOk result (HasExactCapacities text.now) }
    ensures region { LetsGoOfDumps text.now result }
{
    let counted = count_dump(text);
    if let Some(cause) = refusal_of(counted, &region, base, size, room.len()) {
        let region = Some(region);
        return Err(LoadRefused { region, cause });
    }
    make(text, counted, room, region, base, size)
}

/// Makes the segment of a dump. `counted` is what `count_dump` returned. The caller checked that nothing is lacking.
fn make(
    text: &[u8],
    counted: Result<Count, usize>,
    room: &mut [u8],
    region: RawRegion,
    base: u64,
    size: Option<u64>,
) -> Result<Segment, LoadRefused>
    requires aligned { base % 16 ≡ 0 }
    ensures completion { MatchResult result (IsLoaded text.now size)
        (IsNotLoaded text.now region base size (length room.old)) }
    ensures exact { LoadsUnlessLacking (length region) base size (length room.old) counted (cause_in result) }
    ensures success { SucceedsOf text.now (length region) base size (length room.old) counted result }
    ensures place { LiesOf text.now region base size (length room.old) counted result }
    ensures indexes { IndexesOf text.now (length region) base size (length room.old) counted result }
    ensures capacities { CapacitiesOf text.now (length region) base size (length room.old) counted result }
    ensures region { LetsGoOfDumps text.now result }
{
    let mut lines = Lines::new(text);
    let prefix = match read_prefix(&mut lines) {
        Ok(prefix) => prefix,
        Err(misfit) => {
            return Err(LoadRefused {
                region: Some(region),
                cause: bad_dump(text, misfit),
            });
        }
    };
    let asked = asked_size(size, declared_size(counted, prefix.size));
    let mut segment = match Segment::create(region, base, asked, Mode::Write) {
        Ok(segment) => segment,
        Err(refused) => return Err(not_created(text, refused, counted)),
    };
    if let Err(stop) = make_objects(&mut segment, prefix, &mut lines, room, text.len()) {
        return Err(let_go(cause_of(text, stop, counted)));
    }
    judge(segment, text, prefix.size, size)
}

/// Returns the size in `counted`, or `said` if the lines could not be counted.
fn declared_size(counted: Result<Count, usize>, said: u64) -> u64
    ensures { IfOk counted (λ count. result ≡ count.size) }
{
    match counted {
        Ok(count) => count.size,
        Err(_) => said,
    }
}

/// Returns the contents of the first three lines.
fn read_prefix(lines: &mut Lines<'_>) -> Result<DumpPrefix, SyntaxError>
    ensures reading { Takes fronted IsDumpPrefix lines.old lines.new result }
    ensures prefix { OnOk result (BeginsWithPrefix lines.old) }
{
    read_version(lines)?;
    let size = read_size(lines)?;
    let (named, unique) = read_entries(lines)?;
    Ok(DumpPrefix {
        size,
        named,
        unique,
    })
}

/// Returns the next line without its first word, which must be `token`.
fn read_lead<'a>(lines: &mut Lines<'a>, token: &[u8]) -> Result<LineTokens<'a>, SyntaxError>
    ensures lead { ReadsLead token.now lines.old lines.new result }
    ensures exact { IfOk result (λ tail. (line : List ℕ) × (lines.old ≡ ended line ++ lines.new)
        × (next_token line ≡ Some (Bare token.now, tail))) }
{
    let mut tokens = lines.next_line()?;
    tokens.expect(token)?;
    Ok(tokens)
}

/// Reads the first line.
fn read_version(lines: &mut Lines<'_>) -> Result<(), SyntaxError>
    ensures reading { Takes version_said Any lines.old lines.new result }
    ensures version { OnOk result (BeginsWithVersion lines.old lines.new) }
{
    let mut tokens = read_lead(lines, b"segment")?;
    tokens.expect(b"dump")?;
    tokens.expect(b"1")?;
    tokens.finish()
}

/// Returns the size.
fn read_size(lines: &mut Lines<'_>) -> Result<u64, SyntaxError>
    ensures reading { Takes size_said IsNumber lines.old lines.new result }
    ensures size { IfOk result (λ size. BeginsWithSize size lines.old lines.new) }
{
    numbers_are_decimals();
    let mut tokens = read_lead(lines, b"size")?;
    let size = tokens.next_number()?;
    tokens.finish()?;
    Ok(size)
}

/// Returns the numbers of entries of the indexes.
fn read_entries(lines: &mut Lines<'_>) -> Result<(u64, u64), SyntaxError>
    ensures reading { Takes entries_said AreNumbers lines.old lines.new result }
    ensures entries { IfOk result (λ entries. BeginsWithEntries entries.0 entries.1 lines.old lines.new) }
{
    numbers_are_decimals();
    let mut tokens = read_lead(lines, b"indexes")?;
    let named = tokens.next_number()?;
    let unique = tokens.next_number()?;
    tokens.finish()?;
    Ok((named, unique))
}

/// Returns the requested size, or the size in the text if none is requested.
fn asked_size(size: Option<u64>, said: u64) -> u64
    ensures request { IsRequestedSize size result }
    ensures value { result ≡ asked_of size said }
{
    size.unwrap_or(said)
}

/// Returns why `load` begins no segment: the size is not legal, the region is too short, the objects need more than the
/// size, or a text is longer than the room. Returns `None` if nothing is lacking.
fn refusal_for(
    count: Count,
    region: &RawRegion,
    base: u64,
    size: Option<u64>,
    room: usize,
) -> Option<LoadError>
    ensures { result ≡ refusal_for (length region.now) base size room count }
{
    let asked = asked_size(size, count.size);
    if !is_legal_size(asked) {
        return Some(LoadError::BadSize);
    }
    if !region.in_range(base, asked) {
        return Some(LoadError::RegionTooSmall);
    }
    if asked < count.needs.room {
        return Some(LoadError::NoSpace);
    }
    if (room as u64) < count.needs.longest {
        return Some(LoadError::LongText);
    }
    None
}

/// Returns why `load` begins no segment, or `None` if nothing is lacking or the lines could not be counted.
fn refusal_of(
    counted: Result<Count, usize>,
    region: &RawRegion,
    base: u64,
    size: Option<u64>,
    room: usize,
) -> Option<LoadError>
    ensures { IsRefusalOf (length region.now) base size room counted result }
{
    match counted {
        Ok(count) => refusal_for(count, region, base, size, room),
        Err(_) => None,
    }
}

/// Returns the refusal after `Segment::create` refused. This only happens if some lines could not be counted, because
/// for a count `refusal_of` has checked the size and the region.
fn not_created(text: &[u8], refused: CreateRefused, counted: Result<Count, usize>) -> LoadRefused
    ensures return_path { result.region ≡ Some refused.region }
    ensures cause { IsWrong text.now result.cause }
{
    let (region, _cause) = refused.into_parts();
    LoadRefused {
        region: Some(region),
        cause: bad_dump(text, uncounted(text, 0, counted)),
    }
}

/// Returns the refusal for this cause, without a region: the region was dropped.
fn let_go(cause: LoadError) -> LoadRefused
    ensures absent { result.region ≡ None }
    ensures cause { result.cause ≡ cause }
{
    LoadRefused {
        region: None,
        cause,
    }
}

/// Returns the fault at an offset of a text.
fn bad_dump(text: &[u8], misfit: SyntaxError) -> LoadError
    ensures { IsWrong text.now result }
{
    let at = misfit.at.min(text.len());
    let (line, column) = line_column_at(text, at);
    LoadError::BadDump(BadDump {
        line,
        column,
        cause: misfit.cause,
    })
}

/// Returns why a build stopped. If objects or a text need more than was counted, a line is wrong: the first one that
/// could not be counted, or the line at the stop if all could.
fn cause_of(text: &[u8], stop: BuildError, counted: Result<Count, usize>) -> LoadError
    ensures { IsWrong text.now result }
{
    match stop {
        BuildError::Syntax(misfit) => bad_dump(text, misfit),
        BuildError::NoSpace(at) => bad_dump(text, uncounted(text, at, counted)),
        BuildError::LongText(at) => bad_dump(text, uncounted(text, at, counted)),
    }
}

/// Returns the error at the first line that could not be counted, or at `at` if all could.
fn uncounted(text: &[u8], at: usize, counted: Result<Count, usize>) -> SyntaxError {
    let at = match counted {
        Ok(_) => at,
        Err(left) => text.len().saturating_sub(left),
    };
    SyntaxError {
        at,
        cause: DumpFault::Unlike,
    }
}

/// Makes all objects of a dump in an empty segment. Before that, it reserves the entries in the indexes that the front
/// of the dump asks for.
fn make_objects(
    segment: &mut Segment,
    prefix: DumpPrefix,
    lines: &mut Lines<'_>,
    room: &mut [u8],
    most: usize,
) -> Result<(), BuildError>
    ensures objects { MakesObjects segment.old segment.new prefix lines.old most (length room.old) result }
    ensures place { SameSurroundings segment.old.cut segment.new.cut }
{
    let at = lines.at();
    if let Err(why) = segment.reserve_named(prefix.named) {
        return Err(build_error_of(why, at));
    }
    if let Err(why) = segment.reserve_unique(prefix.unique) {
        return Err(build_error_of(why, at));
    }
    build(segment, lines, room, most)
}

/// Trims a segment, and returns it if it is open for writing, the text is its dump, and it has the right size.
fn judge(
    mut segment: Segment,
    text: &[u8],
    said: u64,
    size: Option<u64>,
) -> Result<Segment, LoadRefused>
    ensures completion { MatchResult result (IsJudged text.now size) (IsLetGo text.now) }
    ensures success { JudgesDump segment text.now said size result }
    ensures place { IfOk result (λ s. EndsAt segment.cut s.cut (length s.cut.bytes)) }
    ensures indexes { KeepsIndexes segment result }
    ensures capacities { KeepsCapacities segment result }
{
    if !is_open(&segment) {
        return Err(unlike(text, 0));
    }
    trim(&mut segment, size);
    match compare(&segment, said, text) {
        Err(at) => Err(unlike(text, at)),
        Ok(()) => {
            if has_size(&segment, size) {
                Ok(segment)
            } else {
                Err(unlike(text, 0))
            }
        }
    }
}

/// Cuts off the free bytes at the end, if no size is requested.
fn trim(segment: &mut Segment, size: Option<u64>)
    requires writing { segment.old.mode ≡ Write }
    ensures changes { Trims segment.old segment.new size }
    ensures place { EndsAt segment.old.cut segment.new.cut (length segment.new.cut.bytes) }
{
    match size {
        None => cut_end(segment),
        Some(_) => {}
    }
}

/// Returns the refusal of a text that, from byte `at` on, differs from the dump of the segment built from it.
fn unlike(text: &[u8], at: usize) -> LoadRefused
    ensures { IsLetGo text.now result }
{
    let cause = DumpFault::Unlike;
    let_go(bad_dump(text, SyntaxError { at, cause }))
}

/// Tells whether a segment is open for writing.
fn is_open(segment: &Segment) -> bool
    ensures { IsTrue result ↔ (segment.now.mode ≡ Write) }
{
    segment.mode() == Mode::Write
}

/// Returns true if the segment has the requested size, or no free bytes if none is requested.
fn has_size(segment: &Segment, size: Option<u64>) -> bool
    ensures content { OnTrue result (HasSize segment.now size) }
    ensures every { Sizes segment.now size result }
{
    match size {
        None => segment.free() == 0,
        Some(size) => segment.size() == size,
    }
}
