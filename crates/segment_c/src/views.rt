//! Where elements stand, for C that reads and writes them there.
ghost use denote.RawPtr.{block_ptr};
ghost use Rattle.std.specs.Prelude.{◌≡◌, ◌≤◌, IfOk, true};
ghost use Rattle.seg_types.specs.{Keys.key_seen, Names.ByHandle};
ghost use Rattle.segment_c.specs.Views.{HasView, IsView, TellsView, writable};
ghost use Rattle.segment_c.specs.{Calls.HoldsSegment, Calls.PerformsRead, Passed.key_of, Passed.key_wrong};
ghost use Rattle.segment_c.specs.{Marked.LendsRange, Reads.IsCoded};
ghost use Rattle.segment_manager.specs.containers.ElementRuns.{IsRunOf, run_at};
ghost use Rattle.segment_manager.specs.{Directory.Directory, State.AnswersWith, State.DenotesCurrent};
ghost use Rattle.segment_manager.specs.objects.Found.{is_object_at};

use crate::calls::{enter, passed};
use crate::codes::{DONE, READ_ONLY, code_of};
use crate::keys::CKey;
use crate::slot::{Marks, Slot, put, put_taken_back, take};
use seg_types::{Handle, Key, Kind, Refusal, ScalarKind};
use segment_manager::unchecked::{element_run_of, object_here, object_of_kind};
use segment_manager::{ElementRun, Mode, Segment, is_remembered};

/// The kind of vectors of `i64`.
const NUMBERS: Kind = Kind::Vector(ScalarKind::I64);

/// Elements that stand one after another. The fields say where the first stands, its offset in the segment, how many
/// there are, the handle's counter of changes, and the code of their kind.
#[repr(C)]
#[derive(Clone, Copy)]
pub struct CView {
    /// Where the first element stands.
    pub at: *const u8,
    /// Its offset from the front of the segment.
    pub offset: u64,
    /// The number of elements.
    pub count: u64,
    /// The handle's counter of changes.
    pub changes: u64,
    /// The code of the elements' kind.
    pub kind: u32,
}

/// Says where the elements of the object of a key stand: of scalars, of a vector of scalars, or of a string, which has
/// bytes. They stand there until the counter of the handle's changes rises.
#[unsafe(no_mangle)]
pub extern "C" fn zx_view(h: &mut Slot, key: &CKey, view: &mut CView) -> u32
    ensures elements { TellsView (key_wrong key.now) (key_of key.now) result h.old h.new view.old view.new }
{
    match key.as_handle() {
        Some(handle) => zx_view_of(h, handle, view),
        None => view_any(h, key, view),
    }
}

/// Says where the elements of the object of a handle stand, which can be any number, as `zx_view` does.
#[inline(always)]
#[unsafe(no_mangle)]
pub extern "C" fn zx_view_of(h: &mut Slot, handle: u64, view: &mut CView) -> u32
    ensures elements { TellsView 0 (ByHandle handle) result h.old h.new view.old view.new }
{
    let segment = passed!(take(h));
    if is_remembered(&segment, handle) {
        let run = run_here(&segment, handle);
        let code = fill_view(&segment, &Key::Handle(handle), run, &h.marks, view);
        return put_taken_back(code, h, segment);
    }
    put_taken_back(DONE, h, segment);
    view_any(h, &CKey::of_handle(handle), view)
}

/// Returns where the elements of the object of a handle stand. A vector of `i64`, the kind that is read most, is found
/// without decoding a kind.
#[inline(always)]
fn run_here(segment: &Segment, handle: Handle) -> Result<ElementRun, Refusal>
    requires { AnswersWith segment.now (λ d. is_object_at d handle) true }
    ensures run { AnswersWith segment.now (λ d. run_at d (ByHandle handle)) result }
    ensures bytes { IfOk result (IsRunOf segment.now (ByHandle handle)) }
{
    match object_of_kind(segment, handle, NUMBERS) {
        Ok(object) => element_run_of(segment, object),
        Err(_) => element_run_of(segment, object_here(segment, handle)),
    }
}

/// Says where the elements of the object of a key stand, for any form of key.
#[inline(never)]
fn view_any(h: &mut Slot, key: &CKey, view: &mut CView) -> u32
    ensures elements { TellsView (key_wrong key.now) (key_of key.now) result h.old h.new view.old view.new }
{
    let (which, segment) = passed!(enter(h, key));
    let run = segment.element_run(&which);
    let code = fill_view(&segment, &which, run, &h.marks, view);
    put(code, h, segment)
}

/// Says where the elements of the object of a key stand, for C to write there; the handle notes it.
#[unsafe(no_mangle)]
pub extern "C" fn zx_view_mut(h: &mut Slot, key: &CKey, view: &mut CView) -> u32
    ensures read { PerformsRead (key_wrong key.now) result h.old.segment.value h.new.segment.value
        (λ s. (d : Directory) → DenotesCurrent s.cut.bytes d
        → IsCoded (IsView view.new) result (writable s.mode (run_at d (key_of key.now)))) }
    ensures bytes { result ≡ 0 → HoldsSegment h.old.segment.value (λ s. HasView s (key_of key.now) view.new) }
    ensures current { result ≡ 0 → view.new.changes ≡ h.old.marks.changes }
    ensures outputs_on_error { 1 ≤ result → view.new ≡ view.old }
    ensures marks { LendsRange result h.old.marks h.new.marks }
{
    let (which, segment) = passed!(enter(h, key));
    if segment.mode() == Mode::ReadOnly {
        return put(READ_ONLY, h, segment);
    }
    let code = fill_view(
        &segment,
        &which,
        segment.element_run(&which),
        &h.marks,
        view,
    );
    if code == DONE {
        h.marks.is_shared = true;
    }
    put(code, h, segment)
}

/// Returns where the elements of the object of a key stand, which `run` says.
#[inline(always)]
fn fill_view(
    segment: &Segment,
    _key: &Key,
    run: Result<ElementRun, Refusal>,
    marks: &Marks,
    view: &mut CView,
) -> u32
    requires run { AnswersWith segment.now (λ d. run_at d (key_seen _key.now)) run }
    requires bytes { IfOk run (IsRunOf segment.now (key_seen _key.now)) }
    ensures read { (d : Directory) → DenotesCurrent segment.now.cut.bytes d
        → IsCoded (IsView view.new) result (run_at d (key_seen _key.now)) }
    ensures bytes { result ≡ 0 → HasView segment.now (key_seen _key.now) view.new }
    ensures current { result ≡ 0 → view.new.changes ≡ marks.now.changes }
    ensures unchanged_on_error { 1 ≤ result → view.new ≡ view.old }
{
    match run {
        Ok(run) => {
            *view = CView {
                at: start_of(&segment.as_bytes()[run.offset as usize..]),
                offset: run.offset,
                count: run.count,
                changes: marks.changes,
                kind: run.kind.code(),
            };
            DONE
        }
        Err(why) => code_of(why),
    }
}

/// Returns where the first of the bytes stands.
fn start_of(bytes: &[u8]) -> *const u8
    ensures { result ≡ block_ptr bytes.entry.ref_ptr.0 bytes.entry.ref_ptr.1 }
{
    bytes.as_ptr()
}
