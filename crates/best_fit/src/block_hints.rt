//! Block hints: known handles of blocks in use. A search for a handle finds it there, or starts at the nearest hint.
ghost use Rattle.std.specs.Prelude.{◌≡◌, ◌≢◌, ℕ, ◌⊎◌, ◌<◌, ◌≤◌, IfSome, slice_index, true};
ghost use Rattle.best_fit.specs.BlockHints.{AreNone, IsHinted, LacksHandle, known_slot_of, slot_of};

use raw_region::HintTable;

/// The binary logarithm of the first length of the pieces, in bytes.
const SHORTEST: u32 = 11;

/// The number of places for remembered handles. The places of the pieces follow.
const KNOWN: usize = 256;

/// Remembered handles, each in the one place that its number allows, and at most one handle for each piece of a window.
/// All pieces have the same length. Their number depends on the room for notes that came with the window's region;
/// without it there are no hints.
#[derive(Drop)]
pub struct BlockHints {
    /// The remembered handles, then the least known handle of each piece; 0 for an empty place.
    handles: HintTable,
    /// The binary logarithm of the length of a piece, in bytes.
    piece: u32,
}

impl BlockHints {
    /// Makes empty hints in the room of notes that are all 0.
    pub fn none_in(handles: HintTable) -> BlockHints
        requires { (i : ℕ) → slice_index handles i ≡ 0 }
        ensures { AreNone result }
    {
        BlockHints {
            handles,
            piece: SHORTEST,
        }
    }

    /// Returns the room for notes.
    pub fn into_table(self) -> HintTable {
        let BlockHints { handles, piece: _ } = self;
        handles
    }

    /// Notes a handle if no lower one is known in its piece. If the handle lies after all pieces, it first lengthens
    /// them.
    pub fn insert(&mut self, handle: u64)
        ensures { (h : ℕ) → IsHinted self.new h → (h ≡ handle) ⊎ IsHinted self.old h }
    {
        if slot(self.piece, handle) < self.handles.len() {
            write_hint(&mut self.handles, self.piece, handle);
        } else {
            self.widen();
        }
    }

    /// Doubles the length of each piece.
    fn widen(&mut self)
        ensures { (h : ℕ) → IsHinted self.new h → IsHinted self.old h }
    {
        let wider = self.piece.saturating_add(1);
        spread(&mut self.handles, self.piece, wider);
        self.piece = wider;
    }

    /// Remembers a handle. It replaces the handle in the same place.
    pub(crate) fn insert_known(&mut self, handle: u64)
        ensures { (h : ℕ) → IsHinted self.new h → (h ≡ handle) ⊎ IsHinted self.old h }
    {
        if handle <= u32::MAX as u64 {
            self.handles.set(known_slot(handle), handle as u32);
        }
    }

    /// Returns true if the handle is remembered.
    #[inline(always)]
    pub(crate) fn is_known(&self, handle: u64) -> bool
        ensures { result ≡ true → IsHinted self.now handle }
    {
        handle != 0 && self.handles.get(known_slot(handle)) as u64 == handle
    }

    /// Removes a handle, and returns true if it was the hint of its piece.
    pub(crate) fn remove(&mut self, handle: u64) -> bool
        ensures { (h : ℕ) → IsHinted self.new h → (h ≢ handle) × IsHinted self.old h }
    {
        clear(&mut self.handles, known_slot(handle), handle);
        clear(&mut self.handles, slot(self.piece, handle), handle)
    }

    /// Returns the greatest hint of a piece that is at most `handle`, if there is one.
    pub(crate) fn nearest(&self, handle: u64) -> Option<u64>
        ensures { IfSome result (λ h. IsHinted self.now h × (h ≤ handle)) }
    {
        let handles = self.handles.as_slice();
        let behind = slot(self.piece, handle)
            .saturating_add(1)
            .min(handles.len());
        'pieces: for piece in (KNOWN..behind).rev() {
            let known = handles[piece] as u64;
            if known != 0 && known <= handle && slot(self.piece, known) == piece {
                return Some(known);
            }
        }
        None
    }
}

/// Notes a handle as the hint of its piece if no lower one is known there.
fn write_hint(handles: &mut HintTable, piece: u32, handle: u64)
    ensures { (i : ℕ) → (slice_index handles.new i ≡ slice_index handles.old i)
        ⊎ ((i ≡ slot_of piece handle) × (slice_index handles.new i ≡ handle)) }
{
    let slot = slot(piece, handle);
    let known = handles.get(slot) as u64;
    if handle <= u32::MAX as u64 {
        if known == 0 || handle < known {
            handles.set(slot, handle as u32);
        }
    }
}

/// Empties a place if it contains the handle, and returns true if it did.
fn clear(handles: &mut HintTable, slot: usize, handle: u64) -> bool
    ensures { LacksHandle handles.old handles.new slot handle }
{
    if handles.get(slot) as u64 == handle {
        handles.set(slot, 0);
        return true;
    }
    false
}

/// Moves the hints of shorter pieces to wider ones.
fn spread(handles: &mut HintTable, shorter: u32, wider: u32)
    ensures piece { (h : ℕ) → 0 < h → slice_index handles.new (slot_of wider h) ≡ h
        → slice_index handles.old (slot_of shorter h) ≡ h }
    ensures frame { (i : ℕ) → i < 256 → slice_index handles.new i ≡ slice_index handles.old i }
{
    'pieces: for piece in KNOWN..handles.len() {
        let handle = handles.get(piece) as u64;
        handles.set(piece, 0);
        if slot(shorter, handle) == piece && slot(wider, handle) <= piece {
            write_hint(handles, wider, handle);
        }
    }
}

/// Returns the place of the piece that contains an offset.
fn slot(piece: u32, offset: u64) -> usize
    ensures { result ≡ slot_of piece offset }
{
    (offset.wrapping_shr(piece) as usize).saturating_add(KNOWN)
}

/// Returns the place for a remembered handle.
fn known_slot(handle: u64) -> usize
    ensures { result ≡ known_slot_of handle }
{
    (handle / 16 % KNOWN as u64) as usize
}
