//! Regrowth: lengthens a block in place, or replaces it by a new block.
ghost use Rattle.std.specs.Prelude.{◌≤◌, IfSome, IsTrue};
ghost use Rattle.raw_region.specs.Format.{current};
ghost use Rattle.best_fit.specs.Exchange.{Regrows, Replaces};
ghost use Rattle.best_fit.specs.Heap.{has_room, live_of};

use crate::heap::Heap;
use crate::refusal::NoSpace;
use block_tags::Role;
use raw_region::Steps;

impl Heap {
    /// Makes room for `n` bytes in a block and returns its handle; the block keeps its first `used` bytes.
    /// If the block has the room, it stays, and no byte changes. Otherwise the call lengthens it in place if possible,
    /// or allocates a new block of role storage before it frees the old one. Without a handle the block is new.
    ///
    /// # Errors
    ///
    /// `NoSpace` if a new block is needed and no gap is long enough. Nothing changes.
    pub fn regrow(&mut self, storage: Option<u64>, n: u64, used: u64) -> Result<u64, NoSpace>
        requires fits { used ≤ n }
        requires room { IfSome storage (λ h. IsTrue (has_room (live_of self.old.bytes) h used)) }
        ensures { Regrows current self.old self.new storage n used result }
    {
        // This brings in the invariant of a heap: its bytes encode a live set.
        let _ = &self.gaps;
        match storage {
            None => self.allocate(n, Role::Storage, &mut Steps::new()),
            Some(handle) => {
                if self.room(handle) >= n {
                    return Ok(handle);
                }
                if self.try_extend(handle, n, &mut Steps::new()) {
                    return Ok(handle);
                }
                self.replace(handle, n, used)
            }
        }
    }

    /// Allocates a new block for `n` bytes, copies the first `used` bytes of the old block to it, frees the old block,
    /// and returns the new handle; fails if no gap is long enough.
    fn replace(&mut self, handle: u64, n: u64, used: u64) -> Result<u64, NoSpace>
        requires fits { used ≤ n }
        requires room { IsTrue (has_room (live_of self.old.bytes) handle used) }
        ensures { Replaces current self.old self.new handle n used result }
    {
        // This brings in the invariant of a heap: its bytes encode a live set.
        let _ = &self.gaps;
        let new = self.allocate(n, Role::Storage, &mut Steps::new())?;
        self.copy(handle, 0, new, 0, used);
        self.deallocate(handle, &mut Steps::new());
        Ok(new)
    }
}
