//! Rows of the map of blocks.
ghost use Rattle.std.specs.Prelude.{◌≡◌};

use crate::owners::{Block, Owner};
use block_tags::Role;
use std::marker::Model;

/// A block in use, in 20 bytes. Two `Option`s would take 8 more; there is one row for each block, and the system must
/// provide each page of them.
#[derive(Drop)]
pub(crate) struct Row {
    len: u32,
    /// The offset of the link to the block, if there is one, and of its root link.
    at: u32,
    root: u32,
    /// The node that waits after the block, if there is one.
    next: u32,
    role: Role,
    is_owned: bool,
    has_next: bool,
}

impl Model for Row {
    ghost use Rattle.std.specs.Prelude.{Some, None, if◌then◌else◌};
    ghost use Rattle.image_check.specs.declared.owners.Block.{Block};

    ghost Value = { Block };

    ghost view = { λ r. record {
      role = r.role;
      len = r.len;
      owner = if r.is_owned then Some (record { at = r.at; root = r.root }) else None;
      next = if r.has_next then Some r.next else None;
    } };
}

impl Row {
    /// Makes the row of a block.
    pub(crate) fn new(block: Block) -> Row
        ensures { result ≡ block }
    {
        let (is_owned, owner) = match block.owner {
            Some(owner) => (true, owner),
            None => (false, Owner { at: 0, root: 0 }),
        };
        let (has_next, next) = match block.next {
            Some(next) => (true, next),
            None => (false, 0),
        };
        Row {
            len: block.len,
            at: owner.at,
            root: owner.root,
            next,
            role: block.role,
            is_owned,
            has_next,
        }
    }

    /// Returns the block.
    pub(crate) fn block(&self) -> Block
        ensures { result ≡ self.now }
    {
        Block {
            role: self.role,
            len: self.len,
            owner: if self.is_owned {
                Some(Owner {
                    at: self.at,
                    root: self.root,
                })
            } else {
                None
            },
            next: if self.has_next { Some(self.next) } else { None },
        }
    }
}
