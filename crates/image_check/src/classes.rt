//! The reasons why bytes are not the image of a directory.
ghost use Rattle.std.specs.Prelude.{◌≡◌, Some};
ghost use Rattle.image_check.specs.Classes.{explanation_of, name_of, number_of, message_of};

use std::fmt;
use thiserror::Error;

/// The reason why bytes are not the image of a directory, in the order in which the check looks for them.
#[derive(Clone, Copy, Debug, PartialEq, Eq, Error)]
pub enum ImageClass {
    /// There are fewer than 144 bytes, the least size of a segment, or the first 24 are right and there are fewer than
    /// their size.
    Truncated,
    /// The first eight bytes are not `MSEGFILE`.
    BadMagic,
    /// The version is not an accepted one.
    UnsupportedVersion,
    /// The size is not a legal size of a segment, or there are more bytes than this size.
    BadSize,
    /// A reserved byte of the header is not 0.
    BadReserved,
    /// The tags do not fill the segment with tiles.
    BadTag,
    /// The free blocks do not form a tree by length and offset.
    BadFreeTree,
    /// An index has a wrong count, capacity, block or entry.
    BadIndex,
    /// An object has a wrong kind, count, name, class, padding or value, or is in the wrong index.
    BadObject,
    /// Two links lead to one block.
    SharedBlock,
    /// The block, elements, pairs or counts of a container are wrong.
    BadContainer,
    /// A block belongs to no object and no index.
    OrphanBlock,
}

impl ImageClass {
    /// Returns the number of the class in the order of the check, from 1 to 12.
    pub fn number(self) -> u8
        ensures { result ≡ number_of self }
    {
        match self {
            ImageClass::Truncated => 1,
            ImageClass::BadMagic => 2,
            ImageClass::UnsupportedVersion => 3,
            ImageClass::BadSize => 4,
            ImageClass::BadReserved => 5,
            ImageClass::BadTag => 6,
            ImageClass::BadFreeTree => 7,
            ImageClass::BadIndex => 8,
            ImageClass::BadObject => 9,
            ImageClass::SharedBlock => 10,
            ImageClass::BadContainer => 11,
            ImageClass::OrphanBlock => 12,
        }
    }

    /// Returns the name of the class.
    pub fn name(self) -> &'static str
        ensures { result.now ≡ name_of self }
    {
        match self {
            ImageClass::Truncated => "Truncated",
            ImageClass::BadMagic => "BadMagic",
            ImageClass::UnsupportedVersion => "UnsupportedVersion",
            ImageClass::BadSize => "BadSize",
            ImageClass::BadReserved => "BadReserved",
            ImageClass::BadTag => "BadTag",
            ImageClass::BadFreeTree => "BadFreeTree",
            ImageClass::BadIndex => "BadIndex",
            ImageClass::BadObject => "BadObject",
            ImageClass::SharedBlock => "SharedBlock",
            ImageClass::BadContainer => "BadContainer",
            ImageClass::OrphanBlock => "OrphanBlock",
        }
    }

    /// Returns the text of the class.
    pub fn message(self) -> &'static str
        ensures { result.now ≡ message_of self }
    {
        match self {
            ImageClass::Truncated => "the image ends too early",
            ImageClass::BadMagic => "the image does not begin with the magic",
            ImageClass::UnsupportedVersion => "the version is not supported",
            ImageClass::BadSize => "the size is wrong",
            ImageClass::BadReserved => "a reserved byte is not zero",
            ImageClass::BadTag => "the tags are wrong",
            ImageClass::BadFreeTree => "the free tree is wrong",
            ImageClass::BadIndex => "an index is wrong",
            ImageClass::BadObject => "an object is wrong",
            ImageClass::SharedBlock => "two links lead to one block",
            ImageClass::BadContainer => "a container is wrong",
            ImageClass::OrphanBlock => "a block belongs to nothing",
        }
    }

    /// Returns what is wrong with an image of the class. The words follow the offset of the byte that shows it.
    pub fn explanation(self) -> &'static str
        ensures { result.now ≡ explanation_of self }
    {
        match self {
            ImageClass::Truncated => "the file ends before the image does",
            ImageClass::BadMagic => "this byte is not that of the magic, MSEGFILE",
            ImageClass::UnsupportedVersion => "the version is not the one that is read",
            ImageClass::BadSize =>
                "the size that stands at 16 is none of a segment, or the file goes on behind it",
            ImageClass::BadTag => "the tag of a block or gap, or the end tag, is wrong",
            ImageClass::BadFreeTree => "the links from here on do not make up the tree of the gaps",
            ImageClass::BadIndex => "an index has a wrong count, capacity, block or entry",
            ImageClass::BadObject =>
                "an object has a wrong kind, count, name, class, padding or value, or is not in its index",
            ImageClass::BadContainer =>
                "the block, elements, pairs or counts of a container are wrong",
            ImageClass::BadReserved | ImageClass::SharedBlock | ImageClass::OrphanBlock =>
                self.message(),
        }
    }
}

impl fmt::Display for ImageClass {
    ghost output = { λ class. Some (message_of class) };

    ghost styled_output = { λ class spec. Some (message_of class) };

    fn fmt<W: fmt::Write>(&self, f: &mut fmt::Formatter<W>) -> fmt::Result {
        f.write_str(self.message())
    }
}
