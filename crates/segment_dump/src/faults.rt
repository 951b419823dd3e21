//! Why no segment is made of a dump.

use raw_region::RawRegion;
use std::fmt;
use thiserror::Error;

/// The fault of a dump.
#[derive(Clone, Copy, Debug, PartialEq, Eq, Error)]
pub enum DumpFault {
    /// The text ends, and not with the line `end`.
    #[error("the dump ends too early")]
    Cut,
    /// Something stands after the line `end`.
    #[error("more behind the end")]
    More,
    /// No dump has these bytes here.
    #[error("bad syntax")]
    BadSyntax,
    /// A line has more than 4096 bytes.
    #[error("line too long")]
    LongLine,
    /// There is no such kind.
    #[error("unknown kind")]
    UnknownKind,
    /// These bytes are no name.
    #[error("bad name")]
    BadName,
    /// No object has this number of elements.
    #[error("bad count")]
    BadCount,
    /// The kind does not have the value.
    #[error("no value of the kind")]
    BadValue,
    /// There is an object of this name or of this unique kind already.
    #[error("already exists")]
    Exists,
    /// From here on the segment that was made has another dump: names, kinds or keys do not rise, or a line is not
    /// spelled as it is in a dump.
    #[error("not as a dump has it")]
    Unlike,
}

/// Where a dump is wrong, and how.
#[derive(Clone, Copy, Debug, PartialEq, Eq, Error)]
#[error("line {line}, column {column}: {cause}")]
pub struct BadDump {
    /// The number of the line, from 1 on.
    pub line: u64,
    /// The number of the byte in the line, from 1 on.
    pub column: u64,
    /// The fault.
    pub cause: DumpFault,
}

/// Why no segment is made of a dump.
#[derive(Clone, Copy, Debug, PartialEq, Eq, Error)]
pub enum LoadError {
    /// The text is no dump.
    #[error("{0}")]
    BadDump(BadDump),
    /// The size is neither 144 nor a multiple of 16 from 176 to 1073741824.
    #[error("size refused")]
    BadSize,
    /// The region ends before base plus size.
    #[error("region too small")]
    RegionTooSmall,
    /// The objects do not fit a segment of the size.
    #[error("no space")]
    NoSpace,
    /// A text of a vector of strings is longer than the room that was lent for it.
    #[error("text longer than the room for it")]
    LongText,
}

/// A fault at an offset of the text, in bytes from its start.
#[derive(Clone, Copy)]
pub struct SyntaxError {
    /// The place.
    pub at: usize,
    /// The fault there.
    pub cause: DumpFault,
}

/// No segment is made of a dump. As text it is its cause.
#[derive(Drop, Error)]
#[error("{cause}")]
pub struct LoadRefused {
    /// The region that was handed in, as it was; nothing if a segment was begun in it.
    pub region: Option<RawRegion>,
    /// Why.
    pub cause: LoadError,
}

/// Its cause. The region's bytes are left out.
impl fmt::Debug for LoadRefused {
    fn fmt<W: fmt::Write>(&self, f: &mut fmt::Formatter<W>) -> fmt::Result {
        write!(f, "LoadRefused({:?})", self.cause)
    }
}
