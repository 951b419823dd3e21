//! A file that nobody vouches for. Boost trusts what it maps.
use anyhow::Result;
use zaluxhoni::{Disk, FileError, Mode, OpenError, read};

/// Opens a file that somebody else wrote, and tells why it is no segment.
pub fn open_a_stranger(rt: &HostRuntime, disk: &mut impl Disk) -> Result<()> {
    match read(rt.alloc(), disk, "stranger.seg", Mode::ReadOnly) {
        Ok(segment) => println!(rt; "a stranger: {} bytes", segment.size())?,
        Err(FileError::Open(OpenError::Image(verdict))) => {
            let (class, number) = (verdict.class, verdict.class.number());
            println!(rt; "a stranger: refused by class {number}, {class}")?;
        }
        Err(why) => println!(rt; "a stranger: {why}")?,
    }
    Ok(())
}
