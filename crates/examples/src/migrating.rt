//! A file of an older format. Boost has one layout for each of its versions, and no way between them.
use anyhow::Result;
use zaluxhoni::{Disk, FileError, Mode, OpenError, Segment, check, migrate, named, read};

/// Tells the number of a segment.
fn tell(rt: &HostRuntime, segment: &Segment) -> Result<()> {
    let number: i64 = segment.get(&named("a")?, 0)?;
    println!(rt; "an older format: migrated, its number is {number}")?;
    Ok(())
}

/// Migrates a file of an older format to the current one, and reads its number.
pub fn migrate_an_older_file(rt: &HostRuntime, disk: &mut impl Disk) -> Result<()> {
    if let Err(FileError::Open(OpenError::Image(verdict))) = check(rt.alloc(), disk, "older.seg") {
        println!(rt; "an older format: {verdict}")?;
        migrate(rt.alloc(), disk, "older.seg")?;
    }
    tell(rt, &read(rt.alloc(), disk, "older.seg", Mode::ReadOnly)?)
}
