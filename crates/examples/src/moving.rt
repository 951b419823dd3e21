//! A segment in another region. Boost: a mapping at another address, through `offset_ptr`.
use anyhow::Result;
use zaluxhoni::{Disk, Mode, RawRegion, Segment, named, read};

/// Tells the first number of a segment, and how many bytes of its region lie behind it.
fn tell(rt: &HostRuntime, segment: &Segment) -> Result<()> {
    let first: i64 = segment.get(&named("primes")?, 0)?;
    let behind = segment.region_left();
    println!(rt; "another region: the first number is {first}, and {behind} bytes lie behind")?;
    Ok(())
}

/// Moves the segment of a file to byte 512 of a region of its own, and reads it there; its objects are where they were
/// in it.
pub fn move_a_segment(rt: &HostRuntime, disk: &mut impl Disk) -> Result<()> {
    let segment = read(rt.alloc(), disk, "primes.seg", Mode::Write)?;
    let (moved, _left) = segment.relocate(RawRegion::new(rt.alloc(), 4096)?, 512)?;
    tell(rt, &moved)
}
