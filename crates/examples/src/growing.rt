//! Growing when space runs out. Boost: `managed_mapped_file::grow`, with the file closed.
use anyhow::Result;
use zaluxhoni::{Disk, Refusal, SegmentFile, named};

/// Asks a segment for a hundred numbers, and makes it longer when they find no space.
fn keep_numbers<H: Drop>(rt: &HostRuntime, file: &mut SegmentFile<H>) -> Result<()> {
    let numbers = named("numbers")?;
    if file.segment.construct(&numbers, 100, 0i64) == Err(Refusal::NoSpace) {
        file.grow(rt.alloc(), 1024)?;
        file.segment.construct(&numbers, 100, 0i64)?;
    }
    Ok(())
}

/// Keeps a hundred numbers in a segment, gives up what is free at its end, and saves it to another file.
fn fit<D: Disk>(rt: &HostRuntime, disk: &mut D, file: &mut SegmentFile<D::Hold>) -> Result<()> {
    keep_numbers(rt, file)?;
    file.shrink()?;
    file.save_as(disk, "grown.seg")?;
    let size = file.segment.size();
    println!(rt; "growing: {size} bytes hold a hundred numbers")?;
    Ok(())
}

/// Makes a segment of 208 bytes, which grows.
pub fn grow_when_full(rt: &HostRuntime, disk: &mut impl Disk) -> Result<()> {
    let mut file = SegmentFile::create(rt.alloc(), disk, "small.seg", 208)?;
    fit(rt, disk, &mut file)
}
