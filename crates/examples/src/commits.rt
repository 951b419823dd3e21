//! Commits: each lasts when it returns, and costs what was changed. Boost has no counterpart.
use anyhow::Result;
use zaluxhoni::{Disk, Mode, SegmentFile, named, read};

/// Counts a sale, and commits it.
fn sell<D: Disk>(rt: &HostRuntime, disk: &mut D, till: &mut SegmentFile<D::Hold>) -> Result<()> {
    let sales = named("sales")?;
    let sold: i64 = till.segment.get(&sales, 0)?;
    till.segment.set(&sales, 0, sold.wrapping_add(1))?;
    Ok(till.commit(rt.alloc(), disk)?)
}

/// Begins to count in a till that is new, and sells two things.
fn begin<D: Disk>(rt: &HostRuntime, disk: &mut D, till: &mut SegmentFile<D::Hold>) -> Result<()> {
    till.segment.construct(&named("sales")?, 1, 0i64)?;
    sell(rt, disk, till)?;
    sell(rt, disk, till)
}

/// Makes a till and sells two things. It ends without a save, as a run that is killed.
fn open_a_till<D: Disk>(rt: &HostRuntime, disk: &mut D) -> Result<()> {
    let mut till = SegmentFile::create(rt.alloc(), disk, "till.seg", 4096)?;
    begin(rt, disk, &mut till)?;
    till.close(disk);
    Ok(())
}

/// Sells one thing more, and puts all into the file.
fn close_the_till<D: Disk>(rt: &HostRuntime, disk: &mut D) -> Result<()> {
    let mut till = SegmentFile::open(rt.alloc(), disk, "till.seg")?;
    sell(rt, disk, &mut till)?;
    Ok(till.checkpoint(rt.alloc(), disk)?)
}

/// Reads how many things were sold.
fn count<D: Disk>(rt: &HostRuntime, disk: &mut D) -> Result<i64> {
    let sales = named("sales")?;
    Ok(read(rt.alloc(), disk, "till.seg", Mode::ReadOnly)?.get(&sales, 0)?)
}

/// Commits sales, and tells what a reader finds.
pub fn commit_sales<D: Disk>(rt: &HostRuntime, disk: &mut D) -> Result<()> {
    open_a_till(rt, disk)?;
    let committed = count(rt, disk)?;
    close_the_till(rt, disk)?;
    let kept = count(rt, disk)?;
    println!(rt; "commits: {committed} sales in the log, and {kept} in the file")?;
    Ok(())
}
