//! An array from an iterator. Boost: `construct_it<long>("primes")[5](it)`.
use anyhow::Result;
use zaluxhoni::{Disk, Segment, SegmentFile, named};

/// Makes an array of the next five items of an iterator, which goes on after them. If the array is there already, no
/// item is taken.
fn take_five(rt: &HostRuntime, segment: &mut Segment) -> Result<()> {
    let name = named("primes")?;
    let mut primes = [2i64, 3, 5, 7, 11, 13].into_iter();
    segment.construct_it(&name, 5, &mut primes)?;
    segment.find_or_construct_it(&name, 5, &mut primes)?;
    let (last, left): (i64, usize) = (segment.get(&name, 4)?, primes.count());
    println!(rt; "an array: its last number is {last}, and the iterator has {left} left")?;
    Ok(())
}

/// Makes a file with an array from an iterator.
pub fn keep_primes(rt: &HostRuntime, disk: &mut impl Disk) -> Result<()> {
    let mut file = SegmentFile::create(rt.alloc(), disk, "primes.seg", 1024)?;
    take_five(rt, &mut file.segment)?;
    Ok(file.save(disk)?)
}
