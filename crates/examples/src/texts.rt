//! A vector of strings. Boost: `vector<basic_string<..>, allocator<..>>`.
use anyhow::Result;
use zaluxhoni::{Disk, Segment, SegmentFile, StringsMut, named};

/// Makes a vector of two strings, puts a third after them, and reads the last one.
fn list_fruit(rt: &HostRuntime, segment: &mut Segment) -> Result<()> {
    let name = named("list")?;
    segment.construct_texts(&name, &[b"apples", b"pears"])?;
    let mut list = StringsMut::of(segment, &name)?;
    list.push(b"plums")?;
    let list = list.read();
    let (count, last) = (list.len(), str::from_utf8(list.get(2)?)?);
    println!(rt; "a vector of strings: {count} of them, the last is {last}")?;
    Ok(())
}

/// Makes a file with a vector of strings.
pub fn keep_a_list(rt: &HostRuntime, disk: &mut impl Disk) -> Result<()> {
    let mut file = SegmentFile::create(rt.alloc(), disk, "list.seg", 1024)?;
    list_fruit(rt, &mut file.segment)?;
    Ok(file.save(disk)?)
}
