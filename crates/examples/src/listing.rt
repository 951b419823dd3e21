//! What is in a segment. Boost: `named_begin`, `unique_begin`, `anonymous_instance`, `unique_instance`.
use anyhow::Result;
use zaluxhoni::{AnonymousInstance, Disk, Key, Segment, SegmentFile, UniqueInstance, named};

/// Constructs an `i64` with a name, the unique `i32`, and three bytes without a key, and returns the handle of the
/// bytes.
fn fill(segment: &mut Segment) -> Result<u64> {
    let name = named("width")?;
    segment.construct(&name, 1, 640i64)?;
    segment.find_or_construct_array(&name, 3, 0i64)?;
    segment.construct(&UniqueInstance, 1, 7i32)?;
    Ok(segment.construct_array(&AnonymousInstance, 3, 9u8)?)
}

/// Prints the first object of each index.
fn tell_the_first(rt: &HostRuntime, segment: &Segment) -> Result<()> {
    if let Some(first) = segment.named_instances().next() {
        println!(rt; "a list: the first name has the handle #{}", first.handle)?;
    }
    if let Some(only) = segment.unique_instances().next() {
        println!(rt; "a list: the first unique object is of kind {}", only.kind)?;
    }
    Ok(())
}

/// Prints all names, in the order of their bytes.
fn tell_the_names(rt: &HostRuntime, segment: &Segment) -> Result<()> {
    for name in segment.names() {
        let name = str::from_utf8(name)?;
        println!(rt; "a list: the name {name}")?;
    }
    Ok(())
}

/// Prints all objects, also those without a key.
fn tell_of_all(rt: &HostRuntime, segment: &Segment) -> Result<()> {
    for object in segment.objects() {
        let (handle, count, kind) = (object.handle, object.count, object.kind);
        println!(rt; "a list: #{handle} has {count} elements of kind {kind}")?;
    }
    Ok(())
}

/// Fills a segment, and prints its contents.
fn list(rt: &HostRuntime, segment: &mut Segment) -> Result<()> {
    let handle = fill(segment)?;
    tell_the_first(rt, segment)?;
    tell_the_names(rt, segment)?;
    tell_of_all(rt, segment)?;
    let len = segment.instance_length(&Key::Handle(handle))?;
    println!(rt; "a list: #{handle} has {len} elements")?;
    Ok(())
}

/// Creates and fills a segment in a file, and prints its contents.
pub fn list_a_segment(rt: &HostRuntime, disk: &mut impl Disk) -> Result<()> {
    let mut file = SegmentFile::create(rt.alloc(), disk, "listed.seg", 1024)?;
    list(rt, &mut file.segment)
}
