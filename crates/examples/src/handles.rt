//! Handles that are kept in objects. Boost: `get_handle_from_address`, `get_address_from_handle`.
use anyhow::Result;
use zaluxhoni::{AnonymousInstance, Disk, Key, Name, SegmentFile, named};

/// Makes a file with an object without a name, whose handle is kept in an object that has a name.
fn make_a_chain(rt: &HostRuntime, disk: &mut impl Disk, first: &Name) -> Result<()> {
    let mut file = SegmentFile::create(rt.alloc(), disk, "chain.seg", 1024)?;
    let secret = file.segment.construct(&AnonymousInstance, 1, 42i32)?;
    file.segment.construct(first, 1, secret)?;
    file.replace(disk)?;
    Ok(())
}

/// Makes the file, opens it, and finds the object by the handle that is kept under the name.
pub fn follow_a_handle(rt: &HostRuntime, disk: &mut impl Disk) -> Result<()> {
    let first = named("first")?;
    make_a_chain(rt, disk, &first)?;
    let file = SegmentFile::open(rt.alloc(), disk, "chain.seg")?;
    let handle: u64 = file.segment.get(&first, 0)?;
    let number: i32 = file.segment.get(&Key::Handle(handle), 0)?;
    file.close(disk);
    println!(rt; "handles: #{handle} has {number}")?;
    Ok(())
}
