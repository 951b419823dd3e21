//! A shop in a file, which the first run makes and each later one opens. Boost: `open_or_create`, `find_or_construct`.
use anyhow::Result;
use zaluxhoni::{Disk, MapMut, Mode, Segment, SegmentFile, Strings, StringsMut, named, read};

/// Writes three prices into the map of a shop, and puts one more thing into its basket.
fn fill(shop: &mut Segment) -> Result<()> {
    let (prices, basket) = (named("prices")?, named("basket")?);
    shop.find_or_construct_map::<i32, i64, _>(&prices)?;
    let mut prices = MapMut::<i32, i64>::of(shop, &prices)?;
    prices.insert(1, 250)?;
    prices.insert(2, 1999)?;
    prices.insert(3, 75)?;
    shop.find_or_construct_texts(&basket, &[])?;
    Ok(StringsMut::of(shop, &basket)?.push(b"apples")?)
}

/// Opens a shop or makes it, fills it, and saves it.
fn keep_a_shop(rt: &HostRuntime, disk: &mut impl Disk) -> Result<()> {
    let mut file = SegmentFile::open_or_create(rt.alloc(), disk, "shop.seg", 4096)?;
    fill(&mut file.segment)?;
    Ok(file.save(disk)?)
}

/// Tells how many things are in the basket of a shop.
fn tell(rt: &HostRuntime, shop: &Segment) -> Result<()> {
    let count = Strings::of(shop, &named("basket")?)?.len();
    println!(rt; "open or create: the basket has {count}")?;
    Ok(())
}

/// Puts one more thing into the basket of a shop in a file, and reads the file.
pub fn visit_a_shop(rt: &HostRuntime, disk: &mut impl Disk) -> Result<()> {
    keep_a_shop(rt, disk)?;
    tell(rt, &read(rt.alloc(), disk, "shop.seg", Mode::ReadOnly)?)
}
