//! A map that outlives the run. Boost: `open_only`, `find<map<int, long>>("prices")`.
use anyhow::Result;
use zaluxhoni::{Disk, Map, Mode, Segment, named, read};

/// Asks a shop for two prices.
fn tell(rt: &HostRuntime, shop: &Segment) -> Result<()> {
    let prices = Map::<i32, i64>::of(shop, &named("prices")?)?;
    let (second, fourth) = (prices.get(2), prices.get(4));
    println!(rt; "a map: article 2 costs {second:?}, article 4 {fourth:?}")?;
    Ok(())
}

/// Opens the shop of another run for reading, and asks for two prices.
pub fn look_up_prices(rt: &HostRuntime, disk: &mut impl Disk) -> Result<()> {
    tell(rt, &read(rt.alloc(), disk, "shop.seg", Mode::ReadOnly)?)
}
