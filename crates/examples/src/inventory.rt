//! An inventory: articles as records, prices in a map, names as texts, suppliers as a group. `examples inventory FILE`
//! sells an apple from the file; with a number N behind FILE it adds 1 to the earnings N times, by N commits. The same
//! program in C, C++ and Python is in `crates/segment_c/c/examples`: each continues with the file of the others.
use anyhow::Result;
use std::alloc::Global;
use std::fs;
use zaluxhoni::{Disk, Refusal, Segment, SegmentFile, SliceReads, Vector, named};

/// What is kept of an article, as the bytes of a struct of C. Its weight is the bits of a double.
#[derive(Clone, Copy)]
struct Article {
    number: i32,
    count: i32,
    weight: u64,
}

impl Article {
    /// Makes an article of which there are `count`.
    fn new(number: i32, count: i32, weight: u64) -> Article {
        Article {
            number,
            count,
            weight,
        }
    }

    /// Returns the article that bytes spell.
    fn of_bytes(bytes: [u8; 16]) -> Article {
        let [a, b, c, d, e, f, g, h, i, j, k, l, m, n, o, p] = bytes;
        Article::new(
            i32::from_le_bytes([a, b, c, d]),
            i32::from_le_bytes([e, f, g, h]),
            u64::from_le_bytes([i, j, k, l, m, n, o, p]),
        )
    }

    /// Returns the bytes of an article.
    fn to_bytes(self) -> [u8; 16] {
        let [a, b, c, d] = self.number.to_le_bytes();
        let [e, f, g, h] = self.count.to_le_bytes();
        let [i, j, k, l, m, n, o, p] = self.weight.to_le_bytes();
        [a, b, c, d, e, f, g, h, i, j, k, l, m, n, o, p]
    }

    /// Returns the weight in kilograms, or 0 if its bits encode NaN.
    fn kilograms(self) -> f64 {
        if self.weight % 0x8000_0000_0000_0000 > 0x7ff0_0000_0000_0000 {
            return 0.0;
        }
        f64::from_bits(self.weight)
    }
}

/// Keeps the name of an article.
fn record_name(alloc: Global, shop: &mut Segment, number: i32, name: &str) -> Result<()> {
    let key = format!(in alloc; "names/{number}")?;
    shop.construct_string(&named(key.as_str())?, name.as_bytes())?;
    Ok(())
}

/// Puts an article after those that a supplier sells.
fn record_supplier(alloc: Global, shop: &mut Segment, number: i32, supplier: &str) -> Result<()> {
    let text = format!(in alloc; "suppliers/{supplier}")?;
    let key = named(text.as_str())?;
    shop.find_or_construct_vec::<i32, _>(&key, &[])?;
    Ok(shop.vec_push(&key, number)?)
}

/// Puts an article with its price into the inventory.
fn add(shop: &mut Segment, article: Article, price: i64) -> Result<()> {
    let (articles, prices) = (named("articles")?, named("prices")?);
    shop.vec_extend(&articles, &article.to_bytes())?;
    shop.map_put(&prices, article.number, price)?;
    Ok(())
}

/// Makes the objects of an inventory.
fn construct(shop: &mut Segment) -> Result<()> {
    let (articles, prices, earned) = (named("articles")?, named("prices")?, named("earned")?);
    shop.construct_vec::<u8, _>(&articles, &[])?;
    shop.construct_map::<i32, i64, _>(&prices)?;
    shop.construct(&earned, 1, 0i64)?;
    Ok(())
}

/// Puts the first three articles into an inventory that is new.
fn fill(alloc: Global, shop: &mut Segment) -> Result<()> {
    if shop.num_named() > 0 {
        return Ok(());
    }
    construct(shop)?;
    add(shop, Article::new(1, 10, 0.25f64.to_bits()), 250)?;
    record_name(alloc, shop, 1, "apples")?;
    record_supplier(alloc, shop, 1, "north")?;
    add(shop, Article::new(2, 4, 0.5f64.to_bits()), 320)?;
    record_name(alloc, shop, 2, "pears")?;
    record_supplier(alloc, shop, 2, "south")?;
    add(shop, Article::new(3, 7, 0.125f64.to_bits()), 1999)?;
    record_name(alloc, shop, 3, "figs")?;
    record_supplier(alloc, shop, 3, "north")
}

/// Returns the article at an index.
fn article_at(articles: &Vector<'_, u8>, index: u64) -> Result<Article, Refusal> {
    let mut bytes = [0u8; 16];
    let mut offset = index.saturating_mul(16);
    for byte in bytes.iter_mut() {
        *byte = articles.get(offset)?;
        offset = offset.saturating_add(1);
    }
    Ok(Article::of_bytes(bytes))
}

/// Adds to what was earned.
fn earn(shop: &mut Segment, more: i64) -> Result<()> {
    let earned = named("earned")?;
    let sum: i64 = shop.get(&earned, 0)?;
    Ok(shop.set(&earned, 0, sum.saturating_add(more))?)
}

/// Sells one of the first article, while there are any: its count and what was earned change.
fn sell(shop: &mut Segment) -> Result<()> {
    let (articles, prices) = (named("articles")?, named("prices")?);
    let mut sold = article_at(&Vector::of(shop, &articles)?, 0)?;
    if sold.count <= 0 {
        return Ok(());
    }
    sold.count -= 1;
    shop.write_range(&articles, 0, &sold.to_bytes())?;
    let price: Option<i64> = shop.map_get(&prices, sold.number)?;
    earn(shop, price.unwrap_or(0))
}

/// Tells of one article.
fn tell_of(rt: &HostRuntime, shop: &Segment, article: Article) -> Result<()> {
    let Article { number, count, .. } = article;
    let weight = article.kilograms();
    let key = format!(in rt.alloc(); "names/{number}")?;
    let name = str::from_utf8(shop.string_bytes(&named(key.as_str())?)?)?;
    let price: Option<i64> = shop.map_get(&named("prices")?, number)?;
    let price = price.unwrap_or(0);
    println!(rt; "{number} {name}: {count} of {weight} kg at {price}")?;
    Ok(())
}

/// Tells of all articles.
fn tell_of_articles(rt: &HostRuntime, shop: &Segment) -> Result<()> {
    let articles = Vector::<u8>::of(shop, &named("articles")?)?;
    for index in 0..articles.len() / 16 {
        tell_of(rt, shop, article_at(&articles, index)?)?;
    }
    Ok(())
}

/// Tells which articles a supplier sells.
fn tell_of_supplier(rt: &HostRuntime, shop: &Segment, name: &str, supplier: &str) -> Result<()> {
    print!(rt; "{supplier} sells")?;
    for number in Vector::<i32>::of(shop, &named(name)?)?.iter() {
        print!(rt; " {number}")?;
    }
    println!(rt; "")?;
    Ok(())
}

/// Tells what each supplier sells.
fn tell_of_suppliers(rt: &HostRuntime, shop: &Segment) -> Result<()> {
    for name in shop.names_from(b"suppliers/") {
        let name = str::from_utf8(name)?;
        let Some(supplier) = name.strip_prefix("suppliers/") else {
            break;
        };
        tell_of_supplier(rt, shop, name, supplier)?;
    }
    Ok(())
}

/// Tells what was earned.
fn tell_of_earnings(rt: &HostRuntime, shop: &Segment) -> Result<()> {
    let earned: i64 = shop.get(&named("earned")?, 0)?;
    println!(rt; "earned {earned}")?;
    Ok(())
}

/// Sells an apple of an inventory, which is filled if it is new, saves it, and tells what it has.
fn trade<D: Disk>(rt: &HostRuntime, disk: &mut D, file: &mut SegmentFile<D::Hold>) -> Result<()> {
    fill(rt.alloc(), &mut file.segment)?;
    sell(&mut file.segment)?;
    file.replace(disk)?;
    tell_of_articles(rt, &file.segment)?;
    tell_of_suppliers(rt, &file.segment)?;
    tell_of_earnings(rt, &file.segment)
}

/// Adds 1 to the earnings `times` times, commits each, tells of it when it lasts, and makes a checkpoint.
fn earn_times<D: Disk>(
    rt: &HostRuntime,
    disk: &mut D,
    file: &mut SegmentFile<D::Hold>,
    times: u64,
) -> Result<()> {
    fill(rt.alloc(), &mut file.segment)?;
    for _ in 0..times {
        earn(&mut file.segment, 1)?;
        file.commit(rt.alloc(), disk)?;
        tell_of_earnings(rt, &file.segment)?;
    }
    Ok(file.checkpoint(rt.alloc(), disk)?)
}

/// Opens the inventory or makes it. Then sells an apple, or earns as often as is asked.
fn visit(rt: &HostRuntime, disk: &mut impl Disk, path: &str, times: Option<u64>) -> Result<()> {
    let mut file = SegmentFile::open_or_create(rt.alloc(), disk, path, 65536)?;
    match times {
        Some(times) => earn_times(rt, disk, &mut file, times),
        None => trade(rt, disk, &mut file),
    }
}

/// Does what the arguments behind `inventory` ask for. Without any it sells two apples from a file of its own.
pub fn keep_inventory(rt: &HostRuntime, disk: &mut impl Disk, asked: &[String]) -> Result<()> {
    match asked {
        [] => {
            let _ = fs::remove_file(rt, "inventory.seg");
            visit(rt, disk, "inventory.seg", None)?;
            visit(rt, disk, "inventory.seg", None)
        }
        [path] => visit(rt, disk, path.as_str(), None),
        [path, times, ..] => visit(rt, disk, path.as_str(), Some(times.parse()?)),
    }
}
