//! Objects that are looked up once: their calls need no name. Boost: the pointer that `find` and `construct` return.
use anyhow::Result;
use zaluxhoni::{
    ArrayMut, Disk, Map, MapMut, MapRanges, Name, Refusal, Segment, SegmentFile, SliceReads,
    StringMut, StringsMut, TextSequence, VectorMut, named,
};

/// Puts numbers into a queue, and takes some out.
fn fill(queue: &mut VectorMut<'_, i64>) -> Result<(), Refusal> {
    queue.push(4)?;
    queue.insert(0, 3)?;
    queue.set(1, 5)?;
    queue.erase(0)?;
    queue.assign(&[6, 7])?;
    queue.extend(&[8])
}

/// Shows a view of a vector of numbers: their sum, how many they are, and the last one, which `pop` takes out.
fn view_a_queue(rt: &HostRuntime, segment: &mut Segment) -> Result<()> {
    let name = named("queue")?;
    segment.construct_vec::<i64, _>(&name, &[])?;
    let mut queue = VectorMut::<i64>::of(segment, &name)?;
    fill(&mut queue)?;
    let sum = queue.read().iter().fold(0i64, i64::saturating_add);
    let (len, last) = (queue.read().len(), queue.pop()?);
    println!(rt; "views: a queue of {len} with the sum {sum}, the last is {last}")?;
    Ok(())
}

/// Makes an array of two bytes, changes it, and returns the greater byte.
fn change_an_array(segment: &mut Segment, name: &Name) -> Result<u8, Refusal> {
    segment.construct(name, 2, 7u8)?;
    let mut flags = ArrayMut::<u8>::of(segment, name)?;
    flags.overwrite(0, &[1, 8])?;
    flags.set(1, 9)?;
    let mut both = [0u8; 2];
    flags.read().copy_to(&mut both)?;
    Ok(both[0].max(both[1]))
}

/// Puts a year for each of three numbers into a map, and erases one.
fn record_years(years: &mut MapMut<'_, i32, i64>) -> Result<(), Refusal> {
    years.insert(1, 1972)?;
    years.insert(2, 1978)?;
    let same = years.read().get(2).unwrap_or(0);
    years.insert(3, same)?;
    years.erase(1);
    Ok(())
}

/// Shows a map by rising keys: its first pair, the next one after the number 3, and the sum of the years.
fn view_rising(rt: &HostRuntime, years: &Map<'_, i32, i64>, flag: u8) -> Result<()> {
    let ends = [years.iter().next(), years.next_after(3)];
    let sum = years
        .range(2..=9)
        .fold(0i64, |sum, (_number, year)| sum.saturating_add(year));
    println!(rt; "views: a flag {flag}, in the map {ends:?}, and {sum} in all")?;
    Ok(())
}

/// Shows a map by falling keys: its last two pairs.
fn view_falling(rt: &HostRuntime, years: &Map<'_, i32, i64>) -> Result<()> {
    for (number, year) in years.range(..=9).rev().take(2) {
        println!(rt; "views: going back, number {number} is of {year}")?;
    }
    Ok(())
}

/// Shows a view of an array, and one of a map.
fn view_a_map(rt: &HostRuntime, segment: &mut Segment) -> Result<()> {
    let flag = change_an_array(segment, &named("flags")?)?;
    let name = named("years")?;
    segment.construct_map::<i32, i64, _>(&name)?;
    let mut years = MapMut::of(segment, &name)?;
    record_years(&mut years)?;
    view_rising(rt, &years.read(), flag)?;
    view_falling(rt, &years.read())
}

/// Makes a string, appends to it, changes it, and returns its length.
fn lengthen_a_text(segment: &mut Segment, name: &Name) -> Result<usize, Refusal> {
    segment.construct_string(name, b"red")?;
    let mut title = StringMut::of(segment, name)?;
    title.append(b"-black")?;
    title.set(0, b'R')?;
    title.assign(b"splay")?;
    Ok(title.read().as_bytes().len())
}

/// Makes a list of three texts, takes two out, changes the one left, and returns how many bytes it has.
fn shorten_a_list(segment: &mut Segment, name: &Name) -> Result<usize, Refusal> {
    segment.construct_texts(name, &[b"second"])?;
    let mut lines = StringsMut::of(segment, name)?;
    lines.push(b"third")?;
    lines.insert(0, b"first")?;
    lines.pop()?;
    lines.erase(0)?;
    lines.set(0, b"only")?;
    let mut bytes = 0usize;
    for line in lines.read().iter() {
        bytes = bytes.saturating_add(line.len());
    }
    Ok(bytes)
}

/// Shows a view of a string, and one of a vector of strings.
fn view_texts(rt: &HostRuntime, segment: &mut Segment) -> Result<()> {
    let title = lengthen_a_text(segment, &named("title")?)?;
    let line = shorten_a_list(segment, &named("lines")?)?;
    println!(rt; "views: a title of {title} bytes, and a line of {line}")?;
    Ok(())
}

/// Shows a view of each sort of object.
pub fn view_objects(rt: &HostRuntime, disk: &mut impl Disk) -> Result<()> {
    let mut file = SegmentFile::create(rt.alloc(), disk, "views.seg", 4096)?;
    view_a_queue(rt, &mut file.segment)?;
    view_a_map(rt, &mut file.segment)?;
    view_texts(rt, &mut file.segment)
}
