//! A page that a browser shows of a segment: its picture, its figures, and its objects as a table.
ghost use Rattle.std.specs.Prelude.{◌≡◌, ◌-◌, ◌^◌, ◌<◌};
ghost use Rattle.raw_region.specs.Device.{Writes};
ghost use Rattle.segment_report.specs.Page.{cells_text, figures_head, figures_part, instance_row, objects_part};
ghost use Rattle.segment_report.specs.Page.{page_end, page_head, page_of, picture_part, rows_text, table_head};
ghost use Rattle.segment_report.specs.Telling.{WritesReport};

use crate::figures::stat;
use crate::parts::{Part, put_parts};
use crate::picture::draw;
use raw_region::{DeviceFault, Sink, write_all};
use seg_types::{Handle, Kind};
use segment_manager::{Instance, Segment};

/// Writes a page of HTML that shows a segment: its picture, its figures, and its objects as a table that can be sorted
/// and searched. The page needs no other file.
///
/// It returns `DeviceFault` if the writer failed: what went out is then shorter than the page, and the page begins with
/// it.
pub fn draw_page<W: Sink>(segment: &Segment, out: &mut W) -> Result<(), DeviceFault>
    requires { (W.history out.old).failures < 2 ^ 64 - 1 }
    ensures { WritesReport segment.now (W.history out.old) (W.history out.new) result page_of }
{
    put_picture(segment, out)?;
    put_figures(segment, out)?;
    put_objects(segment, out)
}

/// Writes how a page begins, and the picture.
fn put_picture<W: Sink>(segment: &Segment, out: &mut W) -> Result<(), DeviceFault>
    requires { (W.history out.old).failures < 2 ^ 64 - 1 }
    ensures { WritesReport segment.now (W.history out.old) (W.history out.new) result picture_part }
{
    put_head(out)?;
    draw(segment, out)
}

/// Writes the figures, which the page's script lays out.
fn put_figures<W: Sink>(segment: &Segment, out: &mut W) -> Result<(), DeviceFault>
    requires { (W.history out.old).failures < 2 ^ 64 - 1 }
    ensures { WritesReport segment.now (W.history out.old) (W.history out.new) result figures_part }
{
    put_figures_head(out)?;
    stat(segment, out)
}

/// Writes the table of the objects, and how a page ends.
fn put_objects<W: Sink>(segment: &Segment, out: &mut W) -> Result<(), DeviceFault>
    requires { (W.history out.old).failures < 2 ^ 64 - 1 }
    ensures { WritesReport segment.now (W.history out.old) (W.history out.new) result objects_part }
{
    put_table_head(out)?;
    put_rows(segment, out)?;
    put_page_end(out)
}

/// Writes a row of the table for each object.
fn put_rows<W: Sink>(segment: &Segment, out: &mut W) -> Result<(), DeviceFault>
    requires { (W.history out.old).failures < 2 ^ 64 - 1 }
    ensures { WritesReport segment.now (W.history out.old) (W.history out.new) result rows_text }
{
    'objects: for said in segment.objects() {
        put_row(out, said)?;
    }
    Ok(())
}

/// Writes the row of an object.
fn put_row<W: Sink>(out: &mut W, said: Instance<'_>) -> Result<(), DeviceFault>
    requires { (W.history out.old).failures < 2 ^ 64 - 1 }
    ensures { Writes (W.history out.old) (W.history out.new) result (instance_row said.entry) }
{
    let class = said.class.as_str().as_bytes();
    put_cells(out, class, said.name, said.kind, said.count, said.handle)
}

/// Writes a row of the table.
fn put_cells<'a, W: Sink>(
    out: &mut W,
    class: &'a [u8],
    name: &'a [u8],
    kind: Kind,
    count: u32,
    handle: Handle,
) -> Result<(), DeviceFault>
    requires { (W.history out.old).failures < 2 ^ 64 - 1 }
    ensures { Writes (W.history out.old) (W.history out.new) result (cells_text class.now name.now kind count handle) }
{
    put_parts(
        out,
        &[
            Part::Bytes(b"<tr><td>"),
            Part::Bytes(class),
            Part::Bytes(b"</td><td>"),
            Part::Escaped(name),
            Part::Bytes(b"</td><td>"),
            Part::Kind(kind),
            Part::Bytes(b"</td><td>"),
            Part::Number(u64::from(count)),
            Part::Bytes(b"</td><td>"),
            Part::Number(handle),
            Part::Bytes(b"</td></tr>\n"),
        ],
    )
}

/// Writes how a page begins: its encoding and its style.
fn put_head<W: Sink>(out: &mut W) -> Result<(), DeviceFault>
    requires { (W.history out.old).failures < 2 ^ 64 - 1 }
    ensures { Writes (W.history out.old) (W.history out.new) result page_head }
{
    write_all(
        out,
        b"<!DOCTYPE html>\n<html lang='en'><head><meta charset='utf-8'><title>Segment</title>\n\
        <style>body{font:14px sans-serif;margin:2em}svg{max-width:1080px}\
        table{border-collapse:collapse}td,th{padding:2px 12px;border-bottom:1px solid #ccd;text-align:left}th{cursor:pointer}</style></head>\n<body><h1>Segment</h1>\n",
    )
}

/// Writes the part before the figures.
fn put_figures_head<W: Sink>(out: &mut W) -> Result<(), DeviceFault>
    requires { (W.history out.old).failures < 2 ^ 64 - 1 }
    ensures { Writes (W.history out.old) (W.history out.new) result figures_head }
{
    write_all(
        out,
        b"<h2>Figures</h2><table id='figures'></table>\n<script type='text/plain' id='stat'>\n",
    )
}

/// Writes the part before the rows of the table.
fn put_table_head<W: Sink>(out: &mut W) -> Result<(), DeviceFault>
    requires { (W.history out.old).failures < 2 ^ 64 - 1 }
    ensures { Writes (W.history out.old) (W.history out.new) result table_head }
{
    write_all(
        out,
        b"</script>\n<h2>Objects</h2><input id='search' placeholder='search'>\n<table id='objects'><thead>\
        <tr><th>class</th><th>name</th><th>kind</th><th>count</th><th>handle</th></tr></thead><tbody>\n",
    )
}

/// Writes how a page ends: the script that lays out the figures, and sorts and searches the table.
fn put_page_end<W: Sink>(out: &mut W) -> Result<(), DeviceFault>
    requires { (W.history out.old).failures < 2 ^ 64 - 1 }
    ensures { Writes (W.history out.old) (W.history out.new) result page_end }
{
    write_all(
        out,
        b"</tbody></table>\n<script>\n\
        const rows=[...document.querySelectorAll('#objects tbody tr')],body=document.querySelector('#objects tbody');\n\
        const lines=document.getElementById('stat').textContent.trim().split(String.fromCharCode(10));\n\
        for(const line of lines){const at=line.lastIndexOf(' '),row=document.getElementById('figures').insertRow();\n\
        row.insertCell().textContent=line.slice(0,at);row.insertCell().textContent=line.slice(at+1)}\n\
        document.getElementById('search').oninput=e=>{for(const row of rows)row.hidden=!row.textContent.includes(e.target.value)};\n\
        document.querySelectorAll('#objects th').forEach((head,column)=>{let up=false;head.onclick=()=>{up=!up;\n\
        rows.sort((a,b)=>{const x=a.cells[column].textContent,y=b.cells[column].textContent;\n\
        return(up?1:-1)*(x-y||x.localeCompare(y))});for(const row of rows)body.append(row)}});\n\
        </script></body></html>\n",
    )
}
