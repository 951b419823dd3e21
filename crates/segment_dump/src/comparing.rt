//! Whether a text is the dump of a segment.
ghost use Rattle.std.specs.Prelude.{OnErr, OnOk};
ghost use Rattle.segment_dump.specs.Comparing.{IsDumpOf, IsNoDumpOf};

use crate::compare_sink::CompareSink;
use crate::dumping::dump_as;
use segment_manager::Segment;

/// Compares a text with the output of [`dump`](crate::dump) for a segment, in which `size` replaces the segment's
/// size.
///
/// # Errors
///
/// The length of the equal prefix. The contract does not state this number.
pub fn compare(segment: &Segment, size: u64, text: &[u8]) -> Result<(), usize>
    ensures on_ok { OnOk result (IsDumpOf segment.now size text.now) }
    ensures on_error { OnErr result (IsNoDumpOf segment.now size text.now) }
{
    let mut out = CompareSink::new(text);
    match dump_as(segment, size, &mut out) {
        Ok(()) => {
            if out.has_all() {
                Ok(())
            } else {
                Err(out.alike())
            }
        }
        Err(_) => Err(out.alike()),
    }
}
