//! The objects of a segment, one after another in the order of a dump, whatever is written of each.
ghost use Rattle.std.specs.Prelude.{◌≡◌, ◌-◌, ◌^◌, ◌<◌};
ghost use Rattle.std.specs.List.{flat_map};
ghost use Rattle.seg_types.specs.Names.{ByHandle};
ghost use Rattle.segment_manager.specs.Directory.{named_objects, object_at, unique_objects};
ghost use Rattle.segment_manager.specs.objects.Instances.{SaysOf};
ghost use Rattle.segment_dump.specs.Items.{anonymous_objects};
ghost use Rattle.segment_dump.specs.DumpWrites.{WritesOf, where_anonymous};
ghost use Rattle.segment_manager.specs.Parts.{part_of};

use raw_region::{DeviceFault, Sink};
use seg_types::Class;
use segment_manager::unchecked::{named_instance, unique_instance};
use segment_manager::{Instance, Segment};

/// The writer of each object's text.
pub(crate) trait ObjectWriter {
    ghost use Rattle.std.specs.Prelude.{List, ℕ};
    ghost use Rattle.segment_manager.specs.Directory.{Object};

    // The text of an object.
    ghost text: { Self → Object → List ℕ };

    /// Writes the text of the object with these properties.
    fn tell<W: Sink>(
        &self,
        segment: &Segment,
        said: Instance<'_>,
        out: &mut W,
    ) -> Result<(), DeviceFault>
        requires writer { (W.history out.old).failures < 2 ^ 64 - 1 }
        requires text { SaysOf segment.now (ByHandle said.handle) said }
        ensures { WritesOf segment.now (W.history out.old) (W.history out.new) result (λ d.
            part_of (text self.now) (object_at d (ByHandle said.entry.handle))) };
}

/// Writes the named objects, in the order of their names.
pub(crate) fn put_named<T: ObjectWriter, W: Sink>(
    telling: &T,
    segment: &Segment,
    out: &mut W,
) -> Result<(), DeviceFault>
    requires { (W.history out.old).failures < 2 ^ 64 - 1 }
    ensures { WritesOf segment.now (W.history out.old) (W.history out.new) result (λ d.
        flat_map (T.text telling.now) (named_objects d)) }
{
    'names: for index in 0..segment.num_named() {
        telling.tell(segment, named_instance(segment, index), out)?;
    }
    Ok(())
}

/// Writes the unique objects, in the order of their kinds.
pub(crate) fn put_unique<T: ObjectWriter, W: Sink>(
    telling: &T,
    segment: &Segment,
    out: &mut W,
) -> Result<(), DeviceFault>
    requires { (W.history out.old).failures < 2 ^ 64 - 1 }
    ensures { WritesOf segment.now (W.history out.old) (W.history out.new) result (λ d.
        flat_map (T.text telling.now) (unique_objects d)) }
{
    'kinds: for index in 0..segment.num_unique() {
        telling.tell(segment, unique_instance(segment, index), out)?;
    }
    Ok(())
}

/// Writes the anonymous objects, in the order of their handles.
pub(crate) fn put_anonymous<T: ObjectWriter, W: Sink>(
    telling: &T,
    segment: &Segment,
    out: &mut W,
) -> Result<(), DeviceFault>
    requires { (W.history out.old).failures < 2 ^ 64 - 1 }
    ensures { WritesOf segment.now (W.history out.old) (W.history out.new) result (λ d.
        flat_map (T.text telling.now) (anonymous_objects d)) }
{
    'objects: for said in segment.objects() {
        put_if_anonymous(telling, segment, said, out)?;
    }
    Ok(())
}

/// Writes an object if it is anonymous.
fn put_if_anonymous<T: ObjectWriter, W: Sink>(
    telling: &T,
    segment: &Segment,
    said: Instance<'_>,
    out: &mut W,
) -> Result<(), DeviceFault>
    requires writer { (W.history out.old).failures < 2 ^ 64 - 1 }
    requires text { SaysOf segment.now (ByHandle said.handle) said }
    ensures { WritesOf segment.now (W.history out.old) (W.history out.new) result (λ d.
        part_of (where_anonymous (T.text telling.now)) (object_at d (ByHandle said.entry.handle))) }
{
    match said.class {
        Class::Anonymous => telling.tell(segment, said, out),
        _ => Ok(()),
    }
}
