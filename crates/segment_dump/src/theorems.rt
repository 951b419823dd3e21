//! Laws about the definitions of the contracts. The functions do nothing; their contracts are proved.
ghost use Rattle.segment_dump.specs.Laws.{CapacitiesAreLeftOut, DumpsHaveNoNotes, DumpsTellObjects, DumpsTellSizes};
ghost use Rattle.segment_dump.specs.Laws.{NotesAreCut, NotesAreLeftOut, SegmentsHaveRoom};

/// States that two segments with one dump have equal objects: equal names, classes, kinds and values, and the anonymous
/// objects in one order. They have one size.
pub fn dumps_tell_objects()
    ensures objects { DumpsTellObjects }
    ensures sizes { DumpsTellSizes }
{}

/// States that a segment has at least as many bytes as its objects need. They need the header and the end tag, the
/// blocks of the two indexes with just as many entries, and for each object its own block, its elements or pairs, and
/// its texts.
pub fn segments_have_room()
    ensures { SegmentsHaveRoom }
{}

/// States that a dump with notes after it, without these notes, is the dump again; so is a dump with capacities, and a
/// dump alone. From any text only notes at its end are removed.
pub fn notes_are_left_out()
    ensures after { NotesAreLeftOut }
    ensures capacities { CapacitiesAreLeftOut }
    ensures absent { DumpsHaveNoNotes }
    ensures uniqueness { NotesAreCut }
{}
