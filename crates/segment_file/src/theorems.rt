//! What holds of every save, by the questions that it asks the disk. These functions do nothing.
ghost use Rattle.segment_file.specs.PathContents.{EmptyingTears, ReplacingKeepsOneWhole, SavingEndsWhole};
ghost use Rattle.segment_file.specs.PathContents.{UnplacedLeavesTheOld};

/// States that at each point of a save that replaces, the old image or the new one stands whole under the path.
pub fn replacing_keeps_one_whole()
    ensures { ReplacingKeepsOneWhole }
{}

/// States that a save that replaces leaves the old image if it fails before its file is to take the place of the old
/// one.
pub fn unplaced_leaves_the_old()
    ensures { UnplacedLeavesTheOld }
{}

/// States that a save that is done ends with the new image, whichever way it goes.
pub fn saving_ends_whole()
    ensures { SavingEndsWhole }
{}

/// States that a save that empties the file leaves neither image whole in between.
pub fn emptying_tears()
    ensures { EmptyingTears }
{}
