//! What holds of each commit, recovery and checkpoint, by the calls that a disk is asked for. These functions do
//! nothing.
ghost use Rattle.segment_log.specs.Laws.{CheckpointKeepsTheImage, CommitKeepsOne, CommittedLasts, RepairKeepsTheImage};
ghost use Rattle.segment_log.specs.Histories.{HistoriesStayReady, OpeningFindsOne};
ghost use Rattle.segment_log.specs.Openings.{CheckpointFindsTheSame, CheckpointedIsReady, CommitFindsOne};
ghost use Rattle.segment_log.specs.Openings.{CommittedFindsTheNew, RepairFindsTheSame, RepairedIsReady, ShutIsReady};
ghost use Rattle.segment_log.specs.Tags.{CheckpointKeepsOwn, CommitKeepsOwn};

/// States that a crash at any moment of a commit, however it ends, leaves the records from before it, with the new one
/// or without.
pub fn commit_keeps_one()
    ensures { CommitKeepsOne }
{}

/// States that a commit that is done lasts: each crash from then on leaves the new record, and the log can take
/// another.
pub fn committed_lasts()
    ensures { CommittedLasts }
{}

/// States that a crash at any moment of a repair of the log's end leaves the image.
pub fn repair_keeps_the_image()
    ensures { RepairKeepsTheImage }
{}

/// States that a crash at any moment of a checkpoint, however it ends, leaves the image.
pub fn checkpoint_keeps_the_image()
    ensures { CheckpointKeepsTheImage }
{}

/// States that a log belongs to its file after a commit too.
pub fn commit_keeps_own()
    ensures { CommitKeepsOwn }
{}

/// States that a log belongs to the file of a checkpoint too.
pub fn checkpoint_keeps_own()
    ensures { CheckpointKeepsOwn }
{}

/// States that opening finds the last image or the new one after a crash at any moment of a commit.
pub fn commit_finds_one()
    ensures { CommitFindsOne }
{}

/// States that opening finds the new image after each crash from the end of a commit on.
pub fn committed_finds_the_new()
    ensures { CommittedFindsTheNew }
{}

/// States that a file whose log ends with a shut gate can take a commit.
pub fn shut_is_ready()
    ensures { ShutIsReady }
{}

/// States that an opening that crashes while it shuts a gate leaves the image to the next one.
pub fn repair_finds_the_same()
    ensures { RepairFindsTheSame }
{}

/// States that a file can take a commit after an opening that has shut the gate.
pub fn repaired_is_ready()
    ensures { RepairedIsReady }
{}

/// States that opening finds the image after a crash at any moment of a checkpoint.
pub fn checkpoint_finds_the_same()
    ensures { CheckpointFindsTheSame }
{}

/// States that a file has its image without a record after a checkpoint that is done.
pub fn checkpointed_is_ready()
    ensures { CheckpointedIsReady }
{}

/// States that an opening after a crash that left one of two images finds one of them, however often it crashed before.
pub fn opening_finds_one()
    ensures { OpeningFindsOne }
{}

/// States that a file stands for the image of the last commit that was answered, or for what the last opening found,
/// after any history of commits, checkpoints, crashes and openings that may crash too.
pub fn histories_stay_ready()
    ensures { HistoriesStayReady }
{}
