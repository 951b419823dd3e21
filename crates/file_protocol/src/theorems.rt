//! What holds in each order of calls, whichever of them fail, whichever processes are killed, and whenever the power
//! fails. These functions do nothing.
ghost use Rattle.file_protocol.specs.Worlds.{NoCommitIsLost, NothingOfOthersChanges, OneWriter, ReaderFindsACommit};

/// States that an opening finds the image that was answered last, or that of a commit or save without an answer.
pub fn no_commit_is_lost()
    ensures { NoCommitIsLost }
{}

/// States that no two sessions hold FILE at once.
pub fn one_writer()
    ensures { OneWriter }
{}

/// States that a reader without a lock returns an image that an opening would have found at a moment of the reading.
pub fn reader_finds_a_commit()
    ensures { ReaderFindsACommit }
{}

/// States that a session that removes, replaces or writes anything holds the file that FILE leads to, and that what it
/// removes or replaces under the log's name is a log.
pub fn nothing_of_others_changes()
    ensures { NothingOfOthersChanges }
{}
