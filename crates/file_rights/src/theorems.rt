//! Laws about new files and about logs with the rights of their files. These functions do nothing.
ghost use Rattle.file_rights.specs.Laws.{ListedFileKeepsWriters, LogOfOwnerCounts, NarrowedLogCounts, NewModeIsWidest};

/// States that `narrowed` takes no right without need: if the old file has no access list, no other mode that never
/// widens grants the group or the others more.
pub fn new_mode_is_widest()
    ensures { NewModeIsWidest }
{}

/// States that a log counts whose owner and group are the file's and whose mode is `log_mode` of the file's, in every
/// folder and for every caller.
pub fn log_of_owner_counts()
    ensures { LogOfOwnerCounts }
{}

/// States that a log of the file's owner, of the caller or of root counts if its mode is what `narrowed` makes of
/// `log_mode` of the file's, whatever owner and group it could get.
pub fn narrowed_log_counts()
    ensures { NarrowedLogCounts }
{}

/// States how `log_counts` serves a file with an access list, and a log without a list: pass as the file's mode what
/// `narrowed` returns for the file's list, the same owner and the same group.
pub fn listed_file_keeps_writers()
    ensures { ListedFileKeepsWriters }
{}
