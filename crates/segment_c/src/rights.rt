//! The rights of files beside others: C asks here whether a log counts.
ghost use Rattle.std.specs.Prelude.{◌≡◌};
ghost use Rattle.segment_c.specs.Rights.{TellsWhetherLogCounts, ownership};

use file_rights::{Ownership, log_counts};

/// Tells whether a log beside a file in a folder counts for a caller: 1 if it does, and otherwise 0. Each of the three
/// has an owner, a group and a mode.
#[unsafe(no_mangle)]
pub extern "C" fn zx_log_counts(
    file_owner: u32,
    file_group: u32,
    file_mode: u32,
    log_owner: u32,
    log_group: u32,
    log_mode: u32,
    folder_owner: u32,
    folder_group: u32,
    folder_mode: u32,
    caller: u32,
) -> u32
    ensures { TellsWhetherLogCounts (ownership file_owner file_group file_mode)
        (ownership log_owner log_group log_mode) (ownership folder_owner folder_group folder_mode) caller result }
{
    let file = Ownership {
        owner: file_owner,
        group: file_group,
        mode: file_mode,
    };
    let log = Ownership {
        owner: log_owner,
        group: log_group,
        mode: log_mode,
    };
    let folder = Ownership {
        owner: folder_owner,
        group: folder_group,
        mode: folder_mode,
    };
    if log_counts(file, log, folder, caller) {
        1
    } else {
        0
    }
}
