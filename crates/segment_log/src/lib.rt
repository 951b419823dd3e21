//! The log beside the file of a segment: a commit adds a record of what was changed, and costs that.
//!
//! `changes` makes the payload of a record, and `commit` writes it to a `LogDisk`. A `CommittedImage` does both, and
//! keeps the image. `recover` makes the image of a file with its log, and refuses the log of another file; `checkpoint`
//! puts that image in the place of the file. The contracts and the laws, as `commit_finds_one`, say what opening finds
//! after a crash at any moment. A caller that writes by itself has the bytes of `record_body` and of the gates.
//!
//! `log_kind` says whether a file under the name of a log is one, and whether it has records. For a save in place there
//! is a pending image: `completes` says whether an opener has to take it.
#![tactic(auto)]

mod committed_image;
mod committing;
mod edits;
mod fingerprints;
mod log_disk;
mod log_kinds;
mod payloads;
mod pending_images;
mod records;
mod recovery;
mod replaying;
mod tags;
mod theorems;

pub use committed_image::CommittedImage;
pub use committing::{CommitError, checkpoint, commit, shut};
pub use fingerprints::{PAGE_LEN, fingerprint, fingerprint_of_a_change, page_mark, with_page};
pub use log_disk::{LogDisk, LogFault};
pub use log_kinds::{
    HEAD_LEN, LogKind, commit_keeps_name, committed_has_records, gate_writes_keep_name,
    gates_begin_logs, kinds_tell_records, log_kind, named_logs_are_ours, no_gate_is_foreign,
    writes_behind_keep_name,
};
pub use payloads::{begin_payload, changes, edit_head, fill, push_edit};
pub use pending_images::{completes, pending_head, pending_image, pending_tail, saves_survive};
pub use records::{GATE_LEN, MAX_LOG_LEN, next_record, open_gate, record_body, shut_gate};
pub use recovery::{RecoverError, RecoveredImage, RecoveredWithin, recover, recover_within};
pub use replaying::{is_ajar, most_len};
pub use tags::{belongs, fits};
pub use theorems::{
    checkpoint_finds_the_same, checkpoint_keeps_own, checkpoint_keeps_the_image,
    checkpointed_is_ready, commit_finds_one, commit_keeps_one, commit_keeps_own,
    committed_finds_the_new, committed_lasts, histories_stay_ready, opening_finds_one,
    repair_finds_the_same, repair_keeps_the_image, repaired_is_ready, shut_is_ready,
};
