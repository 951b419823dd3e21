//! Types of the requests to a disk and of its answers.

use thiserror::Error;

/// What is there under a path.
#[derive(Clone, Copy, Debug, PartialEq, Eq)]
pub enum Presence {
    /// Nothing.
    Absent,
    /// A file, or something else.
    There,
    /// That can't be known.
    Unknown,
}

/// How a held file gets another image: which file is opened, with no byte in it, to write the image to.
#[derive(Clone, Copy, Debug, PartialEq, Eq)]
pub enum SaveMode {
    /// The file is emptied.
    InPlace,
    /// A new file is made beside it. The held file stays as it is until the new file replaces it.
    Replacing,
}

/// The result of comparing the file of a path with the held file, and its bytes with an image.
#[derive(Clone, Copy, Debug, PartialEq, Eq)]
pub enum Comparison {
    /// The path leads to another file than the held one.
    Other,
    /// The path leads to no other file. Its bytes differ from the image, or can't be compared.
    Different,
    /// The path leads to no other file. Its file can be opened for writing, and its bytes equal the image.
    Equal,
}

/// The right to write a file is refused: another writer has it, or a log has commits that the file lacks.
#[derive(Clone, Copy, Debug, Drop, PartialEq, Eq, Error)]
#[error("file in use")]
pub struct AlreadyLocked;

/// Why a file is not opened for reading.
#[derive(Clone, Copy, Debug, PartialEq, Eq)]
pub enum NotOpened {
    /// It can't be opened or read with its log.
    Fault,
    /// The log beside it is of another file.
    ForeignLog,
}

/// A problem with a file: why it can't be opened, read, made or written, or that its replacement has another owner.
#[derive(Clone, Copy, Debug, PartialEq, Eq)]
pub enum FileProblem {
    /// No file is there.
    Missing,
    /// No folder is there in which the file is to be made.
    NoParentFolder,
    /// The path can't name a file: it is empty, or ends with a slash.
    Unnamed,
    /// A folder has the path.
    Folder,
    /// The system denies permission.
    Denied,
    /// Another file has taken the name meanwhile.
    Exists,
    /// It had another owner before it was replaced.
    Owner,
    /// Another writer has the right to write it.
    Writer,
    /// It was read with the commits of the log beside it.
    Log,
    /// The log beside it is of another file.
    ForeignLog,
    /// What has the name of its log is no log.
    LogTaken,
    /// An empty file has the name of its log.
    EmptyLog,
    /// A log with commits was left beside the name of a file that is to be made.
    LogLeft,
    /// It has several names, and a log is found by one name alone.
    SeveralNames,
    /// The system did not lock it, and did not say that it locks no files.
    NotLocked,
    /// The folder with its name can't be opened, so the name can't be synced.
    UnsyncedName,
    /// It was not written completely, or the system did not confirm that it is on the disk.
    Unwritten,
}
