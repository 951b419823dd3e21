//! What a session asks the system for, what the system answers, and what callers request of a session.

/// Why FILE is replaced by a new file.
#[derive(Clone, Copy, Debug, PartialEq, Eq)]
pub enum Purpose {
    /// FILE gets the image of its log's last record.
    Checkpoint,
    /// A commit failed, and it is unknown whether it can be found. FILE gets the image that was answered last.
    Mend,
    /// FILE gets another image. It has no log.
    Save,
}

/// One call of the system.
#[derive(Clone, Copy, Debug, PartialEq, Eq)]
pub enum Call {
    /// Opens FILE.
    OpenFile,
    /// Locks a file, without waiting.
    Lock(u64),
    /// Finds which file FILE leads to.
    LookFile,
    /// Unlocks and closes a file.
    Close(u64),
    /// Makes the file of a new segment, without a name. It is locked, written and synced.
    MakeFirst,
    /// Gives a file the name FILE, if nothing has that name.
    NameFile(u64),
    /// Finds which log FILE-log leads to, and whether it has a record. The contents need not belong to FILE.
    LookLog,
    /// Opens FILE-log, and finds whether it has a record and belongs to this file.
    OpenLog(u64),
    /// Removes the name FILE-log.
    RemoveLog(u64),
    /// Removes the name FILE.
    RemoveFile(u64),
    /// Syncs the folder, which has both names.
    SyncNames,
    /// Makes a log with a shut gate, syncs it, and gives it the name FILE-log, if nothing has that name.
    MakeLog(u64),
    /// Copies the records of a log to a new one, syncs it, and renames it to FILE-log.
    RenewLog(u64, u64),
    /// Writes the body of a record behind the last gate of a log, which is shut, with a shut gate behind the body.
    WriteBody(u64, u64, u64),
    /// Opens the gate in front of that body.
    OpenGate(u64, u64, u64),
    /// Syncs a log.
    SyncLog(u64),
    /// Makes a file for a purpose, without a name: of the newest image of a file and its log, of the image that was
    /// answered last, or of a new image. It is locked, written and synced.
    MakeFile(Purpose, u64, u64, u64),
    /// Renames a file to FILE.
    RenameFile(u64),
    /// No call.
    Nothing,
}

/// What the system answers.
#[derive(Clone, Copy, Debug, PartialEq, Eq)]
pub enum Outcome {
    /// The call was done.
    Done,
    /// Another has the lock or the name.
    Refused,
    /// Nothing has the name.
    Missing,
    /// The name leads to this file, or this file was made.
    File(u64),
    /// The name leads to this log, or this log was made. True if it has a record.
    Log(u64, bool),
    /// The name leads to a log that belongs to another file.
    Foreign,
    /// The name leads to a file that is not a log.
    Stranger,
    /// The call failed. It may have been done all the same.
    Failed,
}

/// What a caller requests of a session that is at rest.
#[derive(Clone, Copy, Debug, PartialEq, Eq)]
pub enum SessionRequest {
    /// To make the log ready for commits.
    Begin,
    /// To commit an image.
    Commit(u64),
    /// To replace FILE by a file of its newest image, and to remove the log.
    Checkpoint,
    /// To replace FILE by a file of the image that was answered last, after a commit that failed.
    Mend,
    /// To replace FILE by a file of another image.
    Save(u64),
    /// To sync the folder once more, after that failed.
    SyncAgain,
    /// To end the session.
    Close,
}
