//! A writer's session: it holds the lock of the file that FILE leads to.
ghost use Rattle.std.specs.Prelude.{◌≡◌};
ghost use Rattle.file_protocol.specs.Sessions.{after_answer, after_request, call_of};

use crate::calls::{Call, Outcome, Purpose, SessionRequest};

/// The state of a session. Its numbers are, in this order, the file that is held, its log, the new file that is to
/// replace it, and an image. Comments call the first three `i`, `l` and `g`.
#[derive(Clone, Copy, Debug, PartialEq, Eq)]
pub enum Session {
    /// Opens FILE.
    Seeking,
    /// Opened `i`: locks it.
    Opened(u64),
    /// Locked `i`: checks that FILE still leads to it.
    Locked(u64),
    /// FILE leads to another file than `i`: unlocks `i`, and seeks again.
    Retrying(u64),

    /// FILE does not exist: looks for a log that was left beside the name.
    Absent,
    /// Makes the file of a new segment.
    Creating,
    /// Made `i`: gives it the name FILE.
    Created(u64),
    /// The call that names `i` failed: checks whether it was done.
    CheckingName(u64),
    /// FILE leads to `i`, which is new: looks for a log again.
    Named(u64),
    /// A log `l` without a record was left beside the name: removes it.
    ClearingLog(u64, u64),
    /// Syncs the folder. Then the creation is answered.
    SyncingName(u64),
    /// A log with records was left beside the name, or a call failed: removes FILE again.
    Unnaming(u64),

    /// Holds `i`, which FILE leads to: opens the log.
    Holding(u64),
    /// The log `l` has no record: removes it.
    RemovingEmpty(u64, u64),
    /// At rest: `i` has no log. True if the folder was synced since.
    Bare(u64, bool),
    /// At rest: an earlier session left the log `l`, which has records.
    Left(u64, u64),
    /// Makes a log.
    MakingLog(u64),
    /// Replaces the log `l` by a copy, since a sync of it may have failed.
    CopyingLog(u64, u64),
    /// Syncs the folder. True if the log has records.
    SyncingLog(u64, u64, bool),
    /// At rest: the log `l` takes records. True if it has any.
    Ready(u64, u64, bool),

    /// Before a commit: checks that FILE leads to `i`.
    CheckingFile(u64, u64, bool, u64),
    /// Checks that FILE-log leads to `l`.
    CheckingLog(u64, u64, bool, u64),
    /// Writes the body of the record.
    WritingBody(u64, u64, bool, u64),
    /// Syncs the body.
    SyncingBody(u64, u64, u64),
    /// Opens the gate in front of the body.
    OpeningGate(u64, u64, u64),
    /// Syncs the gate. Then the commit is answered.
    SyncingGate(u64, u64, u64),
    /// At rest: a commit failed, and an opening may find it or not.
    Unsure(u64, u64),

    /// Before a save: syncs the folder, since an earlier session may have been killed before it did.
    SyncingFirst(u64, u64),
    /// Makes the file that replaces `i`.
    Making(u64, u64, u64, Purpose),
    /// Made `g`: checks that FILE leads to `i`.
    Looking(u64, u64, u64, Purpose),
    /// Renames `g` to FILE.
    Renaming(u64, u64, u64, Purpose),
    /// The rename failed: checks whether it was done.
    CheckingRename(u64, u64, u64, Purpose),
    /// The rename was not done: gives `g` up.
    Discarding(u64, u64, u64, Purpose),
    /// FILE leads to `g`: syncs the folder.
    SyncingRename(u64, u64, u64, Purpose),
    /// At rest: FILE leads to `g`, and the folder could not be synced.
    Unsynced(u64, u64, u64, Purpose),
    /// Unlocks the old file `i`.
    Unlocking(u64, u64, u64, Purpose),
    /// FILE has all that its log has: removes the log.
    RemovingLog(u64, u64, Purpose),
    /// Syncs the folder, so that a log with an uncertain record does not come back.
    SyncingEnd(u64),

    /// Removes the session's own log, which has no record, and ends.
    Closing(u64, u64),
    /// Unlocks the file, and ends.
    Ending(u64),
    /// Ended.
    Ended,
}

/// Returns the state after a look at FILE: `same` if it leads to `i`, and otherwise `other`.
fn if_same(answer: Outcome, i: u64, same: Session, other: Session) -> Session
    ensures { result ≡ Rattle.file_protocol.specs.Sessions.if_same answer i same other }
{
    match answer {
        Outcome::File(j) => { if j == i { same } else { other } }
        _ => other,
    }
}

/// Returns the state after a look at FILE-log: `same` if it leads to `l`, and otherwise `other`.
fn if_same_log(answer: Outcome, l: u64, same: Session, other: Session) -> Session
    ensures { result ≡ Rattle.file_protocol.specs.Sessions.if_same_log answer l same other }
{
    match answer {
        Outcome::Log(m, _) => { if m == l { same } else { other } }
        _ => other,
    }
}

/// Returns `done` if a call was done, and otherwise `other`.
fn if_done(answer: Outcome, done: Session, other: Session) -> Session
    ensures { result ≡ Rattle.file_protocol.specs.Sessions.if_done answer done other }
{
    match answer {
        Outcome::Done => done,
        _ => other,
    }
}

/// Returns the state of rest from which FILE was to be replaced.
fn at_rest(i: u64, l: u64, why: Purpose) -> Session
    ensures { result ≡ Rattle.file_protocol.specs.Sessions.at_rest i l why }
{
    match why {
        Purpose::Checkpoint => Session::Ready(i, l, true),
        Purpose::Mend => Session::Unsure(i, l),
        Purpose::Save => Session::Bare(i, true),
    }
}

/// Returns the state after the old file was unlocked.
fn replaced(g: u64, l: u64, why: Purpose) -> Session
    ensures { result ≡ Rattle.file_protocol.specs.Sessions.replaced g l why }
{
    match why {
        Purpose::Save => Session::Bare(g, true),
        _ => Session::RemovingLog(g, l, why),
    }
}

/// Returns the state after a log was removed whose records FILE has.
fn emptied(g: u64, why: Purpose) -> Session
    ensures { result ≡ Rattle.file_protocol.specs.Sessions.emptied g why }
{
    match why {
        Purpose::Mend => Session::SyncingEnd(g),
        _ => Session::Bare(g, false),
    }
}

impl Session {
    /// Returns the next call of the session. A session at rest makes none.
    pub fn call(self) -> Call
        ensures { result ≡ call_of self }
    {
        match self {
            Session::Seeking => Call::OpenFile,
            Session::Opened(i) => Call::Lock(i),
            Session::Locked(_) => Call::LookFile,
            Session::Retrying(i) => Call::Close(i),
            Session::Absent => Call::LookLog,
            Session::Creating => Call::MakeFirst,
            Session::Created(i) => Call::NameFile(i),
            Session::CheckingName(_) => Call::LookFile,
            Session::Named(_) => Call::LookLog,
            Session::ClearingLog(_, l) => Call::RemoveLog(l),
            Session::SyncingName(_) => Call::SyncNames,
            Session::Unnaming(i) => Call::RemoveFile(i),
            Session::Holding(i) => Call::OpenLog(i),
            Session::RemovingEmpty(_, l) => Call::RemoveLog(l),
            Session::Bare(_, _) => Call::Nothing,
            Session::Left(_, _) => Call::Nothing,
            Session::MakingLog(i) => Call::MakeLog(i),
            Session::CopyingLog(i, l) => Call::RenewLog(i, l),
            Session::SyncingLog(_, _, _) => Call::SyncNames,
            Session::Ready(_, _, _) => Call::Nothing,
            Session::CheckingFile(_, _, _, _) => Call::LookFile,
            Session::CheckingLog(_, _, _, _) => Call::LookLog,
            Session::WritingBody(i, l, _, v) => Call::WriteBody(i, l, v),
            Session::SyncingBody(_, l, _) => Call::SyncLog(l),
            Session::OpeningGate(i, l, v) => Call::OpenGate(i, l, v),
            Session::SyncingGate(_, l, _) => Call::SyncLog(l),
            Session::Unsure(_, _) => Call::Nothing,
            Session::SyncingFirst(_, _) => Call::SyncNames,
            Session::Making(i, l, v, why) => Call::MakeFile(why, i, l, v),
            Session::Looking(_, _, _, _) => Call::LookFile,
            Session::Renaming(_, _, g, _) => Call::RenameFile(g),
            Session::CheckingRename(_, _, _, _) => Call::LookFile,
            Session::Discarding(_, _, g, _) => Call::Close(g),
            Session::SyncingRename(_, _, _, _) => Call::SyncNames,
            Session::Unsynced(_, _, _, _) => Call::Nothing,
            Session::Unlocking(i, _, _, _) => Call::Close(i),
            Session::RemovingLog(_, l, _) => Call::RemoveLog(l),
            Session::SyncingEnd(_) => Call::SyncNames,
            Session::Closing(_, l) => Call::RemoveLog(l),
            Session::Ending(i) => Call::Close(i),
            Session::Ended => Call::Nothing,
        }
    }

    /// Returns the state after FILE was sought.
    fn after_seeking(answer: Outcome) -> Session
        ensures { result ≡ Rattle.file_protocol.specs.Sessions.sought answer }
    {
        match answer {
            Outcome::File(i) => Session::Opened(i),
            Outcome::Missing => Session::Absent,
            _ => Session::Ended,
        }
    }

    /// Returns the state after a look at FILE-log, where FILE does not exist.
    fn after_absence(answer: Outcome) -> Session
        ensures { result ≡ Rattle.file_protocol.specs.Sessions.absent_after answer }
    {
        match answer {
            Outcome::Missing => Session::Creating,
            Outcome::Stranger => Session::Creating,
            Outcome::Log(_, has_records) => {
                if has_records {
                    Session::Ended
                } else {
                    Session::Creating
                }
            }
            _ => Session::Ended,
        }
    }

    /// Returns the state after a new file was to be named.
    fn after_naming(i: u64, answer: Outcome) -> Session
        ensures { result ≡ Rattle.file_protocol.specs.Sessions.named_after i answer }
    {
        match answer {
            Outcome::Done => Session::Named(i),
            Outcome::Refused => Session::Retrying(i),
            _ => Session::CheckingName(i),
        }
    }

    /// Returns the state after the second look at FILE-log in a creation.
    fn after_second_look(i: u64, answer: Outcome) -> Session
        ensures { result ≡ Rattle.file_protocol.specs.Sessions.cleared_after i answer }
    {
        match answer {
            Outcome::Missing => Session::SyncingName(i),
            Outcome::Stranger => Session::SyncingName(i),
            Outcome::Log(l, has_records) => {
                if has_records {
                    Session::Unnaming(i)
                } else {
                    Session::ClearingLog(i, l)
                }
            }
            _ => Session::Unnaming(i),
        }
    }

    /// Returns the state after the log of the held file was opened.
    fn after_log_opened(i: u64, answer: Outcome) -> Session
        ensures { result ≡ Rattle.file_protocol.specs.Sessions.opened_after i answer }
    {
        match answer {
            Outcome::Missing => Session::Bare(i, false),
            Outcome::Stranger => Session::Bare(i, false),
            Outcome::Log(l, has_records) => {
                if has_records {
                    Session::Left(i, l)
                } else {
                    Session::RemovingEmpty(i, l)
                }
            }
            _ => Session::Ending(i),
        }
    }

    /// Returns the state after a log was made or copied, and the folder is to be synced.
    fn after_log_made(i: u64, has_records: bool, answer: Outcome) -> Session
        ensures { result ≡ Rattle.file_protocol.specs.Sessions.made_after i has_records answer }
    {
        match answer {
            Outcome::Log(l, _) => Session::SyncingLog(i, l, has_records),
            _ => Session::Holding(i),
        }
    }

    /// Returns the state after the file that replaces `i` was made.
    fn after_making(i: u64, l: u64, why: Purpose, answer: Outcome) -> Session
        ensures { result ≡ Rattle.file_protocol.specs.Sessions.looks_after i l why answer }
    {
        match answer {
            Outcome::File(g) => Session::Looking(i, l, g, why),
            _ => at_rest(i, l, why),
        }
    }

    /// Returns the state after a rename to FILE that failed, by the file that FILE leads to.
    fn after_failed_rename(i: u64, l: u64, g: u64, why: Purpose, answer: Outcome) -> Session
        ensures { result ≡ Rattle.file_protocol.specs.Sessions.placed_after i l g why answer }
    {
        match answer {
            Outcome::File(j) => {
                if j == g {
                    Session::SyncingRename(i, l, g, why)
                } else if j == i {
                    Session::Discarding(i, l, g, why)
                } else {
                    Session::Ending(i)
                }
            }
            _ => Session::Ending(i),
        }
    }

    /// Returns the state after the answer of the system to the session's call.
    pub fn next(self, answer: Outcome) -> Session
        ensures { result ≡ after_answer self answer }
    {
        match self {
            Session::Seeking => Session::after_seeking(answer),
            Session::Opened(i) => if_done(answer, Session::Locked(i), Session::Ending(i)),
            Session::Locked(i) => if_same(answer, i, Session::Holding(i), Session::Retrying(i)),
            Session::Retrying(_) => Session::Seeking,
            Session::Absent => Session::after_absence(answer),
            Session::Creating => match answer {
                Outcome::File(i) => Session::Created(i),
                _ => Session::Ended,
            },
            Session::Created(i) => Session::after_naming(i, answer),
            Session::CheckingName(i) => if_same(answer, i, Session::Named(i), Session::Ending(i)),
            Session::Named(i) => Session::after_second_look(i, answer),
            Session::ClearingLog(i, _) => if_done(
                answer,
                Session::SyncingName(i),
                Session::Unnaming(i),
            ),
            Session::SyncingName(i) => if_done(
                answer,
                Session::Bare(i, true),
                Session::Unnaming(i),
            ),
            Session::Unnaming(i) => Session::Ending(i),
            Session::Holding(i) => Session::after_log_opened(i, answer),
            Session::RemovingEmpty(i, _) => if_done(
                answer,
                Session::Bare(i, false),
                Session::Ending(i),
            ),
            Session::MakingLog(i) => Session::after_log_made(i, false, answer),
            Session::CopyingLog(i, _) => Session::after_log_made(i, true, answer),
            Session::SyncingLog(i, l, has) => if_done(
                answer,
                Session::Ready(i, l, has),
                Session::Holding(i),
            ),
            Session::CheckingFile(i, l, has, v) => {
                if_same(
                    answer,
                    i,
                    Session::CheckingLog(i, l, has, v),
                    Session::Ending(i),
                )
            }
            Session::CheckingLog(i, l, has, v) => {
                if_same_log(
                    answer,
                    l,
                    Session::WritingBody(i, l, has, v),
                    Session::Ending(i),
                )
            }
            Session::WritingBody(i, l, has, v) => {
                if_done(
                    answer,
                    Session::SyncingBody(i, l, v),
                    Session::Ready(i, l, has),
                )
            }
            Session::SyncingBody(i, l, v) => {
                if_done(answer, Session::OpeningGate(i, l, v), Session::Unsure(i, l))
            }
            Session::OpeningGate(i, l, v) => {
                if_done(answer, Session::SyncingGate(i, l, v), Session::Unsure(i, l))
            }
            Session::SyncingGate(i, l, _) => {
                if_done(answer, Session::Ready(i, l, true), Session::Unsure(i, l))
            }
            Session::SyncingFirst(i, v) => {
                if_done(
                    answer,
                    Session::Making(i, 0, v, Purpose::Save),
                    Session::Bare(i, false),
                )
            }
            Session::Making(i, l, _, why) => Session::after_making(i, l, why, answer),
            Session::Looking(i, l, g, why) => {
                if_same(
                    answer,
                    i,
                    Session::Renaming(i, l, g, why),
                    Session::Ending(i),
                )
            }
            Session::Renaming(i, l, g, why) => {
                if_done(
                    answer,
                    Session::SyncingRename(i, l, g, why),
                    Session::CheckingRename(i, l, g, why),
                )
            }
            Session::CheckingRename(i, l, g, why) => Session::after_failed_rename(
                i, l, g, why, answer,
            ),
            Session::Discarding(i, l, _, why) => at_rest(i, l, why),
            Session::SyncingRename(i, l, g, why) => {
                if_done(
                    answer,
                    Session::Unlocking(i, l, g, why),
                    Session::Unsynced(i, l, g, why),
                )
            }
            Session::Unlocking(_, l, g, why) => replaced(g, l, why),
            Session::RemovingLog(g, _, why) => if_done(
                answer,
                emptied(g, why),
                Session::Holding(g),
            ),
            Session::SyncingEnd(g) => if_done(answer, Session::Bare(g, true), Session::Holding(g)),
            Session::Closing(i, _) => Session::Ending(i),
            Session::Ending(_) => Session::Ended,
            Session::Bare(_, _) => self,
            Session::Left(_, _) => self,
            Session::Ready(_, _, _) => self,
            Session::Unsure(_, _) => self,
            Session::Unsynced(_, _, _, _) => self,
            Session::Ended => self,
        }
    }

    /// Returns the state after a request of the caller. A request that the state of rest does not take changes nothing.
    pub fn asked(self, request: SessionRequest) -> Session
        ensures { result ≡ after_request self request }
    {
        match self {
            Session::Bare(i, is_synced) => match request {
                SessionRequest::Begin => Session::MakingLog(i),
                SessionRequest::Save(v) => {
                    if is_synced {
                        Session::Making(i, 0, v, Purpose::Save)
                    } else {
                        Session::SyncingFirst(i, v)
                    }
                }
                SessionRequest::Close => Session::Ending(i),
                _ => self,
            },
            Session::Left(i, l) => match request {
                SessionRequest::Begin => Session::CopyingLog(i, l),
                SessionRequest::Close => Session::Ending(i),
                _ => self,
            },
            Session::Ready(i, l, has) => match request {
                SessionRequest::Commit(v) => Session::CheckingFile(i, l, has, v),
                SessionRequest::Checkpoint => {
                    if has {
                        Session::Making(i, l, 0, Purpose::Checkpoint)
                    } else {
                        Session::RemovingEmpty(i, l)
                    }
                }
                SessionRequest::Close => {
                    if has {
                        Session::Ending(i)
                    } else {
                        Session::Closing(i, l)
                    }
                }
                _ => self,
            },
            Session::Unsure(i, l) => match request {
                SessionRequest::Mend => Session::Making(i, l, 0, Purpose::Mend),
                SessionRequest::Close => Session::Ending(i),
                _ => self,
            },
            Session::Unsynced(i, l, g, why) => match request {
                SessionRequest::SyncAgain => Session::SyncingRename(i, l, g, why),
                SessionRequest::Close => Session::Ending(g),
                _ => self,
            },
            _ => self,
        }
    }
}
