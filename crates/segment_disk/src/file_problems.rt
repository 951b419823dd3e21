//! What an error of the system says of a file.
ghost use Rattle.std.specs.Prelude.{◌≡◌};
ghost use Rattle.segment_disk.specs.FileProblems.{creation_problem, locks_nothing, names_none, names_nothing};
ghost use Rattle.segment_disk.specs.FileProblems.{problem_of};

use crate::presence::FileProblem;
use std::io::ErrorKind;

/// Returns what an error says of a file that was to be opened.
pub(crate) fn problem_of(kind: ErrorKind) -> Option<FileProblem>
    ensures { result ≡ problem_of kind }
{
    match kind {
        ErrorKind::NotFound => Some(FileProblem::Missing),
        ErrorKind::IsADirectory => Some(FileProblem::Folder),
        ErrorKind::PermissionDenied => Some(FileProblem::Denied),
        ErrorKind::AlreadyExists => Some(FileProblem::Exists),
        _ => None,
    }
}

/// Tells whether no file can be made by a path, whatever there is: it is empty, or ends as that of a folder does.
pub(crate) fn names_none(path: &str) -> bool
    ensures { result ≡ names_none path.now }
{
    match path.as_bytes().last() {
        Some(last) => *last == b'/',
        None => true,
    }
}

/// Returns what an error says of a file that was to be made.
pub(crate) fn creation_problem(kind: ErrorKind, path: &str) -> Option<FileProblem>
    ensures { result ≡ creation_problem kind path.now }
{
    let trouble = problem_of(kind);
    match trouble {
        Some(FileProblem::Missing | FileProblem::Folder) if names_none(path) => Some(
            FileProblem::Unnamed,
        ),
        Some(FileProblem::Missing) => Some(FileProblem::NoParentFolder),
        _ => trouble,
    }
}

/// Returns true if an error says that nothing has a name. Each other one says that the system does not tell.
pub(crate) fn names_nothing(kind: ErrorKind) -> bool
    ensures { result ≡ names_nothing kind }
{
    matches!(
        kind,
        ErrorKind::NotFound | ErrorKind::NotADirectory | ErrorKind::InvalidFilename
    )
}

/// Returns true if an error of a lock says that the file can't be locked where it is. Each other one is a failure.
pub(crate) fn locks_nothing(kind: ErrorKind) -> bool
    ensures { result ≡ locks_nothing kind }
{
    matches!(kind, ErrorKind::Unsupported | ErrorKind::InvalidInput)
}
