//! A reader of FILE and its log, which holds no lock.
ghost use Rattle.std.specs.Prelude.{◌≡◌};
ghost use Rattle.file_protocol.specs.Readers.{read_after, read_call_of};

/// The state of a reader. Its numbers are the file that it opened, the log, and the image that it read.
#[derive(Clone, Copy, Debug, PartialEq, Eq)]
pub enum FileReader {
    /// Reads nothing.
    Idle,
    /// Opens FILE.
    Seeking,
    /// Opened FILE: opens FILE-log.
    HasFile(u64),
    /// Opened FILE and FILE-log: reads both.
    HasBoth(u64, u64),
    /// Opened FILE, and found no log: reads FILE.
    HasNoLog(u64),
    /// Read an image: checks that FILE still leads to the same file, and otherwise begins again.
    HasRead(u64, u64),
    /// Returned an image to its caller.
    Returned(u64),
}

/// One call of a reader.
#[derive(Clone, Copy, Debug, PartialEq, Eq)]
pub enum ReadCall {
    /// Opens FILE.
    OpenFile,
    /// Opens FILE-log.
    OpenLog,
    /// Reads a file and a log, up to the log's first gate that is shut.
    ReadBoth(u64, u64),
    /// Reads a file.
    ReadFile(u64),
    /// Finds which file FILE leads to.
    LookFile,
    /// No call.
    Nothing,
}

/// What the system answers a reader.
#[derive(Clone, Copy, Debug, PartialEq, Eq)]
pub enum ReadAnswer {
    /// Nothing has the name, or a file that is not a log has it; or the log belongs to another file.
    Missing,
    /// This file, this log, or this image.
    Found(u64),
    /// The call failed.
    Failed,
}

/// Returns the state after a reading of the file `f`, with its log or alone.
fn after_reading(f: u64, answer: ReadAnswer) -> FileReader
    ensures { result ≡ Rattle.file_protocol.specs.Readers.read_or_again f answer }
{
    match answer {
        ReadAnswer::Found(v) => FileReader::HasRead(f, v),
        ReadAnswer::Missing => FileReader::Seeking,
        ReadAnswer::Failed => FileReader::Idle,
    }
}

impl FileReader {
    /// Returns the reader's next call.
    pub fn call(self) -> ReadCall
        ensures { result ≡ read_call_of self }
    {
        match self {
            FileReader::Idle => ReadCall::Nothing,
            FileReader::Seeking => ReadCall::OpenFile,
            FileReader::HasFile(_) => ReadCall::OpenLog,
            FileReader::HasBoth(f, l) => ReadCall::ReadBoth(f, l),
            FileReader::HasNoLog(f) => ReadCall::ReadFile(f),
            FileReader::HasRead(_, _) => ReadCall::LookFile,
            FileReader::Returned(_) => ReadCall::Nothing,
        }
    }

    /// Returns the reader's state after the answer to its call.
    pub fn next(self, answer: ReadAnswer) -> FileReader
        ensures { result ≡ read_after self answer }
    {
        match self {
            FileReader::Idle => FileReader::Idle,
            FileReader::Seeking => match answer {
                ReadAnswer::Found(f) => FileReader::HasFile(f),
                _ => FileReader::Idle,
            },
            FileReader::HasFile(f) => match answer {
                ReadAnswer::Found(l) => FileReader::HasBoth(f, l),
                ReadAnswer::Missing => FileReader::HasNoLog(f),
                ReadAnswer::Failed => FileReader::Idle,
            },
            FileReader::HasBoth(f, _) => after_reading(f, answer),
            FileReader::HasNoLog(f) => after_reading(f, answer),
            FileReader::HasRead(f, v) => match answer {
                ReadAnswer::Found(now) => {
                    if now == f {
                        FileReader::Returned(v)
                    } else {
                        FileReader::Seeking
                    }
                }
                ReadAnswer::Missing => FileReader::Seeking,
                ReadAnswer::Failed => FileReader::Idle,
            },
            FileReader::Returned(v) => FileReader::Returned(v),
        }
    }
}
