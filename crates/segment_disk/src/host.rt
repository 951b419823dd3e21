//! The files of the system as a `Disk`.
ghost use Rattle.std.specs.Prelude.{◌≡◌, ⊤, IfOk};
ghost use Rattle.segment_disk.specs.Events.{nothing_given, nothing_taken};

use crate::disk::{Disk, OpenedFile};
use crate::file_problems::{creation_problem, names_none, problem_of};
use crate::host_reader::HostReader;
use crate::locks::{
    FileLock, Identity, NotLocked, PAUSE, are_different, is_written, leads_to, lock, lock_made,
    open_equal, open_to_write, sync_file,
};
use crate::logs::{LogTrouble, has_no_record, read_recovered, trouble_of};
use crate::open_log::OpenLog;
use crate::paths::{copy_path, real_path};
use crate::presence::{AlreadyLocked, Comparison, FileProblem, NotOpened, Presence, SaveMode};
use crate::replacement_file::ReplacementFile;
use crate::settling::{end_left, keeps_records, named_alone, put_in_place, settle};
use crate::spare_file::{SpareFile, open_folder, sync_folder};
use crate::sparse::{SparseFile, longest_file};
use crate::std_output::StdOutput;
use raw_region::DeviceFault;
use raw_region::std_io::StdSource;
use segment_log::{CommittedImage, LogDisk, LogFault};
use std::fs::{self, File, Metadata, OpenFile, OpenOptions};
use std::io::{self, ErrorKind};
use std::rt::Files;
use std::thread::sleep;
use std::time::{Clock, Duration};

/// How often a disk asks in a second for the right to write a file.
const TRIES: u64 = 1000 / PAUSE;

/// The files of the system. A file is written through before it is closed, if it is one that can be.
#[derive(Drop)]
pub struct HostDisk<'a, R: Files> {
    files: &'a R,
    /// For how many seconds it waits for the right to write a file, and until nobody writes one that is read.
    wait: u64,
    /// How a file that is made gets its name: at once, or when it is whole.
    naming: SaveMode,
    /// Whether its files may have logs.
    has_logs: bool,
    /// Whether locking a file keeps its log.
    keeps_logs: bool,
    /// What the system said last of a file that was to be opened or made, or what became of it.
    trouble: Option<FileProblem>,
    /// The file that the right to write was given for last.
    held: Option<Identity>,
    /// The file that was made last, and has no name yet.
    unnamed: Option<UnnamedFile>,
    /// The folder of the file that was made last, and has its name, until that is synced.
    folder: Option<File>,
}

/// A file that gets its name when it is whole.
#[derive(Drop)]
struct UnnamedFile {
    path: String,
    spare: SpareFile,
    /// The folder of the path.
    folder: File,
}

/// The right to write a file, which the system takes back if this is dropped.
#[derive(Drop)]
pub struct HostLock {
    /// What there is to hold of the file.
    lock: FileLock,
    /// The file that was made beside it last, while its fate is open.
    beside: Option<ReplacementFile>,
    /// Why the file can't be written at all, if the system did not lock it.
    bar: Option<FileProblem>,
    /// Why the file can't be written other than by its log, if that is still there.
    log: Option<FileProblem>,
    /// The log that was begun for the file. The file changes by calls of the log alone meanwhile.
    begun: Option<OpenLog>,
}

impl HostLock {
    fn new(lock: FileLock) -> HostLock {
        HostLock {
            lock,
            beside: None,
            bar: None,
            log: None,
            begun: None,
        }
    }

    /// Makes the right to write a file that the system did not lock, which is refused from then on.
    fn barred(trouble: Option<FileProblem>) -> HostLock {
        HostLock {
            bar: Some(trouble.unwrap_or(FileProblem::NotLocked)),
            ..HostLock::new(FileLock::Unlocked)
        }
    }
}

impl<'a, R: Files> HostDisk<'a, R> {
    /// Makes the files, none of which was asked for yet.
    pub fn new(files: &'a R) -> HostDisk<'a, R> {
        HostDisk::with_options(files, 0, SaveMode::InPlace)
    }

    /// Makes files that wait up to `wait` seconds for the right to write a file that another has, and until nobody
    /// writes a file that is to be read. With `Replacing`, a file that is made gets its name when it is whole, and none
    /// is left behind otherwise.
    pub fn with_options(files: &'a R, wait: u64, naming: SaveMode) -> HostDisk<'a, R> {
        HostDisk {
            files,
            wait,
            naming,
            has_logs: true,
            keeps_logs: false,
            trouble: None,
            held: None,
            unnamed: None,
            folder: None,
        }
    }

    /// Returns files whose logs stay beside them when they are locked, so that commits go on with the log. Such a file
    /// is neither emptied nor replaced by a save.
    pub fn keeping_logs(self) -> HostDisk<'a, R> {
        HostDisk {
            keeps_logs: true,
            ..self
        }
    }

    /// Makes files that have no logs, as those of scripts.
    pub fn without_logs(files: &'a R) -> HostDisk<'a, R> {
        HostDisk {
            has_logs: false,
            ..HostDisk::new(files)
        }
    }

    /// Returns what the system said last of a file that was to be opened or made, if that says why it can't be read
    /// or written. `Writer` if another wrote the file that was opened last, and `Owner` if a file was replaced whose
    /// owner the new one has not.
    pub fn trouble(&self) -> Option<FileProblem> {
        self.trouble
    }
}

impl<'a, R: Files<File = File> + AllocGlobal + Clock> HostDisk<'a, R> {
    /// Empties a file, or makes one beside it.
    fn file_for(&self, path: &str, how: SaveMode, hold: &mut HostLock) -> Result<File, LogTrouble> {
        match how {
            SaveMode::InPlace => self.emptied(path, hold).map_err(trouble_of),
            SaveMode::Replacing => {
                let old = real_path(self.files, path).map_err(trouble_of)?;
                let held = hold.lock.identity();
                let (file, beside) = ReplacementFile::make(self.files, old.as_str(), held)?;
                hold.beside = Some(beside);
                Ok(file)
            }
        }
    }

    /// Makes a file that is not there, and locks it.
    fn made(&mut self, path: &str, hold: &mut HostLock) -> Result<File, LogTrouble> {
        if names_none(path) {
            return Err(Some(FileProblem::Unnamed));
        }
        let folder = open_folder(self.files, path)?;
        if self.naming == SaveMode::Replacing {
            return self.made_unnamed(path, hold, folder);
        }
        end_left(self.files, path)?;
        let file = match File::create_new(self.files, path) {
            Ok(file) => file,
            Err(error) => return Err(creation_problem(error.kind(), path)),
        };
        hold.lock = lock_made(self.files, &file).map_err(trouble_of)?;
        named_alone(self.files, path, &file)?;
        self.folder = Some(folder);
        Ok(file)
    }

    /// Makes a file that has a hidden name, and locks it. It gets the name of a path later, where nothing is now.
    fn made_unnamed(
        &mut self,
        path: &str,
        hold: &mut HostLock,
        folder: File,
    ) -> Result<File, LogTrouble> {
        if fs::symlink_metadata(self.files, path).is_ok() {
            return Err(Some(FileProblem::Exists));
        }
        end_left(self.files, path)?;
        let kept = copy_path(self.files.alloc(), path).map_err(trouble_of)?;
        let made = SpareFile::make(self.files, path, 0o666);
        let (file, spare, lock) = match made {
            Ok(made) => made,
            Err(error) => return Err(creation_problem(error.kind(), path)),
        };
        hold.lock = lock;
        self.unnamed = Some(UnnamedFile {
            path: kept,
            spare,
            folder,
        });
        Ok(file)
    }

    /// Syncs the folder of a file that was made under its name, and returns true unless that fails.
    fn is_name_synced(&mut self) -> bool {
        match self.folder.take() {
            Some(folder) => sync_file(&folder),
            None => true,
        }
    }

    /// Gives a file its name that is whole and has none, and removes it otherwise.
    fn name(&mut self, unnamed: UnnamedFile, is_whole: bool) -> Result<(), DeviceFault> {
        let UnnamedFile {
            path,
            spare,
            folder,
        } = unnamed;
        if !is_whole {
            spare.discard(self.files);
            return Err(self.not_written(None));
        }
        if let Err(error) = spare.give_name(self.files, path.as_str()) {
            spare.discard(self.files);
            return Err(self.not_written(creation_problem(error.kind(), path.as_str())));
        }
        match named_alone(self.files, path.as_str(), spare.file()) {
            Ok(()) if sync_file(&folder) => Ok(()),
            Ok(()) => Err(self.not_written(None)),
            Err(trouble) => Err(self.not_written(trouble)),
        }
    }

    /// Opens a file for writing, and empties it. If a file is locked, no other is emptied that has taken its name, and
    /// none if nothing was there: they are compared when the file is open. Its name is synced first: who gave it that
    /// name may have been killed before.
    fn emptied(&self, path: &str, hold: &HostLock) -> io::Result<File> {
        let Some(held) = hold.lock.identity() else {
            let mut options = OpenOptions::new();
            options.write(true).truncate(true);
            return options.open(self.files, path);
        };
        let file = open_to_write(self.files, path)?;
        if Identity::of(&file) != Some(held) {
            return Err(io::Error::from(ErrorKind::AlreadyExists));
        }
        if !self.sync_name(path)? {
            return Err(io::Error::from(ErrorKind::Other));
        }
        file.set_len(0)?;
        Ok(file)
    }

    /// Syncs the name of a file, which may be a link to the file, and returns true unless that fails.
    fn sync_name(&self, path: &str) -> io::Result<bool> {
        if !fs::symlink_metadata(self.files, path)?.is_symlink() {
            return Ok(sync_folder(self.files, path));
        }
        let real = real_path(self.files, path)?;
        Ok(sync_folder(self.files, real.as_str()))
    }

    /// Returns true if the file that is held has these bytes, can be written, and is on the disk with its name.
    fn lasts_equal(&self, path: &str, hold: &HostLock, bytes: &[u8]) -> io::Result<bool> {
        match open_equal(self.files, path, hold.lock.identity(), bytes)? {
            Some(file) => Ok(sync_file(&file) && self.sync_name(path)?),
            None => Ok(false),
        }
    }

    /// Notes why a file was not written, as far as the system told.
    fn not_written(&mut self, trouble: Option<FileProblem>) -> DeviceFault {
        self.trouble = Some(trouble.unwrap_or(FileProblem::Unwritten));
        DeviceFault
    }

    /// Returns a writer of a file that was made or emptied.
    fn writer_of(&mut self, file: File) -> StdOutput<SparseFile>
        ensures { result.history ≡ nothing_taken }
    {
        self.trouble = None;
        let longest = longest_file(self.files);
        StdOutput::new(SparseFile::new(file, longest))
    }

    /// Opens a file for reading, and locks it for that if it is on a disk and no other writes it. Nothing is read yet,
    /// and what cannot seek can be opened too, as a pipe. A folder can be opened and not read.
    fn opened(&self, path: &str) -> io::Result<(File, Metadata, Option<FileProblem>)> {
        let mut file = fs::open(self.files, path)?;
        let mut found = file.metadata()?;
        let mut trouble = found.is_dir().then_some(FileProblem::Folder);
        if found.is_file() {
            let mut is_written = self.is_written(&file);
            // it may have been replaced while it was waited for
            if self.wait > 0 && !leads_to(self.files, path, &file) {
                file = fs::open(self.files, path)?;
                is_written = self.is_written(&file);
            }
            trouble = is_written.then_some(FileProblem::Writer);
            found = file.metadata()?;
        }
        Ok((file, found, trouble))
    }

    /// Waits until no other writes a file that was opened, and tells whether one still does. The file that is held is
    /// nobody else's.
    fn is_written(&self, file: &File) -> bool {
        if self.held.is_some() && Identity::of(file) == self.held {
            return false;
        }
        for _ in 0..self.wait.saturating_mul(TRIES) {
            if !is_written(file) {
                return false;
            }
            sleep(self.files, Duration::from_millis(PAUSE));
        }
        is_written(file)
    }

    /// Puts the commits of the log beside a file into the file that is held, and removes the log. If that can't be
    /// done, or the log is to stay, the file can't be written other than by its log.
    fn settle(&self, path: &str, hold: &mut HostLock) {
        if !self.has_logs || hold.bar.is_some() || matches!(hold.lock, FileLock::Absent) {
            return;
        }
        if self.keeps_logs {
            hold.log = match keeps_records(self.files, path) {
                Ok(false) => None,
                Ok(true) => Some(FileProblem::Log),
                Err(trouble) => Some(trouble.unwrap_or(FileProblem::Unwritten)),
            };
            return;
        }
        if let Err(trouble) = settle(self.files, path, &mut hold.lock) {
            hold.log = Some(trouble.unwrap_or(FileProblem::Unwritten));
        }
    }

    /// Syncs the locked file, which has no log, and its folder. Returns false if a sync fails, or another file has the
    /// name.
    fn sync_found(&self, path: &str, hold: &HostLock) -> io::Result<bool> {
        let file = fs::open(self.files, path)?;
        if hold.log.is_some() || are_different(hold.lock.identity(), Identity::of(&file)) {
            return Ok(false);
        }
        let real = real_path(self.files, path)?;
        let Ok(folder) = open_folder(self.files, real.as_str()) else {
            return Ok(false);
        };
        Ok(sync_file(&file) && sync_file(&folder))
    }

    /// Returns a reader of a file that was opened, or of what it stands for with its log, and how many bytes it gives.
    fn read_with_log(
        &mut self,
        path: &str,
        file: File,
        found: &Metadata,
    ) -> Result<OpenedFile<StdSource<HostReader>>, NotOpened>
        ensures { IfOk result (λ opened. opened.reader.history ≡ nothing_given) }
    {
        let may_have_log = self.has_logs && found.is_file();
        // a checkpoint replaces the file before it empties the log
        let is_alone = !may_have_log
            || has_no_record(self.files, path) && leads_to(self.files, path, &file);
        if is_alone {
            let reader = StdSource::new(HostReader::Plain(file));
            let len = found.len();
            return Ok(OpenedFile { reader, len });
        }
        match read_recovered(self.files, path, file) {
            Ok(made) => {
                if made.end > 0 {
                    self.trouble = self.trouble.or(Some(FileProblem::Log));
                }
                let len = made.image.len() as u64;
                let reader = StdSource::new(HostReader::recovered(made.image));
                Ok(OpenedFile { reader, len })
            }
            Err(trouble) => {
                self.trouble = trouble;
                Err(match trouble {
                    Some(FileProblem::ForeignLog) => NotOpened::ForeignLog,
                    _ => NotOpened::Fault,
                })
            }
        }
    }

    /// Tells whether another file has taken the name of the one that is locked, or one has come where nothing was.
    fn is_taken(&self, path: &str, hold: &HostLock) -> bool {
        are_different(hold.lock.identity(), Identity::at(self.files, path).ok())
    }
}

impl<'a, R: Files<File = File> + AllocGlobal + Clock> LogDisk for HostDisk<'a, R> {
    ghost log_step = { λ old event new. ⊤ };

    type Hold = HostLock;

    fn write_log(&mut self, hold: &mut HostLock, at: usize, bytes: &[u8]) -> Result<(), LogFault> {
        match &hold.begun {
            Some(log) if log.is_beside(self.files, &hold.lock) => log.write(at, bytes),
            _ => Err(LogFault),
        }
    }

    fn sync_log(&mut self, hold: &mut HostLock) -> Result<(), LogFault> {
        match &hold.begun {
            Some(log) => log.sync(),
            None => Err(LogFault),
        }
    }

    fn place(&mut self, hold: &mut HostLock, image: &[u8]) -> Result<(), LogFault> {
        let Some(log) = &hold.begun else {
            return Err(LogFault);
        };
        match put_in_place(self.files, log.file_path(), hold.lock.identity(), image) {
            Ok((lock, lasts)) => {
                hold.lock = lock;
                self.held = hold.lock.identity();
                if lasts { Ok(()) } else { Err(LogFault) }
            }
            Err(trouble) => {
                self.not_written(trouble);
                Err(LogFault)
            }
        }
    }
}

impl<'a, R: Files<File = File> + AllocGlobal + Clock> Disk for HostDisk<'a, R> {
    ghost step = { λ old event new. ⊤ };

    type Reader = StdSource<HostReader>;

    type Writer = StdOutput<SparseFile>;

    fn path_status(&mut self, path: &str) -> Presence {
        match fs::symlink_metadata(self.files, path) {
            Ok(_) => Presence::There,
            Err(error) if error.kind() == ErrorKind::NotFound => Presence::Absent,
            Err(_) => Presence::Unknown,
        }
    }

    fn lock(&mut self, path: &str) -> Result<HostLock, AlreadyLocked> {
        let mut found = lock(self.files, path);
        for _ in 0..self.wait.saturating_mul(TRIES) {
            if !matches!(found, Err(NotLocked::InUse)) {
                break;
            }
            sleep(self.files, Duration::from_millis(PAUSE));
            found = lock(self.files, path);
        }
        let mut hold = match found {
            Ok(lock) => HostLock::new(lock),
            Err(NotLocked::Fault(error)) => HostLock::barred(problem_of(error.kind())),
            Err(NotLocked::InUse) => {
                self.trouble = Some(FileProblem::Writer);
                return Err(AlreadyLocked);
            }
        };
        self.trouble = hold.bar;
        self.settle(path, &mut hold);
        self.held = hold.lock.identity();
        Ok(hold)
    }

    fn unlock(&mut self, _hold: HostLock) {
        self.held = None;
    }

    fn open(&mut self, path: &str) -> Result<OpenedFile<StdSource<HostReader>>, NotOpened> {
        match self.opened(path) {
            Ok((file, found, trouble)) => {
                self.trouble = trouble;
                self.read_with_log(path, file, &found)
            }
            Err(error) => {
                self.trouble = problem_of(error.kind());
                Err(NotOpened::Fault)
            }
        }
    }

    fn close(&mut self, _reader: StdSource<HostReader>) {}

    fn compare(&mut self, path: &str, hold: &HostLock, image: &[u8]) -> Comparison {
        if self.is_taken(path, hold) {
            self.trouble = Some(FileProblem::Exists);
            return Comparison::Other;
        }
        // a file that has a log may stand for another image than its bytes, and a sync of the log may have failed
        let may_be_equal = hold.log.is_none() && hold.begun.is_none() && hold.bar.is_none();
        if may_be_equal && self.lasts_equal(path, hold, image).unwrap_or(false) {
            Comparison::Equal
        } else {
            Comparison::Different
        }
    }

    fn create_new(&mut self, path: &str) -> Result<(StdOutput<SparseFile>, HostLock), DeviceFault> {
        let mut hold = HostLock::new(FileLock::Absent);
        match self.made(path, &mut hold) {
            Ok(file) => Ok((self.writer_of(file), hold)),
            Err(trouble) => Err(self.not_written(trouble)),
        }
    }

    fn create(
        &mut self,
        path: &str,
        how: SaveMode,
        hold: &mut HostLock,
    ) -> Result<StdOutput<SparseFile>, DeviceFault> {
        if hold.bar.is_some() || hold.log.is_some() || hold.begun.is_some() {
            return Err(self.not_written(hold.bar.or(hold.log)));
        }
        match self.file_for(path, how, hold) {
            Ok(file) => Ok(self.writer_of(file)),
            Err(trouble) => Err(self.not_written(trouble)),
        }
    }

    fn sync_and_close(&mut self, writer: StdOutput<SparseFile>) -> Result<(), DeviceFault> {
        let written = writer.inner();
        let is_written = written.end().is_ok() && sync_file(written.file());
        let lasts = is_written && self.is_name_synced();
        match self.unnamed.take() {
            Some(unnamed) => self.name(unnamed, lasts && writer.is_sound()),
            None if lasts && writer.is_sound() => Ok(()),
            None => Err(self.not_written(None)),
        }
    }

    fn commit_replacement(&mut self, path: &str, hold: &mut HostLock) -> Result<(), DeviceFault> {
        let Some(beside) = hold.beside.take() else {
            return Err(self.not_written(None));
        };
        let is_taken = self.is_taken(path, hold);
        if is_taken || beside.place(self.files).is_err() {
            hold.beside = Some(beside);
            return Err(self.not_written(is_taken.then_some(FileProblem::Exists)));
        }
        let lasts = beside.sync_folder();
        if !beside.has_owner() {
            self.trouble = Some(FileProblem::Owner);
        }
        hold.lock = beside.into_lock();
        self.held = hold.lock.identity();
        if lasts {
            Ok(())
        } else {
            Err(self.not_written(None))
        }
    }

    fn discard_replacement(&mut self, _path: &str, hold: &mut HostLock) {
        if let Some(beside) = hold.beside.take() {
            beside.discard(self.files);
        }
    }

    fn begin_log(
        &mut self,
        path: &str,
        hold: &mut HostLock,
    ) -> Result<CommittedImage, DeviceFault> {
        hold.begun = None;
        if !self.has_logs || hold.bar.is_some() {
            return Err(self.not_written(hold.bar));
        }
        match OpenLog::begin(self.files, path, &hold.lock) {
            Ok((log, kept)) => {
                hold.log = None;
                hold.begun = Some(log);
                Ok(kept)
            }
            Err(trouble) => Err(self.not_written(trouble)),
        }
    }

    fn end_log(&mut self, _path: &str, hold: &mut HostLock) {
        if let Some(log) = hold.begun.take() {
            log.remove(self.files);
        }
    }

    fn sync(&mut self, path: &str, hold: &mut HostLock) -> Result<(), DeviceFault> {
        match self.sync_found(path, hold) {
            Ok(true) => Ok(()),
            _ => Err(self.not_written(None)),
        }
    }
}
