//! The program `segment`: keeps a segment in a file, and does to it what the command line asks for.
#![tactic(auto)]

ghost use Rattle.std.specs.Prelude.{◌≡◌, IfOk, map, option_map};
ghost use Rattle.std.specs.Io.KnownBytes.{ReadConsumes};
ghost use Rattle.segment_commands.specs.Reports.{command_status};
ghost use Rattle.segment_commands.specs.declared.command_faults.CommandFault.TheVariants.{Usage};
ghost use Rattle.segment_disk.specs.Events.{nothing_taken};
ghost use Rattle.segment_invocation.specs.Invocations.{options_by, request_by};
ghost use Rattle.segment.specs.Outcomes.{IsRunStatus, explains, fault_beside, is_quiet_end, problem_at};
ghost use Rattle.segment.specs.Requests.{IsRunFor, is_among_pleas, only, stand_in_count, unusable_count};

mod requests;

use raw_region::std_io::{ReadOnce, StdSink, StdSource};
use raw_region::{DeviceFault, Source};
use requests::{NoAnswerMemory, as_strs, buffered_writer, command_arguments, read_request};
use segment_answers::{LineOutput, NumberedOutput};
use segment_cli::SessionFault;
use segment_commands::{
    CheckRequest, CommandFault, RefusalWatch, RunRequest, change, check, check_all, create,
    explain, get, is_stand_in, lint, load, load_over, names, print, print_language, put_trouble,
    report, report_no_memory, run_and_commit, salvage, tell_few, tell_segment,
};
use segment_disk::{Disk, FileProblem, HostDisk, OpenedFile, StdOutput};
use segment_invocation::{
    FileChange, Invocation, ModeName, Options, Report, Request, SaveMode, Script, VERSION,
    script_text,
};
use segment_scripts::{Until, command_rows};
use std::env::var;
use std::fs::File;
use std::io::{self, IsTerminal, Read, Write};
use std::process::ExitCode;
use std::rt::Files;
use std::time::Clock;

/// If a second line says why a command failed, whatever standard error is.
const VERBOSE: &str = "SEGMENT_VERBOSE";

/// The status of a run with `--fail` that is done, if an answer was an error.
const HAS_REFUSAL: u8 = 5;

/// The status if the reader of standard output ended first, as of a program that SIGPIPE ends.
const CLOSED_PIPE: u8 = 141;

/// Ends with the status of what came of the command line; if that is a fault, its line goes to standard error.
fn main(rt: HostRuntime) -> ExitCode {
    let status = match obey(&rt) {
        Ok(status) => status,
        Err(_) => report_no_memory(&mut StdSink::new(rt.stderr())),
    };
    ExitCode::from(status)
}

/// Says what a fault is, and returns its status.
fn tell(rt: &HostRuntime, fault: CommandFault) -> u8
    ensures { result ≡ command_status fault }
{
    report(fault, &mut StdSink::new(rt.stderr()))
}

/// Does what the program's own command line asks for, and returns the status. Words that are no UTF-8 are a wrong
/// command line, unless they are paths.
fn obey(rt: &HostRuntime) -> Result<u8, NoAnswerMemory> {
    let Some(owned) = command_arguments(rt)? else {
        return Ok(tell_no_text(rt));
    };
    let words = as_strs(rt.alloc(), owned.as_slice())?;
    let stand_ins = count_stand_ins(words.as_slice());
    match read_request(rt.alloc(), words.as_slice())? {
        Ok(asked) if stand_ins == unusable_paths(&asked.options) => perform(rt, &asked),
        Err(wrong) if stand_ins == 0 => {
            let _ = eprint!(rt; "{wrong}");
            Ok(tell(rt, CommandFault::Usage))
        }
        _ => Ok(tell_no_text(rt)),
    }
}

/// Says that a word is no UTF-8 that has to be, and returns the status.
fn tell_no_text(rt: &HostRuntime) -> u8
    ensures { result ≡ command_status Usage }
{
    let _ = eprintln!(rt; "error: the command line is no UTF-8");
    tell(rt, CommandFault::Usage)
}

/// Returns how many words stand for words that are no UTF-8.
fn count_stand_ins(words: &[&str]) -> usize
    ensures { result ≡ stand_in_count (map (λ s. s.now) words.now) }
{
    words
        .iter()
        .filter(|argument| is_stand_in(argument))
        .count()
}

/// Counts the stand-ins of paths that are no UTF-8, among the files of a command and its script.
fn unusable_paths(options: &Options<'_>) -> usize
    ensures { result ≡ unusable_count (options_by options.now) }
{
    let files = count_stand_ins(options.files.as_slice());
    match options.script {
        Script::File(path) if is_stand_in(path) => files.saturating_add(1),
        _ => files,
    }
}

/// Does what the command line asks for, with the files of the system, standard input and standard output, and returns
/// the status. If a person reads standard error, `--verbose` is given or `SEGMENT_VERBOSE` is set, a second line says
/// why the command failed, as far as that is known.
fn perform(rt: &HostRuntime, asked: &Request<'_>) -> Result<u8, NoAnswerMemory> {
    let out = StdOutput::new(buffered_writer(rt.alloc(), io::writer(rt))?);
    let options = &asked.options;
    let disk = HostDisk::with_options(rt, options.keeping.wait, options.keeping.saving);
    let mut host = Host {
        rt,
        disk: if options.keeping.commit {
            disk.keeping_logs()
        } else {
            disk
        },
        scripts: HostDisk::without_logs(rt),
        is_committing: options.keeping.commit,
        is_verbose: options.verbose || rt.stderr().is_terminal() || var(rt, VERBOSE).is_ok(),
    };
    let answer = host.command(asked, out);
    let status = match answer {
        Ok(status) => status,
        Err(fault) => tell(rt, fault_beside(host.disk.trouble(), fault)),
    };
    if host.is_verbose {
        host.explain(options, answer);
    }
    Ok(status)
}

/// A disk that tells why its last call failed. `Host` takes any such disk, because each call with a disk of a known
/// type costs the prover seconds.
trait TellingDisk: Disk {
    /// Returns the last problem with a file, if there was one.
    fn trouble(&self) -> Option<FileProblem>;
}

impl<'a, R: Files<File = File> + AllocGlobal + Clock> TellingDisk for HostDisk<'a, R> {
    fn trouble(&self) -> Option<FileProblem> {
        HostDisk::trouble(self)
    }
}

/// The system, as a command uses it.
#[derive(Drop)]
struct Host<'a, D> {
    rt: &'a HostRuntime,
    /// The files of segments.
    disk: D,
    /// The files of scripts.
    scripts: HostDisk<'a, HostRuntime>,
    /// Whether a run commits what it changed.
    is_committing: bool,
    /// Whether a fault of a file is followed by why it came.
    is_verbose: bool,
}

impl<'a, D: TellingDisk> Host<'a, D> {
    /// Returns what the system said of the script that was to be opened, or else of the file, and its path. Of a path
    /// that is no UTF-8 the system is told nothing.
    fn trouble_of<'b>(&self, options: &Options<'b>) -> Option<(&'b str, FileProblem)> {
        if let Script::File(path) = options.script {
            if let Some(trouble) = problem_with(path, self.scripts.trouble()) {
                return Some((path, trouble));
            }
        }
        let file = file_of(options)?;
        Some((file, problem_with(file, self.disk.trouble())?))
    }

    /// Says in a second line why a command failed, as far as that is known, and of one that is done if the file has
    /// another owner since.
    fn explain(&self, options: &Options<'_>, answer: Result<u8, CommandFault>) {
        if let Some((path, trouble)) = self.trouble_of(options) {
            if is_told(answer, trouble) {
                let _ = put_trouble(path, Some(trouble), &mut StdSink::new(self.rt.stderr()));
                return;
            }
        }
        if let Err(fault) = answer {
            self.say_limits(fault);
        }
    }

    /// Says of a fault that comes of no file what could not be written, or which numbers are good.
    fn say_limits(&self, fault: CommandFault) {
        let text = match fault {
            CommandFault::Session(SessionFault::WriteFault) => {
                "standard output: could not be written whole"
            }
            CommandFault::Session(SessionFault::BadSize) => {
                "a segment has 144 bytes, or a multiple of 16 from 176 to 1073741824"
            }
            CommandFault::Growth(_) => {
                "a segment grows by a multiple of 16 from 32 on, and has at most 1073741824 bytes"
            }
            _ => return,
        };
        let _ = eprintln!(self.rt; "segment: {text}");
    }

    /// Does what the command line asks for, and returns the status.
    fn command<W: Write + Drop>(
        &mut self,
        asked: &Request<'_>,
        out: StdOutput<W>,
    ) -> Result<u8, CommandFault>
        requires { out.history ≡ nothing_taken }
    {
        let how = &asked.options;
        let mut out = out;
        let answer = match &asked.command {
            Invocation::Create(file, size) => self.create(file, *size),
            Invocation::Run(file, mode, size) => {
                return self.answer(&run_request(file, *mode, *size, how), how, out);
            }
            Invocation::Check(file) if how.explain || how.files.len() < 2 && !how.quiet => {
                self.check_file(file, how.explain, &mut out)
            }
            Invocation::Check(_) => return self.check_files(how, &mut out),
            Invocation::Grow(file, bytes) => self.change(
                file,
                FileChange::Grow(*bytes),
                how,
                &mut out,
            ),
            Invocation::Shrink(file) => self.change(file, FileChange::Shrink, how, &mut out),
            Invocation::Migrate(file) => self.change(file, FileChange::Migrate, how, &mut out),
            Invocation::Tell(file, what) => self.tell_segment(file, *what, how.all, &mut out),
            Invocation::Names(file, prefix, most) => self.names(file, prefix, *most, &mut out),
            Invocation::Get(file, key, index) => self.get(file, key, *index, &mut out),
            Invocation::Load(file, size) => self.load(file, *size, how.keeping.saving),
            Invocation::Salvage(file) => return self.salvage(file, &mut out),
            Invocation::Lint => self.lint(&mut out),
            Invocation::Language => print_language(&mut out, command_rows()),
            Invocation::Version => print(&mut out, VERSION),
        };
        match answer {
            Ok(()) => Ok(0),
            Err(_) if ends_quietly(asked) && out.is_closed_pipe() => Ok(CLOSED_PIPE),
            Err(fault) => Err(fault),
        }
    }

    /// Makes a file with an empty segment.
    fn create(&mut self, file: &str, size: u64) -> Result<(), CommandFault> {
        create(self.rt.alloc(), &mut self.disk, file, size)
    }

    /// Checks one file. If `explains` is true, it prints what is wrong.
    fn check_file<W: Write + Drop>(
        &mut self,
        file: &str,
        explains: bool,
        out: &mut StdOutput<W>,
    ) -> Result<(), CommandFault>
        requires { out.old.history ≡ nothing_taken }
    {
        let alloc = self.rt.alloc();
        let disk = &mut self.disk;
        if explains {
            explain(alloc, disk, file, out)
        } else {
            check(alloc, disk, file, out)
        }
    }

    /// Prints a report of the segment in a file. A picture of more than 10,000 objects is refused unless `all` is true.
    fn tell_segment<W: Write + Drop>(
        &mut self,
        file: &str,
        what: Report,
        all: bool,
        out: &mut StdOutput<W>,
    ) -> Result<(), CommandFault>
        requires { out.old.history ≡ nothing_taken }
    {
        let alloc = self.rt.alloc();
        let disk = &mut self.disk;
        match what {
            Report::Picture | Report::Page if !all => tell_few(alloc, disk, file, out, what),
            _ => tell_segment(alloc, disk, file, out, what),
        }
    }

    /// Prints at most `most` of the names that begin with `prefix`, or all.
    fn names<W: Write + Drop>(
        &mut self,
        file: &str,
        prefix: &str,
        most: Option<u64>,
        out: &mut StdOutput<W>,
    ) -> Result<(), CommandFault>
        requires { out.old.history ≡ nothing_taken }
    {
        let most = most.unwrap_or(u64::MAX);
        names(self.rt.alloc(), &mut self.disk, file, prefix, most, out)
    }

    /// Prints the value at an index, or at a key of a map. Without an index it prints the whole string, or the first
    /// value.
    fn get<W: Write + Drop>(
        &mut self,
        file: &str,
        key: &str,
        index: Option<&str>,
        out: &mut StdOutput<W>,
    ) -> Result<(), CommandFault>
        requires { out.old.history ≡ nothing_taken }
    {
        let index = index.map(|index| index.as_bytes());
        get(
            self.rt.alloc(),
            &mut self.disk,
            file,
            key.as_bytes(),
            index,
            out,
        )
    }

    /// Makes a segment of the dump on standard input, in a new file, or over another if `saving` says so.
    fn load(
        &mut self,
        file: &str,
        size: Option<u64>,
        saving: SaveMode,
    ) -> Result<(), CommandFault> {
        let alloc = self.rt.alloc();
        let disk = &mut self.disk;
        let mut text = StdSource::new(self.rt.reader());
        match saving {
            SaveMode::InPlace => load(alloc, disk, file, size, &mut text),
            SaveMode::Replacing => load_over(alloc, disk, file, size, &mut text),
        }
    }

    /// Tells which lines of the script on standard input are no commands.
    fn lint<W: Write + Drop>(&mut self, out: &mut StdOutput<W>) -> Result<(), CommandFault>
        requires { out.old.history ≡ nothing_taken }
    {
        let mut script = StdSource::new(self.rt.reader());
        lint(command_rows(), &mut script, out)
    }

    /// Checks the files of the command line, and returns the worst of their statuses.
    fn check_files<W: Write + Drop>(
        &mut self,
        how: &Options<'_>,
        out: &mut StdOutput<W>,
    ) -> Result<u8, CommandFault>
        requires { out.old.history ≡ nothing_taken }
    {
        let is_verbose = self.is_verbose;
        let trouble_of = |disk: &D| { if is_verbose { disk.trouble() } else { None } };
        let request = CheckRequest {
            files: how.files.as_slice(),
            is_quiet: how.quiet,
        };
        let mut err = StdSink::new(self.rt.stderr());
        let alloc = self.rt.alloc();
        check_all(alloc, &mut self.disk, &request, trouble_of, out, &mut err)
    }

    /// Dumps what is right of the image in a file, and returns the status. What was left out of a file that a writer
    /// holds tells nothing of the image, and the file is in use.
    fn salvage<W: Write + Drop>(
        &mut self,
        file: &str,
        out: &mut StdOutput<W>,
    ) -> Result<u8, CommandFault>
        requires { out.old.history ≡ nothing_taken }
    {
        let mut err = StdSink::new(self.rt.stderr());
        match salvage(self.rt.alloc(), &mut self.disk, file, out, &mut err) {
            Ok(0) => Ok(0),
            Ok(_) if self.disk.trouble() == Some(FileProblem::Writer) => Err(CommandFault::InUse),
            Err(_) if out.is_closed_pipe() => Ok(CLOSED_PIPE),
            answer => answer,
        }
    }

    /// Changes the segment in a file without a script.
    fn change<W: Write + Drop>(
        &mut self,
        file: &str,
        by: FileChange,
        how: &Options<'_>,
        out: &mut StdOutput<W>,
    ) -> Result<(), CommandFault>
        requires { out.old.history ≡ nothing_taken }
    {
        change(
            self.rt.alloc(),
            &mut self.disk,
            file,
            by,
            how.keeping.saving,
            out,
        )
    }

    /// Runs the script that the command line asks for, and returns the status. Its answers go out as they are, or
    /// numbered.
    fn answer<O: LineOutput + Drop>(
        &mut self,
        request: &RunRequest<'_>,
        how: &Options<'_>,
        out: O,
    ) -> Result<u8, CommandFault>
        requires { O.history out ≡ nothing_taken }
        ensures { IfOk result (IsRunStatus (options_by how.now).fails) }
    {
        if how.answering.numbered {
            return self.answer_watched(request, how, NumberedOutput::new(out));
        }
        self.answer_watched(request, how, out)
    }

    /// Runs the script that the command line asks for, and returns the status: with `--fail` another one if an answer
    /// is an error.
    fn answer_watched<O: LineOutput + Drop>(
        &mut self,
        request: &RunRequest<'_>,
        how: &Options<'_>,
        out: O,
    ) -> Result<u8, CommandFault>
        requires { O.history out ≡ nothing_taken }
        ensures { IfOk result (IsRunStatus (options_by how.now).fails) }
    {
        if how.answering.fail {
            let mut watch = RefusalWatch::new(out);
            let status = self.answer_to(request, how, &mut watch)?;
            return Ok(if watch.has_refusal() {
                HAS_REFUSAL
            } else {
                status
            });
        }
        let mut plain = out;
        self.answer_to(request, how, &mut plain)
    }

    /// Runs the script that the command line asks for, which it reads from where that says, and returns the status.
    fn answer_to<O: LineOutput>(
        &mut self,
        request: &RunRequest<'_>,
        how: &Options<'_>,
        out: &mut O,
    ) -> Result<u8, CommandFault>
        requires { O.history out.old ≡ nothing_taken }
        ensures { IfOk result (λ status. status ≡ 0) }
    {
        match &how.script {
            Script::Input => {
                let mut script = StdSource::new(Prompted::new(self.rt, self.rt.reader()));
                self.run(request, &mut script, out)
            }
            Script::File(path) => {
                let Ok(opened) = self.scripts.open(path) else {
                    return Err(CommandFault::Session(SessionFault::ReadFault));
                };
                let OpenedFile { reader, len: _ } = opened;
                let mut script = reader;
                self.run(request, &mut script, out)
            }
            Script::Lines(lines) => {
                let text = script_text(self.rt.alloc(), lines.as_slice())?;
                let mut script = StdSource::new(text.as_slice());
                self.run(request, &mut script, out)
            }
        }
    }

    /// Runs a script, to its end or to the first line that is refused, and returns the status.
    fn run<S: Source, O: LineOutput>(
        &mut self,
        request: &RunRequest<'_>,
        script: &mut S,
        out: &mut O,
    ) -> Result<u8, CommandFault>
        requires script { (S.history script.old).failures ≡ 0 }
        requires out { O.history out.old ≡ nothing_taken }
        ensures { IfOk result (λ status. status ≡ 0) }
    {
        let alloc = self.rt.alloc();
        let disk = &mut self.disk;
        if self.is_committing {
            run_and_commit(alloc, disk, request, script, out)?;
        } else {
            segment_commands::run(alloc, disk, request, script, out)?;
        }
        Ok(0)
    }
}

/// Returns the run that the command line asks for.
fn run_request<'a>(
    path: &'a str,
    mode: ModeName,
    size: Option<u64>,
    how: &Options<'_>,
) -> RunRequest<'a>
    ensures { IsRunFor path.now mode size (options_by how.now) result }
{
    let until = if how.answering.strict {
        Until::Refusal
    } else {
        Until::End
    };
    RunRequest {
        path,
        mode,
        size,
        saving: how.keeping.saving,
        until,
    }
}

/// Returns the fault to print: `InUse` for an image that another writer may have changed while it was read, otherwise
/// the fault itself.
fn fault_beside(trouble: Option<FileProblem>, fault: CommandFault) -> CommandFault
    ensures { result ≡ fault_beside trouble fault }
{
    match (trouble, fault) {
        (Some(FileProblem::Writer), CommandFault::Session(SessionFault::Image(_))) => {
            CommandFault::InUse
        }
        _ => fault,
    }
}

/// Returns true if the problem of the file explains the answer.
fn is_told(answer: Result<u8, CommandFault>, trouble: FileProblem) -> bool
    ensures { result ≡ explains trouble answer }
{
    match answer {
        Ok(_) => matches!(trouble, FileProblem::Owner | FileProblem::Log),
        Err(CommandFault::InUse) => true,
        Err(CommandFault::Session(fault)) => match fault {
            SessionFault::ReadFault => !matches!(trouble, FileProblem::Log),
            SessionFault::WriteFault => {
                !matches!(
                    trouble,
                    FileProblem::Writer | FileProblem::Owner | FileProblem::Log
                )
            }
            SessionFault::Image(_) => matches!(trouble, FileProblem::Writer),
            _ => false,
        },
        Err(_) => false,
    }
}

/// Tells whether a command says nothing if the reader of standard output ended first, as other tools have it.
fn ends_quietly(asked: &Request<'_>) -> bool
    ensures { result ≡ is_quiet_end (request_by asked.now) }
{
    let prints = matches!(
        asked.command,
        Invocation::Tell(_, _)
            | Invocation::Names(_, _, _)
            | Invocation::Get(_, _, _)
            | Invocation::Salvage(_)
            | Invocation::Lint
            | Invocation::Language
    );
    prints || asked.options.explain
}

/// Returns true for the lines by which people ask a program for help, or leave it.
fn is_plea(line: &[u8]) -> bool
    ensures { result ≡ is_among_pleas line.now }
{
    let words = [
        b"help\n".as_slice(),
        b"quit\n".as_slice(),
        b"exit\n".as_slice(),
    ];
    words.iter().any(|argument| *argument == line)
}

/// The script of standard input. If a person types it, and reads standard error, they are prompted for each line.
#[derive(Drop)]
struct Prompted<'a, R> {
    inner: R,
    rt: &'a HostRuntime,
    is_prompting: bool,
}

impl<'a, R: Read> Prompted<'a, R> {
    fn new(rt: &'a HostRuntime, inner: R) -> Prompted<'a, R> {
        Prompted {
            inner,
            rt,
            is_prompting: rt.stdin().is_terminal() && rt.stderr().is_terminal(),
        }
    }
}

impl<'a, R: Read> ReadOnce for Prompted<'a, R> {
    ghost read_gives = { λ old answer bytes new.
        ReadConsumes (R.remaining old.inner) (R.remaining new.inner) answer bytes };

    fn read_once(&mut self, into: &mut [u8]) -> Result<usize, DeviceFault> {
        if self.is_prompting && !into.is_empty() {
            let _ = eprint!(self.rt; "> ");
        }
        let count = self.inner.read_once(into)?;
        if self.is_prompting && is_plea(into.get(..count).unwrap_or(&[])) {
            let _ = eprintln!(self.rt;
                "segment: Ctrl-D saves and ends, Ctrl-C ends; `segment language` lists the commands"
            );
        }
        Ok(count)
    }
}

/// Returns the problem to print for a file: `Unnamed` for a stand-in, otherwise the problem that the system gave.
fn problem_with(path: &str, said: Option<FileProblem>) -> Option<FileProblem>
    ensures { result ≡ problem_at path.now said }
{
    if is_stand_in(path) {
        Some(FileProblem::Unnamed)
    } else {
        said
    }
}

/// Returns the file that the command line names, if there is one alone.
fn file_of<'a>(options: &Options<'a>) -> Option<&'a str>
    ensures { option_map (λ file. file.now) result ≡ only (options_by options.now).paths }
{
    match options.files.as_slice() {
        [file] => Some(*file),
        _ => None,
    }
}
