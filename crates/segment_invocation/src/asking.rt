//! What the words of a command line ask for.
ghost use Rattle.std.specs.Prelude.{◌≡◌, false, Some, None, Ok, Err, map, drop, codes, IfErr, IfOk, MatchResult};
ghost use Rattle.std.specs.Prelude.{option_map, option_and_then};
ghost use Rattle.clap.specs.{Matches.found_of, Values.kind_of, Walk.first_of, Walk.rows_of};
ghost use Rattle.clap.specs.declared.error.kind.ErrorKind.TheVariants.{DisplayVersion, OutOfMemory as NoMemory};
ghost use Rattle.segment_lang.specs.Lexing.{number_of};
ghost use Rattle.segment_invocation.specs.Invocations.{InvocationValue, IsAskedBy, IsRequestedBy, IsRequestWritten};
ghost use Rattle.segment_invocation.specs.Invocations.{IsWritten, IsWrongBy, ParsesTo, RequestValue, asked_as};
ghost use Rattle.segment_invocation.specs.Invocations.{asked_by, asked_in, asked_run, commits_amiss, dumped_of, is_set};
ghost use Rattle.segment_invocation.specs.Invocations.{json_capacities, list_of, mode_in, no_number, of_version};
ghost use Rattle.segment_invocation.specs.Invocations.{options_by, options_of, origin_by, origin_of, request_by};
ghost use Rattle.segment_invocation.specs.Invocations.{requested_in, saving_of, seconds_of, size_of, two_scripts};
ghost use Rattle.segment_invocation.specs.Invocations.{wrong_by, wrong_command, wrong_filed, wrong_in, wrong_mode};
ghost use Rattle.segment_invocation.specs.Invocations.{wrong_options, wrong_run};
ghost use Rattle.segment_invocation.specs.declared.usage.InvocationFault.TheVariants.{OutOfMemory, Usage};
ghost use Rattle.segment_invocation.specs.declared.usage.UsageError.TheVariants.{Arguments};

use crate::command_line::command_line;
use crate::invocations::{
    AnswerOptions, FileCommand, FileOptions, Invocation, ModeName, Options, Report, Request, Script,
};
use crate::nearest::nearest_mode;
use crate::usage::{InvocationFault, UsageError};
use clap::error::ErrorKind;
use clap::{ArgMatches, Error as Misread};
use segment_disk::SaveMode;
use segment_lang::number_of;
use std::alloc::{AllocError, Global};

/// Returns the word of an operand or an option, if there is one.
fn argument_of<'a>(words: &ArgMatches<'a>, id: &str) -> Option<&'a str>
    ensures { option_map (λ argument. argument.now) result ≡ first_of id.now (rows_of (found_of words.now)) }
{
    words.get_str(id)
}

/// Returns the values of an operand or an option that may stand there more than once.
#[tactic(auto, using(crate::proofs::asking::NamedFiles::all_listed, crate::proofs::asking::NamedFiles::none_listed))]
fn texts_in<'a>(alloc: Global, words: &ArgMatches<'a>, id: &str) -> Result<Vec<&'a str>, AllocError>
    ensures { IfOk result (λ texts. map (λ s. s.now) texts.items ≡ list_of id.now (rows_of (found_of words.now))) }
{
    let mut texts = Vec::new(alloc);
    let Some(values) = words.get_strs(id) else {
        return Ok(texts);
    };
    texts.extend_from_slice(values)?;
    Ok(texts)
}

/// Returns the mode of a run, `open_only` if none is named.
fn mode_in(alloc: Global, words: &ArgMatches<'_>) -> Result<ModeName, UsageError>
    ensures read { ParsesTo (mode_in (rows_of (found_of words.now))) result }
    ensures error { IfErr result (λ e. wrong_by e ≡ Some (wrong_mode (rows_of (found_of words.now)))) }
{
    let mode = argument_of(words, "mode");
    if is_set(words, "read-only") {
        return match mode {
            Some(_) => Err(UsageError::Modes),
            None => Ok(ModeName::OpenReadOnly),
        };
    }
    match mode {
        Some(argument) => match ModeName::from_argument(argument) {
            Some(mode) => Ok(mode),
            None => Err(UsageError::Mode(nearest_mode(alloc, argument))),
        },
        None => Ok(ModeName::OpenOnly),
    }
}

/// Returns the number after an option, if there is one.
fn count_in(words: &ArgMatches<'_>, id: &str) -> Result<Option<u64>, UsageError>
    ensures read { ParsesTo (size_of (first_of id.now (rows_of (found_of words.now)))) result }
    ensures error { IfErr result (λ e. wrong_by e ≡ Some no_number) }
{
    match argument_of(words, id) {
        Some(argument) => match number_of(argument.as_bytes()) {
            Some(count) => Ok(Some(count)),
            None => Err(UsageError::Number),
        },
        None => Ok(None),
    }
}

/// Returns the number of a command.
#[tactic(auto, using(crate::proofs::asking::NamedFiles::number_read, crate::proofs::asking::NamedFiles::no_number_read, crate::proofs::asking::NamedFiles::number_unread))]
fn number_in(words: &ArgMatches<'_>) -> Result<u64, UsageError>
    ensures read { ParsesTo (option_and_then number_of (first_of (codes "number") (rows_of (found_of words.now))))
        result }
    ensures error { IfErr result (λ e. wrong_by e ≡ Some no_number) }
{
    match count_in(words, "number")? {
        Some(number) => Ok(number),
        None => Err(UsageError::Number),
    }
}

/// Tells whether a flag stands among the words.
fn is_set(words: &ArgMatches<'_>, id: &str) -> bool
    ensures { result ≡ is_set (first_of id.now (rows_of (found_of words.now))) }
{
    matches!(argument_of(words, id), Some("true"))
}

/// Returns how the file of a command is taken and saved.
fn keeping_in(words: &ArgMatches<'_>) -> Result<FileOptions, UsageError>
    ensures save { IfOk result (λ k. k.saving ≡ saving_of (first_of (codes "replace") (rows_of (found_of words.now)))) }
    ensures commit { IfOk result (λ k. k.commit ≡ is_set (first_of (codes "commit") (rows_of (found_of words.now)))) }
    ensures read { MatchResult result (λ k. seconds_of (first_of (codes "wait") (rows_of (found_of words.now)))
        ≡ Some k.wait)
        (λ e. seconds_of (first_of (codes "wait") (rows_of (found_of words.now))) ≡ None) }
    ensures error { IfErr result (λ e. wrong_by e ≡ Some no_number) }
{
    let wait = count_in(words, "wait")?.unwrap_or(0);
    let saving = if is_set(words, "replace") {
        SaveMode::Replacing
    } else {
        SaveMode::InPlace
    };
    let commit = is_set(words, "commit");
    Ok(FileOptions {
        saving,
        commit,
        wait,
    })
}

/// Tells whether a run is to commit that saves otherwise, or not at all.
fn commits_amiss(words: &ArgMatches<'_>) -> bool
    ensures { result ≡ commits_amiss (rows_of (found_of words.now)) }
{
    if !is_set(words, "commit") {
        return false;
    }
    if is_set(words, "replace") || is_set(words, "read-only") {
        return true;
    }
    match argument_of(words, "mode") {
        Some(mode) => mode != "open_only" && mode != "open_or_create",
        None => false,
    }
}

/// Returns where the script of a run comes from, that has these lines on the command line.
fn script_in<'a>(words: &ArgMatches<'a>, lines: Vec<&'a str>) -> Result<Script<'a>, UsageError>
    ensures read { MatchResult result
        (λ s. origin_of (first_of (codes "script") (rows_of (found_of words.now)))
        (map (λ l. l.now) lines.entry.items) ≡ Some (origin_by s))
        (λ e. origin_of (first_of (codes "script") (rows_of (found_of words.now)))
        (map (λ l. l.now) lines.entry.items) ≡ None) }
    ensures error { IfErr result (λ e. wrong_by e ≡ Some two_scripts) }
{
    match argument_of(words, "script") {
        Some(path) if lines.is_empty() => Ok(Script::File(path)),
        Some(_) => Err(UsageError::Script),
        None if lines.is_empty() => Ok(Script::Input),
        None => Ok(Script::Lines(lines)),
    }
}

/// Returns what the words of the command `run` ask for, of a file.
fn read_run<'a>(
    alloc: Global,
    file: &'a str,
    words: &ArgMatches<'a>,
) -> Result<Invocation<'a>, UsageError>
    ensures read { MatchResult result (λ i. asked_run file.now (rows_of (found_of words.now)) ≡ Some (asked_by i))
        (λ e. asked_run file.now (rows_of (found_of words.now)) ≡ None) }
    ensures error { IfErr result (λ e. wrong_by e ≡ Some (wrong_run (rows_of (found_of words.now)))) }
{
    let mode = mode_in(alloc, words)?;
    let size = count_in(words, "size")?;
    if mode.wants_size() && size.is_none() {
        return Err(UsageError::Size);
    }
    Ok(Invocation::Run(file, mode, size))
}

/// Returns what a dump tells.
fn dump_in(words: &ArgMatches<'_>) -> Result<Report, UsageError>
    ensures read { ParsesTo (dumped_of (rows_of (found_of words.now))) result }
    ensures error { IfErr result (λ e. wrong_by e ≡ Some json_capacities) }
{
    match (is_set(words, "json"), is_set(words, "capacities")) {
        (true, true) => Err(UsageError::Capacities),
        (true, false) => Ok(Report::Json),
        (false, true) => Ok(Report::Capacities),
        (false, false) => Ok(Report::Dump),
    }
}

/// Returns what the words of a command with this file ask for.
fn read_filed<'a>(
    alloc: Global,
    command: FileCommand,
    file: &'a str,
    words: &ArgMatches<'a>,
) -> Result<Invocation<'a>, UsageError>
    ensures read { MatchResult result
        (λ i. asked_as (Some command) file.now (rows_of (found_of words.now)) ≡ Some (asked_by i))
        (λ e. asked_as (Some command) file.now (rows_of (found_of words.now)) ≡ None) }
    ensures error { IfErr result (λ e. wrong_by e
        ≡ Some (wrong_filed (Some command) (rows_of (found_of words.now)))) }
{
    match command {
        FileCommand::Create => Ok(Invocation::Create(file, number_in(words)?)),
        FileCommand::Run => read_run(alloc, file, words),
        FileCommand::Check => Ok(Invocation::Check(file)),
        FileCommand::Grow => Ok(Invocation::Grow(file, number_in(words)?)),
        FileCommand::Shrink => Ok(Invocation::Shrink(file)),
        FileCommand::Migrate => Ok(Invocation::Migrate(file)),
        FileCommand::Stat => Ok(Invocation::Tell(file, Report::Figures)),
        FileCommand::Draw if is_set(words, "html") => Ok(Invocation::Tell(file, Report::Page)),
        FileCommand::Draw => Ok(Invocation::Tell(file, Report::Picture)),
        FileCommand::Dump => Ok(Invocation::Tell(file, dump_in(words)?)),
        FileCommand::Names => {
            let most = count_in(words, "most")?;
            Ok(Invocation::Names(file, argument_of(words, "prefix").unwrap_or(""), most))
        }
        FileCommand::Get => match argument_of(words, "key") {
            Some(key) => Ok(Invocation::Get(file, key, argument_of(words, "index"))),
            None => Err(UsageError::Key),
        },
        FileCommand::Load => Ok(Invocation::Load(file, count_in(words, "size")?)),
        FileCommand::Salvage => Ok(Invocation::Salvage(file)),
    }
}

/// Returns what the words of a command ask for, without its options.
fn read_command<'a>(
    alloc: Global,
    name: &str,
    words: &ArgMatches<'a>,
) -> Result<Invocation<'a>, UsageError>
    ensures read { MatchResult result (λ i. asked_in name.now (rows_of (found_of words.now)) ≡ Some (asked_by i))
        (λ e. asked_in name.now (rows_of (found_of words.now)) ≡ None) }
    ensures error { IfErr result (λ e. wrong_by e ≡ Some (wrong_command name.now (rows_of (found_of words.now)))) }
{
    if name == "lint" {
        return Ok(Invocation::Lint);
    }
    if name == "language" {
        return Ok(Invocation::Language);
    }
    let Some(file) = argument_of(words, "file") else {
        return Err(UsageError::File);
    };
    match FileCommand::from_argument(name) {
        Some(command) => read_filed(alloc, command, file, words),
        None => Err(UsageError::Command),
    }
}

/// Returns the options of a command, which has these files, and these lines of a script.
fn options_in<'a>(
    words: &ArgMatches<'a>,
    files: Vec<&'a str>,
    lines: Vec<&'a str>,
) -> Result<Options<'a>, UsageError>
    requires files { map (λ f. f.now) files.items ≡ list_of (codes "file") (rows_of (found_of words.now)) }
    requires lines { map (λ l. l.now) lines.items ≡ list_of (codes "line") (rows_of (found_of words.now)) }
    ensures read { MatchResult result (λ o. options_of (rows_of (found_of words.now)) ≡ Some (options_by o))
        (λ e. options_of (rows_of (found_of words.now)) ≡ None) }
    ensures error { IfErr result (λ e. wrong_by e ≡ Some (wrong_options (rows_of (found_of words.now)))) }
{
    let keeping = keeping_in(words)?;
    let script = script_in(words, lines)?;
    let explain = is_set(words, "explain");
    if explain && files.len() > 1 {
        return Err(UsageError::Files);
    }
    if commits_amiss(words) {
        return Err(UsageError::Commit);
    }
    Ok(Options {
        script,
        files,
        keeping,
        answering: AnswerOptions {
            strict: is_set(words, "strict"),
            fail: is_set(words, "fail"),
            numbered: is_set(words, "numbered"),
        },
        explain,
        quiet: is_set(words, "quiet"),
        all: is_set(words, "all"),
        verbose: is_set(words, "verbose"),
    })
}

/// Returns what the words of a command ask for. The command is read before its options.
fn read_request<'a>(
    alloc: Global,
    name: &str,
    words: &ArgMatches<'a>,
    files: Vec<&'a str>,
    lines: Vec<&'a str>,
) -> Result<Request<'a>, UsageError>
    requires files { map (λ f. f.now) files.items ≡ list_of (codes "file") (rows_of (found_of words.now)) }
    requires lines { map (λ l. l.now) lines.items ≡ list_of (codes "line") (rows_of (found_of words.now)) }
    ensures read { MatchResult result
        (λ r. requested_in name.now (rows_of (found_of words.now)) ≡ Some (request_by r))
        (λ e. requested_in name.now (rows_of (found_of words.now)) ≡ None) }
    ensures error { IfErr result (λ e. wrong_by e ≡ Some (wrong_in name.now (rows_of (found_of words.now)))) }
{
    let command = read_command(alloc, name, words)?;
    let options = options_in(words, files, lines)?;
    Ok(Request { command, options })
}

/// Returns what the words of a command ask for, after taking from them those that there may be more of.
fn read_found<'a>(
    alloc: Global,
    name: &str,
    words: &ArgMatches<'a>,
) -> Result<Request<'a>, InvocationFault>
    ensures read { IfOk result (λ r. requested_in name.now (rows_of (found_of words.now)) ≡ Some (request_by r)) }
    ensures refused { (w : UsageError) → result ≡ Err (Usage w)
        → (requested_in name.now (rows_of (found_of words.now)) ≡ None)
        × (wrong_by w ≡ Some (wrong_in name.now (rows_of (found_of words.now)))) }
{
    let files = texts_in(alloc, words, "file")?;
    let lines = texts_in(alloc, words, "line")?;
    Ok(read_request(alloc, name, words, files, lines)?)
}

/// Returns what words without a command ask for: the version or help, or says that they are wrong.
fn read_other<'a>(alloc: Global, other: Misread) -> Result<Request<'a>, InvocationFault>
    ensures version { kind_of other ≡ DisplayVersion → MatchResult result (λ r. request_by r ≡ of_version) (λ e. ⊥) }
    ensures memory { kind_of other ≡ NoMemory → result ≡ Err OutOfMemory }
    ensures error { (kind_of other ≡ DisplayVersion → ⊥) → (kind_of other ≡ NoMemory → ⊥)
        → result ≡ Err (Usage (Arguments other)) }
    ensures uniqueness { IfOk result (λ r. (request_by r ≡ of_version) × (kind_of other ≡ DisplayVersion)) }
    ensures result { (w : UsageError) → result ≡ Err (Usage w) → (w ≡ Arguments other) × (kind_of other ≡
        NoMemory → ⊥) }
{
    if other.kind() == ErrorKind::DisplayVersion {
        return Ok(Request {
            command: Invocation::Version,
            options: Options::none(alloc),
        });
    }
    Err(InvocationFault::from(other))
}

/// Returns what a command line asks for. Its first word is the program's name.
///
/// # Errors
///
/// `Usage` if it is wrong or asks for help; it says what is wrong, or has the help. `OutOfMemory` if memory for reading
/// it was refused.
pub fn request<'a>(alloc: Global, words: &'a [&'a str]) -> Result<Request<'a>, InvocationFault>
    ensures read { IfOk result (λ r. IsRequestedBy (map (λ s. s.now) words.now) (request_by r)) }
    ensures input { (a : RequestValue) → IsRequestWritten a (drop 1 (map (λ s. s.now) words.now))
        → MatchResult result (λ r. request_by r ≡ a) (λ e. e ≡ OutOfMemory) }
    ensures refused { (w : UsageError) → result ≡ Err (Usage w) → IsWrongBy (map (λ s. s.now) words.now) w }
{
    let matches = match command_line(alloc)?.try_get_matches_from(words) {
        Ok(matches) => matches,
        Err(other) => return read_other(alloc, other),
    };
    match matches.subcommand() {
        Some((name, found)) => read_found(alloc, name, found),
        None => Err(InvocationFault::Usage(UsageError::Command)),
    }
}

/// Returns which command a command line asks for, whatever its options are. Its first word is the program's name.
///
/// # Errors
///
/// Those of [`request`].
pub fn invocation<'a>(
    alloc: Global,
    words: &'a [&'a str],
) -> Result<Invocation<'a>, InvocationFault>
    ensures read { IfOk result (λ i. IsAskedBy (map (λ s. s.now) words.now) (asked_by i)) }
    ensures input { (a : InvocationValue) → IsWritten a (drop 1 (map (λ s. s.now) words.now))
        → MatchResult result (λ i. asked_by i ≡ a) (λ e. e ≡ OutOfMemory) }
    ensures refused { (w : UsageError) → result ≡ Err (Usage w) → IsWrongBy (map (λ s. s.now) words.now) w }
{
    match request(alloc, words) {
        Ok(asked) => Ok(asked.command),
        Err(fault) => Err(fault),
    }
}
