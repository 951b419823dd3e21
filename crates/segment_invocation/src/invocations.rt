//! What the program may be asked for.
ghost use Rattle.std.specs.Prelude.{◌≡◌, IfOk};
ghost use Rattle.segment_invocation.specs.Invocations.{command_called, mode_called, no_options, options_by};
ghost use Rattle.segment_invocation.specs.Invocations.{script_text, wants_size};

use raw_region::{OutOfMemory, append};
use segment_disk::SaveMode;
use std::alloc::Global;

/// A command that takes a file, by its word: [`Invocation`] says what each does.
#[derive(Clone, Copy)]
pub(crate) enum FileCommand {
    Create,
    Run,
    Check,
    Grow,
    Shrink,
    Migrate,
    Stat,
    Draw,
    Dump,
    Names,
    Get,
    Load,
    Salvage,
}

impl FileCommand {
    /// Returns the command of a word, `None` for any other.
    pub(crate) fn from_argument(argument: &str) -> Option<FileCommand>
        ensures { result ≡ command_called argument.now }
    {
        match argument {
            "create" => Some(FileCommand::Create),
            "run" => Some(FileCommand::Run),
            "check" => Some(FileCommand::Check),
            "grow" => Some(FileCommand::Grow),
            "shrink" => Some(FileCommand::Shrink),
            "migrate" => Some(FileCommand::Migrate),
            "stat" => Some(FileCommand::Stat),
            "draw" => Some(FileCommand::Draw),
            "dump" => Some(FileCommand::Dump),
            "names" => Some(FileCommand::Names),
            "get" => Some(FileCommand::Get),
            "load" => Some(FileCommand::Load),
            "salvage" => Some(FileCommand::Salvage),
            _ => None,
        }
    }
}

/// The name of a mode on the command line.
#[derive(Clone, Copy)]
pub enum ModeName {
    /// `create_only`: the segment is made, in a file that is not there.
    CreateOnly,
    /// `open_only`: the segment is the one in the file.
    OpenOnly,
    /// `open_or_create`: the segment is the one in the file, and is made if there is none.
    OpenOrCreate,
    /// `open_read_only`: commands that may change the segment are refused, and nothing is saved.
    OpenReadOnly,
    /// `open_copy_on_write`: commands may change the segment, and nothing is saved.
    OpenCopyOnWrite,
}

impl ModeName {
    /// Returns the mode of a word. `None` is a word that is none of the five.
    pub(crate) fn from_argument(argument: &str) -> Option<ModeName>
        ensures { result ≡ mode_called argument.now }
    {
        match argument {
            "create_only" => Some(ModeName::CreateOnly),
            "open_only" => Some(ModeName::OpenOnly),
            "open_or_create" => Some(ModeName::OpenOrCreate),
            "open_read_only" => Some(ModeName::OpenReadOnly),
            "open_copy_on_write" => Some(ModeName::OpenCopyOnWrite),
            _ => None,
        }
    }

    /// Tells whether a segment of this mode may have to be made.
    pub(crate) fn wants_size(self) -> bool
        ensures { result ≡ wants_size self }
    {
        matches!(self, ModeName::CreateOnly | ModeName::OpenOrCreate)
    }
}

/// What is told of the segment in a file.
#[derive(Clone, Copy)]
pub enum Report {
    /// How its bytes are used, in figures.
    Figures,
    /// Its picture.
    Picture,
    /// A page for a browser.
    Page,
    /// Its objects as text.
    Dump,
    /// The dump, and after it the capacities of what has one.
    Capacities,
    /// Its objects as lines of JSON.
    Json,
}

/// How the segment in a file changes without a script.
#[derive(Clone, Copy)]
pub enum FileChange {
    /// The segment becomes larger by this number of bytes.
    Grow(u64),
    /// The segment becomes as small as its last block lets it be.
    Shrink,
    /// The segment, of this format or an older one, is written in this format.
    Migrate,
}

/// How a run answers.
#[derive(Clone, Copy)]
pub struct AnswerOptions {
    /// `--strict`: the first answer that is an error ends the run, and nothing is saved.
    pub strict: bool,
    /// `--fail`: the status says whether an answer is an error.
    pub fail: bool,
    /// `--numbered`: each line of an answer stands after the number of the line of the script that it answers.
    pub numbered: bool,
}

/// How the file of a command that writes is taken and saved.
#[derive(Clone, Copy)]
pub struct FileOptions {
    /// How a file that is there is saved: `--replace` says by a new one, which takes the place of the old.
    pub saving: SaveMode,
    /// `--commit`: what a run changed of a file that is there goes to the log beside it. Such a run does not replace.
    pub commit: bool,
    /// `--wait`: for how many seconds the right to write the file is waited for, if another has it.
    pub wait: u64,
}

/// Where the script of a run comes from.
#[derive(Drop)]
pub enum Script<'a> {
    /// Standard input.
    Input,
    /// A file, by its path.
    File(&'a str),
    /// The command line: `-c` before each line.
    Lines(Vec<&'a str>),
}

/// Returns the script of these lines: each with a line end after it.
///
/// # Errors
///
/// Memory for it was refused.
pub fn script_text(alloc: Global, lines: &[&str]) -> Result<Vec<u8>, OutOfMemory>
    ensures { IfOk result (λ text. text.items ≡ script_text lines.now) }
{
    let mut text = Vec::new(alloc);
    'lines: for line in lines {
        append(&mut text, line.as_bytes())?;
        append(&mut text, b"\n")?;
    }
    Ok(text)
}

/// What the program is to do. A file goes by its path, and sizes count bytes.
#[derive(Drop)]
pub enum Invocation<'a> {
    /// To make an empty segment of this size in a file that is not there.
    Create(&'a str, u64),
    /// To run a script on the segment in a file, in a mode, with the size of a segment that is made. The modes
    /// `create_only` and `open_or_create` have a size.
    Run(&'a str, ModeName, Option<u64>),
    /// To check that a file holds a segment. The options have all files of the command line, this one first.
    Check(&'a str),
    /// To make the segment in a file larger by a number of bytes.
    Grow(&'a str, u64),
    /// To make the segment in a file as small as its last block lets it be.
    Shrink(&'a str),
    /// To write the segment in a file, of this format or an older one, in this format.
    Migrate(&'a str),
    /// To tell something of the segment in a file.
    Tell(&'a str, Report),
    /// To print the names of the segment in a file that begin with a text, in their order, at most this number.
    Names(&'a str, &'a str, Option<u64>),
    /// To print the value at a key of the segment in a file: of a map by the key there, of another object by an index.
    Get(&'a str, &'a str, Option<&'a str>),
    /// To make a segment of a dump, in a file: of this size, or as long as the dump says and cut after its last block.
    Load(&'a str, Option<u64>),
    /// To dump the objects of a damaged image that are right by themselves.
    Salvage(&'a str),
    /// To tell which lines of a script are no commands.
    Lint,
    /// To print the commands of a script.
    Language,
    /// To print the program's name and version.
    Version,
}

/// The options of a command. One that the command does not take has the value that it has if it is left out.
#[derive(Drop)]
pub struct Options<'a> {
    /// Where the script comes from.
    pub script: Script<'a>,
    /// All files of the command.
    pub files: Vec<&'a str>,
    /// How a file that is written is taken and saved.
    pub keeping: FileOptions,
    /// How a script is answered.
    pub answering: AnswerOptions,
    /// `--explain`: if the file holds no segment, a text tells why, and which byte shows it.
    pub explain: bool,
    /// `--quiet`: nothing is told of a file that holds a segment.
    pub quiet: bool,
    /// `--all`: a picture is drawn of any number of objects.
    pub all: bool,
    /// `--verbose`: a second line says why the command failed.
    pub verbose: bool,
}

impl<'a> Options<'a> {
    /// Returns the options of a command line without any.
    pub(crate) fn none(alloc: Global) -> Options<'a>
        ensures { options_by result ≡ no_options }
    {
        Options {
            script: Script::Input,
            files: Vec::new(alloc),
            keeping: FileOptions {
                saving: SaveMode::InPlace,
                commit: false,
                wait: 0,
            },
            answering: AnswerOptions {
                strict: false,
                fail: false,
                numbered: false,
            },
            explain: false,
            quiet: false,
            all: false,
            verbose: false,
        }
    }
}

/// What a command line asks for: a command, and its options.
#[derive(Drop)]
pub struct Request<'a> {
    /// What the program is to do.
    pub command: Invocation<'a>,
    /// How it is to be done.
    pub options: Options<'a>,
}
