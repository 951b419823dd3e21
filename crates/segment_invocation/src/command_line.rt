//! The command line of the program, and its help.
ghost use Rattle.std.specs.Prelude.{◌≡◌, false, fold, map, IfOk};
ghost use Rattle.clap.specs.{Walk.rule_of, Simple.app_of, Simple.new_app, Simple.with_rule, Simple.with_subcommand};
ghost use Rattle.clap.specs.declared.builder.command.Command.TheViews.{out-Command as fields_of};
ghost use Rattle.segment_invocation.specs.Invocations.{command_line, flag, maybe, program};
ghost use Rattle.segment_invocation.specs.Table.{row_shape, argument_rule};

use crate::version::VERSION;
use clap::{Arg, ArgAction, Command};
use std::alloc::{AllocError, Global};

// What help says of the program, before its commands, and then of each command.
const ABOUT: &str =
    "Keeps typed objects under names in one run of bytes, a segment, which a file holds";

const CREATE: &str =
    "Makes FILE with an empty segment of SIZE bytes; a FILE that exists is refused";

const RUN: &str = "Runs a script on the segment in FILE, prints its answers, and saves the segment";

const CHECK: &str =
    "Prints ok where FILE holds a segment, and else says why it holds none; the status is the worst of all FILEs";

const GROW: &str = "Adds BYTES free bytes at the end of the segment in FILE, and prints its size";

const SHRINK: &str =
    "Gives up the free bytes at the end of the segment in FILE, and prints its size";

const MIGRATE: &str = "Writes the segment in FILE in the newest format; prints ok";

const STAT: &str = "Prints how the bytes of the segment in FILE are used, in figures";

const DRAW: &str = "Prints a picture of the segment in FILE, as SVG";

const DUMP: &str = "Prints the objects of the segment in FILE as text";

const NAMES: &str = "Prints the names in the segment in FILE, in their order, a line each";

const GET: &str =
    "Prints one value of the segment in FILE as it is, without quotes; the status is 1 where there is none";

const LOAD: &str =
    "Makes FILE with a segment of the dump of standard input; without --replace a FILE that exists is refused";

const SALVAGE: &str =
    "Prints as a dump the objects of a damaged FILE that are right by themselves, and tells which are left out";

const LINT: &str =
    "Tells which lines of the script of standard input are no commands, and where; it needs no segment";

const LANGUAGE: &str = "Prints the commands of a script, each with its answer and what it does";

/// What the words of the commands of a script stand for.
const LEGEND: &str = "\
Words of the commands:
  KIND     bool, u8, i32, i64, u64, string, vec<KIND>, vec<string> or map<KIND,KIND>, with a kind of the first five inside
  [k]      How many elements an array has, 1 where it is left out; behind a kind of the first five
  NEWKEY   A name, @KIND for the one object of a kind that is unique, or - for an object without a name
  NAMEKEY  A name or @KIND
  KEY      A name, @KIND, or #n, where n is the number that a command answered for the object
  ARGS     The values that the object begins with: one of a kind of the first five, any number of a vector, one TEXT of
           a string, none of a map
  V, K, I  A value; a key of a map; a place, from 0
  TEXT     Bytes between quotes, as in \"a\"

Example:
  echo 'construct vec<i64> v 1 2 3' | segment run a.seg";

/// What the modes are.
const MODES: &str = "\
Modes:
  create_only         The segment is made, empty and of --size bytes, in a FILE that does not exist
  open_only           The segment is the one in FILE; this is the mode where none is named
  open_or_create      As open_only where FILE exists, and else as create_only
  open_read_only      Commands that may change the segment are refused, and nothing is saved
  open_copy_on_write  Commands may change the segment, and nothing is saved

The script is the lines of -c, or SCRIPT, or else standard input. Its commands are those of 'segment language', and
'segment language --help' says what KIND, KEY, NEWKEY and ARGS stand for.

Examples:
  echo 'construct i64 a 5' | segment run a.seg --mode open_or_create --size 1024
  segment run a.seg -c 'show a' -c 'set a 0 6'";

/// What statuses the program ends with.
const STATUSES: &str = "\
Statuses:
  0  Done; the answers of a script may have been errors
  1  FILE holds no segment, or the size or the growth is refused; an answer of a strict run is an error; a line of a
     script that is linted is no command; a dump is wrong, or does not fit its size; or there is no such value
  2  The command line is wrong, or asks for help
  3  A FILE that is to be made exists, another program writes FILE, something could not be read or written, or the script
     is too long
  4  Memory was refused
  5  Done, with --fail; an answer was an error

Example:
  segment create a.seg 1024
  echo 'construct i64 a 5' | segment run a.seg
  segment check a.seg";

/// What sizes there are.
const SIZES: &str = "A number of bytes: 144, or a multiple of 16 from 176 to 1073741824";

/// A word of a command, with its name and what help says of it.
pub enum Argument {
    /// A value in its place, which must be there; help calls it by the second text.
    Operand(&'static str, &'static str, &'static str),
    /// A value in its place, of which there may be more.
    Operands(&'static str, &'static str, &'static str),
    /// A value in its place, which may be left out.
    Optional(&'static str, &'static str, &'static str),
    /// A value after its name, which may be left out; help calls it by the second text.
    Option(&'static str, &'static str, &'static str),
    /// A value after a hyphen and a letter, as often as there are values; help calls it by the second text.
    Short(&'static str, char, &'static str, &'static str),
    /// A name that stands alone, and may be left out.
    Flag(&'static str, &'static str),
    /// A name that stands alone, or its letter after a hyphen, and may be left out.
    Switch(&'static str, char, &'static str),
}

/// What help has at the end. The table of commands has no such text itself: its proof grows with each byte.
#[derive(Clone, Copy)]
pub(crate) enum HelpEnd {
    /// What statuses the program ends with.
    Statuses,
    /// What the modes are.
    Modes,
    /// What the words of the commands of a script stand for.
    Legend,
}

/// Returns the text of an end.
fn end_text(end: HelpEnd) -> &'static str {
    match end {
        HelpEnd::Statuses => STATUSES,
        HelpEnd::Modes => MODES,
        HelpEnd::Legend => LEGEND,
    }
}

/// A command: its name, what it does, what its help has at the end, and its words.
type Row = (
    &'static str,
    &'static str,
    Option<HelpEnd>,
    &'static [Argument],
);

// The words of the commands, each with what help says of it.
const FILE: Argument = Argument::Operand("file", "FILE", "The path of the file with the segment");

const FILES: Argument = Argument::Operands("file", "FILE", "The path of the file with the segment");

const SCRIPT: Argument = Argument::Optional(
    "script",
    "SCRIPT",
    "The path of a file with the script",
);

const LINE: Argument = Argument::Short(
    "line",
    'c',
    "LINE",
    "A line of the script; the next -c has the next one",
);

const SIZE: Argument = Argument::Operand("number", "SIZE", SIZES);

const BYTES: Argument = Argument::Operand("number", "BYTES", "A multiple of 16 from 32 on");

const MODE: Argument = Argument::Option("mode", "MODE", "One of the five modes below");

const READ_ONLY: Argument = Argument::Switch(
    "read-only",
    'r',
    "The mode open_read_only, in the place of --mode",
);

const RUN_SIZE: Argument = Argument::Option("size", "SIZE", SIZES);

const REPLACE: Argument = Argument::Flag(
    "replace",
    "The image goes to a new file beside FILE, which then takes its place: one of the two is whole at each moment",
);

const COMMIT: Argument = Argument::Flag(
    "commit",
    "Writes what changed to the log beside FILE, FILE-log; FILE gets it once the log is long, or by a command without this",
);

const WAIT: Argument = Argument::Option(
    "wait",
    "SECONDS",
    "How long to wait for FILE where another program writes it; without it that is told at once",
);

const WHOLE: Argument = Argument::Flag(
    "replace",
    "FILE gets its name when it is whole: what ends the program before leaves no FILE",
);

const WAIT_TO_READ: Argument = Argument::Option(
    "wait",
    "SECONDS",
    "How long to wait for FILE where another program writes it; without it FILE is read as it is",
);

const STRICT: Argument = Argument::Flag(
    "strict",
    "The first answer that is an error ends the run, with status 1, and nothing is saved",
);

const FAIL: Argument = Argument::Flag(
    "fail",
    "The status is 5 where an answer is an error; the segment is saved all the same",
);

const NUMBERED: Argument = Argument::Flag(
    "numbered",
    "Each line of an answer stands behind the number of the line that it answers, as in '3: #192'",
);

const EXPLAIN: Argument = Argument::Flag(
    "explain",
    "Where FILE holds no segment, tells in words why, and at which byte, from 0 on, that shows",
);

const QUIET: Argument = Argument::Flag("quiet", "Prints nothing for a FILE that holds a segment");

const HTML: Argument = Argument::Flag(
    "html",
    "Prints a page for a browser: the picture, the figures of stat, and the objects as a table",
);

const ALL: Argument = Argument::Flag(
    "all",
    "Draws more than 10000 objects too; without it they are refused",
);

const JSON: Argument = Argument::Flag(
    "json",
    "Writes each object as a line of JSON: class, name, kind and value; not with --capacities",
);

const CAPACITIES: Argument = Argument::Flag(
    "capacities",
    "Behind the objects, tells the capacities: of the indexes, vectors, strings and vectors of strings",
);

const PREFIX: Argument = Argument::Option(
    "prefix",
    "TEXT",
    "Prints only names that begin with TEXT",
);

const MOST: Argument = Argument::Option("most", "N", "Prints the first N of them at most");

const KEY: Argument = Argument::Operand(
    "key",
    "KEY",
    "The object: a name, @KIND, or #n, as in a script",
);

const INDEX: Argument = Argument::Optional(
    "index",
    "INDEX",
    "The place of the value, from 0, or its key in a map; without it the whole string, or the first value",
);

const LOADED: Argument = Argument::Option(
    "size",
    "SIZE",
    "The bytes of the segment, as for create; without it the segment is made as long as the dump says, and then shrunk",
);

const VERBOSE: Argument = Argument::Flag(
    "verbose",
    "Behind a read fault or write fault of FILE, tells FILE and why, as far as the system says",
);

/// The commands, in the order in which help has them.
static COMMANDS: [Row; 15] = [
    ("create", CREATE, None, &[FILE, SIZE, WHOLE, VERBOSE]),
    (
        "run",
        RUN,
        Some(HelpEnd::Modes),
        &[
            FILE, SCRIPT, MODE, RUN_SIZE, LINE, READ_ONLY, REPLACE, COMMIT, STRICT, FAIL, NUMBERED,
            WAIT, VERBOSE,
        ],
    ),
    (
        "check",
        CHECK,
        None,
        &[FILES, EXPLAIN, QUIET, WAIT_TO_READ, VERBOSE],
    ),
    ("grow", GROW, None, &[FILE, BYTES, REPLACE, WAIT, VERBOSE]),
    ("shrink", SHRINK, None, &[FILE, REPLACE, WAIT, VERBOSE]),
    ("migrate", MIGRATE, None, &[FILE, REPLACE, WAIT, VERBOSE]),
    ("stat", STAT, None, &[FILE, WAIT_TO_READ, VERBOSE]),
    (
        "draw",
        DRAW,
        None,
        &[FILE, HTML, ALL, WAIT_TO_READ, VERBOSE],
    ),
    (
        "dump",
        DUMP,
        None,
        &[FILE, CAPACITIES, JSON, WAIT_TO_READ, VERBOSE],
    ),
    (
        "names",
        NAMES,
        None,
        &[FILE, PREFIX, MOST, WAIT_TO_READ, VERBOSE],
    ),
    ("get", GET, None, &[FILE, KEY, INDEX, WAIT_TO_READ, VERBOSE]),
    ("load", LOAD, None, &[FILE, LOADED, REPLACE, WAIT, VERBOSE]),
    ("salvage", SALVAGE, None, &[FILE, WAIT_TO_READ, VERBOSE]),
    ("lint", LINT, None, &[VERBOSE]),
    ("language", LANGUAGE, Some(HelpEnd::Legend), &[VERBOSE]),
];

/// Returns a word of a command that has a value, for clap, without what else is so of it.
fn valued_arg<'a>(alloc: Global, name: &'a str, shown: &'a str, help: &'a str) -> Arg<'a>
    ensures rule { rule_of result ≡ maybe name.now }
    ensures local { result.global ≡ false }
{
    Arg::new(alloc, name).value_name(shown).help(help)
}

/// Returns a name that stands alone, for clap.
fn flag_arg<'a>(alloc: Global, name: &'a str, help: &'a str) -> Arg<'a>
    ensures rule { rule_of result ≡ flag name.now }
    ensures local { result.global ≡ false }
{
    Arg::new(alloc, name)
        .long(name)
        .action(ArgAction::SetTrue)
        .help(help)
}

/// Returns a word of a command, for clap.
fn arg_of<'a>(alloc: Global, argument: &Argument) -> Arg<'a>
    ensures rule { rule_of result ≡ argument_rule argument.now }
    ensures local { result.global ≡ false }
{
    match *argument {
        Argument::Operand(name, shown, help) => {
            valued_arg(alloc, name, shown, help).required(true)
        }
        Argument::Operands(name, shown, help) => valued_arg(alloc, name, shown, help)
            .required(true)
            .action(ArgAction::Append),
        Argument::Optional(name, shown, help) => valued_arg(alloc, name, shown, help),
        Argument::Short(name, letter, shown, help) => valued_arg(alloc, name, shown, help)
            .short(letter)
            .action(ArgAction::Append),
        Argument::Option(name, shown, help) => valued_arg(alloc, name, shown, help)
            .long(name)
            .action(ArgAction::Set),
        Argument::Flag(name, help) => flag_arg(alloc, name, help),
        Argument::Switch(name, letter, help) => flag_arg(alloc, name, help).short(letter),
    }
}

/// Returns a command without its words.
fn bare_command<'a>(
    alloc: Global,
    name: &'a str,
    about: &'a str,
    end: Option<HelpEnd>,
) -> Command<'a>
    ensures app { app_of result ≡ new_app name.now }
    ensures local { (fields_of result).has_globals ≡ false }
{
    let command = Command::new(alloc, name).about(about);
    match end {
        Some(end) => command.after_help(end_text(end)),
        None => command,
    }
}

/// Returns a command with these words after those that it has.
fn with_arguments<'a>(
    alloc: Global,
    begun: Command<'a>,
    words: &[Argument],
) -> Result<Command<'a>, AllocError>
    requires { (fields_of begun).has_globals ≡ false }
    ensures app { IfOk result (λ c. app_of c ≡ fold with_rule (app_of begun.entry) (map argument_rule words.now)) }
    ensures local { IfOk result (λ c. (fields_of c).has_globals ≡ false) }
{
    let mut command = begun;
    let mut rest = words;
    'words: while let [argument, tail @ ..] = rest {
        command = command.arg(arg_of(alloc, argument))?;
        rest = tail;
    }
    Ok(command)
}

/// Returns the program, without its commands.
fn program<'a>(alloc: Global, about: &'a str) -> Command<'a>
    ensures { app_of result ≡ program }
{
    bare_command(alloc, "segment", about, Some(HelpEnd::Statuses))
        .version(VERSION)
        .subcommand_required(true)
        .arg_required_else_help(true)
}

/// Returns the command of a row.
fn command_of<'a>(alloc: Global, row: &Row) -> Result<Command<'a>, AllocError>
    ensures app { IfOk result (λ c. (app_of c).top ≡ row_shape row.now) }
    ensures local { IfOk result (λ c. (fields_of c).has_globals ≡ false) }
{
    with_arguments(alloc, bare_command(alloc, row.0, row.1, row.2), row.3)
}

/// Returns the program with these commands after those that it has.
fn with_commands<'a>(
    alloc: Global,
    begun: Command<'a>,
    rows: &[Row],
) -> Result<Command<'a>, AllocError>
    ensures { IfOk result (λ c. app_of c ≡ fold with_subcommand (app_of begun.entry) (map row_shape rows.now)) }
{
    let mut program = begun;
    let mut rest = rows;
    'commands: while let [row, tail @ ..] = rest {
        program = program.subcommand(command_of(alloc, row)?)?;
        rest = tail;
    }
    Ok(program)
}

/// Returns the command lines of the program.
pub fn command_line<'a>(alloc: Global) -> Result<Command<'a>, AllocError>
    ensures { IfOk result (λ c. app_of c ≡ command_line) }
{
    with_commands(alloc, program(alloc, ABOUT), &COMMANDS)
}
