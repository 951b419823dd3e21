//! The program `rows` runs the rows of the files that its arguments name, and prints for each file the number of rows.
//! Then it makes a few runs of its own, for what no row reaches.
#![tactic(auto)]

mod among;
mod names;
mod runs;
mod segments;

use rows_trials::{Line, RowFileRun, Trouble, lines_of};
use runs::{Tally, make_runs};
use segments::LibraryRunner;
use std::process::ExitCode;
use std::{env, fs, io};

/// Runs the files and the program's own runs, and ends with status 1 if a result differs from the expected one.
fn main(rt: HostRuntime) -> io::Result<ExitCode> {
    let is_sound = run_files(&rt)?;
    let is_right = run_own(&rt)?;
    Ok(ExitCode::from(u8::from(!is_sound || !is_right)))
}

/// Runs the files that the arguments name. Returns true if every result is the one that its file expects.
fn run_files(rt: &HostRuntime) -> io::Result<bool> {
    let mut is_sound = true;
    for name in env::args(rt)?.skip(1) {
        if !run_file(rt, name.as_str())? {
            is_sound = false;
        }
    }
    Ok(is_sound)
}

/// Makes the program's own runs, and prints how many there are and how many of them are wrong. Returns true if none is
/// wrong.
fn run_own<R: Print + AllocGlobal>(rt: &R) -> io::Result<bool> {
    let Tally { runs, wrong } = make_runs(rt.alloc())?;
    println!(rt; "its own: {runs} runs, {wrong} of them wrong")?;
    Ok(wrong == 0)
}

/// Runs a file.
fn run_file(rt: &HostRuntime, name: &str) -> io::Result<bool> {
    let text = fs::read_to_string(rt, name)?;
    let lines = lines_of(rt.alloc(), text.as_str())?;
    run_lines(rt, name, &lines)
}

/// Runs the lines of a file.
fn run_lines<R: Print + AllocGlobal>(rt: &R, name: &str, lines: &[Line<'_>]) -> io::Result<bool> {
    let alloc = rt.alloc();
    let mut desk = RowFileRun::new(alloc, LibraryRunner { alloc });
    let is_sound = run_items(rt, name, lines, &mut desk);
    drop(desk);
    is_sound
}

/// Runs the items of a file. Prints the trouble of each item that fails, and then the counts of the file. Returns true
/// if no item fails.
fn run_items<'a, R: Print>(
    rt: &R,
    name: &str,
    lines: &[Line<'a>],
    desk: &mut RowFileRun<'a, LibraryRunner>,
) -> io::Result<bool> {
    let mut is_sound = true;
    for item in lines.chunk_by(|_, line| !line.begins_item()) {
        if let Some(Trouble { line, what }) = desk.check(item) {
            println!(rt; "{name}: line {line}: {what}")?;
            is_sound = false;
        }
    }
    tell(rt, name, desk)?;
    Ok(is_sound)
}

/// Prints how many rows, lines and cuts the file had.
fn tell<R: Print>(rt: &R, name: &str, desk: &RowFileRun<'_, LibraryRunner>) -> io::Result<()> {
    let bench = &desk.bench;
    let (rows, lines, cuts) = (bench.rows.get(), bench.lines.get(), bench.cuts.get());
    println!(rt; "{name}: {rows} rows, {lines} lines, {cuts} cuts")
}
