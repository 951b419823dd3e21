//! Short programs over the library, on files in the folder that they run in. Each prints what it found.
#![tactic(auto)]

mod commits;
mod growing;
mod handles;
mod inventory;
mod listing;
mod migrating;
mod moving;
mod numbers;
mod prices;
mod shop;
mod texts;
mod time;
mod timetable;
mod untrusted_file;
mod views;

use anyhow::Result;
use std::{env, fs};
use zaluxhoni::{Disk, HostDisk};

/// Takes away the files that a run before this one made.
fn clean(rt: &HostRuntime) {
    for path in [
        "shop.seg",
        "list.seg",
        "primes.seg",
        "small.seg",
        "grown.seg",
        "chain.seg",
        "views.seg",
        "listed.seg",
        "till.seg",
        "till.seg-log",
    ] {
        let _ = fs::remove_file(rt, path);
    }
}

/// Runs the first six programs, the first of them twice.
fn run_six(rt: &HostRuntime, disk: &mut impl Disk) -> Result<()> {
    shop::visit_a_shop(rt, disk)?;
    shop::visit_a_shop(rt, disk)?;
    prices::look_up_prices(rt, disk)?;
    texts::keep_a_list(rt, disk)?;
    numbers::keep_primes(rt, disk)?;
    growing::grow_when_full(rt, disk)?;
    untrusted_file::open_a_stranger(rt, disk)
}

/// Runs all but the inventory.
fn run(rt: &HostRuntime, disk: &mut impl Disk) -> Result<()> {
    clean(rt);
    run_six(rt, disk)?;
    moving::move_a_segment(rt, disk)?;
    migrating::migrate_an_older_file(rt, disk)?;
    handles::follow_a_handle(rt, disk)?;
    timetable::record_departures(rt)?;
    views::view_objects(rt, disk)?;
    listing::list_a_segment(rt, disk)?;
    commits::commit_sales(rt, disk)
}

/// Runs the inventory if that is the first argument, or else the other programs.
fn choose(rt: &HostRuntime, disk: &mut impl Disk, arguments: &[String]) -> Result<()> {
    match arguments {
        [_, program, rest @ ..] if program.as_str() == "inventory" => {
            inventory::keep_inventory(rt, disk, rest)
        }
        _ => run(rt, disk),
    }
}

/// Runs the programs over the files of the system.
fn main(rt: HostRuntime) -> Result<()> {
    let arguments: Vec<String> = env::args(&rt)?.collect(rt.alloc())?;
    choose(&rt, &mut HostDisk::new(&rt), arguments.as_slice())
}
