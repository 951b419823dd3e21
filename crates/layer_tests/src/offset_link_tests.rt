//! Links in a window of 400 bytes. What a call asks for is asked of the window before, so a test is a line of calls
//! without facts.
use crate::checks::{done, holds, same};
use offset_link::{
    Distance, all_lead, are_links, checked, copy, load, shift, shift_non_null, store, store_null,
};
use raw_region::{RawRegion, Window};
use std::process::Abort;

fn window<R: Abort + AllocGlobal>(rt: &R) -> Window {
    let region = done(rt, RawRegion::new(rt.alloc(), 512));
    Window::new(region, 64, 400)
}

/// Checks that a window has these bytes from an offset on.
fn reads(rt: &impl Abort, w: &Window, at: u64, bytes: &[u8]) {
    let len = bytes.len() as u64;
    holds(rt, w.in_range(at, len));
    same(rt, w.bytes(at, len), bytes);
}

/// Makes the link at an offset lead to a target.
fn links(rt: &impl Abort, w: &mut Window, at: u64, target: u64) {
    holds(rt, at % 8 == 0);
    holds(rt, w.in_range(at, 8));
    holds(rt, target % 16 == 0);
    store(w, at, target);
}

/// Makes the link at an offset lead nowhere.
fn unlinks(rt: &impl Abort, w: &mut Window, at: u64) {
    holds(rt, at % 8 == 0);
    holds(rt, w.in_range(at, 8));
    store_null(w, at);
}

/// Checks that the link at an offset leads to a target, or nowhere.
fn leads(rt: &impl Abort, w: &Window, at: u64, target: Option<u64>) {
    holds(rt, at % 8 == 0);
    holds(rt, w.in_range(at, 8));
    same(rt, load(w, at), target);
}

/// Checks that the link at an offset leads to a target, or nowhere, and is stored so.
fn stores(rt: &impl Abort, w: &Window, at: u64, target: Option<u64>, bytes: &[u8]) {
    leads(rt, w, at, target);
    reads(rt, w, at, bytes);
}

#[test]
fn a_link_stores_its_distance(rt: HostRuntime) {
    let mut w = window(&rt);
    links(&rt, &mut w, 24, 144);
    stores(&rt, &w, 24, Some(144), b"\x78\0\0\0\0\0\0\0");
    links(&rt, &mut w, 160, 144);
    let back = b"\xF0\xFF\xFF\xFF\xFF\xFF\xFF\xFF";
    stores(&rt, &w, 160, Some(144), back);
    unlinks(&rt, &mut w, 24);
    stores(&rt, &w, 24, None, b"\x01\0\0\0\0\0\0\0");
    drop(w);
}

/// Makes the link at 200 lead where the one at 32 leads.
fn copies(rt: &impl Abort, w: &mut Window) {
    holds(rt, w.in_range(0, 208));
    holds(rt, are_links(w, 32, 1));
    copy(w, 32, 200);
}

#[test]
fn a_copy_leads_where_its_source_leads(rt: HostRuntime) {
    let mut w = window(&rt);
    links(&rt, &mut w, 32, 176);
    copies(&rt, &mut w);
    leads(&rt, &w, 32, Some(176));
    leads(&rt, &w, 200, Some(176));
    unlinks(&rt, &mut w, 32);
    copies(&rt, &mut w);
    leads(&rt, &w, 200, None);
    drop(w);
}

/// Moves three links from 24 on over one another.
fn moves_up(rt: &impl Abort, w: &mut Window) {
    holds(rt, w.in_range(24, 32));
    holds(rt, are_links(w, 24, 3));
    shift(w, 24, 3, Distance::Up(1));
}

/// Moves two links from 24 on to 8.
fn moves_back(rt: &impl Abort, w: &mut Window) {
    holds(rt, w.in_range(8, 32));
    holds(rt, are_links(w, 24, 2));
    shift(w, 24, 2, Distance::Down(2));
}

/// Checks that a word that leads to no multiple of 16 is no link.
fn has_no_links(rt: &impl Abort, w: &mut Window) {
    holds(rt, w.in_range(24, 16));
    w.write_u64(24, 4);
    holds(rt, !are_links(w, 24, 2));
}

/// Where the three links lead that moved up, and the one that stands where the first stood.
const MOVED: [(u64, Option<u64>); 4] = [
    (24, Some(144)),
    (32, Some(144)),
    (40, None),
    (48, Some(352)),
];

#[test]
fn links_move(rt: HostRuntime) {
    let mut w = window(&rt);
    links(&rt, &mut w, 24, 144);
    unlinks(&rt, &mut w, 32);
    links(&rt, &mut w, 40, 352);
    moves_up(&rt, &mut w);
    for (at, target) in MOVED {
        leads(&rt, &w, at, target);
    }
    moves_back(&rt, &mut w);
    leads(&rt, &w, 8, Some(144));
    leads(&rt, &w, 16, Some(144));
    has_no_links(&rt, &mut w);
    drop(w);
}

/// Moves eleven links from 24 on up.
fn moves_run_up(rt: &impl Abort, w: &mut Window) {
    holds(rt, w.in_range(24, 96));
    holds(rt, all_lead(w, 24, 11));
    shift_non_null(w, 24, 11, Distance::Up(1));
}

/// Moves eleven links from 32 on down.
fn moves_run_down(rt: &impl Abort, w: &mut Window) {
    holds(rt, w.in_range(16, 104));
    holds(rt, all_lead(w, 32, 11));
    shift_non_null(w, 32, 11, Distance::Down(2));
}

/// Checks that eleven links from an offset on lead to one block of 16 bytes after another.
fn lead_to_blocks(rt: &impl Abort, w: &Window, at: u32) {
    for i in 0..11 {
        leads(rt, w, u64::from(at) + 8 * i, Some(144 + 16 * i));
    }
}

/// Checks that of links that lead to blocks the first is made null.
fn not_all_lead(rt: &impl Abort, w: &mut Window) {
    holds(rt, w.in_range(16, 16));
    store_null(w, 16);
    holds(rt, !all_lead(w, 16, 2));
}

#[test]
fn a_run_of_links_moves_up_and_down(rt: HostRuntime) {
    let mut w = window(&rt);
    for i in 0..11 {
        links(&rt, &mut w, 24 + 8 * i, 144 + 16 * i);
    }
    moves_run_up(&rt, &mut w);
    lead_to_blocks(&rt, &w, 32);
    moves_run_down(&rt, &mut w);
    lead_to_blocks(&rt, &w, 16);
    not_all_lead(&rt, &mut w);
    drop(w);
}

/// Words of a link at 24, and where they lead: nowhere, to a block, or (`None`) to no place where a block may begin.
const WORDS: [(u64, Option<Option<u64>>); 10] = [
    (1, Some(None)),
    (120, Some(Some(144))),
    (136, Some(Some(160))),
    (344, Some(Some(368))),
    (0, None),
    (104, None),
    (128, None),
    (352, None),
    (360, None),
    (376, None),
];

/// Checks that a word leads to a target, or is refused.
fn is_checked(rt: &impl Abort, w: &mut Window, word: u64, target: Option<Option<u64>>) {
    holds(rt, w.in_range(24, 8));
    w.write_u64(24, word);
    same(rt, checked(w, 24).ok(), target);
}

#[test]
fn a_checked_link_leads_to_a_block(rt: HostRuntime) {
    let mut w = window(&rt);
    for (word, target) in WORDS {
        is_checked(&rt, &mut w, word, target);
    }
    drop(w);
}
