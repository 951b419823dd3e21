//! A heap in a window of 1024 bytes, as its numbers come out: blocks, gaps, and the tree of the gaps in their payloads.
ghost use Rattle.std.specs.Prelude.{◌%◌, ◌≡◌, ◌≤◌, IfSome, IsTrue};
ghost use Rattle.best_fit.specs.Heap.{has_room, is_node_in, live_of};

use crate::checks::{done, holds, same};
use best_fit::{Heap, NoSpace};
use block_tags::Role;
use offset_link::load;
use raw_region::{RawRegion, Steps, Window};
use std::process::Abort;

/// Asks for a block for a use, which is the one of a handle.
fn takes_for(rt: &impl Abort, heap: &mut Heap, n: u64, role: Role, handle: u64) {
    let taken = heap.allocate(n, role, &mut Steps::new());
    same(rt, taken, Ok(handle));
}

/// Asks for a block that has no fit.
fn takes_none(rt: &impl Abort, heap: &mut Heap, n: u64) {
    let taken = heap.allocate(n, Role::Object, &mut Steps::new());
    same(rt, taken, Err(NoSpace));
}

/// What is done to a heap, or seen of it: blocks are said by their handles.
#[derive(Clone, Copy)]
enum Step {
    /// A request for an object of some bytes gets the block of a handle.
    Takes(u64, u64),
    /// No gap is so long.
    TakesNone(u64),
    GivesBack(u64),
    /// A block is lengthened in its place to hold some bytes, or is not.
    Extends(u64, u64, bool),
    /// A block is shortened to some bytes, and then has this much room.
    Shrinks(u64, u64, u64),
    /// Checks how many bytes are free, and how many blocks are in use.
    HasFree(u64, u64),
}

/// Makes a step.
fn play(rt: &impl Abort, heap: &mut Heap, step: Step) {
    match step {
        Step::Takes(n, handle) => takes_for(rt, heap, n, Role::Object, handle),
        Step::TakesNone(n) => takes_none(rt, heap, n),
        Step::GivesBack(handle) => gives_back(rt, heap, handle),
        Step::Extends(handle, n, is_longer) => extends(rt, heap, handle, n, is_longer),
        Step::Shrinks(handle, n, room) => shrinks(rt, heap, handle, n, room),
        Step::HasFree(free, blocks) => has_free(rt, heap, free, blocks),
    }
}

/// Returns a heap after some steps.
fn played<R: Abort + AllocGlobal>(rt: &R, steps: &[Step]) -> Heap {
    let region = done(rt, RawRegion::new(rt.alloc(), 1024));
    let mut heap = Heap::fresh(Window::new(region, 0, 1024));
    for step in steps {
        play(rt, &mut heap, *step);
    }
    heap
}

fn gives_back(rt: &impl Abort, heap: &mut Heap, handle: u64) {
    holds(rt, heap.is_live(handle));
    heap.deallocate(handle, &mut Steps::new());
}

/// Lengthens a block in its place, or does not.
fn extends(rt: &impl Abort, heap: &mut Heap, handle: u64, n: u64, is_longer: bool) {
    holds(rt, heap.is_live(handle));
    let extended = heap.try_extend(handle, n, &mut Steps::new());
    same(rt, extended, is_longer);
}

/// Shortens a block, which has so much room then.
fn shrinks(rt: &impl Abort, heap: &mut Heap, handle: u64, n: u64, room: u64) {
    holds(rt, heap.is_live(handle));
    heap.shrink_in_place(handle, n, &mut Steps::new());
    has_just(rt, heap, handle, room);
}

/// Checks that a block has room for just `room` bytes.
fn has_just(rt: &impl Abort, heap: &Heap, handle: u64, room: u64) {
    holds(rt, heap.is_live(handle));
    same(rt, heap.room(handle), room);
}

/// Checks that `free` bytes are free, and `blocks` blocks are in use.
fn has_free(rt: &impl Abort, heap: &Heap, free: u64, blocks: u64) {
    same(rt, heap.free_bytes(), free);
    same(rt, heap.live_count(), blocks);
}

/// Makes each byte of a block this one.
fn fills(rt: &impl Abort, heap: &mut Heap, handle: u64, byte: u8) {
    holds(rt, heap.is_live(handle));
    heap.block_mut(handle).fill(byte);
}

/// Checks that a block of a role has these bytes at its end.
fn ends_with(rt: &impl Abort, heap: &Heap, handle: u64, role: Role, bytes: &[u8]) {
    holds(rt, heap.is_live(handle));
    same(rt, heap.role(handle), role);
    holds(rt, heap.block(handle).ends_with(bytes));
}

/// Checks that a node block is red or not.
fn is_red(rt: &impl Abort, heap: &Heap, handle: u64, red: bool) {
    holds(rt, heap.is_live(handle));
    same(rt, heap.node_red(handle), red);
}

/// Checks that a block has room for `n` bytes.
fn fits(rt: &impl Abort, heap: &Heap, handle: u64, n: u64)
    requires { 1 ≤ n }
    ensures { IsTrue (has_room (live_of heap.now.bytes) handle n) }
{
    holds(rt, heap.is_live(handle));
    holds(rt, n <= heap.room(handle));
}

/// Writes a word of a block.
fn sets_word(rt: &impl Abort, heap: &mut Heap, handle: u64, at: u32, value: u64) {
    let at = u64::from(at);
    fits(rt, heap, handle, at + 8);
    heap.set_word(handle, at, value);
}

/// Checks that a block has this word.
fn has_word(rt: &impl Abort, heap: &Heap, handle: u64, at: u32, value: u64) {
    let at = u64::from(at);
    fits(rt, heap, handle, at + 8);
    same(rt, heap.word(handle, at), value);
}

/// Checks that the link at a place of a block leads to a target, or nowhere.
fn is_linked(rt: &impl Abort, heap: &Heap, handle: u64, place: u32, to: Option<u64>) {
    let at = 8 * u64::from(place);
    fits(rt, heap, handle, at + 8);
    same(rt, heap.link(handle, at), to);
}

/// Checks that the link at an offset leads to a target, or nowhere.
fn leads(rt: &impl Abort, window: &Window, at: u64, target: Option<u64>) {
    holds(rt, at % 8 == 0);
    holds(rt, window.in_range(at, 8));
    same(rt, load(window, at), target);
}

/// Blocks for 64, 16, 32 and 16 bytes, of which the first and the third are given back: the third is the least gap for
/// 32.
const LEAST_GAP: [Step; 10] = [
    Step::Takes(64, 144),
    Step::Takes(16, 224),
    Step::Takes(32, 256),
    Step::Takes(16, 304),
    Step::GivesBack(144),
    Step::GivesBack(256),
    Step::Takes(32, 256),
    Step::HasFree(768, 3),
    Step::TakesNone(2000),
    Step::TakesNone(1073741825),
];

#[test]
fn the_least_gap_is_taken(rt: HostRuntime) {
    let heap = played(&rt, &LEAST_GAP);
    holds(&rt, heap.sanity());
    drop(heap);
}

/// The steps that give back the first block, and make the others longer and shorter.
const LENGTHS: [Step; 11] = [
    Step::Takes(64, 144),
    Step::Takes(16, 224),
    Step::Takes(32, 256),
    Step::Takes(16, 304),
    Step::GivesBack(144),
    Step::Extends(304, 40, true),
    Step::HasFree(736, 3),
    Step::Extends(224, 40, false),
    Step::Shrinks(256, 16, 32),
    Step::Shrinks(304, 16, 16),
    Step::HasFree(768, 3),
];

#[test]
fn blocks_change_their_length(rt: HostRuntime) {
    drop(played(&rt, &LENGTHS));
}

/// Three gaps: the first, the third, and what is after the last block.
const THREE_GAPS: [Step; 6] = [
    Step::Takes(24, 144),
    Step::Takes(24, 192),
    Step::Takes(24, 240),
    Step::Takes(24, 288),
    Step::GivesBack(144),
    Step::GivesBack(240),
];

/// The gaps 144, 240 and 336, in this order: a root, and a leaf at each side.
const LINKS: [(u64, Option<u64>); 7] = [
    (24, Some(240)),
    (240, Some(144)),
    (248, Some(336)),
    (144, None),
    (152, None),
    (336, None),
    (344, None),
];

#[test]
fn the_free_tree_lists_three_gaps(rt: HostRuntime) {
    let window = played(&rt, &THREE_GAPS).into_window();
    for (at, target) in LINKS {
        leads(&rt, &window, at, target);
    }
    drop(window);
}

/// Makes a link of the header lead to a target, or nowhere.
fn links_header(rt: &impl Abort, heap: &mut Heap, to: Option<u64>)
    requires { IfSome to (λ target. target % 16 ≡ 0) }
{
    heap.set_header_link(32, to);
    same(rt, heap.header_link(32), to);
}

#[test]
fn header_links_are_read_back(rt: HostRuntime) {
    let mut heap = played(&rt, &[]);
    links_header(&rt, &mut heap, Some(144));
    links_header(&rt, &mut heap, None);
    drop(heap);
}

/// Makes the second link of a new block lead where the first leads, and the third where the second led: nowhere.
fn moves_links(rt: &impl Abort, heap: &mut Heap, handle: u64) {
    fits(rt, heap, handle, 8);
    heap.set_link(handle, 0, Some(144));
    fits(rt, heap, handle, 16);
    heap.set_link(handle, 8, None);
    fits(rt, heap, handle, 16);
    fits(rt, heap, handle, 24);
    heap.shift_links(handle, 0, handle, 8, 2);
}

#[test]
fn links_of_a_block_move(rt: HostRuntime) {
    let mut heap = played(&rt, &[]);
    takes_for(&rt, &mut heap, 32, Role::Node, 144);
    moves_links(&rt, &mut heap, 144);
    is_linked(&rt, &heap, 144, 0, Some(144));
    is_linked(&rt, &heap, 144, 1, Some(144));
    is_linked(&rt, &heap, 144, 2, None);
    drop(heap);
}

/// Writes text at the end of a block of 32 bytes.
fn writes_end(rt: &impl Abort, heap: &mut Heap, handle: u64) {
    fits(rt, heap, handle, 32);
    heap.write(handle, 24, b"of bytes");
}

/// Copies the first word of a block after its first four bytes.
fn copies_word(rt: &impl Abort, heap: &mut Heap, handle: u64) {
    fits(rt, heap, handle, 8);
    fits(rt, heap, handle, 12);
    heap.copy(handle, 0, handle, 4, 8);
}

#[test]
fn words_of_a_block_are_read_back(rt: HostRuntime) {
    let mut heap = played(&rt, &[]);
    takes_for(&rt, &mut heap, 32, Role::Storage, 144);
    writes_end(&rt, &mut heap, 144);
    sets_word(&rt, &mut heap, 144, 0, 0x0807060504030201);
    copies_word(&rt, &mut heap, 144);
    has_word(&rt, &heap, 144, 0, 0x0403020104030201);
    has_word(&rt, &heap, 144, 4, 0x0807060504030201);
    ends_with(&rt, &heap, 144, Role::Storage, b"of bytes");
    drop(heap);
}

/// Returns a new block for a node.
fn takes_node(rt: &impl Abort, heap: &mut Heap) -> u64
    ensures { IsTrue (is_node_in (live_of heap.new.bytes) result) }
{
    let Ok(handle) = heap.allocate(32, Role::Node, &mut Steps::new()) else {
        panic!(rt; "no space");
    };
    handle
}

/// Makes a node block red, and black again.
fn changes_colour(rt: &impl Abort, heap: &mut Heap, handle: u64)
    requires { IsTrue (is_node_in (live_of heap.old.bytes) handle) }
{
    is_red(rt, heap, handle, false);
    heap.set_node_red(handle, true);
    is_red(rt, heap, handle, true);
    heap.set_node_red(handle, false);
    is_red(rt, heap, handle, false);
}

#[test]
fn a_node_block_has_a_colour(rt: HostRuntime) {
    let mut heap = played(&rt, &[]);
    let handle = takes_node(&rt, &mut heap);
    changes_colour(&rt, &mut heap, handle);
    drop(heap);
}

/// Makes each byte of a second block the last one of a first.
fn repeats_last(rt: &impl Abort, heap: &mut Heap, first: u64, second: u64) {
    holds(rt, heap.is_live(first));
    holds(rt, heap.is_live(second));
    holds(rt, first != second);
    heap.two(first, second, |read, written| {
        if let Some(byte) = read.last() {
            written.fill(*byte);
        }
    });
}

#[test]
fn two_blocks_are_lent_together(rt: HostRuntime) {
    let mut heap = played(&rt, &[Step::Takes(32, 144), Step::Takes(16, 192)]);
    fills(&rt, &mut heap, 144, 5);
    has_just(&rt, &heap, 144, 32);
    repeats_last(&rt, &mut heap, 144, 192);
    ends_with(&rt, &heap, 144, Role::Object, &[5; 32]);
    ends_with(&rt, &heap, 192, Role::Object, &[5; 16]);
    drop(heap);
}
