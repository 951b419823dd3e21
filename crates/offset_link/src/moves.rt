//! Moves many links at once. Each keeps its target.
ghost use Rattle.std.specs.Prelude.{◌≡◌, ◌↔◌, IsTrue, ◌+◌, ◌-◌, ◌*◌, ◌%◌, ◌≤◌, ◌==◌, if◌then◌else◌, false, length};
ghost use Rattle.raw_region.specs.Memory.{bytes_of, patched, word_at};
ghost use Rattle.raw_region.specs.Regions.{with_bytes};
ghost use Rattle.offset_link.specs.Link.{link_at, link, link_word};
ghost use Rattle.offset_link.specs.Relinked.{word_by_distance, relinked, reworded, unless_null, AllLinksLead, BothEven};
ghost use Rattle.offset_link.specs.Relinked.{AreValidLinks};
ghost use Rattle.offset_link.specs.Relinked.{KeepTargets, HasNoNullLink};
ghost use Rattle.offset_link.specs.Moves.{moved_to, StaysInside};

use crate::link::{NULL, load};
use raw_region::{Window, bytes_are_octets, set_word_in, word_in};

/// The distance and the direction of a move.
#[derive(Clone, Copy, Debug)]
pub enum Distance {
    /// The number of 8-byte places towards the end.
    Up(u64),
    /// The number of 8-byte places towards the start.
    Down(u64),
}

/// Returns true if each of the `n` links from `at` on is null or leads to a multiple of 16.
pub fn are_links(w: &Window, at: u64, n: u64) -> bool
    requires aligned { at % 8 ≡ 0 }
    requires in_bounds { at + 8 * n ≤ length w.now.bytes }
    ensures { IsTrue result ↔ AreValidLinks (bytes_of w.now.bytes) at n }
{
    // No offset exceeds the size, which is a u64.
    let _size = w.size();
    'links: for i in 0..n {
        if let Some(target) = load(w, at + 8 * i) {
            if target % 16 != 0 {
                return false;
            }
        }
    }
    true
}

/// Returns true if each of the `n` links from `at` on leads to a multiple of 16.
pub fn all_lead(w: &Window, at: u64, n: u64) -> bool
    requires aligned { at % 8 ≡ 0 }
    requires in_bounds { at + 8 * n ≤ length w.now.bytes }
    ensures { IsTrue result ↔ AllLinksLead (bytes_of w.now.bytes) at n }
{
    // No offset exceeds the size, which is a u64.
    let _size = w.size();
    'links: for i in 0..n {
        let Some(target) = load(w, at + 8 * i) else {
            return false;
        };
        if target % 16 != 0 {
            return false;
        }
    }
    true
}

/// Moves the `n` links from `at` on, eight at a time. A link keeps its target, a multiple of 16, or stays null. The old
/// and the new places can overlap.
pub fn shift(w: &mut Window, at: u64, n: u64, by: Distance)
    requires aligned { at % 8 ≡ 0 }
    requires source { at + 8 * n ≤ length w.old.bytes }
    requires in_range { StaysInside at by }
    requires target { moved_to at by + 8 * n ≤ length w.old.bytes }
    requires links { AreValidLinks (bytes_of w.old.bytes) at n }
    ensures len { length w.new.bytes ≡ length w.old.bytes }
    ensures lead { KeepTargets (bytes_of w.old.bytes) (bytes_of w.new.bytes) at (moved_to at by) n }
    ensures output { w.new ≡ with_bytes w.old (patched w.old.bytes (moved_to at by)
        (relinked (bytes_of w.old.bytes) at (moved_to at by) n)) }
{
    let size = w.size();
    let bytes = w.bytes_mut(0, size);
    match by {
        Distance::Up(slots) => move_up::<false>(bytes, at as usize, n as usize, 8 * slots as usize),
        Distance::Down(slots) => move_down::<false>(
            bytes,
            at as usize,
            n as usize,
            8 * slots as usize,
        ),
    }
}

/// Moves links as `shift` does, if no link is null. Every word changes by the distance, so it tests no word.
pub fn shift_non_null(w: &mut Window, at: u64, n: u64, by: Distance)
    requires aligned { at % 8 ≡ 0 }
    requires source { at + 8 * n ≤ length w.old.bytes }
    requires in_range { StaysInside at by }
    requires target { moved_to at by + 8 * n ≤ length w.old.bytes }
    requires links { AllLinksLead (bytes_of w.old.bytes) at n }
    ensures len { length w.new.bytes ≡ length w.old.bytes }
    ensures lead { KeepTargets (bytes_of w.old.bytes) (bytes_of w.new.bytes) at (moved_to at by) n }
    ensures output { w.new ≡ with_bytes w.old (patched w.old.bytes (moved_to at by)
        (relinked (bytes_of w.old.bytes) at (moved_to at by) n)) }
{
    let size = w.size();
    let bytes = w.bytes_mut(0, size);
    match by {
        Distance::Up(slots) => move_up::<true>(bytes, at as usize, n as usize, 8 * slots as usize),
        Distance::Down(slots) => move_down::<true>(
            bytes,
            at as usize,
            n as usize,
            8 * slots as usize,
        ),
    }
}

/// The number of links in a run, which moves at once.
const RUN: usize = 8;

/// With more runs than this the words exceed a processor's first cache.
const NEAR: usize = 512;

/// The number of runs between a word's read ahead and its move.
const AHEAD: usize = 8;

/// The bitwise or of all words: one word for the first of each pair, one for the second. A compiler keeps both in one
/// register of two words, like the words that move.
#[derive(Clone, Copy, Default)]
struct Seen {
    first: u64,
    second: u64,
}

impl Seen {
    /// Returns true if one of the words was odd, as the word of a null link is.
    #[inline(always)]
    fn has_odd(self) -> bool
        ensures { result ≡ false → BothEven self.first self.second }
    {
        (self.first | self.second) % 2 == 1
    }
}

/// Moves links towards the end. It starts with the last run and ends with the single links, last first, so no link is
/// overwritten before it has moved. `NON_NULL` means that no link is null.
#[inline(always)]
fn move_up<const NON_NULL: bool>(bytes: &mut [u8], at: usize, n: usize, by: usize)
    requires in_bounds { at + by + 8 * n ≤ length bytes.old }
    requires slots { by % 8 ≡ 0 }
    requires non_null { IsTrue NON_NULL → HasNoNullLink (bytes_of bytes.old) at n }
    ensures { bytes.new ≡ patched bytes.old (at + by) (relinked (bytes_of bytes.old) at (at + by) n) }
{
    // If the runs before the last link then end at a multiple of 16, the last link moves alone: each store of 16 bytes
    // then lies in one cache line.
    let last = n.min((at + by + 8 * n) / 8 % 2);
    let others = n - last;
    let rest = others % RUN;
    links_up(bytes, at + 8 * others, last, by);
    runs_up::<NON_NULL>(bytes, at + 8 * rest, others / RUN, by);
    links_up(bytes, at, rest, by);
}

/// Moves the runs towards the end. It changes all words by the distance, and repairs the null links if a word was odd.
#[inline(always)]
fn runs_up<const NON_NULL: bool>(bytes: &mut [u8], at: usize, n: usize, by: usize)
    requires in_bounds { at + by + 64 * n ≤ length bytes.old }
    requires slots { by % 8 ≡ 0 }
    requires non_null { IsTrue NON_NULL → HasNoNullLink (bytes_of bytes.old) at (8 * n) }
    ensures { bytes.new ≡ patched bytes.old (at + by) (relinked (bytes_of bytes.old) at (at + by) (8 * n)) }
{
    bytes_are_octets(bytes);
    let seen = all_turns_up::<NON_NULL>(bytes, at, n, by);
    if seen.has_odd() {
        put_right(bytes, at, at + by, 8 * n);
    }
}

/// Moves all runs towards the end, and returns the bitwise or of their words. With many runs it reads ahead.
#[inline(always)]
fn all_turns_up<const NON_NULL: bool>(bytes: &mut [u8], at: usize, n: usize, by: usize) -> Seen
    requires in_bounds { at + by + 64 * n ≤ length bytes.old }
    requires slots { by % 8 ≡ 0 }
    ensures changes { bytes.new ≡ patched bytes.old (at + by)
        (reworded word_by_distance (bytes_of bytes.old) at (at + by)
        (8 * n)) }
    ensures keys_seen { NON_NULL ≡ false → BothEven result.first result.second
        → HasNoNullLink (bytes_of bytes.old) at (8 * n) }
{
    if n <= NEAR {
        return move_runs_up::<NON_NULL>(bytes, at, n, by, 0, Seen::default());
    }
    let far = move_runs_up::<NON_NULL>(
        bytes,
        at + 64 * AHEAD,
        n - AHEAD,
        by,
        64 * AHEAD,
        Seen::default(),
    );
    move_runs_up::<NON_NULL>(bytes, at, AHEAD, by, 0, far)
}

/// Moves the runs, last first, two in a turn. If they are far, it reads words `ahead` bytes before their turn, to bring
/// them into the processor's cache.
#[inline(always)]
fn move_runs_up<const NON_NULL: bool>(
    bytes: &mut [u8],
    at: usize,
    n: usize,
    by: usize,
    ahead: usize,
    before: Seen,
) -> Seen
    requires in_range { ahead ≤ at }
    requires in_bounds { at + by + 64 * n ≤ length bytes.old }
    requires slots { by % 8 ≡ 0 }
    ensures changes { bytes.new ≡ patched bytes.old (at + by)
        (reworded word_by_distance (bytes_of bytes.old) at (at + by)
        (8 * n)) }
    ensures keys_seen { NON_NULL ≡ false → BothEven result.first result.second → BothEven before.first before.second
        × HasNoNullLink (bytes_of bytes.old) at (8 * n) }
{
    let mut left = n;
    let mut seen = before;
    'runs: while left > 1 {
        left -= 2;
        let from = at + 64 * left;
        seen = look_ahead(bytes, from - ahead, ahead > 0, seen);
        seen = see_run::<NON_NULL>(bytes, from + 64, from + 64 + by, seen);
        seen = see_run::<NON_NULL>(bytes, from, from + by, seen);
    }
    if left == 1 {
        seen = see_run::<NON_NULL>(bytes, at, at + by, seen);
    }
    seen
}

/// Reads a word of each of two later runs, if they are far.
#[inline(always)]
fn look_ahead(bytes: &[u8], later: usize, far: bool, seen: Seen) -> Seen
    requires { later + 72 ≤ length bytes.now }
    ensures { BothEven result.first result.second → BothEven seen.first seen.second }
{
    if !far {
        return seen;
    }
    Seen {
        first: seen.first | word_in(bytes, later),
        second: seen.second | word_in(bytes, later + 64),
    }
}

/// Moves a run. If no link is null, it returns `seen`, and a compiler omits the other work.
#[inline(always)]
fn see_run<const NON_NULL: bool>(bytes: &mut [u8], from: usize, to: usize, seen: Seen) -> Seen
    requires from_in_bounds { from + 64 ≤ length bytes.old }
    requires to_in_bounds { to + 64 ≤ length bytes.old }
    requires slots { from % 8 ≡ to % 8 }
    ensures changes { bytes.new ≡ patched bytes.old to (reworded word_by_distance (bytes_of bytes.old) from to 8) }
    ensures keys_seen { NON_NULL ≡ false → BothEven result.first result.second → BothEven seen.first seen.second
        × HasNoNullLink (bytes_of bytes.old) from 8 }
{
    let now = move_run(bytes, from, to, seen);
    if NON_NULL { seen } else { now }
}

/// Moves the links one by one, last first.
fn links_up(bytes: &mut [u8], at: usize, n: usize, by: usize)
    requires { at + by + 8 * n ≤ length bytes.old }
    ensures { bytes.new ≡ patched bytes.old (at + by) (relinked (bytes_of bytes.old) at (at + by) n) }
{
    let mut left = n;
    'links: while left > 0 {
        left -= 1;
        let from = at + 8 * left;
        move_one(bytes, from, from + by);
    }
}

/// Moves links towards the start. It starts with the first run and ends with the single links, first first.
#[inline(always)]
fn move_down<const NON_NULL: bool>(bytes: &mut [u8], at: usize, n: usize, by: usize)
    requires source { at + 8 * n ≤ length bytes.old }
    requires in_bounds { by ≤ at }
    requires slots { by % 8 ≡ 0 }
    requires non_null { IsTrue NON_NULL → HasNoNullLink (bytes_of bytes.old) at n }
    ensures { bytes.new ≡ patched bytes.old (at - by) (relinked (bytes_of bytes.old) at (at - by) n) }
{
    // If the runs after the first link then begin at a multiple of 16, the first link moves alone, as the last link of
    // `move_up` does.
    let first = n.min((at - by) / 8 % 2);
    let others = n - first;
    let runs = others / RUN;
    let from = at + 8 * first;
    links_down(bytes, at, first, by);
    runs_down::<NON_NULL>(bytes, from, runs, by);
    links_down(bytes, from + 64 * runs, others % RUN, by);
}

/// Moves the runs towards the start, as `runs_up` does towards the end.
#[inline(always)]
fn runs_down<const NON_NULL: bool>(bytes: &mut [u8], at: usize, n: usize, by: usize)
    requires source { at + 64 * n ≤ length bytes.old }
    requires in_bounds { by ≤ at }
    requires slots { by % 8 ≡ 0 }
    requires non_null { IsTrue NON_NULL → HasNoNullLink (bytes_of bytes.old) at (8 * n) }
    ensures { bytes.new ≡ patched bytes.old (at - by) (relinked (bytes_of bytes.old) at (at - by) (8 * n)) }
{
    bytes_are_octets(bytes);
    let seen = all_turns_down::<NON_NULL>(bytes, at, n, by);
    if seen.has_odd() {
        put_right(bytes, at, at - by, 8 * n);
    }
}

/// Moves all runs towards the start, and returns the bitwise or of their words. With many runs it reads ahead.
#[inline(always)]
fn all_turns_down<const NON_NULL: bool>(bytes: &mut [u8], at: usize, n: usize, by: usize) -> Seen
    requires source { at + 64 * n ≤ length bytes.old }
    requires in_bounds { by ≤ at }
    requires slots { by % 8 ≡ 0 }
    ensures changes { bytes.new ≡ patched bytes.old (at - by)
        (reworded word_by_distance (bytes_of bytes.old) at (at - by)
        (8 * n)) }
    ensures keys_seen { NON_NULL ≡ false → BothEven result.first result.second
        → HasNoNullLink (bytes_of bytes.old) at (8 * n) }
{
    if n <= NEAR {
        return move_runs_down::<NON_NULL>(bytes, at, n, by, 0, Seen::default());
    }
    let many = n - AHEAD;
    let far = move_runs_down::<NON_NULL>(bytes, at, many, by, 64 * AHEAD, Seen::default());
    move_runs_down::<NON_NULL>(bytes, at + 64 * many, AHEAD, by, 0, far)
}

/// Moves the runs, first first, two in a turn. If they are far, it reads words `ahead` bytes before their turn, as
/// `move_runs_up` does.
#[inline(always)]
fn move_runs_down<const NON_NULL: bool>(
    bytes: &mut [u8],
    at: usize,
    n: usize,
    by: usize,
    ahead: usize,
    before: Seen,
) -> Seen
    requires source { at + 64 * n + ahead ≤ length bytes.old }
    requires in_bounds { by ≤ at }
    requires slots { by % 8 ≡ 0 }
    ensures changes { bytes.new ≡ patched bytes.old (at - by)
        (reworded word_by_distance (bytes_of bytes.old) at (at - by)
        (8 * n)) }
    ensures keys_seen { NON_NULL ≡ false → BothEven result.first result.second → BothEven before.first before.second
        × HasNoNullLink (bytes_of bytes.old) at (8 * n) }
{
    let mut seen = before;
    'runs: for i in 0..n / 2 {
        let from = at + 128 * i;
        seen = look_ahead(bytes, from + ahead, ahead > 0, seen);
        seen = see_run::<NON_NULL>(bytes, from, from - by, seen);
        seen = see_run::<NON_NULL>(bytes, from + 64, from + 64 - by, seen);
    }
    if n % 2 == 1 {
        let from = at + 64 * (n - 1);
        seen = see_run::<NON_NULL>(bytes, from, from - by, seen);
    }
    seen
}

/// Moves the links one by one, first first.
fn links_down(bytes: &mut [u8], at: usize, n: usize, by: usize)
    requires source { at + 8 * n ≤ length bytes.old }
    requires in_bounds { by ≤ at }
    ensures { bytes.new ≡ patched bytes.old (at - by) (relinked (bytes_of bytes.old) at (at - by) n) }
{
    'links: for i in 0..n {
        let from = at + 8 * i;
        move_one(bytes, from, from - by);
    }
}

/// Moves the eight words at `from` to `to`, and subtracts the distance from each, so that a link that is not null keeps
/// its target. It reads all words before it writes one, and joins their bits.
#[inline(always)]
fn move_run(bytes: &mut [u8], from: usize, to: usize, seen: Seen) -> Seen
    requires from_in_bounds { from + 64 ≤ length bytes.old }
    requires to_in_bounds { to + 64 ≤ length bytes.old }
    requires slots { from % 8 ≡ to % 8 }
    ensures changes { bytes.new ≡ patched bytes.old to (reworded word_by_distance (bytes_of bytes.old) from to 8) }
    ensures keys_seen { BothEven result.first result.second → BothEven seen.first seen.second
        × HasNoNullLink (bytes_of bytes.old) from 8 }
{
    let a = moved_by_distance(bytes, from, to);
    let b = moved_by_distance(bytes, from + 8, to + 8);
    let c = moved_by_distance(bytes, from + 16, to + 16);
    let d = moved_by_distance(bytes, from + 24, to + 24);
    let e = moved_by_distance(bytes, from + 32, to + 32);
    let f = moved_by_distance(bytes, from + 40, to + 40);
    let g = moved_by_distance(bytes, from + 48, to + 48);
    let h = moved_by_distance(bytes, from + 56, to + 56);
    set_word_in(bytes, to, a);
    set_word_in(bytes, to + 8, b);
    set_word_in(bytes, to + 16, c);
    set_word_in(bytes, to + 24, d);
    set_word_in(bytes, to + 32, e);
    set_word_in(bytes, to + 40, f);
    set_word_in(bytes, to + 48, g);
    set_word_in(bytes, to + 56, h);
    Seen {
        first: seen.first | a | c | e | g,
        second: seen.second | b | d | f | h,
    }
}

/// Repairs null links: each of the `n` words from `to` on that equals the null word less the distance becomes null
/// again.
fn put_right(bytes: &mut [u8], from: usize, to: usize, n: usize)
    requires { to + 8 * n ≤ length bytes.old }
    ensures { bytes.new ≡ patched bytes.old to (reworded (unless_null from to) (bytes_of bytes.old) to to n) }
{
    let null = less_distance(NULL, from, to);
    'links: for i in 0..n {
        let here = to + 8 * i;
        let word = null_again(word_in(bytes, here), null);
        set_word_in(bytes, here, word);
    }
}

/// Returns the null word if `word` equals `null`, a moved null link; otherwise returns `word`.
fn null_again(word: u64, null: u64) -> u64
    ensures { result ≡ (if word == null then 1 else word) }
{
    if word == null {
        return NULL;
    }
    word
}

/// Copies the link at `from` to `to`, with its target.
fn move_one(bytes: &mut [u8], from: usize, to: usize)
    requires from_in_bounds { from + 8 ≤ length bytes.old }
    requires to_in_bounds { to + 8 ≤ length bytes.old }
    ensures { bytes.new ≡ patched bytes.old to (link to (link_at (bytes_of bytes.old) from)) }
{
    let word = moved(bytes, from, to);
    set_word_in(bytes, to, word);
}

/// Returns the word of the link at `from` for the place `to`: its target stays.
fn moved(bytes: &[u8], from: usize, to: usize) -> u64
    requires { from + 8 ≤ length bytes.now }
    ensures { result ≡ link_word to (link_at (bytes_of bytes.now) from) }
{
    if word_in(bytes, from) == NULL {
        return NULL;
    }
    moved_by_distance(bytes, from, to)
}

/// Returns the word at `from` less the distance. It is the word of the same link at `to`, unless the link is null.
#[inline(always)]
fn moved_by_distance(bytes: &[u8], from: usize, to: usize) -> u64
    requires { from + 8 ≤ length bytes.now }
    ensures { result ≡ word_by_distance from to (word_at (bytes_of bytes.now) from) }
{
    less_distance(word_in(bytes, from), from, to)
}

/// Returns `word`, read at `from`, less the distance to `to`.
#[inline(always)]
fn less_distance(word: u64, from: usize, to: usize) -> u64
    ensures { result ≡ word_by_distance from to word }
{
    let target = (from as u64).wrapping_add(word);
    target.wrapping_sub(to as u64)
}
