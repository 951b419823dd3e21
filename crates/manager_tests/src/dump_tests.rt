//! Segments that are dumped, and loaded again; dumps with notes after them: those of capacities, and others; and
//! segments as lines of JSON.
use crate::checks::{done, holds, same};
use crate::dumps::{empty, is_dumped, loaded, text_of, writer};
use crate::segments::{named, new_named};
use seg_types::{Handle, Key, ScalarKind};
use segment_dump::{declared_size, dump_json, dump_with_capacities, without_notes};
use segment_manager::{AnonymousInstance, Segment, UniqueInstance};
use std::process::Abort;

/// A segment with nothing in it, as a dump has it.
const NOTHING: &[u8] = b"segment dump 1\nsize 4096\nindexes 0 0\nend\n";

/// One object of each kind, as a dump has it.
const ONE_OF_EACH: &[u8] =
    b"segment dump 1\nsize 4096\nindexes 2 1\nnamed a i64 2\n  7\n  -2\nnamed \"b c\" vec<string> 2\n  5 \"hello\"\n  0 \"\"\nunique map<i32,bool> 2\n  -7 false\n  7 true\nanonymous string 1\n  4 \"a\\x00\\\"b\"\nanonymous vec<u8> 3\n  1\n  2\n  255\nend\n";

/// Makes a pair of a map of truths.
fn puts(rt: &impl Abort, segment: &mut Segment, map: Handle, key: i32, value: bool) {
    same(rt, segment.map_put(&Key::Handle(map), key, value), Ok(true));
}

/// Makes a map of two truths, the only one of its kind.
fn make_map(rt: &impl Abort, segment: &mut Segment) {
    let (from, to) = (ScalarKind::I32, ScalarKind::Bool);
    let map = segment.construct_map_of(&UniqueInstance, from, to);
    let map = done(rt, map);
    puts(rt, segment, map, 7, true);
    puts(rt, segment, map, -7, false);
}

/// Makes two numbers under a name.
fn make_numbers(rt: &impl Abort, segment: &mut Segment) {
    done(rt, segment.construct(&new_named(rt, b"a"), 2, 7i64));
    done(rt, segment.set(&named(rt, b"a"), 1, -2i64));
}

/// Makes one object of each kind.
fn fill(rt: &impl Abort, segment: &mut Segment) {
    make_numbers(rt, segment);
    done(rt, segment.construct_string(&AnonymousInstance, b"a\0\"b"));
    let name = new_named(rt, b"b c");
    done(rt, segment.construct_texts(&name, &[b"hello", b""]));
    let bytes = [1u8, 2, 255];
    done(rt, segment.construct_vec(&AnonymousInstance, &bytes));
    make_map(rt, segment);
}

#[test]
fn one_object_of_each_kind(rt: HostRuntime) {
    let mut segment = empty(&rt);
    is_dumped(&rt, &segment, NOTHING);
    fill(&rt, &mut segment);
    is_dumped(&rt, &segment, ONE_OF_EACH);
    drop(segment);
}

/// Checks that a dump is loaded as a segment of a size, which is dumped as this text.
fn loads_alike<R: Abort + AllocGlobal>(rt: &R, dump: &[u8], size: u64, text: &[u8]) {
    let alike = loaded(rt, dump, Some(size));
    is_dumped(rt, &alike, text);
    drop(alike);
}

#[test]
fn what_was_dumped_is_loaded(rt: HostRuntime) {
    loads_alike(&rt, ONE_OF_EACH, 4096, ONE_OF_EACH);
    let least = loaded(&rt, NOTHING, None);
    same(&rt, least.size(), 144);
    drop(least);
}

/// Loads a dump in just as many bytes as it needs, and what that is dumped as.
fn is_loaded_again<R: Abort + AllocGlobal>(rt: &R, dump: &[u8]) {
    let least = loaded(rt, dump, None);
    same(rt, least.free(), 0);
    let size = least.size();
    let text = text_of(rt, &least);
    drop(least);
    loads_alike(rt, text.taken(), size, text.taken());
    drop(text);
}

#[test]
fn what_was_loaded_is_loaded_again(rt: HostRuntime) {
    is_loaded_again(&rt, ONE_OF_EACH);
}

const LONG: [u8; 1001] = [0x61; 1001];

/// Makes a long string, and a vector of one.
fn make_long(rt: &impl Abort, segment: &mut Segment) {
    let name = new_named(rt, b"s");
    done(rt, segment.construct_string(&name, &LONG));
    let name = new_named(rt, b"t");
    done(rt, segment.construct_texts(&name, &[&LONG]));
}

#[test]
fn a_long_text(rt: HostRuntime) {
    let mut segment = empty(&rt);
    make_long(&rt, &mut segment);
    let text = text_of(&rt, &segment);
    drop(segment);
    is_loaded_again(&rt, text.taken());
    drop(text);
}

/// A vector with more places than elements, and a string.
const DUMP: &[u8] =
    b"segment dump 1\nsize 4096\nindexes 1 0\nnamed a vec<i64> 1\n  7\nanonymous string 1\n  2 \"xy\"\nend\n";

/// The dump with the capacities of its containers.
const NOTED: &[u8] =
    b"segment dump 1\nsize 4096\nindexes 1 0\nnamed a vec<i64> 1\n  7\nanonymous string 1\n  2 \"xy\"\nend\n# capacity of names: 4\n# capacity of kinds: 0\n# capacity of named a vec<i64>: 10\n# capacity of anonymous string: 2\n";

/// Checks that a writer with room for `capacity` bytes of the dump with capacities takes these, and then fails.
fn is_noted<R: Abort + AllocGlobal>(rt: &R, segment: &Segment, capacity: usize) {
    let mut out = writer(rt, capacity);
    let told = dump_with_capacities(segment, &mut out).is_ok();
    same(rt, told, capacity >= NOTED.len());
    holds(rt, NOTED.starts_with(out.taken()));
    same(rt, out.taken().len(), capacity.min(NOTED.len()));
}

#[test]
fn capacities_are_told(rt: HostRuntime) {
    let mut segment = empty(&rt);
    let name = new_named(&rt, b"a");
    done(&rt, segment.construct_vec(&name, &[7i64]));
    done(&rt, segment.reserve(&named(&rt, b"a"), 10));
    done(&rt, segment.construct_string(&AnonymousInstance, b"xy"));
    is_noted(&rt, &segment, 16384);
    is_noted(&rt, &segment, DUMP.len() + 30);
    drop(segment);
}

/// Texts, and what is left of them without notes.
const NOTES: [(&[u8], &[u8]); 5] = [
    (NOTED, DUMP),
    (DUMP, DUMP),
    (b"a\n# b\nc\n#\n# d\n", b"a\n# b\nc\n"),
    (b"a\n# b", b"a\n# b"),
    (b"# a\n#\n", b""),
];

#[test]
fn notes_are_left_out(rt: HostRuntime) {
    for (text, left) in NOTES {
        same(&rt, without_notes(text), left);
    }
    loads_alike(&rt, NOTED, 4096, DUMP);
}

#[test]
fn the_size_is_said(rt: HostRuntime) {
    same(&rt, declared_size(NOTED), Some(4096));
    same(&rt, declared_size(b"segment dump 2\nsize 4096\n"), None);
}

/// One object of each kind as lines of JSON.
const ONE_OF_EACH_IN_JSON: &[u8] =
    b"{\"class\":\"named\",\"name\":\"a\",\"kind\":\"i64\",\"value\":[7,-2]}\n{\"class\":\"named\",\"name\":\"b c\",\"kind\":\"vec<string>\",\"value\":[\"hello\",\"\"]}\n{\"class\":\"unique\",\"name\":null,\"kind\":\"map<i32,bool>\",\"value\":[[-7,false],[7,true]]}\n{\"class\":\"anonymous\",\"name\":null,\"kind\":\"string\",\"value\":\"a\\u0000\\\"b\"}\n{\"class\":\"anonymous\",\"name\":null,\"kind\":\"vec<u8>\",\"value\":[1,2,255]}\n";

/// Texts in UTF-8 and others, as JSON has them.
const TEXTS_IN_JSON: &[u8] =
    b"{\"class\":\"named\",\"name\":\"\xc3\xa4\\\"\",\"kind\":\"vec<string>\",\"value\":[\"\xc3\xa4\\u001f\\\\/\",{\"base64\":\"/w==\"},{\"base64\":\"+P4=\"},{\"base64\":\"TWHz\"},{\"base64\":\"AICAgA==\"},\"\"]}\n";

/// Checks that a writer with room for `capacity` bytes takes these of the lines of JSON, and then fails.
fn is_in_json<R: Abort + AllocGlobal>(rt: &R, segment: &Segment, capacity: usize, lines: &[u8]) {
    let mut out = writer(rt, capacity);
    let told = dump_json(segment, &mut out).is_ok();
    same(rt, told, capacity >= lines.len());
    same(rt, out.taken(), &lines[..capacity.min(lines.len())]);
    drop(out);
}

#[test]
fn objects_are_lines_of_json(rt: HostRuntime) {
    let mut segment = empty(&rt);
    is_in_json(&rt, &segment, 100, b"");
    fill(&rt, &mut segment);
    is_in_json(&rt, &segment, 16384, ONE_OF_EACH_IN_JSON);
    for capacity in [0, 11, 50, 56, 57, 100, 200, 300] {
        is_in_json(&rt, &segment, capacity, ONE_OF_EACH_IN_JSON);
    }
    drop(segment);
}

#[test]
fn texts_of_other_bytes_are_base64(rt: HostRuntime) {
    let mut segment = empty(&rt);
    let name = new_named(&rt, b"\xc3\xa4\"");
    let texts: [&[u8]; 6] = [
        b"\xc3\xa4\x1f\\/",
        b"\xff",
        b"\xf8\xfe",
        b"Ma\xf3",
        b"\0\x80\x80\x80",
        b"",
    ];
    done(&rt, segment.construct_texts(&name, &texts));
    is_in_json(&rt, &segment, 16384, TEXTS_IN_JSON);
    for capacity in [60, 80, 97, 100, 130] {
        is_in_json(&rt, &segment, capacity, TEXTS_IN_JSON);
    }
    drop(segment);
}
