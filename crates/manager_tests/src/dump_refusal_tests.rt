//! Texts that are no dumps, and sizes that are too small.
use crate::checks::{holds, same};
use crate::dumps::{is_refused, loaded, refused_in};
use segment_dump::{BadDump, Count, DumpFault, LoadError, Needs, count_dump};
use std::process::Abort;

/// Texts that are no dumps: in which line and column, and why. Counts that no lines stand after are no reason to say
/// that there is too little space.
const DAMAGED: [(&[u8], u64, u64, DumpFault); 14] = [
    (b"", 1, 1, DumpFault::Cut),
    (b"segment dump 2\n", 1, 14, DumpFault::BadSyntax),
    (
        b"segment dump 1\nsize\nindexes 0 0\nend\n",
        2,
        5,
        DumpFault::BadSyntax,
    ),
    (
        b"segment dump 1\nsize 1024\nindexes 2000000000 0\nend\n",
        3,
        1,
        DumpFault::Unlike,
    ),
    (
        b"segment dump 1\nsize 1000\nindexes 0 2000000000\nend\n",
        3,
        1,
        DumpFault::Unlike,
    ),
    (
        b"segment dump 1\nsize 1024\nindexes 0 0\n",
        4,
        1,
        DumpFault::Cut,
    ),
    (
        b"segment dump 1\nsize 1024\nindexes 0 0\nend\n\n",
        5,
        1,
        DumpFault::More,
    ),
    (
        b"segment dump 1\nsize 1024\nindexes 0 0\nanonymous u9 1\n  1\nend\n",
        4,
        11,
        DumpFault::UnknownKind,
    ),
    (
        b"segment dump 1\nsize 1024\nindexes 0 0\nanonymous u8 1\n  300\nend\n",
        5,
        3,
        DumpFault::BadValue,
    ),
    (
        b"segment dump 1\nsize 1024\nindexes 2 0\nnamed b u8 1\n  1\nnamed a u8 1\n  2\nend\n",
        4,
        7,
        DumpFault::Unlike,
    ),
    (
        b"segment dump 1\nsize 1024\nindexes 2 0\nnamed a u8 1\n  1\nnamed a u8 1\n  2\nend\n",
        6,
        9,
        DumpFault::Exists,
    ),
    (
        b"segment dump 1\nsize 1024\nindexes 0 0\nanonymous u8 1\n 1\nend\n",
        5,
        2,
        DumpFault::Unlike,
    ),
    (
        b"segment dump 1\nsize 1024\nindexes 0 0\nanonymous u8 1\n  1\nanonymous vec<u64> 4000\n  1\nend\n",
        6,
        1,
        DumpFault::Unlike,
    ),
    (
        b"segment dump 1\nsize 1024\nindexes 0 0\nanonymous string 1\n  2000 \"abc\"\nend\n",
        7,
        1,
        DumpFault::Unlike,
    ),
];

#[test]
fn damaged_dumps(rt: HostRuntime) {
    for (text, line, column, cause) in DAMAGED {
        let bad = BadDump {
            line,
            column,
            cause,
        };
        is_refused(&rt, text, 1024, LoadError::BadDump(bad));
    }
}

/// A dump for which 176 bytes are too few.
const NEEDS_MORE: &[u8] =
    b"segment dump 1\nsize 1024\nindexes 0 0\nanonymous vec<string> 1\n  5 \"hello\"\nend\n";

#[test]
fn too_small(rt: HostRuntime) {
    for (size, cause) in [
        (176, LoadError::NoSpace),
        (160, LoadError::BadSize),
        (16384, LoadError::RegionTooSmall),
    ] {
        is_refused(&rt, NEEDS_MORE, size, cause);
    }
}

/// A map of two pairs and a vector of strings with two texts. They need 144 bytes for the ends, 32 and 32 for the
/// indexes, and 64 for each object's own block. Each pair needs 48, the array of the texts 48, and the texts 32 and 48.
const NEEDS_560: &[u8] =
    b"segment dump 1\nsize 4096\nindexes 1 1\nnamed \"b \\xc3\\xa4\" vec<string> 2\n  5 \"hello\"\n  20 \"12345678901234567890\"\nunique map<i32,bool> 2\n  -7 false\n  7 true\nend\n";

#[test]
fn needs_are_counted(rt: HostRuntime) {
    let needs = Needs {
        room: 560,
        longest: 20,
    };
    same(&rt, count_dump(NEEDS_560), Ok(Count { size: 4096, needs }));
    same(&rt, count_dump(b"segment dump 1\nsize 4096\n"), Err(0));
    same(&rt, count_dump(b"segment dump 1\nsize x\nindexes"), Err(14));
}

/// Checks that the dump is not loaded with this room for its longest text: the region comes back.
fn leaves_the_region<R: Abort + AllocGlobal>(rt: &R, room: &mut [u8], size: u64, cause: LoadError) {
    let refused = refused_in(rt, NEEDS_560, room, Some(size));
    same(rt, refused.cause, cause);
    holds(rt, refused.region.is_some());
    drop(refused);
}

#[test]
fn just_enough(rt: HostRuntime) {
    let segment = loaded(&rt, NEEDS_560, Some(560));
    same(&rt, segment.free(), 0);
    drop(segment);
    leaves_the_region(&rt, &mut [0; 100], 544, LoadError::NoSpace);
    leaves_the_region(&rt, &mut [0; 19], 560, LoadError::LongText);
}
