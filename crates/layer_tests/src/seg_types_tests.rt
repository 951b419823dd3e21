//! Values as bytes: those of the five scalar types, and those of a type that a caller gives the trait; names and kinds;
//! what is printed of each.
use crate::checks::{done, holds, same};
use crate::ticket::Ticket;
use seg_types::theorems::{
    scalar_is_number, unordered_are_same, values_spell_one, written_is_read,
};
use seg_types::{
    BadName, Class, IndexKey, Key, Kind, LineError, MAX_NAME_LEN, Name, NewKey, Plain, Refusal,
    Scalar, ScalarKind, ScalarValue, is_name,
};
use std::alloc::Global;
use std::fmt::Display;
use std::process::Abort;

/// Checks that a value is spelled by these bytes, which are read as it, and it does not stand before itself.
fn is_spelled<T: Plain + PartialEq + Drop>(rt: &impl Abort, value: T, spelled: &[u8]) {
    holds(rt, spelled.len() as u64 == T::SIZE);
    holds(rt, spelled.len() <= 8);
    let mut scratch = [0; 8];
    let bytes = &mut scratch[..spelled.len()];
    value.write(bytes);
    holds(rt, &*bytes == spelled);
    same(rt, T::read(spelled), Some(value));
    same(rt, written_is_read(value, bytes), Some(value));
    holds(rt, unordered_are_same(value, value));
}

/// Checks that a value stands before another, which does not stand before it.
fn stands_before<T: Plain>(rt: &impl Abort, low: T, high: T) {
    holds(rt, low.precedes(high));
    holds(rt, !high.precedes(low));
}

/// Checks that each of these values is spelled by the bytes beside it, and stands before the next.
fn rise<T: Plain + PartialEq + Drop>(rt: &impl Abort, rows: &[(T, &[u8])]) {
    let mut last = None;
    for (value, spelled) in rows {
        is_spelled(rt, *value, spelled);
        if let Some(low) = last {
            stands_before(rt, low, *value);
        }
        last = Some(*value);
    }
}

/// Checks that a scalar type has this size, this code and this kind.
fn has_codes<T: Scalar>(rt: &impl Abort, size: u64, code: u32, kind: ScalarKind) {
    same(rt, T::SIZE, size);
    same(rt, T::CODE, code);
    same(rt, T::kind(), kind);
}

const TRUTHS: [(bool, &[u8]); 2] = [(false, b"\0"), (true, b"\x01")];

const BYTES: [(u8, &[u8]); 4] = [(0, b"\0"), (127, b"\x7F"), (128, b"\x80"), (255, b"\xFF")];

const OF_FOUR_BYTES: [(i32, &[u8]); 6] = [
    (i32::MIN, b"\0\0\0\x80"),
    (-1, b"\xFF\xFF\xFF\xFF"),
    (0, b"\0\0\0\0"),
    (1, b"\x01\0\0\0"),
    (67305985, b"\x01\x02\x03\x04"),
    (i32::MAX, b"\xFF\xFF\xFF\x7F"),
];

const OF_EIGHT_BYTES: [(i64, &[u8]); 7] = [
    (i64::MIN, b"\0\0\0\0\0\0\0\x80"),
    (-2, b"\xFE\xFF\xFF\xFF\xFF\xFF\xFF\xFF"),
    (-1, b"\xFF\xFF\xFF\xFF\xFF\xFF\xFF\xFF"),
    (0, b"\0\0\0\0\0\0\0\0"),
    (1, b"\x01\0\0\0\0\0\0\0"),
    (578437695752307201, b"\x01\x02\x03\x04\x05\x06\x07\x08"),
    (i64::MAX, b"\xFF\xFF\xFF\xFF\xFF\xFF\xFF\x7F"),
];

const WITHOUT_SIGN: [(u64, &[u8]); 5] = [
    (0, b"\0\0\0\0\0\0\0\0"),
    (578437695752307201, b"\x01\x02\x03\x04\x05\x06\x07\x08"),
    (9223372036854775807, b"\xFF\xFF\xFF\xFF\xFF\xFF\xFF\x7F"),
    (9223372036854775808, b"\0\0\0\0\0\0\0\x80"),
    (u64::MAX, b"\xFF\xFF\xFF\xFF\xFF\xFF\xFF\xFF"),
];

#[test]
fn values_of_scalar_types(rt: HostRuntime) {
    has_codes::<bool>(&rt, 1, 1, ScalarKind::Bool);
    rise(&rt, &TRUTHS);
    has_codes::<u8>(&rt, 1, 2, ScalarKind::U8);
    rise(&rt, &BYTES);
    has_codes::<i32>(&rt, 4, 3, ScalarKind::I32);
    rise(&rt, &OF_FOUR_BYTES);
    has_codes::<i64>(&rt, 8, 4, ScalarKind::I64);
    rise(&rt, &OF_EIGHT_BYTES);
    has_codes::<u64>(&rt, 8, 5, ScalarKind::U64);
    rise(&rt, &WITHOUT_SIGN);
}

#[test]
fn values_of_a_type_of_the_caller(rt: HostRuntime) {
    same(&rt, Ticket::CODE, 200);
    // the urgent ones come first
    let tickets: [(Ticket, &[u8]); 6] = [
        (Ticket::urgent(0), b"\x01\0\0"),
        (Ticket::urgent(258), b"\x01\x02\x01"),
        (Ticket::urgent(65535), b"\x01\xFF\xFF"),
        (Ticket::plain(0), b"\0\0\0"),
        (Ticket::plain(1), b"\0\x01\0"),
        (Ticket::plain(65535), b"\0\xFF\xFF"),
    ];
    rise(&rt, &tickets);
    holds(&rt, Ticket::read(&[2, 0, 0]).is_none());
}

#[test]
fn laws_are_called(rt: HostRuntime) {
    values_spell_one();
    holds(&rt, scalar_is_number::<bool>(&[2]).is_none());
    let least = scalar_is_number::<i32>(&[0, 0, 0, 128]);
    same(&rt, least, Some(i32::MIN));
    holds(&rt, !unordered_are_same(1u8, 2u8));
    holds(&rt, bool::read(&[255]).is_none());
}

/// Bytes, and whether they are a name in the formats 0 and 1, and from 2 on. Names may have blanks and quotes, and from
/// 2 on characters of two, three and four bytes; none is empty, has a control character or is no UTF-8.
const NAMES: [(&[u8], bool, bool); 13] = [
    (b"a ~", true, true),
    (b" with blanks, and \"quotes\"", true, true),
    (b"\xC3\xA4\xE2\x82\xAC\xF0\x9F\x98\x80", false, true),
    (b"\xC2\xA0", false, true),
    (b"", false, false),
    (b"\x1F", false, false),
    (b"line\n", false, false),
    (b"a\x7F", false, false),
    (b"\xFF", false, false),
    (b"\xC3", false, false),
    (b"\xC2\x85", false, false),
    (b"a\xC2\x85", false, false),
    (b"\xC2\x9F", false, false),
];

/// Tells whether these bytes are a name, which then holds them.
fn is_held(bytes: &[u8]) -> bool {
    match Name::new(bytes) {
        Some(name) => name.as_bytes() == bytes,
        None => false,
    }
}

#[test]
fn names_of_each_format(rt: HostRuntime) {
    for (bytes, in_one, in_two) in NAMES {
        same(&rt, is_name(0, bytes), in_one);
        same(&rt, is_name(1, bytes), in_one);
        same(&rt, is_name(2, bytes), in_two);
        same(&rt, is_held(bytes), in_two);
    }
}

#[test]
fn names_have_a_longest(rt: HostRuntime) {
    same(&rt, MAX_NAME_LEN, 255);
    let long = [b'~'; 256];
    for (len, in_one, in_two) in [
        (63, true, true),
        (64, false, true),
        (255, false, true),
        (256, false, false),
    ] {
        let name = long.get(..len).unwrap_or(&[]);
        same(&rt, is_name(1, name), in_one);
        same(&rt, is_name(2, name), in_two);
        same(&rt, is_held(name), in_two);
    }
}

const KINDS: [(Kind, u32); 6] = [
    (Kind::Scalar(ScalarKind::Bool), 1),
    (Kind::Scalar(ScalarKind::U64), 5),
    (Kind::String, 65536),
    (Kind::Vector(ScalarKind::I32), 131075),
    (Kind::Map(ScalarKind::U8, ScalarKind::U8), 197122),
    (Kind::Strings, 262144),
];

#[test]
fn kinds_have_codes(rt: HostRuntime) {
    for (kind, code) in KINDS {
        same(&rt, Kind::from_code(code), Some(kind));
        same(&rt, kind.code(), code);
    }
    for code in [0, 6, 131072, 196608, 197894, 4294967295] {
        holds(&rt, Kind::from_code(code).is_none());
    }
    holds(&rt, !Kind::Strings.is_of(1));
    holds(&rt, Kind::Strings.is_of(2));
    holds(&rt, Kind::String.is_of(0));
}

/// Numbers, and the values of a kind that they are.
const NUMBERS: [(ScalarKind, i128, Option<ScalarValue>); 5] = [
    (ScalarKind::Bool, 1, Some(ScalarValue::Bool(true))),
    (ScalarKind::U8, 255, Some(ScalarValue::U8(255))),
    (ScalarKind::I64, -1, Some(ScalarValue::I64(-1))),
    (ScalarKind::Bool, 2, None),
    (ScalarKind::I32, 2147483648, None),
];

#[test]
fn values_of_a_kind(rt: HostRuntime) {
    for (kind, number, wanted) in NUMBERS {
        same(&rt, ScalarValue::of_number(kind, number), wanted);
        if let Some(value) = wanted {
            same(&rt, value.number(), number);
            same(&rt, value.kind(), kind);
        }
    }
}

#[test]
fn values_are_spelled(rt: HostRuntime) {
    let mut bytes = [0; 4];
    ScalarValue::I32(-2).write(&mut bytes);
    same(&rt, bytes.as_slice(), b"\xFE\xFF\xFF\xFF".as_slice());
    let read = ScalarValue::read(ScalarKind::I32, &bytes);
    same(&rt, read, Some(ScalarValue::I32(-2)));
    holds(&rt, ScalarValue::read(ScalarKind::Bool, &[2]).is_none());
    holds(&rt, !ScalarKind::Bool.is_spelling(&[2]));
    holds(&rt, ScalarKind::U8.is_spelling(&[2]));
    holds(&rt, ScalarKind::I32.precedes(&[255; 4], &[0; 4]));
    holds(&rt, !ScalarKind::U64.precedes(&[255; 8], &[0; 8]));
}

/// Checks that something is printed as this.
fn is_printed<T: Display + Drop>(rt: &impl Abort, alloc: Global, it: T, text: &str) {
    let printed = done(rt, format!(in alloc; "{it}"));
    holds(rt, printed.as_str() == text);
}

const PRINTED: [(ScalarValue, &str); 6] = [
    (ScalarValue::Bool(true), "true"),
    (ScalarValue::Bool(false), "false"),
    (ScalarValue::U8(200), "200"),
    (ScalarValue::I32(i32::MIN), "-2147483648"),
    (ScalarValue::I64(-1), "-1"),
    (ScalarValue::U64(u64::MAX), "18446744073709551615"),
];

#[test]
fn values_are_printed(rt: HostRuntime) {
    for (value, text) in PRINTED {
        is_printed(&rt, rt.alloc(), value, text);
    }
}

#[test]
fn keys_are_printed(rt: HostRuntime) {
    let kind = Kind::Map(ScalarKind::U8, ScalarKind::I64);
    is_printed(&rt, rt.alloc(), Class::Anonymous, "anonymous");
    is_printed(&rt, rt.alloc(), Key::Handle(192), "#192");
    is_printed(&rt, rt.alloc(), Key::Unique(kind), "@map<u8,i64>");
    is_printed(&rt, rt.alloc(), Key::Anonymous, "-");
    is_printed(&rt, rt.alloc(), NewKey::Anonymous, "-");
    is_printed(
        &rt,
        rt.alloc(),
        IndexKey::Unique(Kind::Strings),
        "@vec<string>",
    );
}

/// The longest name, which stands in quotes, and how it is printed.
const LONGEST: (&str, &str) = (
    "~~~~~~~~~~~~~~~~~~~~~~~~~~~~~~~~~~~~~~~~~~~~~~~~~~~~~~~~~~~~~~~~~~~~~~~~~~~~~~~~~~~~~~~~~~~~~~~~~~~~~~~~~~~~~~~~~~~~~~~~~~~~~~~~~~~~~~~~~~~~~~~~~~~~~~~~~~~~~~~~~~~~~~~~~~~~~~~~~~~~~~~~~~~~~~~~~~~~~~~~~~~~~~~~~~~~~~~~~~~~~~~~~~~~~~~~~~~~~~~~~~~~~~~~~~~~~~~",
    "\"~~~~~~~~~~~~~~~~~~~~~~~~~~~~~~~~~~~~~~~~~~~~~~~~~~~~~~~~~~~~~~~~~~~~~~~~~~~~~~~~~~~~~~~~~~~~~~~~~~~~~~~~~~~~~~~~~~~~~~~~~~~~~~~~~~~~~~~~~~~~~~~~~~~~~~~~~~~~~~~~~~~~~~~~~~~~~~~~~~~~~~~~~~~~~~~~~~~~~~~~~~~~~~~~~~~~~~~~~~~~~~~~~~~~~~~~~~~~~~~~~~~~~~~~~~~~~~~\"",
);

#[test]
fn names_are_printed(rt: HostRuntime) {
    for (name, text) in [
        LONGEST,
        ("a.1", "a.1"),
        ("1 \"", "\"1 \\\"\""),
        ("\u{e4}", "\"\\xc3\\xa4\""),
    ] {
        if let Some(name) = Name::new(name.as_bytes()) {
            is_printed(&rt, rt.alloc(), name, text);
            is_printed(&rt, rt.alloc(), IndexKey::Name(name), text);
        }
    }
}

#[test]
fn errors_are_printed(rt: HostRuntime) {
    is_printed(&rt, rt.alloc(), LineError::BadSyntax, "bad syntax");
    is_printed(&rt, rt.alloc(), Refusal::ReadOnly, "read only");
    let message = "a name has 1 to 255 bytes of UTF-8 without control characters";
    is_printed(&rt, rt.alloc(), BadName, message);
}
