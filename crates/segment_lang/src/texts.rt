//! How numbers, values, texts, names and kinds are printed. Each call writes all of its text, or answers `DeviceFault`
//! if the writer failed: what went out is then shorter than the text, and the text begins with it.

ghost use Rattle.std.specs.Prelude.{◌≡◌, ◌==◌, ◌||◌, ◌-◌, ◌^◌, ◌<◌, ◌++◌, ◌∷◌, [], decimal, flat_map};
ghost use Rattle.std.specs.Fmt.{signed_decimal};
ghost use Rattle.std.specs.List.{list_all};
ghost use Rattle.raw_region.specs.Device.{Writes};
ghost use Rattle.seg_types.specs.Values.{kind_of_scalar, value_of_scalar};
ghost use Rattle.segment_lang.specs.Lexing.{is_bare_name, is_digit, is_letter};
ghost use Rattle.segment_lang.specs.Texts.{digit_text, item_text, kind_text, name_text, quoted_text, scalar_text};
ghost use Rattle.segment_lang.specs.Texts.{value_text};
ghost use Rattle.segment_lang.specs.Pieces.{part_text};

use itoa::{Buffer, write_digits};
use raw_region::{DeviceFault, Sink, write_all};
use seg_types::{Kind, ScalarValue, is_bare_name};

/// Writes a number in plain decimal.
#[inline(always)]
pub fn put_number<S: Sink>(out: &mut S, number: u64) -> Result<(), DeviceFault>
    requires { (S.history out.old).failures < 2 ^ 64 - 1 }
    ensures { Writes (S.history out.old) (S.history out.new) result (decimal number) }
{
    let mut buffer = Buffer::new();
    write_all(out, buffer.format(number).as_bytes())
}

/// Writes a whole number that may be negative in plain decimal.
#[inline(always)]
fn put_signed<S: Sink>(out: &mut S, number: i64) -> Result<(), DeviceFault>
    requires { (S.history out.old).failures < 2 ^ 64 - 1 }
    ensures { Writes (S.history out.old) (S.history out.new) result (signed_decimal number) }
{
    let mut digits = Buffer::new();
    write_all(out, digits.format(number).as_bytes())
}

/// Writes a value: `true` or `false`, or a whole number in plain decimal, with a minus sign below 0.
pub fn put_value<S: Sink>(out: &mut S, value: ScalarValue) -> Result<(), DeviceFault>
    requires { (S.history out.old).failures < 2 ^ 64 - 1 }
    ensures { Writes (S.history out.old) (S.history out.new) result
        (value_text (kind_of_scalar value) (value_of_scalar value)) }
{
    match value {
        ScalarValue::Bool(true) => write_all(out, b"true"),
        ScalarValue::Bool(false) => write_all(out, b"false"),
        ScalarValue::U8(number) => put_number(out, u64::from(number)),
        ScalarValue::I32(number) => put_signed(out, i64::from(number)),
        ScalarValue::I64(number) => put_signed(out, number),
        ScalarValue::U64(number) => put_number(out, number),
    }
}

/// The most bytes of the text in front of a number that is written with it at once.
const LONGEST_PREFIX: usize = 3;

/// Where the digits of a number end in a line that is written at once: they are 20 at most.
const DIGITS_END: usize = LONGEST_PREFIX + 20;

/// Writes a number after a text, and the end of the line: at once if the text is short.
#[inline(always)]
pub fn put_number_line<S: Sink>(out: &mut S, prefix: &[u8], number: u64) -> Result<(), DeviceFault>
    requires { (S.history out.old).failures < 2 ^ 64 - 1 }
    ensures { Writes (S.history out.old) (S.history out.new) result (prefix.now ++ decimal number ++ 0x0A ∷ []) }
{
    if prefix.len() > LONGEST_PREFIX {
        return put_parts(
            out,
            &[prefix, Buffer::new().format(number).as_bytes(), b"\n"],
        );
    }
    let mut line = [b'\n'; DIGITS_END + 1];
    let digits = write_digits(number, &mut line, DIGITS_END);
    let start = digits - prefix.len();
    line[start..digits].copy_from_slice(prefix);
    write_all(out, &line[start..])
}

/// Writes a whole number that may be negative, and the end of the line.
fn put_signed_line<S: Sink>(out: &mut S, number: i64) -> Result<(), DeviceFault>
    requires { (S.history out.old).failures < 2 ^ 64 - 1 }
    ensures { Writes (S.history out.old) (S.history out.new) result (signed_decimal number ++ 0x0A ∷ []) }
{
    let sign: &[u8] = if number < 0 { b"-" } else { b"" };
    put_number_line(out, sign, number.unsigned_abs())
}

/// Writes a value and the end of the line.
pub fn put_value_line<S: Sink>(out: &mut S, value: ScalarValue) -> Result<(), DeviceFault>
    requires { (S.history out.old).failures < 2 ^ 64 - 1 }
    ensures { Writes (S.history out.old) (S.history out.new) result
        (value_text (kind_of_scalar value) (value_of_scalar value) ++ 0x0A ∷ []) }
{
    match value {
        ScalarValue::Bool(true) => write_all(out, b"true\n"),
        ScalarValue::Bool(false) => write_all(out, b"false\n"),
        ScalarValue::U8(number) => put_number_line(out, b"", u64::from(number)),
        ScalarValue::I32(number) => put_signed_line(out, i64::from(number)),
        ScalarValue::I64(number) => put_signed_line(out, number),
        ScalarValue::U64(number) => put_number_line(out, b"", number),
    }
}

/// Returns the hexadecimal digit of a number below 16, in lower case.
pub fn digit_text(digit: u8) -> u8
    requires { digit < 16 }
    ensures { result ≡ digit_text digit }
{
    if digit < 10 {
        b'0' + digit
    } else {
        b'a' + (digit - 10)
    }
}

/// Writes one byte of a text.
fn put_item<S: Sink>(out: &mut S, byte: u8) -> Result<(), DeviceFault>
    requires { (S.history out.old).failures < 2 ^ 64 - 1 }
    ensures { Writes (S.history out.old) (S.history out.new) result (item_text byte) }
{
    if byte == b'"' || byte == b'\\' {
        return write_all(out, &[b'\\', byte]);
    }
    if byte >= b' ' && byte <= b'~' {
        return write_all(out, &[byte]);
    }
    write_all(
        out,
        &[b'\\', b'x', digit_text(byte / 16), digit_text(byte % 16)],
    )
}

/// Writes the bytes of a text without its quotes.
fn put_items<S: Sink>(out: &mut S, text: &[u8]) -> Result<(), DeviceFault>
    requires { (S.history out.old).failures < 2 ^ 64 - 1 }
    ensures { Writes (S.history out.old) (S.history out.new) result (flat_map item_text text.now) }
{
    'items: for byte in text {
        put_item(out, *byte)?;
    }
    Ok(())
}

/// Writes a text in quotes.
pub fn put_text<S: Sink>(out: &mut S, text: &[u8]) -> Result<(), DeviceFault>
    requires { (S.history out.old).failures < 2 ^ 64 - 1 }
    ensures { Writes (S.history out.old) (S.history out.new) result (quoted_text text.now) }
{
    write_all(out, b"\"")?;
    put_items(out, text)?;
    write_all(out, b"\"")
}

/// Writes a name: bare if it can be spelled bare, otherwise as a text in quotes.
pub fn put_name<S: Sink>(out: &mut S, name: &[u8]) -> Result<(), DeviceFault>
    requires { (S.history out.old).failures < 2 ^ 64 - 1 }
    ensures { Writes (S.history out.old) (S.history out.new) result (name_text name.now) }
{
    if is_bare_name(name) {
        return write_all(out, name);
    }
    put_text(out, name)
}

/// Writes slices, one after another.
pub fn put_parts<S: Sink>(out: &mut S, parts: &[&[u8]]) -> Result<(), DeviceFault>
    requires { (S.history out.old).failures < 2 ^ 64 - 1 }
    ensures { Writes (S.history out.old) (S.history out.new) result (flat_map part_text parts.now) }
{
    'parts: for part in parts {
        write_all(out, part)?;
    }
    Ok(())
}

/// Writes a kind, without blanks.
pub fn put_kind<S: Sink>(out: &mut S, kind: Kind) -> Result<(), DeviceFault>
    requires { (S.history out.old).failures < 2 ^ 64 - 1 }
    ensures { Writes (S.history out.old) (S.history out.new) result (kind_text kind) }
{
    match kind {
        Kind::Scalar(kind) => write_all(out, kind.as_str().as_bytes()),
        Kind::String => write_all(out, b"string"),
        Kind::Vector(element) => put_parts(out, &[b"vec<", element.as_str().as_bytes(), b">"]),
        Kind::Map(key, value) => put_parts(
            out,
            &[
                b"map<",
                key.as_str().as_bytes(),
                b",",
                value.as_str().as_bytes(),
                b">",
            ],
        ),
        Kind::Strings => write_all(out, b"vec<string>"),
    }
}
