//! Texts in JSON.
ghost use Rattle.std.specs.Prelude.{◌≡◌, ◌-◌, ◌^◌, ◌<◌, ◌∷◌, [], flat_map, length};
ghost use Rattle.raw_region.specs.Device.{Writes};
ghost use Rattle.segment_dump.specs.Json.{base64_letter, base64_text, json_bytes, json_coded, json_string, string_byte};

use raw_region::{DeviceFault, Sink, write_all};
use segment_lang::digit_text;
use std::str;

/// Writes a text: a string if it is UTF-8, and otherwise an object with its base64.
pub fn put_bytes<W: Sink>(text: &[u8], out: &mut W) -> Result<(), DeviceFault>
    requires { (W.history out.old).failures < 2 ^ 64 - 1 }
    ensures { Writes (W.history out.old) (W.history out.new) result (json_bytes text.now) }
{
    match str::from_utf8(text) {
        Ok(_) => put_string(text, out),
        Err(_) => put_coded(text, out),
    }
}

/// Writes an object with the base64 of bytes.
fn put_coded<W: Sink>(bytes: &[u8], out: &mut W) -> Result<(), DeviceFault>
    requires { (W.history out.old).failures < 2 ^ 64 - 1 }
    ensures { Writes (W.history out.old) (W.history out.new) result (json_coded bytes.now) }
{
    write_all(out, b"{\"base64\":\"")?;
    put_base64(bytes, out)?;
    write_all(out, b"\"}")
}

/// Writes a string.
pub fn put_string<W: Sink>(text: &[u8], out: &mut W) -> Result<(), DeviceFault>
    requires { (W.history out.old).failures < 2 ^ 64 - 1 }
    ensures { Writes (W.history out.old) (W.history out.new) result (json_string text.now) }
{
    write_all(out, b"\"")?;
    put_string_bytes(text, out)?;
    write_all(out, b"\"")
}

/// Writes the bytes of a string without its quotes.
fn put_string_bytes<W: Sink>(text: &[u8], out: &mut W) -> Result<(), DeviceFault>
    requires { (W.history out.old).failures < 2 ^ 64 - 1 }
    ensures { Writes (W.history out.old) (W.history out.new) result (flat_map string_byte text.now) }
{
    'bytes: for byte in text {
        put_string_byte(*byte, out)?;
    }
    Ok(())
}

/// Writes one byte of a string.
fn put_string_byte<W: Sink>(byte: u8, out: &mut W) -> Result<(), DeviceFault>
    requires { (W.history out.old).failures < 2 ^ 64 - 1 }
    ensures { Writes (W.history out.old) (W.history out.new) result (string_byte byte) }
{
    if byte == b'"' || byte == b'\\' {
        return write_all(out, &[b'\\', byte]);
    }
    if byte < b' ' {
        return write_all(
            out,
            &[
                b'\\',
                b'u',
                b'0',
                b'0',
                digit_text(byte / 16),
                digit_text(byte % 16),
            ],
        );
    }
    write_all(out, &[byte])
}

/// Writes bytes as base64.
fn put_base64<W: Sink>(bytes: &[u8], out: &mut W) -> Result<(), DeviceFault>
    requires { (W.history out.old).failures < 2 ^ 64 - 1 }
    ensures { Writes (W.history out.old) (W.history out.new) result (base64_text bytes.now) }
{
    let mut rest = bytes;
    'groups: while let [a, b, c, behind @ ..] = rest {
        put_group(*a, *b, *c, out)?;
        rest = behind;
    }
    put_last(rest, out)
}

/// Writes three bytes as base64.
fn put_group<W: Sink>(a: u8, b: u8, c: u8, out: &mut W) -> Result<(), DeviceFault>
    requires { (W.history out.old).failures < 2 ^ 64 - 1 }
    ensures { Writes (W.history out.old) (W.history out.new) result (base64_text (a ∷ b ∷ c ∷ [])) }
{
    let letters = [
        base64_letter(a / 4),
        base64_letter(a % 4 * 16 + b / 16),
        base64_letter(b % 16 * 4 + c / 64),
        base64_letter(c % 64),
    ];
    write_all(out, &letters)
}

/// Writes the last bytes as base64, which are fewer than three.
fn put_last<W: Sink>(bytes: &[u8], out: &mut W) -> Result<(), DeviceFault>
    requires writer { (W.history out.old).failures < 2 ^ 64 - 1 }
    requires max_count { length bytes.now < 3 }
    ensures { Writes (W.history out.old) (W.history out.new) result (base64_text bytes.now) }
{
    match bytes {
        [a, b] => {
            let letters = [
                base64_letter(a / 4),
                base64_letter(a % 4 * 16 + b / 16),
                base64_letter(b % 16 * 4),
                b'=',
            ];
            write_all(out, &letters)
        }
        [a] => write_all(
            out,
            &[base64_letter(a / 4), base64_letter(a % 4 * 16), b'=', b'='],
        ),
        _ => Ok(()),
    }
}

/// Returns the letter of six bits in base64.
fn base64_letter(bits: u8) -> u8
    requires { bits < 64 }
    ensures { result ≡ base64_letter bits }
{
    if bits < 26 {
        return b'A' + bits;
    }
    if bits < 52 {
        return b'a' + (bits - 26);
    }
    if bits < 62 {
        return b'0' + (bits - 52);
    }
    if bits == 62 { b'+' } else { b'/' }
}
