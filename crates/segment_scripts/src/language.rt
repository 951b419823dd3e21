//! The commands of a script in short.
ghost use Rattle.std.specs.Prelude.{◌≡◌, ◌-◌, ◌^◌, ◌<◌, flat_map, map};
ghost use Rattle.raw_region.specs.Device.{Writes};
ghost use Rattle.segment_lang.specs.Reading.{forms};
ghost use Rattle.segment_scripts.specs.CommandRows.{form_read, form_rows, form_usage, row_text};

use raw_region::{DeviceFault, Sink};
use segment_lang::{Piece, put_pieces};

/// A command of a script, as the table of section 4 of docs/LANGUAGE.md has it, without its refusals.
#[derive(Clone, Copy, Debug)]
pub struct CommandRow {
    /// Its first word.
    pub token: &'static str,
    /// The words that it has.
    pub usage: &'static str,
    /// The form of its answer.
    pub answer: &'static str,
    /// A sentence about its effect.
    pub does: &'static str,
}

/// Writes each command with its arguments and its answer, and its effect in the next line.
pub fn put_language<W: Sink>(out: &mut W, rows: &[CommandRow]) -> Result<(), DeviceFault>
    requires { (W.history out.old).failures < 2 ^ 64 - 1 }
    ensures { Writes (W.history out.old) (W.history out.new) result (flat_map row_text rows.now) }
{
    'rows: for row in rows {
        put_row(out, row)?;
    }
    Ok(())
}

/// Writes a command in two lines.
fn put_row<W: Sink>(out: &mut W, row: &CommandRow) -> Result<(), DeviceFault>
    requires { (W.history out.old).failures < 2 ^ 64 - 1 }
    ensures { Writes (W.history out.old) (W.history out.new) result (row_text row.now) }
{
    put_pieces(
        out,
        &[
            Piece::Bytes(row.usage.as_bytes()),
            Piece::Bytes(b" -> "),
            Piece::Bytes(row.answer.as_bytes()),
            Piece::Bytes(b"\n    "),
            Piece::Bytes(row.does.as_bytes()),
            Piece::Bytes(b"\n"),
        ],
    )
}

/// Returns the commands of the language in the order of the table: each command word with its arguments.
pub fn command_rows() -> &'static [CommandRow]
    ensures tokens { map (λ row. row.token.now) result.now ≡ map (λ form. form.0) forms }
    ensures usages { map (λ row. row.usage.now) result.now ≡ map form_usage form_rows }
    ensures meaning { map form_read form_rows ≡ forms }
{
    &LANGUAGE
}

/// The rows of a table: word, usage, answer and effect of each command.
macro_rules! rows {
    ($($token:literal, $usage:literal, $answer:literal, $does:literal;)*) => {
        [$(CommandRow { token: $token, usage: $usage, answer: $answer, does: $does }),*]
    };
}

const LANGUAGE: [CommandRow; 35] = rows! {
    "construct", "construct KIND[k] NEWKEY ARGS", "#H", "makes an object";
    "construct_it", "construct_it KIND[k] NEWKEY V1 .. Vk", "#H",
        "makes an array of exactly these k values; scalar kinds only";
    "find", "find KIND NAMEKEY", "#H COUNT or none", "looks up; error 7 for an object of another kind";
    "find_or_construct", "find_or_construct KIND[k] NAMEKEY ARGS", "#H COUNT",
        "gives the object of that kind unchanged, whatever k and ARGS; where there is none makes it";
    "destroy", "destroy NAMEKEY", "true or false", "false: there was none";
    "destroy_ptr", "destroy_ptr #n", "true", "destroys an object of any class";
    "show", "show KEY", "kind and value", "of the whole object (LANGUAGE.md section 9)";
    "info", "info KEY", "class, name, kind, count, handle, measures", "all but the value (LANGUAGE.md section 9)";
    "get", "get KEY I", "element", "of a scalar object or vector; a byte of a string";
    "set", "set KEY I V", "ok", "of the same; error 9 only for vec<string>";
    "push", "push KEY V", "ok", "vector: adds at the end";
    "pop", "pop KEY", "element", "vector: takes the last; of an empty one error 8";
    "insert", "insert KEY I V", "ok", "vector: puts V before place I; I may be the length";
    "erase", "erase KEY I", "ok", "vector: takes out element I";
    "reserve", "reserve KEY N", "ok", "vector, string: capacity at least N";
    "shrink", "shrink KEY", "ok", "vector, string: capacity to the length";
    "clear", "clear KEY", "ok", "vector, string: length 0, capacity and storage stay";
    "assign", "assign KEY V ..", "ok", "vector: these elements, perhaps none; string: one TEXT";
    "append", "append KEY TEXT", "ok", "string: adds at the end";
    "put", "put KEY K V", "true or false", "map: true for a new key, false where a value was replaced";
    "lookup", "lookup KEY K", "value or none", "map: the value of a key";
    "remove", "remove KEY K", "true or false", "map: whether the key was there";
    "list", "list", "lines NAME KIND COUNT #H, then end", "named objects, rising by name bytes";
    "unique", "unique", "lines KIND COUNT #H, then end", "unique objects, rising by kind code";
    "blocks", "blocks", "lines OFFSET LENGTH WORD, then end",
        "tiles by offset; WORD is object, index, storage, node or free";
    "size", "size", "number", "bytes of the segment";
    "free", "free", "number", "sum of the whole lengths of the free blocks";
    "num_named", "num_named", "number", "entries of the index";
    "num_unique", "num_unique", "number", "entries of the index";
    "reserve_named", "reserve_named N", "ok", "index capacity at least N";
    "reserve_unique", "reserve_unique N", "ok", "index capacity at least N";
    "shrink_indexes", "shrink_indexes", "ok", "each index capacity to its count, named first";
    "zero_free", "zero_free", "ok", "clears the free bytes (FORMAT.md section 13)";
    "sanity", "sanity", "true", "whether the segment is sound; it always is";
    "all_deallocated", "all_deallocated", "true or false", "whether no block is in use, index blocks included";
};
