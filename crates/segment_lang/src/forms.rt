//! Command words, each with the form of its arguments.

ghost use Rattle.std.specs.Prelude.{◌≡◌, ◌<◌, [], IsTrue, Some, None, if◌then◌else◌, length, option_and_then};
ghost use Rattle.std.specs.Prelude.{is_some, option_map, map, slice_index_or};
ghost use Rattle.std.specs.List.{list_all};
ghost use Rattle.raw_region.specs.Format.{current};
ghost use Rattle.segment_lang.specs.Lexing.{is_token, tokens};
ghost use Rattle.seg_types.specs.Commands as asked;
ghost use Rattle.segment_lang.specs.Arguments.{command_of_three, command_of_two};
ghost use Rattle.segment_lang.specs.Language.{whole_language};
ghost use Rattle.segment_lang.specs.Reading.{form_of, with_key_literal, with_key_number, with_key_number_literal};
ghost use Rattle.segment_lang.specs.Seen.{operation_of, operation_reader_of, found_in, slot_of, reader_of, with_rest};
ghost use Rattle.segment_lang.specs.Tokens.{behind_token, is_unbroken, up_to_blank};

use crate::blanks::at_end;
use crate::buffer::LineBuffer;
use crate::commands::Operation;
use crate::readers::{
    key_and_literal, key_and_number, key_and_pair, key_number_literal, only_key, only_number,
    read_alone, read_append, read_assign, read_construct, read_construct_it, read_destroy,
    read_destroy_ptr, read_find, read_find_or_construct,
};
use crate::tokens::ends_token;

/// The form of a command's arguments.
#[derive(Clone, Copy, Debug, PartialEq, Eq)]
pub enum CommandForm {
    /// Nothing: the word alone is the command.
    Size,
    /// A key and a number.
    Get,
    /// A key and a value.
    Push,
    /// A key and two values.
    Put,
    /// A key.
    Pop,
    /// The form of an operation.
    Operation(OperationForm),
}

/// The form of an operation's arguments.
#[derive(Clone, Copy, Debug, PartialEq, Eq)]
pub enum OperationForm {
    /// A kind with a count, a key and the initial contents: one value, any number of values, or none.
    Construct,
    /// A kind with a count, a key and as many values.
    ConstructIt,
    /// A kind and an entry of an index.
    Find,
    /// A kind with a count, an entry of an index and the initial contents.
    FindOrConstruct,
    /// An entry of an index.
    Destroy,
    /// A handle.
    DestroyPtr,
    /// A key.
    Show,
    /// A key.
    Info,
    /// A key, a number and a value.
    Set,
    /// A key, a number and a value.
    Insert,
    /// A key and a number.
    Erase,
    /// A key and a number.
    Reserve,
    /// A key.
    Shrink,
    /// A key.
    Clear,
    /// A key and any number of values.
    Assign,
    /// A key and a text.
    Append,
    /// A key and a value.
    Lookup,
    /// A key and a value.
    Remove,
    /// Nothing: the word alone is the command.
    ListNames,
    /// Nothing: the word alone is the command.
    ListKinds,
    /// Nothing: the word alone is the command.
    Blocks,
    /// Nothing: the word alone is the command.
    Free,
    /// Nothing: the word alone is the command.
    NumNamed,
    /// Nothing: the word alone is the command.
    NumUnique,
    /// A number.
    ReserveNamed,
    /// A number.
    ReserveUnique,
    /// Nothing: the word alone is the command.
    ShrinkIndexes,
    /// Nothing: the word alone is the command.
    ZeroFree,
    /// Nothing: the word alone is the command.
    Sanity,
    /// Nothing: the word alone is the command.
    AllDeallocated,
}

/// The form of an operation.
macro_rules! operation {
    ($form:ident) => {
        CommandForm::Operation(OperationForm::$form)
    };
}

/// The command words, each with its form, by the place that `slot_of` gives them.
static FORMS: [&[(&[u8], CommandForm)]; 32] = [
    &[(b"remove", operation!(Remove))],
    &[
        (b"clear", operation!(Clear)),
        (b"append", operation!(Append)),
    ],
    &[(b"push", CommandForm::Push)],
    &[],
    &[
        (b"reserve", operation!(Reserve)),
        (b"free", operation!(Free)),
        (b"reserve_named", operation!(ReserveNamed)),
        (b"reserve_unique", operation!(ReserveUnique)),
    ],
    &[],
    &[
        (b"lookup", operation!(Lookup)),
        (b"zero_free", operation!(ZeroFree)),
    ],
    &[(b"sanity", operation!(Sanity))],
    &[(b"put", CommandForm::Put)],
    &[(b"all_deallocated", operation!(AllDeallocated))],
    &[],
    &[
        (b"set", operation!(Set)),
        (b"erase", operation!(Erase)),
        (b"unique", operation!(ListKinds)),
    ],
    &[],
    &[(b"show", operation!(Show)), (b"info", operation!(Info))],
    &[],
    &[(b"size", CommandForm::Size)],
    &[(b"pop", CommandForm::Pop)],
    &[],
    &[],
    &[(b"assign", operation!(Assign))],
    &[],
    &[],
    &[
        (b"destroy", operation!(Destroy)),
        (b"destroy_ptr", operation!(DestroyPtr)),
    ],
    &[
        (b"construct", operation!(Construct)),
        (b"construct_it", operation!(ConstructIt)),
    ],
    &[],
    &[],
    &[
        (b"find", operation!(Find)),
        (b"find_or_construct", operation!(FindOrConstruct)),
    ],
    &[(b"insert", operation!(Insert))],
    &[
        (b"blocks", operation!(Blocks)),
        (b"num_named", operation!(NumNamed)),
        (b"num_unique", operation!(NumUnique)),
    ],
    &[],
    &[(b"list", operation!(ListNames))],
    &[
        (b"get", CommandForm::Get),
        (b"shrink", operation!(Shrink)),
        (b"shrink_indexes", operation!(ShrinkIndexes)),
    ],
];

/// Returns the rest of a line that begins with the word, if the word ends there.
fn behind<'a>(line: &'a [u8], token: &[u8]) -> Option<&'a [u8]>
    requires { IsTrue (is_unbroken token.now) }
    ensures { option_map (λ rest. rest.now) result
        ≡ (if is_token (up_to_blank line.now) token.now then Some (behind_token line.now) else None) }
{
    let rest = line.strip_prefix(token)?;
    if !ends_token(rest) {
        return None;
    }
    Some(rest)
}

/// Returns the form of the first row whose word is the first word of the line, and the rest of the line.
fn find_row<'a>(rows: &[(&[u8], CommandForm)], line: &'a [u8]) -> Option<(CommandForm, &'a [u8])>
    requires { IsTrue (list_all (λ row. is_unbroken row.0.now) rows.now) }
    ensures { option_map (λ x. (x.0, x.1.now)) result
        ≡ with_rest line.now (found_in (map (λ row. (row.0.now, row.1)) rows.now) (up_to_blank line.now)) }
{
    let mut rest = rows;
    'rows: while let [row, tail @ ..] = rest {
        if let Some(behind) = behind(line, row.0) {
            return Some((row.1, behind));
        }
        rest = tail;
    }
    None
}

/// Returns the place in the table of the word that a line begins with: few command words share one.
fn slot_of(line: &[u8]) -> usize
    ensures value { result ≡ slot_of line.now }
    ensures max_size { result < 32 }
{
    match line {
        [first, _, third, ..] => (usize::from(*first) + 6 * usize::from(*third)) % 32,
        _ => 0,
    }
}

/// Returns the form of the line's first word, and the rest of the line. It looks at the rows of the word's place in the
/// table.
fn find_form<'a>(
    table: &[&[(&[u8], CommandForm)]],
    line: &'a [u8],
) -> Option<(CommandForm, &'a [u8])>
    requires size { length table.now ≡ 32 }
    requires unbroken { IsTrue (list_all (λ rows. list_all (λ row. is_unbroken row.0.now) rows.now) table.now) }
    ensures { option_map (λ x. (x.0, x.1.now)) result
        ≡ with_rest line.now (found_in
        (slice_index_or (map (λ rows. map (λ row. (row.0.now, row.1)) rows.now) table.now) (slot_of line.now) [])
        (up_to_blank line.now)) }
{
    find_row(table[slot_of(line)], line)
}

/// Returns the form of the line's command word, and the arguments; `None` if the first word is no command word. Only
/// rows at the word's place in the table are compared with it, so the end of the word is not searched before.
pub fn split_form(line: &[u8]) -> Option<(CommandForm, &[u8])>
    ensures { option_map (λ x. (reader_of x.0, x.1.now)) result
        ≡ with_rest line.now (option_map (λ form. form.1) (form_of (up_to_blank line.now))) }
{
    find_form(&FORMS, line)
}

/// Reads the arguments of the command word set.
#[inline(never)]
fn read_set<'a>(bytes: &'a [u8], scratch: &'a mut LineBuffer) -> Option<Operation<'a>>
    ensures { option_map operation_of result ≡ command_of_three (with_key_number_literal asked.Set) bytes.now }
{
    let (key, index, value) = key_number_literal(bytes, scratch)?;
    Some(Operation::Set(key, index, value))
}

/// Reads the arguments of the command word insert.
#[inline(never)]
fn read_insert<'a>(bytes: &'a [u8], scratch: &'a mut LineBuffer) -> Option<Operation<'a>>
    ensures { option_map operation_of result ≡ command_of_three (with_key_number_literal asked.Insert) bytes.now }
{
    let (key, index, value) = key_number_literal(bytes, scratch)?;
    Some(Operation::Insert(key, index, value))
}

/// Reads the arguments of the command word erase.
#[inline(never)]
fn read_erase<'a>(bytes: &'a [u8], scratch: &'a mut LineBuffer) -> Option<Operation<'a>>
    ensures { option_map operation_of result ≡ command_of_two (with_key_number asked.Erase) bytes.now }
{
    let (key, index) = key_and_number(bytes, scratch)?;
    Some(Operation::Erase(key, index))
}

/// Reads the arguments of the command word reserve.
#[inline(never)]
fn read_reserve<'a>(bytes: &'a [u8], scratch: &'a mut LineBuffer) -> Option<Operation<'a>>
    ensures { option_map operation_of result ≡ command_of_two (with_key_number asked.Reserve) bytes.now }
{
    let (key, count) = key_and_number(bytes, scratch)?;
    Some(Operation::Reserve(key, count))
}

/// Reads the arguments of the command word lookup.
#[inline(never)]
fn read_lookup<'a>(bytes: &'a [u8], scratch: &'a mut LineBuffer) -> Option<Operation<'a>>
    ensures { option_map operation_of result ≡ command_of_two (with_key_literal asked.Lookup) bytes.now }
{
    let (key, at) = key_and_literal(bytes, scratch)?;
    Some(Operation::Lookup(key, at))
}

/// Reads the arguments of the command word remove.
#[inline(never)]
fn read_remove<'a>(bytes: &'a [u8], scratch: &'a mut LineBuffer) -> Option<Operation<'a>>
    ensures { option_map operation_of result ≡ command_of_two (with_key_literal asked.Remove) bytes.now }
{
    let (key, at) = key_and_literal(bytes, scratch)?;
    Some(Operation::Remove(key, at))
}

/// Reads the arguments of a command word of this form.
pub fn read_operation<'a>(
    form: OperationForm,
    bytes: &'a [u8],
    scratch: &'a mut LineBuffer,
) -> Option<Operation<'a>>
    ensures { option_map operation_of result
        ≡ option_and_then (operation_reader_of form (whole_language current)) (tokens bytes.now) }
{
    match form {
        OperationForm::Construct => read_construct(bytes, scratch),
        OperationForm::ConstructIt => read_construct_it(bytes, scratch),
        OperationForm::Find => read_find(bytes, scratch),
        OperationForm::FindOrConstruct => read_find_or_construct(bytes, scratch),
        OperationForm::Destroy => read_destroy(bytes, scratch),
        OperationForm::DestroyPtr => read_destroy_ptr(bytes),
        OperationForm::Show => only_key(bytes, scratch).map(Operation::Show),
        OperationForm::Info => only_key(bytes, scratch).map(Operation::Info),
        OperationForm::Set => read_set(bytes, scratch),
        OperationForm::Insert => read_insert(bytes, scratch),
        OperationForm::Erase => read_erase(bytes, scratch),
        OperationForm::Reserve => read_reserve(bytes, scratch),
        OperationForm::Shrink => only_key(bytes, scratch).map(Operation::Shrink),
        OperationForm::Clear => only_key(bytes, scratch).map(Operation::Clear),
        OperationForm::Assign => read_assign(bytes, scratch),
        OperationForm::Append => read_append(bytes, scratch),
        OperationForm::Lookup => read_lookup(bytes, scratch),
        OperationForm::Remove => read_remove(bytes, scratch),
        OperationForm::ListNames => read_alone(Operation::ListNames, bytes),
        OperationForm::ListKinds => read_alone(Operation::ListKinds, bytes),
        OperationForm::Blocks => read_alone(Operation::Blocks, bytes),
        OperationForm::Free => read_alone(Operation::Free, bytes),
        OperationForm::NumNamed => read_alone(Operation::NumNamed, bytes),
        OperationForm::NumUnique => read_alone(Operation::NumUnique, bytes),
        OperationForm::ReserveNamed => Some(Operation::ReserveNamed(only_number(bytes)?)),
        OperationForm::ReserveUnique => Some(Operation::ReserveUnique(only_number(bytes)?)),
        OperationForm::ShrinkIndexes => read_alone(Operation::ShrinkIndexes, bytes),
        OperationForm::ZeroFree => read_alone(Operation::ZeroFree, bytes),
        OperationForm::Sanity => read_alone(Operation::Sanity, bytes),
        OperationForm::AllDeallocated => read_alone(Operation::AllDeallocated, bytes),
    }
}

/// Returns true if the arguments have the form.
pub fn is_command(form: CommandForm, bytes: &[u8], scratch: &mut LineBuffer) -> bool
    ensures { result ≡ is_some (option_and_then (reader_of form (whole_language current)) (tokens bytes.now)) }
{
    match form {
        CommandForm::Size => at_end(bytes),
        CommandForm::Get => key_and_number(bytes, scratch).is_some(),
        CommandForm::Push => key_and_literal(bytes, scratch).is_some(),
        CommandForm::Put => key_and_pair(bytes, scratch).is_some(),
        CommandForm::Pop => only_key(bytes, scratch).is_some(),
        CommandForm::Operation(form) => read_operation(form, bytes, scratch).is_some(),
    }
}
