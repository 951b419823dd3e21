//! The command language: the commands of a script, and the text of each part of an answer.
#![tactic(auto)]

// The words of a line, and their values.
mod blanks;
mod buffer;
mod literals;
mod numbers;
mod tokens;

// The arguments of a command.
mod contents;
mod keys;
mod kinds;
mod lists;
mod values;

// Commands.
mod commands;
mod forms;
mod line;
mod readers;

// Answers.
mod errors;
mod pieces;
mod texts;

// Laws of the definitions.
mod theorems;

pub use blanks::at_end;
pub use buffer::{Buffer, LineBuffer};
pub use commands::{Content, LineStart, Operation, Reading};
pub use errors::{put_line_error, put_refusal};
pub use forms::{CommandForm, OperationForm, read_operation};
pub use kinds::kind_of_token;
pub use line::{MAX_LINE_LEN, line_error, line_start, parse_line, without_return};
pub use lists::{Literals, TextLiterals};
pub use literals::{Literal, literal_of, scalar_of};
pub use numbers::{WholeNumber, number_of, whole_of};
pub use pieces::{Piece, put_pieces};
pub use readers::{key_and_literal, key_and_number, key_and_pair, only_key};
pub use seg_types::LineError;
pub use texts::{
    digit_text, put_kind, put_name, put_number, put_number_line, put_text, put_value,
    put_value_line,
};
pub use theorems::{
    long_lines_are_cut, numbers_are_decimals, printed_kinds_are_read, printed_names_are_read,
    printed_texts_are_read, texts_are_spelled, tokens_fit_line, tokens_follow, wholes_are_decimals,
};
pub use tokens::{Quoted, Token, next_token, only_token};
pub use values::LiteralValues;
