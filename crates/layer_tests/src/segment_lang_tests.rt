//! Words, what they spell, and whole lines. Scripts are run by the rows of `crates/rows/data`.
use crate::checks::{holds, same};
use seg_types::Key;
use segment_lang::{
    CommandForm, LineBuffer, LineError, Literal, Operation, OperationForm, Reading, Token,
    next_token, number_of, only_token, parse_line, whole_of,
};
use std::mem::size_of;
use std::process::Abort;

// An operation is moved as it is, so it is small.
const _: () = prove!(size_of::<Key<'static>>() <= 24);

const _: () = prove!(size_of::<Literal<'static>>() <= 24);

const _: () = prove!(size_of::<Operation<'static>>() <= 64);

/// Returns the whole number that a word spells.
fn whole(token: &[u8]) -> Option<i128> {
    Some(whole_of(token)?.get())
}

/// Words, the numbers and the whole numbers that they spell.
const SPELLINGS: [(&[u8], Option<u64>, Option<i128>); 8] = [
    (b"10", Some(10), Some(10)),
    (
        b"18446744073709551615",
        Some(18446744073709551615),
        Some(18446744073709551615),
    ),
    (b"18446744073709551616", None, None),
    (b"-9223372036854775808", None, Some(-9223372036854775808)),
    (b"-9223372036854775809", None, None),
    (b"-0", None, None),
    (b"01", None, None),
    (b"", None, None),
];

#[test]
fn numbers_have_one_spelling(rt: HostRuntime) {
    for (token, number, wanted) in SPELLINGS {
        same(&rt, number_of(token), number);
        same(&rt, whole(token), wanted);
    }
}

/// Returns the first word of a line, and what stands after it.
fn first_token<'a>(rt: &impl Abort, line: &'a [u8]) -> (Token<'a>, &'a [u8]) {
    let Some(parts) = next_token(line) else {
        panic!(rt; "no word");
    };
    parts
}

/// Tells whether a word has these bytes, and is bare.
fn is_bare(token: Token<'_>, bytes: &[u8]) -> bool {
    match token {
        Token::Bare(bare) => bare == bytes,
        Token::Text(_) => false,
    }
}

#[test]
fn tokens_come_one_after_another(rt: HostRuntime) {
    let (token, rest) = first_token(&rt, b" ab\t-7 \"true\"");
    holds(&rt, is_bare(token, b"ab"));
    let (token, rest) = first_token(&rt, rest);
    holds(&rt, is_bare(token, b"-7"));
    holds(&rt, matches!(only_token(rest), Some(Token::Text(_))));
}

#[test]
fn a_text_grows(rt: HostRuntime) {
    let mut text = LineBuffer::new();
    holds(&rt, text.is_empty());
    text.push(b'x');
    text.extend(b"yz");
    same(&rt, text.len(), 3);
    text.clear();
    holds(&rt, text.as_slice().is_empty());
}

#[test]
fn a_line_has_one_reading(rt: HostRuntime) {
    holds(&rt, matches!(parse_line(b"# note"), Reading::Nothing));
    holds(&rt, matches!(parse_line(b" \t\r"), Reading::Nothing));
    holds(
        &rt,
        matches!(
            parse_line(b"show \"\\x61\"\r"),
            Reading::Command(CommandForm::Operation(OperationForm::Show), _)
        ),
    );
    holds(
        &rt,
        matches!(parse_line(b"size"), Reading::Command(CommandForm::Size, _)),
    );
    holds(
        &rt,
        matches!(
            parse_line(b"frobnicate"),
            Reading::Wrong(LineError::UnknownCommand)
        ),
    );
    holds(
        &rt,
        matches!(parse_line(b"size 1"), Reading::Wrong(LineError::BadSyntax)),
    );
    holds(
        &rt,
        matches!(
            parse_line(&[b'a'; 4097]),
            Reading::Wrong(LineError::LineTooLong)
        ),
    );
}
