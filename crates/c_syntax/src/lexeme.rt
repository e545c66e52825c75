//! What the bytes of a token are to the grammar.

ghost use Rattle.std.specs.Prelude.{◌≡◌, ◌≤◌, map};
ghost use Rattle.c_tokens.specs.language.Words.{decimal_value, greatest};
ghost use Rattle.c_syntax.specs.workings.Lexemes.{row_view, rows_of_len};
ghost use Rattle.c_syntax.specs.language.Words.{look_up, name_term, other_name, symbol_term, term_of};

use crate::term::Term;
use crate::word_table::{
    NAMES_OF_2, NAMES_OF_3, NAMES_OF_4, NAMES_OF_5, NAMES_OF_6, NAMES_OF_7, NAMES_OF_8, NAMES_OF_9,
    NAMES_OF_10, NAMES_OF_11, NAMES_OF_12, NAMES_OF_13, NAMES_OF_14, NAMES_OF_16, NAMES_OF_18,
    NAMES_OF_19, SYMBOLS,
};
use c_tokens::TokenKind;

/// What a token of some bytes is to the grammar.
pub fn term_of(kind: TokenKind, bytes: &[u8]) -> Term
    ensures { result ≡ term_of kind bytes.now }
{
    match kind {
        TokenKind::Name => name_term(bytes),
        TokenKind::Number => Term::Number,
        TokenKind::Text => Term::Text,
        TokenKind::Symbol => symbol_term(bytes),
        TokenKind::Include => Term::Include,
        TokenKind::Pragma => Term::Pragma,
        TokenKind::OtherHash => Term::OddLine,
        TokenKind::PragmaEnd => Term::PragmaEnd,
        TokenKind::End => Term::End,
    }
}

/// What a symbol is to the grammar.
fn symbol_term(bytes: &[u8]) -> Term
    ensures { result ≡ symbol_term bytes.now }
{
    look_up(SYMBOLS, bytes, Term::OddSymbol)
}

/// What a name is to the grammar.
fn name_term(bytes: &[u8]) -> Term
    ensures { result ≡ name_term bytes.now }
{
    look_up(names_of_len(bytes.len()), bytes, other_name(bytes))
}

/// What a table has at some bytes, or else this.
fn look_up(rows: &[(&str, Term)], bytes: &[u8], other: Term) -> Term
    ensures { result ≡ look_up (map row_view rows.now) bytes.now other }
{
    for (word, term) in rows {
        if word.as_bytes() == bytes {
            return *term;
        }
    }
    other
}

/// The names of this length that the grammar has a use for.
fn names_of_len(len: usize) -> &'static [(&'static str, Term)]
    ensures { map row_view result.now ≡ rows_of_len len }
{
    match len {
        2 => NAMES_OF_2,
        3 => NAMES_OF_3,
        4 => NAMES_OF_4,
        5 => NAMES_OF_5,
        6 => NAMES_OF_6,
        7 => NAMES_OF_7,
        8 => NAMES_OF_8,
        9 => NAMES_OF_9,
        10 => NAMES_OF_10,
        11 => NAMES_OF_11,
        12 => NAMES_OF_12,
        13 => NAMES_OF_13,
        14 => NAMES_OF_14,
        16 => NAMES_OF_16,
        18 => NAMES_OF_18,
        19 => NAMES_OF_19,
        _ => &[],
    }
}

/// Any other name. One that begins with `omp_` is out of the language.
fn other_name(bytes: &[u8]) -> Term
    ensures { result ≡ other_name bytes.now }
{
    if bytes.starts_with(b"omp_") {
        Term::OddName
    } else {
        Term::Name
    }
}

/// The number that digits write.
pub fn decimal_value(digits: &[u8]) -> u32
    requires { decimal_value digits.now ≤ greatest }
    ensures { result ≡ decimal_value digits.now }
{
    let mut value = 0;
    for digit in digits {
        value = 10 * value + u32::from(digit.saturating_sub(b'0'));
    }
    value
}
