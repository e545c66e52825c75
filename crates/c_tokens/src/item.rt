//! What stands at the front of the rest of a text.

ghost use Rattle.std.specs.Prelude.{◌≡◌, ◌==◌, ◌≤◌, ◌<◌, ◌+◌, true, length};
ghost use Rattle.c_tokens.specs.workings.Items.{continued_item, hash_item, include_item, item_of, newline_item, number_item, slash_item, symbol_item, text_item};
ghost use Rattle.c_tokens.specs.language.Bytes.{begins, is_digit};
ghost use Rattle.c_tokens.specs.workings.Lines.{include_len};
ghost use Rattle.c_tokens.specs.language.Quoted.{quoted_end};
ghost use Rattle.c_tokens.specs.language.Symbols.{symbol_len};
ghost use Rattle.c_tokens.specs.language.Blanks.{line_end_len};
ghost use Rattle.c_tokens.specs.workings.Tails.{AreTails};
ghost use Rattle.c_tokens.specs.workings.Tokens.{Fits, item_len};

use crate::blanks::{comment_rest, line_end_len, line_rest};
use crate::bytes::Class;
use crate::hash_line::{include_len, pragma_len};
use crate::place::Line;
use crate::quoted::quoted_end;
use crate::symbol::symbol_len;
use crate::token::TokenKind;
use crate::word::{digits_len, has_number};

/// What stands at the front of the rest of a text.
#[derive(Clone, Copy)]
pub(crate) enum Item {
    /// A blank or a comment of so many bytes.
    Blank(usize),
    /// A token of this kind, of so many bytes.
    Token(TokenKind, usize),
    /// The newline that ends the line of a directive.
    DirectiveEnd,
    /// A fault, so many bytes further on.
    Fault(Flaw, usize),
}

/// Why no item stands at a place.
#[derive(Clone, Copy)]
pub(crate) enum Flaw {
    /// A byte that begins no token, or may not stand in one.
    BadByte,
    /// A comment without end.
    OpenComment,
    /// Digits that are no number.
    BadNumber,
}

impl Item {
    /// How many bytes it has; 1 for a fault.
    pub fn len(self) -> usize
        ensures { result ≡ item_len self }
    {
        match self {
            Item::Blank(count) | Item::Token(_, count) => count,
            Item::DirectiveEnd | Item::Fault(..) => 1,
        }
    }
}

/// What stands at the front of bytes that aren't empty, where so much was read of their line. `tails` are those of the bytes.
pub(crate) fn item_at(line: Line, bytes: &[u8], tails: &[Option<u32>]) -> Item
    requires some { 0 < length bytes.now }
    requires short { length bytes.now ≤ 65536 }
    requires tails { AreTails bytes.now tails.now }
    ensures item { result ≡ item_of line bytes.now }
    ensures fits { Fits result (length bytes.now) }
{
    match bytes[0] {
        b'\n' => newline_item(line),
        b' ' | b'\t' | b'\r' => Item::Blank(1),
        b'\\' => continued_item(&bytes[1..]),
        b'/' => slash_item(bytes),
        b'"' => text_item(bytes),
        b'#' => hash_item(line, bytes, tails),
        byte if Class::Letter.has(byte) => Item::Token(TokenKind::Name, Class::Word.run(bytes)),
        byte if Class::Digit.has(byte) => number_item(bytes),
        _ => symbol_item(bytes),
    }
}

/// What a newline is.
fn newline_item(line: Line) -> Item
    ensures { result ≡ newline_item line }
{
    match line {
        Line::Fresh | Line::Begun => Item::Blank(1),
        Line::Directive => Item::DirectiveEnd,
    }
}

/// What a backslash is, by the bytes behind it.
fn continued_item(bytes: &[u8]) -> Item
    requires short { length bytes.now ≤ 65536 }
    ensures item { result ≡ continued_item (line_end_len bytes.now) }
    ensures fits { Fits result (length bytes.now + 1) }
{
    match line_end_len(bytes) {
        Some(count) => Item::Blank(count + 1),
        None => Item::Fault(Flaw::BadByte, 0),
    }
}

/// What stands at a slash.
fn slash_item(bytes: &[u8]) -> Item
    requires some { 0 < length bytes.now }
    requires short { length bytes.now ≤ 65536 }
    ensures item { result ≡ slash_item bytes.now }
    ensures fits { Fits result (length bytes.now) }
{
    match bytes {
        [_, b'/', rest @ ..] => Item::Blank(line_rest(rest) + 2),
        [_, b'*', rest @ ..] => match comment_rest(rest) {
            Some(count) => Item::Blank(count + 2),
            None => Item::Fault(Flaw::OpenComment, 0),
        },
        _ => symbol_item(bytes),
    }
}

/// The symbol at the front.
fn symbol_item(bytes: &[u8]) -> Item
    ensures item { result ≡ symbol_item (symbol_len bytes.now) }
    ensures fits { Fits result (length bytes.now) }
{
    match symbol_len(bytes) {
        0 => Item::Fault(Flaw::BadByte, 0),
        count => Item::Token(TokenKind::Symbol, count),
    }
}

/// The number at the front, which has digits.
fn number_item(bytes: &[u8]) -> Item
    requires { begins is_digit bytes.now ≡ true }
    ensures item { result ≡ number_item bytes.now }
    ensures fits { Fits result (length bytes.now) }
{
    if has_number(bytes) {
        Item::Token(TokenKind::Number, digits_len(bytes))
    } else {
        Item::Fault(Flaw::BadNumber, 0)
    }
}

/// The text in quotes at the front.
fn text_item(bytes: &[u8]) -> Item
    requires some { 0 < length bytes.now }
    requires short { length bytes.now ≤ 65536 }
    ensures item { result ≡ text_item (quoted_end bytes.now) }
    ensures fits { Fits result (length bytes.now) }
{
    match quoted_end(bytes) {
        Ok(count) => Item::Token(TokenKind::Text, count),
        Err(offset) => Item::Fault(Flaw::BadByte, offset),
    }
}

/// What a `#` is.
fn hash_item(line: Line, bytes: &[u8], tails: &[Option<u32>]) -> Item
    requires some { begins (λ byte. byte == 35) bytes.now ≡ true }
    requires short { length bytes.now ≤ 65536 }
    requires tails { AreTails bytes.now tails.now }
    ensures item { result ≡ hash_item line bytes.now }
    ensures fits { Fits result (length bytes.now) }
{
    match line {
        Line::Fresh => line_item(bytes, tails),
        Line::Begun | Line::Directive => Item::Fault(Flaw::BadByte, 0),
    }
}

/// What a line is that begins with `#`.
fn line_item(bytes: &[u8], tails: &[Option<u32>]) -> Item
    requires some { begins (λ byte. byte == 35) bytes.now ≡ true }
    requires short { length bytes.now ≤ 65536 }
    requires tails { AreTails bytes.now tails.now }
    ensures item { result ≡ include_item bytes.now (include_len bytes.now) }
    ensures fits { Fits result (length bytes.now) }
{
    if let Some(count) = include_len(bytes, tails) {
        return Item::Token(TokenKind::Include, count);
    }
    match pragma_len(bytes) {
        Some(count) => Item::Token(TokenKind::Pragma, count),
        None => Item::Token(TokenKind::OtherHash, Class::Inline.run(bytes)),
    }
}
