//! The words of a text.

ghost use Rattle.std.specs.Prelude.{◌≡◌, ◌≤◌, ◌+◌, ℕ, List, All, IfOk, OnOk, length, map};
ghost use Rattle.c_tokens.specs.workings.Tokens.{tokens_of};
ghost use Rattle.c_syntax.specs.language.Words.{bytes_of, main_of, names_with, text_of, word_of, words_of};
ghost use Rattle.c_syntax.specs.workings.Names.{AreNames};
ghost use Rattle.c_syntax.specs.workings.WordViews.{AreFewer, IsTokenOf, IsWithin, span, word_view};

use crate::lexeme::{decimal_value, term_of};
use crate::names::Names;
use crate::word::Word;
use c_tokens::{Token, TokenKind};
use std::alloc::{AllocError, Global};

/// The words of a text, in order, with the end of the text as the last.
#[derive(Drop)]
pub struct Words {
    /// The words.
    pub list: Vec<Word>,
    /// The number of the name `main`, or 0 where it doesn't appear.
    pub main: u32,
}

/// The words of a text, which has these tokens.
pub fn words_of(alloc: Global, text: &[u8], tokens: &[Token]) -> Result<Words, AllocError>
    requires tokens { tokens_of text.now ≡ Ok tokens.now }
    ensures words { IfOk result (λ found. map (word_view text.now) found.list.items ≡ words_of text.now tokens.now) }
    ensures within { IfOk result (λ found. All (IsWithin (length text.now)) found.list.items) }
    ensures main { IfOk result (λ found. found.main ≡ main_of text.now tokens.now) }
{
    let mut names = Names::new(alloc);
    let mut list = Vec::new(alloc);
    for token in tokens {
        list.push(word_of(text, *token, &mut names)?)?;
    }
    let main = names.number_of(b"main");
    Ok(Words { list, main })
}

/// The word that a token is, where the names before it have appeared.
fn word_of<'a>(text: &'a [u8], token: Token, names: &mut Names<'a>) -> Result<Word, AllocError>
    requires token { IsTokenOf text.now token }
    requires names { token.kind ≡ TokenKind.Name → AreFewer token.end names.old }
    ensures names { OnOk result ((before : List (List ℕ)) → AreNames before names.old →
        AreNames (names_with token.kind before (bytes_of text.now token)) names.new) }
    ensures word { IfOk result (λ word. (before : List (List ℕ)) → AreNames before names.old →
        word_view text.now word ≡ word_of (names_with token.kind before (bytes_of text.now token)) token.kind
        (bytes_of text.now token) token.spot) }
    ensures within { IfOk result (IsWithin (length text.now)) }
{
    let bytes = &text[token.start as usize..token.end as usize];
    let value = match token.kind {
        TokenKind::Name => names.add(bytes)?,
        TokenKind::Number => decimal_value(bytes),
        _ => 0,
    };
    let (start, end) = quoted(token);
    Ok(Word {
        term: term_of(token.kind, bytes),
        value,
        start,
        end,
        spot: token.spot,
    })
}

/// Where the bytes between the quotes of a text lie; none for any other token.
fn quoted(token: Token) -> (u32, u32)
    requires ordered { token.start ≤ token.end }
    requires quoted { token.kind ≡ TokenKind.Text → token.start + 2 ≤ token.end }
    ensures within { (result.0 ≤ result.1) × (result.1 ≤ token.end) }
    ensures span { (text : List ℕ) → token.end ≤ length text →
        span text result.0 result.1 ≡ text_of token.kind (bytes_of text token) }
{
    match token.kind {
        TokenKind::Text => (token.start + 1, token.end - 1),
        _ => (token.start, token.start),
    }
}
