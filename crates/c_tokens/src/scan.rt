//! The tokens of a text.

ghost use Rattle.std.specs.Prelude.{◌≡◌, ◌≢◌, ◌≤◌, ◌+◌, ◌++◌, ◌∷◌, [], Ok, Err, IfOk, IfErr, OnOk, length, vec_len};
ghost use Rattle.c_tokens.specs.language.Ending.{EndsIn};
ghost use Rattle.c_tokens.specs.language.Pieces.{Reads};
ghost use Rattle.c_tokens.specs.workings.Tokens.{Bounded, front_of, item_len, tokens_of};
ghost use Rattle.c_tokens.specs.language.Places.{beginning, closing, fault_at, token_at};

use crate::item::{Flaw, Item, item_at};
use crate::place::{Line, Place};
use crate::tail::tails_of;
use crate::token::{Spot, Token, TokenFault, TokenKind};
use std::alloc::{AllocError, Global};

/// The tokens of a text, in order, or the first fault. The last token is the end of the text.
pub fn tokens(alloc: Global, text: &[u8]) -> Result<Vec<Token>, TokenFault>
    requires { length text.now ≤ 65536 }
    ensures tokens { IfOk result (λ found. tokens_of text.now ≡ Ok found.items) }
    ensures read { IfOk result (λ found. Reads beginning text.now found.items) }
    ensures fault { IfErr result (λ fault. fault ≢ TokenFault.Memory → tokens_of text.now ≡ Err fault) }
    ensures ended { IfErr result (λ fault. fault ≢ TokenFault.Memory → EndsIn beginning text.now fault) }
{
    let tails = tails_of(alloc, text).map_err(|_| TokenFault::Memory)?;
    let mut found = Vec::new(alloc);
    let mut place = Place::beginning();
    let mut rest = text;
    while !rest.is_empty() {
        let item = item_at(place.line, rest, &tails);
        match item {
            Item::Fault(flaw, offset) => return Err(fault_at(flaw, place, offset as u32)),
            _ => push(&mut found, item, place).map_err(|_| TokenFault::Memory)?,
        }
        let (bytes, after) = rest.split_at(item.len());
        place = place.with(item).past(bytes);
        rest = after;
    }
    close(&mut found, place).map_err(|_| TokenFault::Memory)?;
    Ok(found)
}

/// Adds the token that an item is, if it is one.
fn push(found: &mut Vec<Token>, item: Item, place: Place) -> Result<(), AllocError>
    requires { place.at + item_len item ≤ 65536 }
    ensures { OnOk result (found.new.items ≡ found.old.items ++ front_of item place) }
{
    match item {
        Item::Token(kind, count) => found.push(token_at(kind, place, count as u32))?,
        Item::DirectiveEnd => found.push(token_at(TokenKind::PragmaEnd, place, 0))?,
        Item::Blank(_) | Item::Fault(..) => {}
    }
    Ok(())
}

/// Adds the tokens at the end of the text, which ends the line of a directive too.
fn close(found: &mut Vec<Token>, place: Place) -> Result<(), AllocError>
    requires { place.at ≤ 65536 }
    ensures { OnOk result (found.new.items ≡ found.old.items ++ closing place.line place) }
{
    if let Line::Directive = place.line {
        found.push(token_at(TokenKind::PragmaEnd, place, 0))?;
    }
    found.push(token_at(TokenKind::End, place, 0))?;
    Ok(())
}

/// The token of so many bytes at a place.
fn token_at(kind: TokenKind, place: Place, count: u32) -> Token
    requires { place.at + count ≤ 65536 }
    ensures { result ≡ token_at kind place count }
{
    Token {
        kind,
        start: place.at,
        end: place.at + count,
        spot: place.spot,
    }
}

/// The fault so many bytes behind a place, in its line.
fn fault_at(flaw: Flaw, place: Place, offset: u32) -> TokenFault
    requires short { place.at + offset ≤ 65536 }
    requires bounded { Bounded place }
    ensures fault { result ≡ fault_at flaw place offset }
    ensures named { result ≢ TokenFault.Memory }
{
    let spot = Spot {
        line: place.spot.line,
        column: place.spot.column + offset,
    };
    match flaw {
        Flaw::BadByte => TokenFault::BadByte(spot),
        Flaw::OpenComment => TokenFault::OpenComment(spot),
        Flaw::BadNumber => TokenFault::BadNumber(spot),
    }
}
