//! The program that tokens are.

ghost use Rattle.std.specs.Prelude.{◌≡◌, ◌≢◌, ◌∷◌, ◌++◌, [], List, All, IfOk, IfErr, OnOk, length, map};
ghost use Rattle.c_tokens.specs.declared.token.Token.{Token};
ghost use Rattle.c_tokens.specs.language.Places.{beginning as first_place};
ghost use Rattle.c_tokens.specs.language.Pieces.{Reads};
ghost use Rattle.c_syntax.specs.language.Words.{main_of};
ghost use Rattle.c_syntax.specs.language.Texts.{HasSyntaxFault, Spells};
ghost use Rattle.c_syntax.specs.language.Numbered.{root_tree};
ghost use Rattle.c_syntax.specs.workings.Reading.{Reaches};
ghost use Rattle.c_syntax.specs.workings.ReaderViews.{MayFault, beginning, state_of};
ghost use Rattle.c_syntax.specs.workings.WordViews.{IsWithin, word_view};

use crate::fault::SyntaxFault;
use crate::reader::Reader;
use crate::tree::Tree;
use crate::word::Word;
use crate::words::words_of;
use c_tokens::{Spot, Token};
use std::alloc::Global;

/// The tree of the program that a text is, where these are its tokens. Or the fault at the first token with which no program goes on.
pub fn read_program(alloc: Global, text: &[u8], tokens: &[Token]) -> Result<Tree, SyntaxFault>
    requires read { Reads first_place text.now tokens.now }

    // The words of the text are a program by the productions, and this is its tree.
    ensures tree { IfOk result (λ tree. Spells text.now (root_tree tree)) }
    ensures main { IfOk result (λ tree. tree.main ≡ main_of text.now tokens.now) }
    ensures end { IfOk result (λ tree. (front : List Token) (last : Token) → tokens.now ≡ front ++ last ∷ [] →
        tree.end ≡ last.spot) }

    // The words before the fault can be completed to a program, and with the one at the fault they can't.
    ensures fault { IfErr result (λ fault. fault ≢ SyntaxFault.Memory → HasSyntaxFault text.now fault) }
{
    let Ok(words) = words_of(alloc, text, tokens) else {
        return Err(SyntaxFault::Memory);
    };
    let Ok(mut reader) = Reader::new(alloc) else {
        return Err(SyntaxFault::Memory);
    };
    read_words(&mut reader, text, &words.list)?;
    match reader.finish(end_of(tokens), words.main) {
        Ok(tree) => Ok(tree),
        Err(_) => Err(SyntaxFault::Memory),
    }
}

/// Reads the words of a text, from the first on.
fn read_words(reader: &mut Reader, text: &[u8], words: &[Word]) -> Result<(), SyntaxFault>
    requires start { state_of reader.old ≡ beginning }
    requires within { All (IsWithin (length text.now)) words.now }
    ensures read { OnOk result (Reaches (map (word_view text.now) words.now) (state_of reader.new)) }
    ensures fault { IfErr result (λ fault. MayFault (map (word_view text.now) words.now) fault) }
{
    for word in words {
        reader.read(text, *word)?;
    }
    Ok(())
}

/// The place of the last token, which is the end of the text.
fn end_of(tokens: &[Token]) -> Spot
    ensures { (front : List Token) (last : Token) → tokens.now ≡ front ++ last ∷ [] → result ≡ last.spot }
{
    match tokens {
        [.., last] => last.spot,
        [] => Spot { line: 1, column: 1 },
    }
}
