//! The tokens of a text: names, numbers, texts in quotes, symbols, and the lines that begin with `#`.
//!
//! [`tokens`] answers the tokens of a text of at most 65,536 bytes in order, each with its kind, its span in bytes and its
//! place, or the first fault. Blanks and comments part tokens and are no tokens. `#pragma omp` is a token, and what follows it on
//! its line are tokens too, up to a token without bytes at the end of the line; a backslash before that end, and a comment, carry
//! the line on. Any other line that begins with `#` is one token. The last token is the end of the text.
//!
//! What a reader must believe stands in `specs/language`. `specs/workings` has what the contracts of the code and the proofs need
//! besides: nothing in `specs/language` rests on it.
//!
//! Two definitions say what a text has. `tokens_of` in `specs/workings/Tokens.antt` computes its tokens or its fault, from the item
//! that stands at the front of the bytes. The other is for a reader, and is two relations. `Reads` in `specs/language/Pieces.antt`
//! says of each blank, comment and token by itself which bytes it has, and what may follow it. `EndsIn` in
//! `specs/language/Ending.antt` is built of the same pieces, up to where none of them stands, and says by the first bytes there
//! which fault that is, and where. Proved:
//!
//! - [`tokens`] answers `Ok` with the list that `tokens_of` has, and a fault, with its place, that `tokens_of` has. So the text is
//!   read as that list, or ends in that fault. It may answer want of memory at any time; rows of `test_texts` show that it doesn't
//!   where there is enough;
//! - the two definitions have the same lists, by [`tokens_are_read`] and [`reading_is_tokens`], and each text has one at most, by
//!   [`one_list_of_tokens`]. They have the same faults, by [`faults_end_the_reading`];
//! - each text is read as tokens or ends in a fault, and never both, and it ends in one fault at most, by [`read_or_ended`].
//!
//! [`TokenFault::number`] and [`TokenFault::spot`] tell a fault, as `specs/language/Faults.antt` says.
//!
//! That the fault is the first in the text is in both definitions: what stands before it is read piece by piece, and behind it
//! nothing is.
//!
//! Time grows linearly with the text. That is no clause, and neither is where memory is wanting.
//!
//! The program `test_texts` compares the tokens of texts, of each byte and of symbols side by side with answers written out by
//! hand. The must-fail edits try wrong bodies.
#![tactic(auto)]

mod blanks;
mod bytes;
mod hash_line;
mod item;
mod laws;
mod place;
mod quoted;
mod scan;
mod symbol;
mod tail;
mod token;
mod word;

pub use laws::{
    faults_end_the_reading, one_list_of_tokens, read_or_ended, reading_is_tokens, tokens_are_read,
};
pub use scan::tokens;
pub use token::{NOWHERE, Spot, Token, TokenFault, TokenKind};
