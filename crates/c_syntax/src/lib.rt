//! The grammar of the language: which tokens are a program, and the tree of a program.
//!
//! [`read_program`] answers the tree of a text's tokens, or their fault. A tree has nodes of the kinds of [`NodeKind`], each with
//! the place of its first token, a name, a number or a text where it keeps one, and its children in order, of which some may
//! be absent. A fault has a number from 4 to 7 ([`SyntaxFault`]) and the place of the first token with which no program goes on.
//!
//! What a reader must believe stands in `specs/language`. `specs/workings` has what the contracts of the code and the proofs need
//! besides: nothing in `specs/language` rests on it.
//!
//! The definitions that the public clauses rest on, and that a reader is to believe:
//!
//! - `specs/language/Words.antt`: what a token is to the grammar. All names have numbers, in the order in which they first appear.
//!   `specs/language/WordClasses.antt`: which words are names, and which are routines. `specs/language/OutOfLanguage.antt`: the
//!   words of C, of directives and of clauses that are out of the language, as lists;
//! - `specs/language/Tree.antt`: trees. `specs/language/Numbered.antt`: trees by their numbers, as a [`Tree`] has them;
//! - `specs/language/Productions.antt`: the grammar. Each production is a relation, or a case of one, between the words from where
//!   it begins, the words behind it, and what it makes. The ranks of operators, the nearest `if` of an `else`, the comma before a
//!   clause and the depth stand there. `IsProgram` says that words are a program with a tree, within a limit of the depth, and
//!   `GoesOn` that words begin a program;
//! - `specs/language/Heads.antt`: whether words leave off where a directive, a clause or the kind of a schedule should stand;
//! - `specs/language/Faults.antt`: `IsFault`, the fault of words that are no program: where it stands, and its number. `IsAnswered`
//!   says that words are a program or have a fault;
//! - `specs/language/Texts.antt`: `Spells`, that a text is a program with a tree, in which nothing is deeper than 64, and
//!   `HasSyntaxFault`;
//! - `specs/language/Places.antt`: the nodes of a tree in order, and what a place tells of them.
//!
//! The reader goes by a table of steps. A rule of `specs/workings/Grammar.antt` says by which steps a sort of text is read where a
//! certain word is next, and `Derives` of `specs/workings/Derivation.antt` which words some steps read and which tree they make.
//! These and the other definitions serve the reader's own functions and the proofs. Of the public clauses only those of
//! [`table_is_the_grammar`] cite the table: it derives a tree exactly where the productions spell it, within each limit of the
//! depth.
//!
//! Proved:
//!
//! - [`read_program`] answers `Ok` with a tree that the text spells, and a fault that the text has. It may answer want of memory
//!   at any time, and no clause says when. Its one condition is that the tokens are those of the text, however long that is;
//! - a name is out of the language at a place exactly where the lists of `specs/language/OutOfLanguage.antt` have it there, by
//!   [`tables_have_the_words`]: those lists have the words that the tables of the code leave out of the language;
//! - words are a program with one tree at most, by [`one_tree`], and have one fault at most, by [`one_fault`]. No words are a
//!   program and have a fault, by [`tree_or_fault`], and words that end with the end of the text are one or have the other, by
//!   [`program_or_fault`]. [`one_answer_of_a_text`] says the same of a text whose tokens are read. So the answer is determined but
//!   for want of memory;
//! - in the tree of a text, nodes with a name that stand at one spot have the same name, by [`one_name_a_place`], and no two
//!   constructs stand at one spot, by [`one_construct_a_place`]. So a look-up by spot is of one name, or of one construct.
//!
//! [`SyntaxFault::number`] and [`SyntaxFault::spot`] tell a fault, as `specs/language/Faults.antt` says.
//!
//! That the productions are those of `docs/language.md` is to be read. The place of a fault doesn't depend on their form: it is
//! said by what can be completed to a program.
//!
//! That no function calls itself as deep as the text nests, and that each word takes a bounded number of steps, is to be read. The
//! time and the memory are no clauses.
//!
//! What symbols and names are to the grammar is written once, in the tables of `src/word_table.rt`: the definition cites them, and
//! the code looks them up.
//!
//! The program `test_texts` compares texts with what was written out by hand: that a text is a program, or the number and place of
//! its fault; and the trees of programs, node by node, with their kinds, places, names, numbers and texts.
#![tactic(auto)]

mod fault;
mod grammar;
mod growth;
mod head;
mod laws;
mod lexeme;
mod names;
mod node;
mod nodes;
mod plan;
mod program;
mod reader;
mod rules;
mod term;
mod tree;
mod word;
mod word_table;
mod words;

pub use fault::SyntaxFault;
pub use laws::{
    one_answer_of_a_text, one_construct_a_place, one_fault, one_name_a_place, one_tree,
    program_or_fault, table_is_the_grammar, tables_have_the_words, tree_or_fault,
};
pub use node::{
    BinaryOp, Bump, Data, Default, Directive, Getter, Lead, LockCall, NodeKind, Parameters,
    ReductionOp, Returns, ScheduleKind, Setting, Side, Sign, Standalone, UnaryOp,
};
pub use program::read_program;
pub use tree::Tree;
