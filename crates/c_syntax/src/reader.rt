//! The reader: it does the steps of the grammar one after another, by the word that is next.
//!
//! What is left to do is a list of steps, so the reader doesn't call itself. A step that reads a sort of text is replaced by the
//! steps of its rule.

ghost use Rattle.std.specs.Prelude.{ℕ, ◌≡◌, ◌≢◌, ◌<◌, ◌≤◌, ◌+◌, ◌-◌, ◌^◌, [], ◌∷◌, ◌++◌, List, IfOk, IfErr, OnOk, IfSome, MatchOption, true, length, Ok, Err, pos};
ghost use Rattle.c_syntax.specs.workings.Derivation.{fits, joined, kept, made, opened_at, outermost, program_steps, skipped, wrapped, result_of};
ghost use Rattle.c_syntax.specs.language.Faults.{IsFault, fault_of};
ghost use Rattle.c_syntax.specs.language.Heads.{behind, parentheses_of};
ghost use Rattle.c_syntax.specs.workings.Reading.{Faces, Reaches, State, weight};
ghost use Rattle.c_syntax.specs.workings.ReaderViews.{Does, HeadsOn, IsSeen, MayFault, beginning, state_of, with_step};
ghost use Rattle.c_syntax.specs.workings.WordViews.{IsWithin, word_view};
ghost use Rattle.c_syntax.specs.language.Words.{Word as Spelled};
ghost use Rattle.c_syntax.specs.language.Numbered.{root_tree};

use crate::fault::SyntaxFault;
use crate::grammar::{Class, Sort, Step};
use crate::growth::Growth;
use crate::head::Head;
use crate::node::NodeKind;
use crate::plan::Plan;
use crate::rules::choice;
use crate::term::Term;
use crate::tree::Tree;
use crate::word::Word;
use c_tokens::Spot;
use std::alloc::{AllocError, Global};

/// How deep a program may be.
const DEPTH_LIMIT: u32 = 64;

/// A reading under way.
#[derive(Drop)]
pub struct Reader {
    /// The steps that are left.
    plan: Plan,
    /// How many things that count for the depth are open.
    depth: u32,
    /// Where the words so far leave off.
    at: Head,
    /// The tree as far as it is made.
    growth: Growth,
}

/// What a step did with the next word.
#[derive(Clone, Copy)]
pub enum Progress {
    /// It left it.
    Stays,
    /// It took it.
    Takes,
}

impl Reader {
    /// A reading before the first word.
    pub fn new(alloc: Global) -> Result<Reader, AllocError>
        ensures { IfOk result (λ reader. state_of reader ≡ beginning) }
    {
        Ok(Reader {
            plan: Plan::of(alloc, Step::Read(Sort::Program))?,
            depth: 0,
            at: Head::Outside,
            growth: Growth::new(alloc)?,
        })
    }

    /// Reads the next word of a source.
    pub fn read(&mut self, source: &[u8], word: Word) -> Result<(), SyntaxFault>
        requires within { IsWithin (length source.now) word }
        requires flat { parentheses_of self.old.at < 2 ^ 64 - 1 }
        ensures read { OnOk result ((before : List Spelled) → Reaches before (state_of self.old) →
            Reaches (before ++ word_view source.now word ∷ []) (state_of self.new)) }
        ensures flat { parentheses_of self.new.at ≤ parentheses_of self.old.at + 1 }
        ensures fault { IfErr result (λ fault. (before after : List Spelled) → Reaches before (state_of self.old) →
            MayFault (before ++ word_view source.now word ∷ after) fault) }
    {
        while let Some(step) = self.plan.next() {
            match self.does(step, source, word)? {
                Progress::Takes => return Ok(()),
                Progress::Stays => {}
            }
        }
        Err(SyntaxFault::of(self.at, word.term, word.spot))
    }

    /// Does a step, which was the next one.
    fn does(&mut self, step: Step, source: &[u8], word: Word) -> Result<Progress, SyntaxFault>
        requires within { IsWithin (length source.now) word }
        requires flat { parentheses_of self.old.at < 2 ^ 64 - 1 }
        ensures does { Does (word_view source.now word) (with_step step (state_of self.old))
            (state_of self.new) result }
        ensures at { HeadsOn self.old.at self.new.at result }
    {
        match step {
            Step::Expect(term) => self.expect(term, word),
            Step::Deepen(term) => self.deepen(term, word),
            Step::Take(which) => self.take(which, source, word),
            Step::InHead => self.in_head(word),
            Step::Read(what) => self.begin(what, word),
            Step::Rise => self.rise(word),
            Step::Open => self.open(word),
            Step::Make(kind) => self.make(kind, word),
            Step::Join(kind) => self.join(kind, word),
            Step::Wrap(kind) => self.wrap(kind, word),
            Step::Skip => self.skip(word),
        }
    }

    /// The next word is this one.
    fn expect(&mut self, term: Term, word: Word) -> Result<Progress, SyntaxFault>
        requires { parentheses_of self.old.at < 2 ^ 64 - 1 }
        ensures does { (next : Spelled) → IsSeen next word →
            Does next (with_step (Step.Expect term) (state_of self.old)) (state_of self.new) result }
        ensures at { HeadsOn self.old.at self.new.at result }
    {
        if word.term != term {
            return Err(self.unexpected(word));
        }
        self.pass(word);
        Ok(Progress::Takes)
    }

    /// The next word is this one, and begins something that counts for the depth.
    fn deepen(&mut self, term: Term, word: Word) -> Result<Progress, SyntaxFault>
        requires { parentheses_of self.old.at < 2 ^ 64 - 1 }
        ensures does { (next : Spelled) → IsSeen next word →
            Does next (with_step (Step.Deepen term) (state_of self.old)) (state_of self.new) result }
        ensures at { HeadsOn self.old.at self.new.at result }
    {
        if word.term != term {
            return Err(self.unexpected(word));
        }
        if self.depth >= DEPTH_LIMIT {
            return Err(SyntaxFault::TooDeep(word.spot));
        }
        self.depth += 1;
        self.pass(word);
        Ok(Progress::Takes)
    }

    /// The next word is of this class, and its value is kept.
    fn take(&mut self, which: Class, source: &[u8], word: Word) -> Result<Progress, SyntaxFault>
        requires within { IsWithin (length source.now) word }
        requires flat { parentheses_of self.old.at < 2 ^ 64 - 1 }
        ensures does { Does (word_view source.now word) (with_step (Step.Take which) (state_of self.old))
            (state_of self.new) result }
        ensures at { HeadsOn self.old.at self.new.at result }
    {
        if !self.at.fits(which, word.term) {
            return Err(self.unexpected(word));
        }
        match self.keep(which, source, word) {
            Ok(()) => {}
            Err(_) => return Err(SyntaxFault::Memory),
        }
        self.pass(word);
        Ok(Progress::Takes)
    }

    /// The open node keeps what a word of this class has.
    fn keep(&mut self, which: Class, source: &[u8], word: Word) -> Result<(), AllocError>
        requires within { IsWithin (length source.now) word }
        requires fit { fits self.old.at which word.term ≡ true }
        ensures kept { OnOk result (state_of self.new ≡
            record (state_of self.old) { nodes = kept which (word_view source.now word) self.old.growth }) }
        ensures at { self.new.at ≡ self.old.at }
    {
        match which {
            Class::Name | Class::Routine(_) => {
                self.growth.keep_name(word.value);
                Ok(())
            }
            Class::Number => {
                self.growth.keep_number(word.value);
                Ok(())
            }
            Class::Text => self
                .growth
                .keep_text(&source[word.start as usize..word.end as usize]),
        }
    }

    /// The word stands in the head of a directive.
    fn in_head(&mut self, word: Word) -> Result<Progress, SyntaxFault>
        ensures does { (next : Spelled) → IsSeen next word →
            Does next (with_step (Step.InHead) (state_of self.old)) (state_of self.new) result }
        ensures at { HeadsOn self.old.at self.new.at result }
    {
        if self.at.is_outside() {
            return Err(self.unexpected(word));
        }
        Ok(Progress::Stays)
    }

    /// Something of this sort follows: the steps of its rule come next.
    fn begin(&mut self, what: Sort, word: Word) -> Result<Progress, SyntaxFault>
        ensures does { (next : Spelled) → IsSeen next word →
            Does next (with_step (Step.Read what) (state_of self.old)) (state_of self.new) result }
        ensures at { HeadsOn self.old.at self.new.at result }
    {
        let Some(steps) = choice(what, word.term) else {
            return Err(self.unexpected(word));
        };
        match self.plan.begin(steps) {
            Ok(()) => Ok(Progress::Stays),
            Err(_) => Err(SyntaxFault::Memory),
        }
    }

    /// What counted for the depth is over.
    fn rise(&mut self, _word: Word) -> Result<Progress, SyntaxFault>
        ensures does { (next : Spelled) → IsSeen next _word →
            Does next (with_step (Step.Rise) (state_of self.old)) (state_of self.new) result }
        ensures at { HeadsOn self.old.at self.new.at result }
    {
        self.depth = self.depth.saturating_sub(1);
        Ok(Progress::Stays)
    }

    // The functions from here to `wrap` are a table: one for each step that makes nodes.

    /// A node begins at the word.
    fn open(&mut self, word: Word) -> Result<Progress, SyntaxFault>
        ensures does { (next : Spelled) → IsSeen next word →
            Does next (with_step (Step.Open) (state_of self.old)) (state_of self.new) result }
        ensures at { HeadsOn self.old.at self.new.at result }
    {
        match self.growth.open(word.spot) {
            Ok(()) => Ok(Progress::Stays),
            Err(_) => Err(SyntaxFault::Memory),
        }
    }

    /// The open node is over.
    fn make(&mut self, kind: NodeKind, _word: Word) -> Result<Progress, SyntaxFault>
        ensures does { (next : Spelled) → IsSeen next _word →
            Does next (with_step (Step.Make kind) (state_of self.old)) (state_of self.new) result }
        ensures at { HeadsOn self.old.at self.new.at result }
    {
        match self.growth.make(kind) {
            Ok(()) => Ok(Progress::Stays),
            Err(_) => Err(SyntaxFault::Memory),
        }
    }

    /// The open node's last two children become those of a node.
    fn join(&mut self, kind: NodeKind, _word: Word) -> Result<Progress, SyntaxFault>
        ensures does { (next : Spelled) → IsSeen next _word →
            Does next (with_step (Step.Join kind) (state_of self.old)) (state_of self.new) result }
        ensures at { HeadsOn self.old.at self.new.at result }
    {
        match self.growth.join(kind) {
            Ok(()) => Ok(Progress::Stays),
            Err(_) => Err(SyntaxFault::Memory),
        }
    }

    /// The open node's last child becomes that of a node.
    fn wrap(&mut self, kind: NodeKind, _word: Word) -> Result<Progress, SyntaxFault>
        ensures does { (next : Spelled) → IsSeen next _word →
            Does next (with_step (Step.Wrap kind) (state_of self.old)) (state_of self.new) result }
        ensures at { HeadsOn self.old.at self.new.at result }
    {
        match self.growth.wrap(kind) {
            Ok(()) => Ok(Progress::Stays),
            Err(_) => Err(SyntaxFault::Memory),
        }
    }

    /// A child of the open node is absent.
    fn skip(&mut self, _word: Word) -> Result<Progress, SyntaxFault>
        ensures does { (next : Spelled) → IsSeen next _word →
            Does next (with_step (Step.Skip) (state_of self.old)) (state_of self.new) result }
        ensures at { HeadsOn self.old.at self.new.at result }
    {
        match self.growth.skip() {
            Ok(()) => Ok(Progress::Stays),
            Err(_) => Err(SyntaxFault::Memory),
        }
    }

    /// The word is read.
    fn pass(&mut self, word: Word)
        requires { parentheses_of self.old.at < 2 ^ 64 - 1 }
        ensures state { state_of self.new ≡ record (state_of self.old) { at = behind self.old.at word.term } }
        ensures at { parentheses_of self.new.at ≤ parentheses_of self.old.at + 1 }
    {
        self.at = self.at.behind(word.term);
    }

    /// The fault of the word, which may not follow.
    fn unexpected(&self, word: Word) -> SyntaxFault
        ensures fault { (next : Spelled) → IsSeen next word → result ≡ fault_of self.now.at next }
        ensures named { result ≢ SyntaxFault.Memory }
    {
        SyntaxFault::of(self.at, word.term, word.spot)
    }

    /// The tree of a program that is read to its end, which is at this place, and in which the name `main` has this number, or 0.
    pub fn finish(mut self, end: Spot, main: u32) -> Result<Tree, AllocError>
        ensures tree { IfOk result (λ tree. root_tree tree ≡ result_of (made NodeKind.Program self.growth)) }
        ensures end { IfOk result (λ tree. tree.end ≡ end) }
        ensures main { IfOk result (λ tree. tree.main ≡ main) }
    {
        self.growth.make(NodeKind::Program)?;
        self.growth.finish(end, main)
    }
}
