//! How far a rerun has come.

ghost use Rattle.std.specs.Prelude.{◌≡◌, ◌<◌, ◌≤◌, ◌↔◌, List, [], ◌∷◌, ◌++◌, All, length, map, IfOk, OnOk, IsTrue, slice_set, Some};
ghost use Rattle.omp_model.specs.declared.history.Entry.{Entry};
ghost use Rattle.omp_model.specs.declared.history.What.TheVariants.{Back, Go, Put};
ghost use Rattle.omp_model.specs.Heard.{heard};
ghost use Rattle.history_file.specs.declared.file.TheConstants.{ENTRY_LIMIT};
ghost use Rattle.history_file.specs.Certificates.{run_of_file};
ghost use Rattle.history_file.specs.RerunProgress.{EndsAs, entry_of};
ghost use Rattle.history_file.specs.Progressing.{Goes, IsAt, Steps, calls_after, waiting_after};
ghost use Rattle.history_file.specs.Validity.{IsEntry, IsHistoryFile};
ghost use Rattle.history_file.specs.Verdicts.{IsVerdict, heard_call};

use crate::ending::end_of;
use crate::file::{HistoryFile, THREAD_LIMIT};
use crate::verdict::{HeardCall, HeardCalls, Verdict};
use crate::waiting::{Waiting, waits};
use c_check::Program;
use omp_machine::{Limits, Machine, Memory, Went};
use omp_model::{Entry, What};
use ompt_calls::{Call, Sequence, Target};
use std::alloc::Global;
use std::mem;

/// A history that is taken through the machine, entry by entry.
#[derive(Drop)]
pub struct Progress {
    /// The machine, after the entries so far.
    machine: Machine,
    /// For each thread the callback that it is inside.
    waiting: [Option<Waiting>; THREAD_LIMIT as usize],
    /// The calls of the events that were told so far.
    calls: Vec<HeardCall>,
    /// How many entries there were so far.
    seq: u32,
}

impl Progress {
    /// Before the first entry of the file, where this is the program of its text.
    pub fn start(alloc: Global, program: Program, file: &HistoryFile) -> Result<Progress, Memory>
        requires { IsHistoryFile file.now }
        ensures run { IfOk result (λ progress. progress.machine.run ≡ run_of_file program file.now) }
        ensures at { IfOk result (IsAt []) }
    {
        let limits = Limits {
            threads: file.threads,
            steps: file.steps,
        };
        let machine = Machine::new(alloc, program, file.mask, limits)?;
        Ok(Progress {
            machine,
            waiting: [None; THREAD_LIMIT as usize],
            calls: Vec::new(alloc),
            seq: 0,
        })
    }

    /// Takes these entries one after the other, up to the first that may not stand next. Tells whether there was none.
    fn take_all(&mut self, entries: &[Entry]) -> Result<bool, Memory>
        requires at { IsAt [] self.old }
        requires threads { All (IsEntry self.old.machine.run.threads) entries.now }
        requires few { length entries.now ≤ ENTRY_LIMIT }
        ensures run { OnOk result (self.new.machine.run ≡ self.old.machine.run) }
        ensures goes { IfOk result (Goes entries.now self.new) }
    {
        for entry in entries {
            if !self.step(*entry)? {
                return Ok(false);
            }
        }
        Ok(true)
    }

    /// Takes the entry, if it may stand next.
    fn step(&mut self, entry: Entry) -> Result<bool, Memory>
        requires at { (done : List Entry) × IsAt done self.old }
        requires thread { entry.thread < self.old.machine.run.threads }
        requires few { self.old.seq < ENTRY_LIMIT }
        ensures { IfOk result (Steps self.old entry self.new) }
    {
        match entry.what {
            What::Go => self.go(entry.thread),
            What::Put(target, word) => Ok(self.put(entry.thread, target, word)),
            What::Back => Ok(self.back(entry.thread)),
        }
    }

    /// A turn of the thread, if it may begin one.
    fn go(&mut self, thread: u8) -> Result<bool, Memory>
        requires at { (done : List Entry) × IsAt done self.old }
        requires thread { thread < self.old.machine.run.threads }
        requires few { self.old.seq < ENTRY_LIMIT }
        ensures { IfOk result (Steps self.old (entry_of thread Go) self.new) }
    {
        let Some(ready) = self.machine.ready(thread) else {
            return Ok(false);
        };
        let went = self.machine.go_ready(ready)?;
        self.hear(thread, went)?;
        self.seq += 1;
        Ok(true)
    }

    /// What the thread's turn came to: after an event it is inside the event's callback.
    fn hear(&mut self, thread: u8, went: Went) -> Result<(), Memory>
        requires { thread < length self.old.waiting }
        ensures machine { OnOk result (self.new.machine ≡ self.old.machine) }
        ensures waiting { OnOk result (self.new.waiting ≡ waiting_after self.old.waiting thread self.old.seq went) }
        ensures calls { OnOk result (self.new.calls.items ≡ calls_after self.old.calls.items thread self.old.seq went) }
        ensures seq { OnOk result (self.new.seq ≡ self.old.seq) }
    {
        match went {
            Went::Told(call, snapshot) => {
                self.machine.reuse(snapshot);
                self.hear_told(thread, call)
            }
            Went::Untold => {
                self.wait(thread, None);
                Ok(())
            }
            Went::Quiet | Went::Trapped(_) | Went::Limit(_) => Ok(()),
        }
    }

    /// The thread's turn came to an event that is told.
    fn hear_told(&mut self, thread: u8, call: Call) -> Result<(), Memory>
        requires { thread < length self.old.waiting }
        ensures machine { OnOk result (self.new.machine ≡ self.old.machine) }
        ensures waiting { OnOk result (self.new.waiting ≡
            slice_set self.old.waiting thread (Some (record { stores = 0; told = Some self.old.seq }))) }
        ensures calls { OnOk result (self.new.calls.items ≡ self.old.calls.items ++ record {
          seq = self.old.seq;
          thread = thread;
          call = call;
        } ∷ []) }
        ensures seq { OnOk result (self.new.seq ≡ self.old.seq) }
    {
        let seq = self.seq;
        self.calls.push(HeardCall { seq, thread, call })?;
        self.wait(thread, Some(seq));
        Ok(())
    }

    /// The thread is inside a callback from now on, whose event is told at this position, if at all.
    fn wait(&mut self, thread: u8, told: Option<u32>)
        requires { thread < length self.old.waiting }
        ensures { self.new ≡ record self.old {
          waiting = slice_set self.old.waiting thread (Some (record {
            stores = 0;
            told = told;
          }));
        } }
    {
        self.waiting[usize::from(thread)] = Some(Waiting { stores: 0, told });
    }

    /// A store of the thread's tool, if it may store this.
    fn put(&mut self, thread: u8, target: Target, word: u64) -> bool
        requires at { (done : List Entry) × IsAt done self.old }
        requires thread { thread < self.old.machine.run.threads }
        requires few { self.old.seq < ENTRY_LIMIT }
        ensures { Steps self.old (entry_of thread (Put target word)) self.new result }
    {
        let Some(inside) = self.waiting[usize::from(thread)] else {
            return false;
        };
        if !inside.may_store() || !self.machine.made(target) {
            return false;
        }
        self.machine.put(thread, target, word);
        self.waiting[usize::from(thread)] = Some(Waiting {
            stores: inside.stores + 1,
            told: inside.told,
        });
        self.seq += 1;
        true
    }

    /// The return of the thread's callback, if it is inside one.
    fn back(&mut self, thread: u8) -> bool
        requires at { (done : List Entry) × IsAt done self.old }
        requires thread { thread < self.old.machine.run.threads }
        requires few { self.old.seq < ENTRY_LIMIT }
        ensures { Steps self.old (entry_of thread Back) self.new result }
    {
        if !self.machine.pending(thread) {
            return false;
        }
        self.machine.back(thread);
        self.waiting[usize::from(thread)] = None;
        self.seq += 1;
        true
    }

    /// Takes the entries of the file, from the first one on, up to one that may not stand next. Says whether the file is a certificate.
    pub fn judge(&mut self, alloc: Global, file: &HistoryFile) -> Result<Verdict, Memory>
        requires at { IsAt [] self.old }
        requires threads { All (IsEntry self.old.machine.run.threads) file.now.history }
        requires few { length file.now.history ≤ ENTRY_LIMIT }
        ensures { IfOk result (IsVerdict self.old.machine.run file.now) }
    {
        if self.take_all(file.history.as_slice())? {
            Ok(self.verdict(alloc, file))
        } else {
            Ok(Verdict::Illegal(self.seq))
        }
    }

    /// Whether the file, each of whose entries was taken, is a certificate. The calls are taken out.
    fn verdict(&mut self, alloc: Global, file: &HistoryFile) -> Verdict
        requires { IsAt file.now.history self.old }
        ensures { IsVerdict self.old.machine.run file.now result }
    {
        if self.ends_as(file) {
            Verdict::Legal(self.heard_calls(alloc))
        } else {
            Verdict::Illegal(self.seq)
        }
    }

    /// Whether the run has ended, and as the file says.
    fn ends_as(&self, file: &HistoryFile) -> bool
        ensures { IsTrue result ↔ EndsAs self.now.machine.run self.now.machine.state file.now }
    {
        let Some(cause) = self.machine.cause() else {
            return false;
        };
        match end_of(cause) {
            Some((status, detail)) => status == file.status && detail == file.detail,
            None => false,
        }
    }

    /// Takes out the calls that are heard of the entries so far: those whose callbacks have returned.
    fn heard_calls(&mut self, alloc: Global) -> HeardCalls
        ensures { (done : List Entry) → IsAt done self.old → result ≡ map heard_call (heard self.old.machine.run done) }
    {
        let waiting = &self.waiting;
        self.calls.retain(|call| !waits(waiting, call));
        Sequence(mem::replace(&mut self.calls, Vec::new(alloc)))
    }
}
