//! What the machine's turns change, and what a tool hears of it: threads, tasks with their code, regions with their teams, cells and locks.
//!
//! Contracts see a [`Board`] as the program, a world of `omp_model`'s definitions, and room for a turn. Its calls are those definitions':
//!
//! - [`Board::new`] gives the first world of a program's run, and [`Board::reserve`] makes room for a turn of a thread;
//! - [`Board::arrival`] tells what a thread comes to next, or that it has to wait;
//! - [`Board::step`] makes a silent step, or tells the trap or limit that it meets;
//! - [`Board::begin_code_event`] makes the Go of an event of a task's code, and [`Board::begin_runtime_event`] that of an event beside all code, or they tell the trap
//!   or limit that it meets, and then nothing has changed but that the task has left out what it goes past;
//! - [`Board::back`] makes what takes hold at the Back of an event's callback;
//! - [`Board::store`] stores into a data word, and the other calls tell the world;
//! - [`call_of`] and [`snapshot_of`] tell the call of an event that has just occurred, and what can be inquired during it, with the room of
//!   [`Levels`]. [`callback_of`] is the number of the event's callback.
//!
//! Only [`Board::new`], [`Board::reserve`] and [`Levels::new`] take memory; where they find none, nothing has changed but room. Room is for the 64
//! silent steps of a turn and its event: of the code of the thread's current task, for a task more, a region more, a meeting of the thread's team,
//! and a lock.
//!
//! The modules: `thread`, `task` with `tasks` and `controls`, and `region` with `regions` and `head` keep the parts; `board` puts them together,
//! with a file each for what changes of threads, tasks and data words (`threads`, `tasks`, `words`) and for each step of a turn (`arrival`, `silent`, `coming`
//! with `effects` and `meeting`, `returning`); `call`, `snapshot`, `levels` and `frames` tell it. In `specs/` `Board` says what a board is
//! seen as and what a turn's calls answer, `Answering` what is answered where a task's code asks, `Events` what the Go of an event of a task's code
//! requires and changes, `Tasks` and `Regions` what the parts are seen as; `Threads`, `Keeping` and `KeepingRegions` how the parts are kept, `Levels`
//! parts of a snapshot's levels, and `Codes` has codes of values, which serve proofs.
//!
//! A task that has ended keeps no code: its control serves a task to come, where few are kept, or is given back. What calls cost is no clause.
#![tactic(auto)]

mod board;
mod call;
mod call_parts;
mod controls;
mod frames;
mod head;
mod levels;
mod region;
mod regions;
mod snapshot;
mod task;
mod tasks;
mod thread;

pub use board::{Board, sync_number};
pub use call::{call_of, callback_of};
pub use levels::Levels;
pub use snapshot::snapshot_of;
