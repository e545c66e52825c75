//! The faults of locks in a row of calls, and long lists of calls beside a list that is searched from its front.

use crate::draws::Draws;
use std::alloc::{AllocError, Global};
use std::test::Fail;
use sync_objects::{LockFault, Locks};
use task_pool::TaskId;

/// A call.
#[derive(Clone, Copy)]
enum Ask {
    Init(u32),
    Destroy(u32),
    /// The task takes the lock, where it may.
    Take(u32, TaskId),
    Give(u32, TaskId),
}

/// Whether a lock may be taken; true of each other call that comes to no fault.
type Answer = Result<bool, LockFault>;

/// The least wait identifier of a lock.
const FIRST: u32 = 65_536;

/// Calls one behind the other with their answers, where one critical was initialised.
const ANSWERS: &[(Ask, Answer)] = &[
    (Ask::Init(FIRST), Ok(true)),
    (Ask::Init(FIRST), Err(LockFault::AlreadyInitialised)),
    (Ask::Take(FIRST + 1, 1), Err(LockFault::NotInitialised)),
    (Ask::Give(1, 1), Err(LockFault::NotOwner)),
    (Ask::Take(FIRST, 1), Ok(true)),
    (Ask::Take(FIRST, 1), Ok(false)),
    (Ask::Destroy(FIRST), Err(LockFault::StillHeld)),
    (Ask::Give(FIRST, 2), Err(LockFault::NotOwner)),
    (Ask::Give(FIRST, 1), Ok(true)),
    (Ask::Destroy(FIRST), Ok(true)),
    (Ask::Destroy(FIRST), Err(LockFault::NotInitialised)),
];

/// The faults, and the numbers of their traps.
const TRAPS: &[(LockFault, u8)] = &[
    (LockFault::NotInitialised, 7),
    (LockFault::NotOwner, 8),
    (LockFault::StillHeld, 9),
    (LockFault::AlreadyInitialised, 10),
];

#[test]
fn lock_faults(rt: HostRuntime) -> Result<(), Fail> {
    let mut locks = Locks::new(rt.alloc(), 1)?;
    for (call, (ask, answer)) in ANSWERS.iter().enumerate() {
        let found = answer_of(&mut locks, *ask)?;
        assert!(rt; found == *answer, "at {call}");
    }
    for (fault, number) in TRAPS {
        assert!(rt; fault.number() == *number, "trap {number}");
    }
    Ok(())
}

/// What the locks answer.
fn answer_of(locks: &mut Locks, ask: Ask) -> Result<Answer, AllocError> {
    Ok(match ask {
        Ask::Init(id) => {
            locks.reserve()?;
            without_fault(locks.init(id))
        }
        Ask::Destroy(id) => without_fault(locks.destroy(id)),
        Ask::Take(id, task) => {
            let answer = locks.may_take(id);
            if answer == Ok(true) {
                locks.take(id, task);
            }
            answer
        }
        Ask::Give(id, task) => without_fault(locks.give(id, task)),
    })
}

/// The answer of a call that says no more than its fault.
fn without_fault(done: Result<(), LockFault>) -> Answer {
    match done {
        Ok(()) => Ok(true),
        Err(fault) => Err(fault),
    }
}

/// Locks beside those in the order in which they were initialised, each with its owner, searched from the front.
#[derive(Drop)]
struct Both {
    locks: Locks,
    plain: Vec<(u32, Option<TaskId>)>,
}

#[test]
fn agrees_with_a_plain_list(rt: HostRuntime) -> Result<(), Fail> {
    let mut draws = Draws { state: 42 };
    let mut both = both_of(rt.alloc(), 3)?;
    for call in 0..20_000u32 {
        let ask = drawn(&mut draws);
        let found = answer_of(&mut both.locks, ask)?;
        let answer = plain_answer(&mut both.plain, ask)?;
        assert!(rt; found == answer, "at {call}");
    }
    Ok(())
}

/// So many criticals.
fn both_of(alloc: Global, criticals: u32) -> Result<Both, AllocError> {
    let mut plain = Vec::new(alloc);
    for before in 0..criticals {
        plain.push((before + 1, None))?;
    }
    let locks = Locks::new(alloc, criticals)?;
    Ok(Both { locks, plain })
}

/// A call of twelve locks by three tasks.
fn drawn(draws: &mut Draws) -> Ask {
    let id = draws.below(12).saturating_add(1);
    let task = draws.below(3).saturating_add(1);
    match draws.below(4) {
        0 => Ask::Init(id),
        1 => Ask::Destroy(id),
        2 => Ask::Take(id, task),
        _ => Ask::Give(id, task),
    }
}

/// What the plain list answers.
fn plain_answer(locks: &mut Vec<(u32, Option<TaskId>)>, ask: Ask) -> Result<Answer, AllocError> {
    match ask {
        Ask::Init(id) => init(locks, id),
        Ask::Destroy(id) => Ok(destroy(locks, id)),
        Ask::Take(id, task) => Ok(take(locks, id, task)),
        Ask::Give(id, task) => Ok(give(locks, id, task)),
    }
}

/// The owner of the lock, if it is initialised.
fn owner(locks: &[(u32, Option<TaskId>)], id: u32) -> Option<Option<TaskId>> {
    for lock in locks {
        if lock.0 == id {
            return Some(lock.1);
        }
    }
    None
}

fn set_owner(locks: &mut [(u32, Option<TaskId>)], id: u32, owner: Option<TaskId>) {
    for lock in locks.iter_mut() {
        if lock.0 == id {
            lock.1 = owner;
        }
    }
}

fn init(locks: &mut Vec<(u32, Option<TaskId>)>, id: u32) -> Result<Answer, AllocError> {
    if owner(locks, id).is_some() {
        return Ok(Err(LockFault::AlreadyInitialised));
    }
    locks.push((id, None))?;
    Ok(Ok(true))
}

fn destroy(locks: &mut Vec<(u32, Option<TaskId>)>, id: u32) -> Answer {
    match owner(locks, id) {
        None => Err(LockFault::NotInitialised),
        Some(Some(_)) => Err(LockFault::StillHeld),
        Some(None) => {
            locks.retain(|lock| lock.0 != id);
            Ok(true)
        }
    }
}

fn take(locks: &mut [(u32, Option<TaskId>)], id: u32, task: TaskId) -> Answer {
    match owner(locks, id) {
        None => Err(LockFault::NotInitialised),
        Some(Some(_)) => Ok(false),
        Some(None) => {
            set_owner(locks, id, Some(task));
            Ok(true)
        }
    }
}

fn give(locks: &mut [(u32, Option<TaskId>)], id: u32, task: TaskId) -> Answer {
    match owner(locks, id) {
        None => Err(LockFault::NotInitialised),
        Some(Some(owner)) if owner == task => {
            set_owner(locks, id, None);
            Ok(true)
        }
        Some(_) => Err(LockFault::NotOwner),
    }
}
