//! The numbers of the machine that definitions and code share.

/// The number of the limit of silent steps.
pub const STEPS: u8 = 1;

/// The most silent steps that one turn makes.
pub const STEPS_OF_A_TURN: u32 = 64;

/// The number of the limit of turns.
pub const TURNS: u8 = 2;

/// The turn with this number, counted from 1, does nothing but end the run.
pub const TURN_LIMIT: u32 = 524_288;

/// The number of the limit of tasks.
pub const TASKS: u8 = 4;

/// The number of the limit of a thread's stack.
pub const STACK: u8 = 5;

/// The most tasks on a thread's stack.
pub const STACK_LIMIT: usize = 256;

/// The most words that a tool stores during one callback.
pub const STORE_LIMIT: u8 = 3;

/// The identity of the initial task.
pub const INITIAL_TASK: u32 = 1;

/// The identity of the implicit parallel region of the initial task.
pub const IMPLICIT_REGION: u32 = 1;

/// The trap of members of a team that meet different worksharing constructs or barriers.
pub const MISMATCH: u8 = 4;

/// The trap of a `num_threads` below 1.
pub const TEAM_SIZE: u8 = 5;

/// The trap of a construct in a region in which it may not be.
pub const NESTING: u8 = 6;
