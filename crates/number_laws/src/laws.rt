//! The numbers that OMPT has for what this runtime tells, written out: each law says what one constant of `omp_codes` is. Each law is a
//! table, a clause a constant.

ghost use Rattle.std.specs.Prelude.{◌≡◌};
ghost use Rattle.omp_codes.specs.declared.endpoints.TheConstants as endpoints;
ghost use Rattle.omp_codes.specs.declared.thread_kinds.TheConstants as thread_kinds;
ghost use Rattle.omp_codes.specs.declared.thread_states.TheConstants as thread_states;
ghost use Rattle.omp_codes.specs.declared.states.TheConstants as states;
ghost use Rattle.omp_codes.specs.declared.parallel_flags.TheConstants as parallel_flags;
ghost use Rattle.omp_codes.specs.declared.task_flags.TheConstants as task_flags;
ghost use Rattle.omp_codes.specs.declared.task_statuses.TheConstants as task_statuses;
ghost use Rattle.omp_codes.specs.declared.work_kinds.TheConstants as work_kinds;
ghost use Rattle.omp_codes.specs.declared.sync_kinds.TheConstants as sync_kinds;
ghost use Rattle.omp_codes.specs.declared.mutex_kinds.TheConstants as mutex_kinds;
ghost use Rattle.omp_codes.specs.declared.dispatch_kinds.TheConstants as dispatch_kinds;
ghost use Rattle.omp_codes.specs.declared.set_results.TheConstants as set_results;

/// The states of a thread: `ompt_state_t` (OpenMP 5.2, 19.4.4), in 32 bits and in the 16 of a snapshot.
pub fn states_have_their_numbers()
    ensures states_work_serial { states.WORK_SERIAL ≡ 0 }
    ensures states_work_parallel { states.WORK_PARALLEL ≡ 1 }
    ensures states_wait_barrier_implicit_parallel { states.WAIT_BARRIER_IMPLICIT_PARALLEL ≡ 17 }
    ensures states_wait_barrier_implicit_workshare { states.WAIT_BARRIER_IMPLICIT_WORKSHARE ≡ 18 }
    ensures states_wait_barrier_explicit { states.WAIT_BARRIER_EXPLICIT ≡ 20 }
    ensures states_wait_taskwait { states.WAIT_TASKWAIT ≡ 32 }
    ensures states_wait_lock { states.WAIT_LOCK ≡ 65 }
    ensures states_wait_critical { states.WAIT_CRITICAL ≡ 66 }
    ensures states_idle { states.IDLE ≡ 256 }
    ensures states_overhead { states.OVERHEAD ≡ 257 }
    ensures states_undefined { states.UNDEFINED ≡ 258 }
    ensures thread_states_work_serial { thread_states.WORK_SERIAL ≡ 0 }
    ensures thread_states_work_parallel { thread_states.WORK_PARALLEL ≡ 1 }
    ensures thread_states_wait_barrier_implicit_parallel { thread_states.WAIT_BARRIER_IMPLICIT_PARALLEL ≡ 17 }
    ensures thread_states_wait_barrier_implicit_workshare { thread_states.WAIT_BARRIER_IMPLICIT_WORKSHARE ≡ 18 }
    ensures thread_states_wait_barrier_explicit { thread_states.WAIT_BARRIER_EXPLICIT ≡ 20 }
    ensures thread_states_wait_taskwait { thread_states.WAIT_TASKWAIT ≡ 32 }
    ensures thread_states_wait_lock { thread_states.WAIT_LOCK ≡ 65 }
    ensures thread_states_wait_critical { thread_states.WAIT_CRITICAL ≡ 66 }
    ensures thread_states_idle { thread_states.IDLE ≡ 256 }
    ensures thread_states_overhead { thread_states.OVERHEAD ≡ 257 }
{}

/// The flags of a region and of a task: `ompt_parallel_flag_t` and `ompt_task_flag_t` (OpenMP 5.2, 19.4.4).
pub fn flags_have_their_bits()
    ensures parallel_flags_invoker_program { parallel_flags.INVOKER_PROGRAM ≡ 1 }
    ensures parallel_flags_team { parallel_flags.TEAM ≡ 2147483648 }
    ensures parallel_flags_team_of_program { parallel_flags.TEAM_OF_PROGRAM ≡ 2147483649 }
    ensures task_flags_initial { task_flags.INITIAL ≡ 1 }
    ensures task_flags_implicit { task_flags.IMPLICIT ≡ 2 }
    ensures task_flags_explicit { task_flags.EXPLICIT ≡ 4 }
    ensures task_flags_undeferred { task_flags.UNDEFERRED ≡ 134217728 }
    ensures task_flags_explicit_undeferred { task_flags.EXPLICIT_UNDEFERRED ≡ 134217732 }
{}

/// The kinds of what a callback tells: ends of a scope, threads, statuses of tasks, work, synchronization, mutexes, dispatch (OpenMP 5.2, 19.4.4).
pub fn kinds_have_their_numbers()
    ensures endpoints_begin { endpoints.BEGIN ≡ 1 }
    ensures endpoints_end { endpoints.END ≡ 2 }
    ensures thread_kinds_initial { thread_kinds.INITIAL ≡ 1 }
    ensures thread_kinds_worker { thread_kinds.WORKER ≡ 2 }
    ensures task_statuses_complete { task_statuses.COMPLETE ≡ 1 }
    ensures task_statuses_switch { task_statuses.SWITCH ≡ 7 }
    ensures work_kinds_loop { work_kinds.LOOP ≡ 1 }
    ensures work_kinds_sections { work_kinds.SECTIONS ≡ 2 }
    ensures work_kinds_single_executor { work_kinds.SINGLE_EXECUTOR ≡ 3 }
    ensures work_kinds_single_other { work_kinds.SINGLE_OTHER ≡ 4 }
    ensures sync_kinds_barrier_explicit { sync_kinds.BARRIER_EXPLICIT ≡ 3 }
    ensures sync_kinds_taskwait { sync_kinds.TASKWAIT ≡ 5 }
    ensures sync_kinds_barrier_implicit_workshare { sync_kinds.BARRIER_IMPLICIT_WORKSHARE ≡ 8 }
    ensures sync_kinds_barrier_implicit_parallel { sync_kinds.BARRIER_IMPLICIT_PARALLEL ≡ 9 }
    ensures mutex_kinds_lock { mutex_kinds.LOCK ≡ 1 }
    ensures mutex_kinds_test_lock { mutex_kinds.TEST_LOCK ≡ 2 }
    ensures mutex_kinds_critical { mutex_kinds.CRITICAL ≡ 5 }
    ensures dispatch_kinds_section { dispatch_kinds.SECTION ≡ 2 }
    ensures dispatch_kinds_ws_loop_chunk { dispatch_kinds.WS_LOOP_CHUNK ≡ 3 }
{}

/// The answers to a registration: `ompt_set_result_t` (OpenMP 5.2, 19.4.4).
pub fn answers_have_their_numbers()
    ensures error { set_results.ERROR ≡ 0 }
    ensures never { set_results.NEVER ≡ 1 }
    ensures always { set_results.ALWAYS ≡ 5 }
{}
