//! The callbacks of the profile: those whose events a program may have.

ghost use Rattle.std.specs.Prelude.{◌≡◌, ◌≤◌, ◌==◌, ℕ, All, length, nat_lt, true};
ghost use Rattle.std.specs.Int.{bit_at};
ghost use Rattle.std.specs.List.{list_all};
ghost use Rattle.omp_codes.specs.Answers.{callback_name, in_profile, mask_of, profile};
ghost use Rattle.omp_codes.specs.declared.callbacks.TheConstants as callbacks;

/// `ompt_callback_thread_begin` of `ompt_callbacks_t` (OpenMP 5.2, 19.4.2), as all that follow.
pub const THREAD_BEGIN: u32 = 1;

/// `ompt_callback_thread_end`.
pub const THREAD_END: u32 = 2;

/// `ompt_callback_parallel_begin`.
pub const PARALLEL_BEGIN: u32 = 3;

/// `ompt_callback_parallel_end`.
pub const PARALLEL_END: u32 = 4;

/// `ompt_callback_task_create`.
pub const TASK_CREATE: u32 = 5;

/// `ompt_callback_task_schedule`.
pub const TASK_SCHEDULE: u32 = 6;

/// `ompt_callback_implicit_task`.
pub const IMPLICIT_TASK: u32 = 7;

/// `ompt_callback_sync_region_wait`.
pub const SYNC_REGION_WAIT: u32 = 16;

/// `ompt_callback_mutex_released`.
pub const MUTEX_RELEASED: u32 = 17;

/// `ompt_callback_work`.
pub const WORK: u32 = 20;

/// `ompt_callback_masked`.
pub const MASKED: u32 = 21;

/// `ompt_callback_sync_region`.
pub const SYNC_REGION: u32 = 23;

/// `ompt_callback_lock_init`.
pub const LOCK_INIT: u32 = 24;

/// `ompt_callback_lock_destroy`.
pub const LOCK_DESTROY: u32 = 25;

/// `ompt_callback_mutex_acquire`.
pub const MUTEX_ACQUIRE: u32 = 26;

/// `ompt_callback_mutex_acquired`.
pub const MUTEX_ACQUIRED: u32 = 27;

/// `ompt_callback_dispatch`.
pub const DISPATCH: u32 = 32;

/// How many callbacks the profile has.
pub const COUNT: usize = 17;

/// The callbacks of the profile, by rising numbers.
pub const PROFILE: [u32; COUNT] = [
    THREAD_BEGIN,
    THREAD_END,
    PARALLEL_BEGIN,
    PARALLEL_END,
    TASK_CREATE,
    TASK_SCHEDULE,
    IMPLICIT_TASK,
    SYNC_REGION_WAIT,
    MUTEX_RELEASED,
    WORK,
    MASKED,
    SYNC_REGION,
    LOCK_INIT,
    LOCK_DESTROY,
    MUTEX_ACQUIRE,
    MUTEX_ACQUIRED,
    DISPATCH,
];

/// The mask of the profile: bit n for number n.
pub const PROFILE_MASK: u64 = 0x1_0FB3_00FE;

/// Whether a program may have events of the callback with this number.
pub fn is_profile(number: u32) -> bool
    ensures { result ≡ in_profile number }
{
    matches!(
        number,
        THREAD_BEGIN
            | THREAD_END
            | PARALLEL_BEGIN
            | PARALLEL_END
            | TASK_CREATE
            | TASK_SCHEDULE
            | IMPLICIT_TASK
            | SYNC_REGION_WAIT
            | MUTEX_RELEASED
            | WORK
            | MASKED
            | SYNC_REGION
            | LOCK_INIT
            | LOCK_DESTROY
            | MUTEX_ACQUIRE
            | MUTEX_ACQUIRED
            | DISPATCH
    )
}

/// The name of a callback of the profile: that of `ompt_callbacks_t`, without `ompt_callback_`. It is short, and ASCII.
pub fn name(number: u32) -> &'static str
    ensures name { result.now ≡ callback_name number }
    ensures short { length result.now ≤ 18 }
    ensures plain { list_all (λ (byte : ℕ). nat_lt byte 128) result.now ≡ true }
{
    match number {
        THREAD_BEGIN => "thread_begin",
        THREAD_END => "thread_end",
        PARALLEL_BEGIN => "parallel_begin",
        PARALLEL_END => "parallel_end",
        TASK_CREATE => "task_create",
        TASK_SCHEDULE => "task_schedule",
        IMPLICIT_TASK => "implicit_task",
        SYNC_REGION_WAIT => "sync_region_wait",
        MUTEX_RELEASED => "mutex_released",
        WORK => "work",
        MASKED => "masked",
        SYNC_REGION => "sync_region",
        LOCK_INIT => "lock_init",
        LOCK_DESTROY => "lock_destroy",
        MUTEX_ACQUIRE => "mutex_acquire",
        MUTEX_ACQUIRED => "mutex_acquired",
        DISPATCH => "dispatch",
        _ => "",
    }
}

/// A law: `PROFILE` lists the callbacks of the profile by rising numbers, each of them has a name, and the mask of the profile has these
/// and no others.
pub fn profile_has_its_mask()
    ensures rising { PROFILE ≡ profile }
    ensures listed { PROFILE_MASK ≡ mask_of PROFILE }
    ensures within { All (λ number. in_profile number ≡ true) PROFILE }
    ensures named { All (λ number. 1 ≤ length (callback_name number)) PROFILE }
    ensures bits { (number : ℕ) → (bit_at PROFILE_MASK number == 1) ≡ in_profile number }
{}

/// A law: the numbers of the callbacks, written out: `ompt_callbacks_t` (OpenMP 5.2, 19.4.2), and the mask of the profile. It is a table: a
/// clause a constant.
pub fn callbacks_have_their_numbers()
    ensures thread_begin { callbacks.THREAD_BEGIN ≡ 1 }
    ensures thread_end { callbacks.THREAD_END ≡ 2 }
    ensures parallel_begin { callbacks.PARALLEL_BEGIN ≡ 3 }
    ensures parallel_end { callbacks.PARALLEL_END ≡ 4 }
    ensures task_create { callbacks.TASK_CREATE ≡ 5 }
    ensures task_schedule { callbacks.TASK_SCHEDULE ≡ 6 }
    ensures implicit_task { callbacks.IMPLICIT_TASK ≡ 7 }
    ensures sync_region_wait { callbacks.SYNC_REGION_WAIT ≡ 16 }
    ensures mutex_released { callbacks.MUTEX_RELEASED ≡ 17 }
    ensures work { callbacks.WORK ≡ 20 }
    ensures masked { callbacks.MASKED ≡ 21 }
    ensures sync_region { callbacks.SYNC_REGION ≡ 23 }
    ensures lock_init { callbacks.LOCK_INIT ≡ 24 }
    ensures lock_destroy { callbacks.LOCK_DESTROY ≡ 25 }
    ensures mutex_acquire { callbacks.MUTEX_ACQUIRE ≡ 26 }
    ensures mutex_acquired { callbacks.MUTEX_ACQUIRED ≡ 27 }
    ensures dispatch { callbacks.DISPATCH ≡ 32 }
    ensures profile_mask { callbacks.PROFILE_MASK ≡ 4558356734 }
{}
