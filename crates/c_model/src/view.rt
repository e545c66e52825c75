//! What the thread that runs a task's code sees of its team.

/// What the three routines of threads give (OpenMP 5.2, 18.2.2 to 18.2.4).
#[derive(Clone, Copy)]
pub struct View {
    /// `omp_get_thread_num`: the thread's number in the team of its current region, from 0.
    pub index: u32,
    /// `omp_get_num_threads`: how many threads that team has.
    pub team: u32,
    /// `omp_get_max_threads`: how many threads a run may have.
    pub max: u32,
}
