//! What makes the runs of jobs: one thread with all turns, or a thread for each thread number.

ghost use Rattle.std.specs.{Prelude.◌≡◌, Prelude.Bool, Prelude.IfOk, Prelude.length, Prelude.true, Thread.IsSync};
ghost use Rattle.ompt_cli.specs.Names.{HandedFor, SameHanded, ProfiledFor, SameProfiled};
ghost use Rattle.ompt_cli.specs.Reports.{HasObserved, RunsJob};

use crate::guests::Part;
use crate::job::Job;
use crate::keepers::Keeper;
use crate::observing::{Gave, Observation, observe, observe_alone};
use std::sync::Wait;
use std::thread::Threads;
use tool_profiled::Profiled;

/// Runs jobs: [`Alone`] runs serial jobs, and [`WithThreads`] runs all jobs. Guests have a method, and so have guests beside profiles.
pub(crate) trait Runner {
    /// Whether it runs jobs that are serial, or jobs that aren't.
    ghost may_run: { Self → Bool → Type 0 };

    /// Runs the job with the parts that this list has. What the list holds afterwards is no clause.
    fn run<P: Keeper>(&self, job: Job, parts: &mut Vec<P>) -> Gave<P>
        requires kind { may_run self.now job.settings.serial }
        requires parts { length parts.old.items ≡ job.settings.threads }
        ensures { IfOk result (RunsJob P.stands_for P.same job parts.old.items) };

    /// Runs the job with these parts. The report has no guests.
    fn run_guests(&self, job: Job, parts: Vec<Part>) -> Observation<Part>
        requires kind { may_run self.now job.settings.serial }
        requires parts { length parts.items ≡ job.settings.threads }
        ensures { IfOk result (HasObserved (HandedFor (λ guest h. (GuestTool-box guest.0).stands_for guest.0.value h))
            (SameHanded (λ guest other. guest.0.vtable ≡ other.0.vtable)) job parts.items) };

    /// Runs the job with these parts, which are joined with profiles. The report has no guests.
    fn run_joined(&self, job: Job, parts: Vec<Profiled<Part>>) -> Observation<Profiled<Part>>
        requires kind { may_run self.now job.settings.serial }
        requires parts { length parts.items ≡ job.settings.threads }
        ensures { IfOk result (HasObserved
            (ProfiledFor (HandedFor (λ guest h. (GuestTool-box guest.0).stands_for guest.0.value h)))
            (SameProfiled (SameHanded (λ guest other. guest.0.vtable ≡ other.0.vtable))) job parts.items) };
}

/// It runs serial jobs, and waits for nobody.
#[derive(Drop)]
pub(crate) struct Alone;

impl Runner for Alone {
    ghost may_run = { λ _ serial. serial ≡ true };

    fn run<P: Keeper>(&self, job: Job, parts: &mut Vec<P>) -> Gave<P> {
        P::run_alone(job, parts)
    }

    fn run_guests(&self, job: Job, parts: Vec<Part>) -> Observation<Part> {
        observe_alone(job, parts)
    }

    fn run_joined(&self, job: Job, parts: Vec<Profiled<Part>>) -> Observation<Profiled<Part>> {
        observe_alone(job, parts)
    }
}

/// It runs jobs by threads too.
#[derive(Drop)]
pub(crate) struct WithThreads<'a, R>(pub &'a R);

impl<'a, R: Threads + Wait + Sync> Runner for WithThreads<'a, R> {
    ghost may_run = { λ _ _. IsSync R.row };

    fn run<P: Keeper>(&self, job: Job, parts: &mut Vec<P>) -> Gave<P> {
        P::on_threads(self.0, job, parts)
    }

    fn run_guests(&self, job: Job, parts: Vec<Part>) -> Observation<Part> {
        observe(self.0, job, parts)
    }

    fn run_joined(&self, job: Job, parts: Vec<Profiled<Part>>) -> Observation<Profiled<Part>> {
        observe(self.0, job, parts)
    }
}
