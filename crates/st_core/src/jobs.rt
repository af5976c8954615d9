ghost use Rattle.std.specs.Prelude.{◌≡◌, ◌==◌, ◌+◌, ◌<◌, ◌^◌, ◌∷◌, ◌++◌, [], IfOk, OnOk, find, length, map};
ghost use Rattle.std.specs.List.{list_any};
ghost use Rattle.std.specs.Option.{option_copied};
ghost use Rattle.core_model.specs.Event.{JobGivenUp, TurnReturned};
ghost use Rattle.core_model.specs.Pick.{least_unused, next_job, with_job};
ghost use Rattle.core_model.specs.Picture.{live_numbers};
ghost use Rattle.core_model.specs.Run.{IsCoreStep};
ghost use Rattle.core_model.specs.Step.{noted_job, without_job};
ghost use Rattle.st_core.specs.Shared.{jobs_shared};

use crate::job::Job;
use crate::machine::CoreOf;
use core_model::CoreReply;
use st_base::{List, Rows};
use st_model::Snapshot;
use std::alloc::{AllocError, Global};
use std::sync::Arc;

// Takes out the jobs of the number.
fn forget<T: Rows + Drop>(jobs: &mut Vec<Arc<Job<T>>>, number: u64)
    ensures { jobs_shared jobs.new.items ≡ without_job number (jobs_shared jobs.old.items) }
{
    jobs.retain(|job| job.number() != number);
}

// Puts the job at the end.
fn push_job<T: Rows + Drop>(jobs: &mut Vec<Arc<Job<T>>>, job: Arc<Job<T>>) -> Result<(), AllocError>
    ensures { OnOk result (jobs_shared jobs.new.items ≡ jobs_shared jobs.old.items ++ job.value ∷ []) }
{
    jobs.push(job)?;
    Ok(())
}

// The first job of the number.
fn job_of<T: Rows + Drop>(jobs: &[Arc<Job<T>>], number: u64) -> Option<&Arc<Job<T>>>
    ensures { option_copied result ≡ find (λ job. job.value.number == number) jobs.now }
{
    jobs.iter().find(|job| job.number() == number)
}

// The numbers of these snapshots.
fn numbers_of(alloc: Global, live: &[Snapshot]) -> Result<List<u64>, AllocError>
    ensures { IfOk result (λ numbers. numbers ≡ map (λ one. one.number) live.now) }
{
    let mut numbers = List::new(alloc);
    for one in live {
        numbers.push(one.number)?;
    }
    Ok(numbers)
}

// Whether a shared job has the number.
fn shares_number<T: Rows + Drop>(jobs: &[Arc<Job<T>>], number: u64) -> bool
    ensures { result ≡ list_any (λ job. job.value.number == number) jobs.now }
{
    jobs.iter().any(|job| job.number() == number)
}

// Whether a job has the number.
fn has_number<T: Rows + Drop>(jobs: &[Arc<Job<T>>], number: u64) -> bool
    ensures { result ≡ list_any (λ job. job.number == number) (jobs_shared jobs.now) }
{
    shares_number(jobs, number)
}

// The least number from `first` on that no job has, if so many are tried.
fn least_unused<T: Rows + Drop>(jobs: &[Arc<Job<T>>], tries: usize, first: u64) -> u64
    requires { first + tries < 2 ^ 64 }
    ensures { result ≡ least_unused tries first (jobs_shared jobs.now) }
{
    if tries > 0 && has_number(jobs, first) {
        return least_unused(jobs, tries - 1, first + 1);
    }
    first
}

// The least number above 0 that no job has.
fn first_unused<T: Rows + Drop>(jobs: &[Arc<Job<T>>]) -> u64
    ensures { result ≡ least_unused (length (jobs_shared jobs.now)) 1 (jobs_shared jobs.now) }
{
    least_unused(jobs, jobs.len(), 1)
}

impl<T: Rows + Drop> CoreOf<T> {
    // The numbers of the live snapshots.
    pub(crate) fn live_numbers(&self) -> Result<List<u64>, AllocError>
        ensures { IfOk result (λ numbers. numbers ≡ live_numbers self.now) }
    {
        numbers_of(self.alloc, self.state.live())
    }

    // The number of the next job.
    pub(crate) fn next_job(&self) -> u64
        ensures { result ≡ next_job self.now }
    {
        match self.jobs_made.checked_add(1) {
            Some(number) => number,
            None => first_unused(self.jobs.as_slice()),
        }
    }

    // The core with one noted job more.
    pub(crate) fn with_job(&self, job: Job<T>) -> Result<CoreOf<T>, AllocError>
        ensures { IfOk result (λ core. core ≡ with_job self.now job) }
    {
        let mut next = self.same()?;
        push_job(&mut next.jobs, Arc::new(self.alloc, job)?)?;
        next.jobs_made = next.jobs_made.saturating_add(1);
        Ok(next)
    }

    /// The noted job of the number: None exactly where there is none.
    pub fn noted(&self, number: u64) -> Option<&Job<T>>
        ensures { option_copied result ≡ noted_job self.now number }
    {
        match job_of(self.jobs.as_slice(), number) {
            Some(job) => Some(job),
            None => None,
        }
    }

    // Takes out the jobs of the number.
    pub(crate) fn forget(&mut self, number: u64)
        ensures { self.new ≡ record self.old { jobs = without_job number self.old.jobs } }
    {
        forget(&mut self.jobs, number);
    }

    /// A job is given up, and forgotten. It takes no memory.
    pub fn give_up(&mut self, number: u64) -> CoreReply
        ensures { IsCoreStep self.old (JobGivenUp number) result self.new }
    {
        if self.noted(number).is_none() {
            return CoreReply::NotNow;
        }
        self.forget(number);
        CoreReply::Done
    }

    /// The turn that is out ends, and nothing of its request is taken in. It takes no memory.
    pub fn return_turn(&mut self) -> CoreReply
        ensures { IsCoreStep self.old TurnReturned result self.new }
    {
        if !self.turn_out() {
            return CoreReply::NotNow;
        }
        self.turn = None;
        CoreReply::Done
    }
}
