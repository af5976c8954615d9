ghost use Rattle.std.specs.Prelude.{◌≡◌, ◌==◌, ◌&&◌, ◌≤◌, ◌∷◌, ◌++◌, [], IfOk, OnOk, length, option_map};
ghost use Rattle.std.specs.List.{list_any};
ghost use Rattle.st_base.specs.Range.{range_of};
ghost use Rattle.st_base.specs.Rows.{AreRows};
ghost use Rattle.core_model.specs.Compaction.{with_flushed, without_last};
ghost use Rattle.core_model.specs.Event.{FlushInstalled, FlushPicked};
ghost use Rattle.core_model.specs.Pick.{flush_of};
ghost use Rattle.core_model.specs.Picture.{is_flush};
ghost use Rattle.core_model.specs.Run.{IsCoreStep};
ghost use Rattle.core_model.specs.Step.{flush_job, has_flush, last_element};
ghost use Rattle.st_version.specs.Held.{entries_in, tables_of};
ghost use Rattle.st_core.specs.Ready.{IsAdmissible};

use crate::copies::key_of;
use crate::input::Input;
use crate::job::Job;
use crate::machine::{CoreOf, PreparedStep};
use core_model::CoreReply;
use st_base::{Family, KeyRange, List, Rows};
use st_memtable::{Mem, Run};
use st_overlap::{first_key_of, last_key_of};
use st_version::{FamilyView, Held, replace_is_the_cores};
use std::alloc::{AllocError, Global};
use std::sync::Arc;

// The range from the run's first key to its last.
fn range_of_run(alloc: Global, run: &Run) -> Result<KeyRange, AllocError>
    ensures value { IfOk result (λ range. range ≡ range_of run.now) }
    ensures rows { AreRows run.now }
{
    let _entries = run.len();
    Ok(KeyRange {
        first: key_of(alloc, first_key_of(run))?,
        last: key_of(alloc, last_key_of(run))?,
    })
}

// The range from no bytes to no bytes.
fn no_range(alloc: Global) -> Result<KeyRange, AllocError>
    ensures { IfOk result (λ range. range ≡ range_of []) }
{
    Ok(KeyRange {
        first: key_of(alloc, &[])?,
        last: key_of(alloc, &[])?,
    })
}

// The range from the memtable's first key to its last. Its runs are joined for that, if it has more than one.
fn range_of_memtable(alloc: Global, mem: &Mem) -> Result<KeyRange, AllocError>
    ensures { IfOk result (λ range. range ≡ range_of mem.now.entries) }
{
    let settled = mem.settled()?;
    match settled.parts().first() {
        Some(run) => range_of_run(alloc, run),
        None => no_range(alloc),
    }
}

// Whether one of the jobs is a flush of the family with this id.
fn has_flush_of<T: Rows + Drop>(jobs: &[Arc<Job<T>>], id: u32) -> bool
    ensures { result ≡ list_any (λ job. job.value.family == id && is_flush job.value) jobs.now }
{
    jobs.iter().any(|job| job.family() == id && job.is_flush())
}

// The last of these memtables.
fn oldest_of(sealed: &[Arc<Mem>]) -> Option<&Arc<Mem>>
    ensures { option_map (λ mem. mem.now.value.entries) result ≡ last_element (entries_in sealed.now) }
{
    sealed.last()
}

// Puts these memtables at the end, shared once more.
fn share_memtables(list: &mut List<Arc<Mem>>, memtables: &[Arc<Mem>]) -> Result<(), AllocError>
    ensures { OnOk result (entries_in list.new ≡ entries_in list.old ++ entries_in memtables.now) }
{
    for mem in memtables {
        list.push(mem.clone()?)?;
    }
    Ok(())
}

// All of these memtables but the last.
fn newer_of(sealed: &[Arc<Mem>]) -> &[Arc<Mem>]
    ensures { entries_in result.now ≡ without_last (entries_in sealed.now) }
{
    match sealed.split_last() {
        Some((_, newer)) => newer,
        None => &[],
    }
}

// All of these memtables but the last, shared once more.
fn without_oldest(alloc: Global, sealed: &[Arc<Mem>]) -> Result<List<Arc<Mem>>, AllocError>
    ensures { IfOk result (λ left. entries_in left ≡ without_last (entries_in sealed.now)) }
{
    let mut left = List::new(alloc);
    share_memtables(&mut left, newer_of(sealed))?;
    Ok(left)
}

// The list of the one table.
fn one_table<T: Rows + Drop>(
    alloc: Global,
    table: &Arc<Held<T>>,
) -> Result<List<Arc<Held<T>>>, AllocError>
    ensures { IfOk result (λ tables. tables_of tables ≡ table.now.value.table ∷ []) }
{
    let mut tables = List::new(alloc);
    tables.push(table.clone()?)?;
    Ok(tables)
}

// The family without its oldest sealed memtable, and with the table the newest of level 0.
fn with_flushed<T: Rows + Drop>(
    alloc: Global,
    family: &FamilyView<T>,
    output: &Arc<Held<T>>,
) -> Result<FamilyView<T>, AllocError>
    requires { 1 ≤ length output.now.value.table.entries }
    ensures { IfOk result (λ next. next ≡ with_flushed output.now.value.table family.now) }
{
    replace_is_the_cores();
    let outputs = one_table(alloc, output)?;
    let placed = family.replace(alloc, &[], 0, outputs.as_slice())?;
    placed.with_memtables(
        family.mem().clone()?,
        without_oldest(alloc, family.sealed())?,
    )
}

impl<T: Rows + Drop> CoreOf<T> {
    // Whether a flush of the family is noted.
    fn has_flush(&self, family: &FamilyView<T>) -> bool
        ensures { result ≡ has_flush self.now family.now }
    {
        has_flush_of(self.jobs.as_slice(), family.id())
    }

    // The flush of this memtable.
    fn flush_of(&self, family: &FamilyView<T>, oldest: &Arc<Mem>) -> Result<Job<T>, AllocError>
        ensures { IfOk result (λ job. job ≡ flush_of self.now family.now oldest.now.value.entries) }
    {
        let mut inputs = List::new(self.alloc);
        inputs.push(Input::Memory(oldest.clone()?))?;
        Ok(Job {
            number: self.next_job(),
            family: family.id(),
            level: 0,
            files: List::new(self.alloc),
            inputs,
            range: range_of_memtable(self.alloc, oldest)?,
            live: self.live_numbers()?,
            began: self.state.last(),
            drops: List::new(self.alloc),
        })
    }

    // The flush that picking gives.
    fn flush_job(&self, name: &Family) -> Result<Option<Job<T>>, AllocError>
        ensures { IfOk result (λ job. job ≡ flush_job self.now name.now) }
    {
        let Some(family) = self.state.family(name) else {
            return Ok(None);
        };
        if self.has_flush(family) {
            return Ok(None);
        }
        match oldest_of(family.sealed()) {
            Some(oldest) => Ok(Some(self.flush_of(family, oldest)?)),
            None => Ok(None),
        }
    }

    /// A flush of the family's oldest sealed memtable is picked, and noted. It doesn't hold where there is none, or where a
    /// flush of the family is noted already.
    pub fn prepare_flush_picked(&self, name: &Family) -> Result<PreparedStep<T>, AllocError>
        ensures { IfOk result (λ step. IsCoreStep self.now (FlushPicked name.now) step.reply step.next) }
    {
        let Some(job) = self.flush_job(name)? else {
            return self.stays(CoreReply::NotNow);
        };
        let reply = CoreReply::JobPicked(job.number());
        let next = self.with_job(job)?;
        Ok(PreparedStep { reply, next })
    }

    /// The output of a flush takes the place of the memtable: it is the newest table of level 0. Where the family is gone,
    /// the job is forgotten alone. It doesn't hold where no flush of this number is noted. It asks (`IsAdmissible`) that the output
    /// is the flush's.
    pub fn prepare_flush_installed(
        &self,
        number: u64,
        output: &Arc<Held<T>>,
    ) -> Result<PreparedStep<T>, AllocError>
        requires { IsAdmissible self.now (FlushInstalled number output.now.value.table) }
        ensures { IfOk result (λ step.
            IsCoreStep self.now (FlushInstalled number output.now.value.table) step.reply step.next) }
    {
        let Some(job) = self.noted(number) else {
            return self.stays(CoreReply::NotNow);
        };
        if !job.is_flush() {
            return self.stays(CoreReply::NotNow);
        }
        let id = job.family();
        let its = job.number();
        let Some((name, family)) = self.family_of(id) else {
            return self.gone(its);
        };
        let view = Arc::new(self.alloc, with_flushed(self.alloc, family, output)?)?;
        self.installed(its, name, view)
    }
}
