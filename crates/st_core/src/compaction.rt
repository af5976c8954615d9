ghost use Rattle.std.specs.Prelude.{IfOk};
ghost use Rattle.core_model.specs.Event.{CompactInstalled};
ghost use Rattle.core_model.specs.Run.{IsCoreStep};
ghost use Rattle.st_version.specs.Held.{tables_of};
ghost use Rattle.st_core.specs.Ready.{IsAdmissible};

use crate::machine::{CoreOf, PreparedStep};
use core_model::CoreReply;
use st_base::Rows;
use st_version::{Held, replace_is_the_cores};
use std::alloc::AllocError;
use std::sync::Arc;

impl<T: Rows + Drop> CoreOf<T> {
    /// The outputs of a compaction take the place of its inputs, at its level. Where the family is gone, the job is forgotten
    /// alone. It doesn't hold where no compaction of this number is noted.
    ///
    /// It asks (`IsAdmissible`) that the outputs are the job's, and that at its level they meet neither one another nor what stays
    /// there, which `FamilyView::fits` tests.
    pub fn prepare_compact_installed(
        &self,
        number: u64,
        outputs: &[Arc<Held<T>>],
    ) -> Result<PreparedStep<T>, AllocError>
        requires { IsAdmissible self.now (CompactInstalled number (tables_of outputs.now)) }
        ensures { IfOk result (λ step.
            IsCoreStep self.now (CompactInstalled number (tables_of outputs.now)) step.reply step.next) }
    {
        replace_is_the_cores();
        let Some(job) = self.noted(number) else {
            return self.stays(CoreReply::NotNow);
        };
        if job.is_flush() {
            return self.stays(CoreReply::NotNow);
        }
        let id = job.family();
        let its = job.number();
        let Some((name, family)) = self.family_of(id) else {
            return self.gone(its);
        };
        let next = family.replace(self.alloc, job.files(), job.level(), outputs)?;
        let view = Arc::new(self.alloc, next)?;
        self.installed(its, name, view)
    }
}
