ghost use Rattle.std.specs.Prelude.{◌≡◌, ◌==◌, IfOk, IfSome, Some, find, is_some, option_map};
ghost use Rattle.std.specs.List.{list_any};
ghost use Rattle.st_base.specs.Map.{changed_at, value_at};
ghost use Rattle.core_model.specs.Picture.{FamilyView as FamilyPicture};
ghost use Rattle.core_model.specs.Step.{without_job};
ghost use Rattle.core_model.specs.declared.reply.CoreReply.TheVariants.{Done, FamilyGone};
ghost use Rattle.st_version.specs.State.{named_views};
ghost use Rattle.st_core.specs.Written.{IsWithin};

use crate::machine::{CoreOf, PreparedStep};
use core_model::CoreReply;
use st_base::{Family, Rows};
use st_version::FamilyView;
use std::alloc::AllocError;
use std::collections::BTreeMap;
use std::sync::Arc;

// The first family with the id, with its name.
fn entry_of<T: Rows + Drop>(
    families: &BTreeMap<Family, Arc<FamilyView<T>>>,
    id: u32,
) -> Option<(&Family, &Arc<FamilyView<T>>)>
    ensures { option_map (λ found. (found.0.now, found.1.now.value)) result
        ≡ find (λ named. named.1.id == id) (named_views families.now.entries) }
{
    families.iter().find(|named| named.1.id() == id)
}

// The same, with its view, which a look-up of the name finds.
fn named_of<T: Rows + Drop>(
    families: &BTreeMap<Family, Arc<FamilyView<T>>>,
    id: u32,
) -> Option<(&Family, &FamilyView<T>)>
    ensures found { option_map (λ found. (found.0.now, found.1.now)) result
        ≡ find (λ named. named.1.id == id) (named_views families.now.entries) }
    ensures value { IfSome result (λ found.
        value_at (named_views families.now.entries) found.0.now ≡ Some found.1.now) }
{
    let _ = families.len();
    match entry_of(families, id) {
        Some((name, shared)) => Some((name, shared)),
        None => None,
    }
}

impl<T: Rows + Drop> CoreOf<T> {
    // The family with the id, with its name.
    pub(crate) fn family_of(&self, id: u32) -> Option<(&Family, &FamilyView<T>)>
        ensures found { option_map (λ found. (found.0.now, found.1.now)) result
            ≡ find (λ named. named.1.id == id) self.now.families }
        ensures value { IfSome result (λ found. value_at self.now.families found.0.now ≡ Some found.1.now) }
        ensures within { IfSome result (λ found. IsWithin self.now.last found.1.now.mem) }
    {
        named_of(self.state.families(), id)
    }

    // What an installation does where the job's family is gone: the job is forgotten.
    pub(crate) fn gone(&self, number: u64) -> Result<PreparedStep<T>, AllocError>
        ensures reply { IfOk result (λ step. step.reply ≡ FamilyGone) }
        ensures next { IfOk result (λ step. step.next
            ≡ record self.now { jobs = without_job number self.now.jobs }) }
    {
        let mut next = self.same()?;
        next.forget(number);
        Ok(PreparedStep {
            reply: CoreReply::FamilyGone,
            next,
        })
    }

    // What an installation does where the job's family is there: the view takes its place, and the job is forgotten.
    pub(crate) fn installed(
        &self,
        number: u64,
        name: &Family,
        view: Arc<FamilyView<T>>,
    ) -> Result<PreparedStep<T>, AllocError>
        requires { IsWithin self.now.last view.value.mem }
        ensures reply { IfOk result (λ step. step.reply ≡ Done) }
        ensures next { IfOk result (λ step. (change : FamilyPicture → FamilyPicture)
            → IfSome (value_at self.now.families name.now) (λ family. view.value ≡ change family)
            → step.next ≡ record self.now {
              families = changed_at self.now.families name.now change;
              jobs = without_job number self.now.jobs;
            }) }
    {
        let mut next = self.with_view(name, view)?;
        next.forget(number);
        Ok(PreparedStep {
            reply: CoreReply::Done,
            next,
        })
    }
}
