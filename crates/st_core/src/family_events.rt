ghost use Rattle.std.specs.Prelude.{◌≡◌, ◌==◌, ◌<◌, IfNone, IfOk, length};
ghost use Rattle.st_model.specs.Answer.{drop_refusals, make_refusals};
ghost use Rattle.st_model.specs.State.{greatest_number, last_family_id};
ghost use Rattle.core_model.specs.Commit.{outline};
ghost use Rattle.core_model.specs.Event.{DropFamily, MakeFamily, Seal};
ghost use Rattle.core_model.specs.Run.{IsCoreStep};
ghost use Rattle.core_model.specs.Step.{first_of, with_family, without_family};

use crate::families::Families;
use crate::machine::{CoreOf, PreparedStep};
use core_model::CoreReply;
use st_base::{FAMILIES, Family, LAST_FAMILY_ID, Rows};
use st_model::Refusal;
use st_version::FamilyView;
use std::alloc::AllocError;
use std::sync::Arc;

// Whether the family's memtable has no entry.
fn is_unwritten<T: Rows + Drop>(family: &FamilyView<T>) -> bool
    ensures { result ≡ (length family.now.mem == 0) }
{
    family.mem().least().is_none()
}

impl<T: Rows + Drop> CoreOf<T> {
    // Why the family can't be made.
    fn make_refusal(&self, name: &Family) -> Result<Option<Refusal>, AllocError>
        ensures value { IfOk result (λ refusal. refusal ≡ first_of (make_refusals (outline self.now) name.now)) }
        ensures place { IfOk result (λ refusal. IfNone refusal (self.now.place < greatest_number)) }
        ensures id { IfOk result (λ refusal. IfNone refusal (self.now.next_family < last_family_id)) }
    {
        if self.has_family(name) {
            return Ok(Some(Refusal::FamilyExists(name.clone()?)));
        }
        if self.family_count() >= FAMILIES {
            return Ok(Some(Refusal::FamiliesFull));
        }
        if self.next_family >= LAST_FAMILY_ID {
            return Ok(Some(Refusal::NumbersSpent));
        }
        if self.is_place_spent() {
            return Ok(Some(Refusal::NumbersSpent));
        }
        Ok(None)
    }

    // The core with an empty family under the next id.
    fn with_family(&self, name: &Family) -> Result<CoreOf<T>, AllocError>
        requires place { self.now.place < greatest_number }
        requires id { self.now.next_family < last_family_id }
        ensures { IfOk result (λ core. core ≡ with_family self.now name.now) }
    {
        let view = Arc::new(self.alloc, FamilyView::new(self.alloc, self.next_family)?)?;
        let mut families = Families::new(&self.state)?;
        families.insert(name.clone()?, view)?;
        let mut next = self.with_families(families, self.place + 1)?;
        next.next_family += 1;
        Ok(next)
    }

    /// A family is made, empty and under the next id.
    pub fn prepare_make_family(&self, name: &Family) -> Result<PreparedStep<T>, AllocError>
        ensures { IfOk result (λ step. IsCoreStep self.now (MakeFamily name.now) step.reply step.next) }
    {
        if self.turn_out() {
            return self.stays(CoreReply::NotNow);
        }
        if let Some(refusal) = self.make_refusal(name)? {
            return self.stays(CoreReply::Refused(refusal));
        }
        let reply = CoreReply::At(self.place + 1);
        let next = self.with_family(name)?;
        Ok(PreparedStep { reply, next })
    }

    // Why the family can't be dropped.
    fn drop_refusal(&self, name: &Family) -> Result<Option<Refusal>, AllocError>
        ensures value { IfOk result (λ refusal. refusal ≡ first_of (drop_refusals (outline self.now) name.now)) }
        ensures place { IfOk result (λ refusal. IfNone refusal (self.now.place < greatest_number)) }
    {
        if name.is_default() {
            return Ok(Some(Refusal::DefaultStays));
        }
        if !self.has_family(name) {
            return Ok(Some(Refusal::UnknownFamily(name.clone()?)));
        }
        if self.is_place_spent() {
            return Ok(Some(Refusal::NumbersSpent));
        }
        Ok(None)
    }

    // The core without the family.
    fn without_family(&self, name: &Family) -> Result<CoreOf<T>, AllocError>
        requires { self.now.place < greatest_number }
        ensures { IfOk result (λ core. core ≡ without_family self.now name.now) }
    {
        let mut families = Families::new(&self.state)?;
        families.remove(name);
        self.with_families(families, self.place + 1)
    }

    /// A family is dropped, with all that it has. Its jobs stay noted until they end.
    pub fn prepare_drop_family(&self, name: &Family) -> Result<PreparedStep<T>, AllocError>
        ensures { IfOk result (λ step. IsCoreStep self.now (DropFamily name.now) step.reply step.next) }
    {
        if self.turn_out() {
            return self.stays(CoreReply::NotNow);
        }
        if let Some(refusal) = self.drop_refusal(name)? {
            return self.stays(CoreReply::Refused(refusal));
        }
        let reply = CoreReply::At(self.place + 1);
        let next = self.without_family(name)?;
        Ok(PreparedStep { reply, next })
    }

    /// The family's memtable is sealed, in one run, and an empty one takes its place. It doesn't hold where the memtable has
    /// no entry.
    pub fn prepare_seal(&self, name: &Family) -> Result<PreparedStep<T>, AllocError>
        ensures { IfOk result (λ step. IsCoreStep self.now (Seal name.now) step.reply step.next) }
    {
        let Some(family) = self.state.family(name) else {
            return self.stays(CoreReply::NotNow);
        };
        if is_unwritten(family) {
            return self.stays(CoreReply::NotNow);
        }
        let view = Arc::new(self.alloc, family.with_sealed(self.alloc)?)?;
        let next = self.with_view(name, view)?;
        Ok(PreparedStep {
            reply: CoreReply::Done,
            next,
        })
    }
}
