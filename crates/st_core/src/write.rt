ghost use Rattle.std.specs.Prelude.{◌≡◌, ◌↔◌, ◌+◌, ◌<◌, ◌≤◌, IfNone, IfOk, IsTrue, find, length, nat_lt, not};
ghost use Rattle.std.specs.Option.{option_copied};
ghost use Rattle.st_base.specs.Entries.{add_charge};
ghost use Rattle.st_model.specs.Answer.{write_refusals};
ghost use Rattle.st_model.specs.Apply.{op_family, write_charge};
ghost use Rattle.st_model.specs.State.{greatest_number, has_family};
ghost use Rattle.core_model.specs.Commit.{outline};
ghost use Rattle.core_model.specs.Event.{Write};
ghost use Rattle.core_model.specs.Run.{IsCoreStep};
ghost use Rattle.st_core.specs.Written.{AreWithin};
ghost use Rattle.core_model.specs.Step.{IsNow, first_of, is_due, is_due_at, is_work_first, with_batch};

use crate::families::Families;
use crate::machine::{CoreOf, PreparedStep};
use crate::operations::{charge_with, is_write, op_family};
use core_model::CoreReply;
use st_base::{
    Family, GREATEST_NUMBER, LEVEL_ZERO_FULL, List, MEMTABLE_CHARGE, Rows, SEALED_MEMTABLES,
};
use st_model::{Batch, Op, Refusal};
use st_version::{FamilyView, State};
use std::alloc::AllocError;

// Whether the family has work that comes before a write.
fn is_due<T: Rows + Drop>(family: &FamilyView<T>) -> bool
    ensures { result ≡ is_due family.now }
{
    family.mem().charge() >= MEMTABLE_CHARGE
        || family.sealed().len() >= SEALED_MEMTABLES
        || family.level(0).len() >= LEVEL_ZERO_FULL
}

impl<T: Rows + Drop> CoreOf<T> {
    // Whether the family of this name has work that comes first.
    fn is_due_at(&self, name: &Family) -> bool
        ensures { result ≡ is_due_at self.now name.now }
    {
        match self.state.family(name) {
            Some(family) => is_due(family),
            None => false,
        }
    }

    // Whether a family that the write names has work that comes first.
    fn is_work_first(&self, ops: &[Op]) -> bool
        ensures { result ≡ is_work_first self.now ops.now }
    {
        ops.iter().any(|op| self.is_due_at(op_family(op)))
    }

    // Whether a write may come now.
    fn can_write(&self, batch: &Batch) -> bool
        ensures { IsTrue result ↔ IsNow self.now (Write batch.now) }
    {
        let ops = batch.ops.as_slice();
        !self.turn_out() && is_write(ops) && !self.is_work_first(ops)
    }

    // The first operation whose family isn't there.
    fn unknown<'a>(&self, ops: &'a [Op]) -> Option<&'a Op>
        ensures { option_copied result
            ≡ find (λ op. not (has_family (outline self.now) (op_family op))) ops.now }
    {
        ops.iter().find(|op| !self.has_family(op_family(op)))
    }

    // Whether there are too few numbers left for so many operations.
    fn are_numbers_spent(&self, count: usize) -> bool
        ensures { result ≡ nat_lt greatest_number (self.now.last + count) }
    {
        self.state.last().saturating_add(count as u64) > GREATEST_NUMBER
    }

    // Whether the operations don't fit the capacity.
    fn is_full(&self, ops: &[Op]) -> bool
        ensures { result ≡ nat_lt self.now.capacity (add_charge self.now.charge (write_charge ops.now)) }
    {
        charge_with(self.state.charge(), ops) > self.capacity
    }

    // Why the operations can't be written.
    fn write_refusal(&self, ops: &[Op]) -> Result<Option<Refusal>, AllocError>
        ensures value { IfOk result (λ refusal. refusal
            ≡ first_of (write_refusals (outline self.now) self.now.capacity ops.now)) }
        ensures place { IfOk result (λ refusal. IfNone refusal (self.now.place < greatest_number)) }
        ensures numbers { IfOk result (λ refusal. IfNone refusal (self.now.last + length ops.now ≤ greatest_number)) }
    {
        if let Some(op) = self.unknown(ops) {
            return Ok(Some(Refusal::UnknownFamily(op_family(op).clone()?)));
        }
        if self.are_numbers_spent(ops.len()) {
            return Ok(Some(Refusal::NumbersSpent));
        }
        if self.is_place_spent() {
            return Ok(Some(Refusal::NumbersSpent));
        }
        if self.is_full(ops) {
            return Ok(Some(Refusal::StoreFull));
        }
        Ok(None)
    }

    // The core at the next place, with this last number, this charge and these families.
    fn with_written(
        &self,
        last: u64,
        charge: u64,
        families: Families<T>,
    ) -> Result<CoreOf<T>, AllocError>
        requires within { AreWithin last families }
        requires place { self.now.place < greatest_number }
        ensures { IfOk result (λ core. core ≡ record self.now {
          place = self.now.place + 1;
          last = last;
          charge = charge;
          families = families;
        }) }
    {
        let next = State::new(
            last,
            self.state.behind(),
            charge,
            families.into_map(),
            List::from_slice(self.alloc, self.state.live())?,
        );
        self.moved(next, self.place + 1)
    }

    // The core with the operations.
    fn with_batch(&self, batch: &Batch) -> Result<CoreOf<T>, AllocError>
        requires place { self.now.place < greatest_number }
        requires numbers { self.now.last + length batch.now.ops ≤ greatest_number }
        ensures { IfOk result (λ core. core ≡ with_batch self.now batch.now) }
    {
        let ops = batch.ops.as_slice();
        let last = self.state.last();
        let families = Families::new(&self.state)?;
        let written = families.with_operations(self.alloc, last, ops)?;
        let charge = charge_with(self.state.charge(), ops);
        self.with_written(last + ops.len() as u64, charge, written)
    }

    /// The operations of a write are put in the memtables, under the next numbers. Work that a family needs before is done
    /// first: its memtable has reached 4,194,304 bytes of charge, four of its memtables are sealed, or level 0 has 20 tables.
    pub fn prepare_write(&self, batch: &Batch) -> Result<PreparedStep<T>, AllocError>
        ensures { IfOk result (λ step. IsCoreStep self.now (Write batch.now) step.reply step.next) }
    {
        if !self.can_write(batch) {
            return self.stays(CoreReply::NotNow);
        }
        if let Some(refusal) = self.write_refusal(batch.ops.as_slice())? {
            return self.stays(CoreReply::Refused(refusal));
        }
        let last = self.state.last();
        let reply = CoreReply::BatchWritten(
            self.place + 1,
            last + 1,
            last + batch.ops.len() as u64,
        );
        let next = self.with_batch(batch)?;
        Ok(PreparedStep { reply, next })
    }
}
