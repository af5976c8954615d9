ghost use Rattle.std.specs.Prelude.{◌≡◌, ◌↔◌, ◌+◌, ◌-◌, ◌^◌, IfOk, IsTrue, length, min, sum_by};
ghost use Rattle.std.specs.List.{AllByRecursion};
ghost use Rattle.st_base.specs.Entries.{add_charge, mark_length};
ghost use Rattle.st_model.specs.Apply.{op_entry, op_family, op_key, op_mark, write_charge};
ghost use Rattle.core_model.specs.RelationParts.{FitsSizes};
ghost use Rattle.core_model.specs.Step.{IsWriteWithinLimits};

use st_base::{Entry, Family, Mark, WRITE_BYTES, WRITE_OPERATIONS};
use st_model::Op;
use std::alloc::AllocError;

// The family that the operation is for.
pub(crate) fn op_family(op: &Op) -> &Family
    ensures { result.now ≡ op_family op.now }
{
    match op {
        Op::Put(family, _, _) => family,
        Op::Del(family, _) => family,
    }
}

// The entry that the operation puts, under this number.
pub(crate) fn op_entry(op: &Op, number: u64) -> Result<Entry, AllocError>
    ensures { IfOk result (λ entry. entry ≡ op_entry number op.now) }
{
    match op {
        Op::Put(_, key, value) => Ok(Entry {
            key: key.clone()?,
            number,
            mark: Mark::Put(value.clone()?),
        }),
        Op::Del(_, key) => Ok(Entry {
            key: key.clone()?,
            number,
            mark: Mark::Gone,
        }),
    }
}

// How many bytes the operation's key and value have.
fn op_bytes(op: &Op) -> u64
    ensures value { result ≡ length (op_key op.now) + mark_length (op_mark op.now) }
    ensures fits { FitsSizes (op_entry 0 op.now) }
{
    match op {
        Op::Put(_, key, value) => key.as_bytes().len() as u64 + value.as_bytes().len() as u64,
        Op::Del(_, key) => key.as_bytes().len() as u64,
    }
}

// How many bytes the operations' keys and values have, as far as 64 bits hold it.
fn bytes_of(ops: &[Op]) -> u64
    ensures value { result
        ≡ min (sum_by (λ op. length (op_key op) + mark_length (op_mark op)) ops.now) (2 ^ 64 - 1) }
    ensures fits { AllByRecursion (λ op. FitsSizes (op_entry 0 op)) ops.now }
{
    let mut bytes = 0u64;
    for op in ops {
        bytes = bytes.saturating_add(op_bytes(op));
    }
    bytes
}

// The charge with that of the operations.
pub(crate) fn charge_with(charge: u64, ops: &[Op]) -> u64
    ensures { result ≡ add_charge charge (write_charge ops.now) }
{
    let mut sum = charge;
    for op in ops {
        sum = sum.saturating_add(op_bytes(op) + 32);
    }
    sum
}

// Whether the operations are within the limits of a write.
pub(crate) fn is_write(ops: &[Op]) -> bool
    ensures { IsTrue result ↔ IsWriteWithinLimits ops.now }
{
    let bytes = bytes_of(ops);
    !ops.is_empty() && ops.len() <= WRITE_OPERATIONS && bytes <= WRITE_BYTES as u64
}
