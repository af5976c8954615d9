// The operations of a write.
ghost use Rattle.std.specs.Prelude.{◌≡◌, length, map, slice_get, IfOk};
ghost use Rattle.std.specs.Option.{option_copied};
ghost use Rattle.st_base.specs.Entries.{add_charge, entry_charge};
ghost use Rattle.st_model.specs.Apply.{op_family, op_key, op_mark, write_charge};
ghost use Rattle.log_engine.specs.Op.{logged_op, strangers};

use st_base::{Family, Key, Mark};
use st_model::Op;
use st_wal::Operation;
use std::alloc::{AllocError, Global};

// The family that the operation names.
fn family_of(op: &Op) -> &Family
    ensures { result.now ≡ op_family op.now }
{
    match op {
        Op::Put(family, _, _) => family,
        Op::Del(family, _) => family,
    }
}

/// The key that the operation names.
pub fn key_of(op: &Op) -> &Key
    ensures { result.now ≡ op_key op.now }
{
    match op {
        Op::Put(_, key, _) => key,
        Op::Del(_, key) => key,
    }
}

// What the operation counts against the capacity.
fn op_charge(op: &Op) -> u64
    ensures { result ≡ entry_charge (op_key op.now) (op_mark op.now) }
{
    match op {
        Op::Put(_, key, value) => 32 + key.as_bytes().len() as u64 + value.as_bytes().len() as u64,
        Op::Del(_, key) => 32 + key.as_bytes().len() as u64,
    }
}

/// The charge with that of the operations.
pub fn charge_with(charge: u64, ops: &[Op]) -> u64
    ensures { result ≡ add_charge charge (write_charge ops.now) }
{
    let mut sum = charge;
    for op in ops {
        sum = sum.saturating_add(op_charge(op));
    }
    sum
}

/// The first unknown family.
pub fn first_stranger(ops: &[Op]) -> Option<&Family>
    ensures { option_copied result ≡ slice_get (strangers ops.now) 0 }
{
    for op in ops {
        let family = family_of(op);
        if !family.is_default() {
            return Some(family);
        }
    }
    None
}

// What the operation sets its key to.
fn mark_of(op: &Op) -> Result<Mark, AllocError>
    ensures { IfOk result (λ mark. mark ≡ op_mark op.now) }
{
    match op {
        Op::Put(_, _, value) => Ok(Mark::Put(value.clone()?)),
        Op::Del(_, _) => Ok(Mark::Gone),
    }
}

// The operation as it is logged.
fn logged_op(op: &Op) -> Result<Operation, AllocError>
    ensures { IfOk result (λ operation. operation ≡ logged_op op.now) }
{
    Ok((0, key_of(op).clone()?, mark_of(op)?))
}

/// The operations as they are logged.
pub fn logged_ops(alloc: Global, ops: &[Op]) -> Result<Vec<Operation>, AllocError>
    ensures { IfOk result (λ operations. operations.items ≡ map logged_op ops.now) }
{
    let mut operations = Vec::new(alloc);
    for op in ops {
        operations.push(logged_op(op)?)?;
    }
    Ok(operations)
}
