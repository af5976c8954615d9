// Records are appended one after the other.
ghost use Rattle.std.specs.Prelude.{◌≡◌, ◌≤◌, ◌++◌, ◌∷◌, [], length, IsErr, OnOk};
ghost use Rattle.std.specs.List.{AllByRecursion as Each};
ghost use Rattle.st_device.specs.Disk.{ChangesDisk, IsHonest, OnlyFile};
ghost use Rattle.st_gate.specs.Kind.{kind_bytes};
ghost use Rattle.st_gate.specs.Log.{IsBeforeOrAfter, gate_record, next_gate, replayed};
ghost use Rattle.st_gate.specs.Rest.{IsAtRest, records};
ghost use Rattle.st_manifest.specs.Behind.{HasLaid};
ghost use Rattle.st_manifest.specs.Laid.{gate_behind, laid_records};

use st_base::{Bytes, RECORD_BYTES};
use st_device::{Disk, Failed};
use st_gate::{AppendFault, GateLog};

/// Adds a record to a log at rest, durably, whose payload isn't too large.
pub fn append_one<D: Disk>(log: &mut GateLog, disk: &mut D, payload: &[u8]) -> Result<(), Failed>
    requires rest { IsHonest (D.tells disk.old) → IsAtRest log.old (D.tells disk.old) }
    requires small { length payload.now ≤ RECORD_BYTES }
    ensures crash { IsHonest (D.tells disk.old) → OnlyFile log.old.file
        (λ this. IsBeforeOrAfter (records log.old (D.tells disk.old)) payload.now log.old.at
        (replayed (kind_bytes log.old.kind) this))
        (D.tells disk.old) (D.tells disk.new) }
    ensures ok { IsHonest (D.tells disk.old) → OnOk result (IsAtRest log.new (D.tells disk.new)
        × (records log.new (D.tells disk.new) ≡ records log.old (D.tells disk.old)
        ++ gate_record log.old.at payload.now ∷ [])) }
    ensures kind { log.new.kind ≡ log.old.kind }
    ensures file { log.new.file ≡ log.old.file }
    ensures moved { OnOk result (log.new.at ≡ next_gate log.old.at payload.now) }
    ensures disk { ChangesDisk (D.tells disk.old) (D.tells disk.new) (D.tells disk.old).top (IsErr result) }
{
    match log.append(disk, payload) {
        Ok(()) => Ok(()),
        Err(AppendFault::DiskFault) => Err(Failed),
        Err(AppendFault::RecordTooLarge) => unreachable!(),
    }
}

/// Adds records with these payloads, one after the other.
pub fn append_all<D: Disk>(
    log: &mut GateLog,
    disk: &mut D,
    payloads: &[Bytes],
) -> Result<(), Failed>
    requires rest { IsHonest (D.tells disk.old) → IsAtRest log.old (D.tells disk.old) }
    requires small { Each (λ payload. length payload ≤ RECORD_BYTES) payloads.now }
    ensures crash { IsHonest (D.tells disk.old) → OnlyFile log.old.file
        (λ this. HasLaid (records log.old (D.tells disk.old)) log.old.at payloads.now
        (replayed (kind_bytes log.old.kind) this))
        (D.tells disk.old) (D.tells disk.new) }
    ensures ok { IsHonest (D.tells disk.old) → OnOk result (IsAtRest log.new (D.tells disk.new)
        × (records log.new (D.tells disk.new) ≡ records log.old (D.tells disk.old)
        ++ laid_records log.old.at payloads.now)) }
    ensures kind { log.new.kind ≡ log.old.kind }
    ensures file { log.new.file ≡ log.old.file }
    ensures moved { OnOk result (log.new.at ≡ gate_behind log.old.at payloads.now) }
    ensures disk { ChangesDisk (D.tells disk.old) (D.tells disk.new) (D.tells disk.old).top (IsErr result) }
{
    for payload in payloads {
        append_one(log, disk, payload.as_slice())?;
    }
    Ok(())
}
