ghost use Rattle.std.specs.Prelude.{◌≡◌, ◌⊎◌, ◌+◌, ◌≤◌, ◌<◌, ◌↔◌, ◌++◌, ◌∷◌, [], ℕ, List, IfErr, IfOk, IsErr, IsErrOf, IsSome, OnErr, OnOk, None, Some, false, length, map, is_ok};
ghost use Rattle.std.specs.List.{AllByRecursion as Each};
ghost use Rattle.st_base.specs.Entries.{add_charge};
ghost use Rattle.st_device.specs.Disk.{ChangesDisk, Image, IsHonest, Leaves, OnlyFile};
ghost use Rattle.st_model.specs.declared.state.ModelState.{ModelState};
ghost use Rattle.st_model.specs.Causes.{is_stop};
ghost use Rattle.st_model.specs.Answer.{unknown_families, write_refusals};
ghost use Rattle.st_model.specs.Reads.{found, get_answer};
ghost use Rattle.st_model.specs.Apply.{write_charge};
ghost use Rattle.log_recover.specs.Contents.{SameContents, disk_contents};
ghost use Rattle.log_recover.specs.Opens.{IsDamageOf};
ghost use Rattle.st_wal.specs.Logged.{IsWithOrWithout, logged_record, read_as_log};
ghost use Rattle.st_wal.specs.Wal.{IsReady, operations};
ghost use Rattle.log_engine.specs.Newest.{HasRoom, newest_at};
ghost use Rattle.log_engine.specs.Op.{marks_after_all};

use crate::ChangeFault;
use crate::store::{MarkStore, PreparedWrite};
use log_recover::{OpenFault, recover};
use st_base::{Family, GREATEST_NUMBER, Key, Value};
use st_device::Disk;
use st_model::{Batch, Refusal, Reply};
use st_wal::{LogRecord, Operation, Wal};
use std::alloc::Global;

/// How a store is opened.
#[derive(Clone, Copy, Drop, PartialEq, Eq)]
pub struct Options {
    /// Whether the store takes files in behind; such a store keeps tombstones in its contents.
    pub behind: bool,
    /// The greatest charge of the store, in bytes.
    pub capacity: u64,
}

/// What an accepted write took: its place, and its first and last sequence number.
#[derive(Clone, Copy, Drop, PartialEq, Eq)]
pub struct AcceptedWrite {
    pub place: u64,
    pub first: u64,
    pub last: u64,
}

/// A store on a disk. After a disk fault it is stopped: it makes no further device call, and reads go on.
#[derive(Drop)]
pub struct Engine<D: Disk> {
    alloc: Global,
    disk: D,
    wal: Wal,
    store: MarkStore,
    stopped: Option<u64>,
}

impl<D: Disk> Engine<D> {
    ghost use Rattle.log_engine.specs.Engine.{HasOptions, IsAccepted, IsOpened, IsReadyOn, IsTied, OpensTo, SameOptions, Stands, capacity_of, state_written};
    ghost use Rattle.log_engine.specs.Op.{IsWrite};
    ghost use Rattle.log_engine.specs.MarkStore.{IsAdvanced, IsFirst};

    /// Opens the store of a disk, or makes it where it isn't there. Every refusal hands the disk back. `Damaged` comes
    /// exactly where the disk reads a store that is damaged; a disk fault or `OutOfMemory` may come instead.
    pub fn open(alloc: Global, mut disk: D, options: Options) -> Result<Engine<D>, (D, OpenFault)>
        // The engine stands for the state that an opening makes of the contents that the disk reads.
        ensures opened { IfOk result (λ engine. IsOpened (D.tells disk) options.behind engine) }
        ensures ready { IfOk result (λ engine. IsReadyOn engine (D.tells engine.disk)) }
        ensures options { IfOk result (λ engine. HasOptions engine options) }
        ensures running { IfOk result (λ engine. engine.stopped ≡ None) }
        ensures damage { IfErr result (λ back. IsHonest (D.tells disk)
            → IsDamageOf (disk_contents options.behind (D.tells disk).reads) back.1) }

        // Each image of a crash within the call is one that a crash at its beginning could leave, or opens to what the
        // disk read then. After Ok each does the latter.
        ensures crash { IfOk result
            (λ engine. IsHonest (D.tells disk)
            → Leaves (λ image. (D.tells disk).now image ⊎ SameContents image (D.tells disk).reads) (D.tells disk)
            (D.tells engine.disk)) }
        ensures crash_err { IfErr result
            (λ back. IsHonest (D.tells disk)
            → Leaves (λ image. (D.tells disk).now image ⊎ SameContents image (D.tells disk).reads) (D.tells disk)
            (D.tells back.0)) }
        ensures after { IfOk result (λ engine. IsHonest (D.tells disk) → (image : Image)
            → (D.tells engine.disk).now image → SameContents image (D.tells disk).reads) }

        ensures disk { IfOk result
            (λ engine. ChangesDisk (D.tells disk) (D.tells engine.disk) (D.tells engine.disk).top ⊥) }
        ensures disk_err { IfErr result
            (λ back. ChangesDisk (D.tells disk) (D.tells back.0) (D.tells back.0).top (back.1 ≡ OpenFault.DiskFault)) }
    {
        match recover(alloc, &mut disk) {
            Err(fault) => Err((disk, fault)),
            Ok((operations, wal)) => match MarkStore::open(alloc, operations, options) {
                Err(_) => Err((disk, OpenFault::OutOfMemory)),
                Ok(store) => Ok(Engine {
                    alloc,
                    disk,
                    wal,
                    store,
                    stopped: None,
                }),
            },
        }
    }

    /// How many changes were accepted since the opening.
    pub fn place(&self) -> u64
        ensures { (state : ModelState) → Stands self.now state → result ≡ state.place }
    {
        self.store.place
    }

    /// The disk's count of faults at the fault that stopped the engine; None exactly where none did.
    pub fn stopped(&self) -> Option<u64>
        ensures { result ≡ self.now.stopped }
    {
        self.stopped
    }

    /// Hands the disk back.
    pub fn close(self) -> D
        ensures { result ≡ self.disk }
    {
        self.disk
    }

    /// What the key reads now. The refusals are `UnknownFamily` and `OutOfMemory`.
    pub fn read_now(&self, family: &Family, key: &Key) -> Result<Option<Value>, ChangeFault>
        ensures ok { IfOk result (λ value. (state : ModelState) → Stands self.now state
            → get_answer state state.last family.now key.now ≡ found value) }
        ensures refused { IfErr result (λ refusal. (state : ModelState) → Stands self.now state
            → IsFirst (unknown_families state (family.now ∷ [])) refusal) }
        ensures no_stop { IfErr result (λ refusal. is_stop (Reply.Refused refusal) ≡ false) }
    {
        self.store.read(family, key)
    }

    // Logs the operations of a write, whose keys have slots, and takes them in.
    fn append(
        &mut self,
        encoded: &LogRecord,
        ops: Vec<Operation>,
        charge: u64,
    ) -> Result<AcceptedWrite, ChangeFault>
        requires tied { IsHonest (D.tells self.old.disk) → IsTied self.old.wal self.old.store (D.tells self.old.disk) }
        requires room { Each (λ operation. HasRoom self.old.store.newest operation.1) ops.items }
        requires last { self.old.store.last + length ops.items ≤ GREATEST_NUMBER }
        requires place { self.old.store.place < GREATEST_NUMBER }
        ensures log { IsHonest (D.tells self.old.disk) → OnlyFile self.old.wal.log.file
            (λ this. IsWithOrWithout (operations self.old.wal (D.tells self.old.disk))
            (logged_record self.old.wal.log.at encoded.now) (read_as_log this))
            (D.tells self.old.disk) (D.tells self.new.disk) }
        ensures ready { IsHonest (D.tells self.old.disk) → OnOk result (IsReady self.new.wal (D.tells self.new.disk)
            × (operations self.new.wal (D.tells self.new.disk)
            ≡ operations self.old.wal (D.tells self.old.disk) ++ logged_record self.old.wal.log.at encoded.now)) }
        ensures file { self.new.wal.log.file ≡ self.old.wal.log.file }
        ensures marks { OnOk result ((key : List ℕ)
            → newest_at self.new.store.newest key ≡ marks_after_all (newest_at self.old.store.newest) ops.items key) }
        ensures numbers { OnOk result (IsAdvanced self.old.store self.new.store (length ops.items) charge) }
        ensures wrote { IfOk result (λ wrote. wrote
            ≡ record { place = self.new.store.place; first = self.old.store.last + 1; last = self.new.store.last }) }
        ensures running { OnOk result (self.new.stopped ≡ self.old.stopped) }
        ensures unchanged { OnErr result (self.new.store ≡ self.old.store) }
        ensures fault { IfErr result (λ refusal. refusal ≡ Refusal.DiskFault) }
        ensures stopped { OnErr result (self.new.stopped ≡ Some (D.tells self.new.disk).faults) }
        ensures disk { ChangesDisk (D.tells self.old.disk) (D.tells self.new.disk) (D.tells self.old.disk).top
            (IsErr result) }
    {
        match self.wal.append(&mut self.disk, encoded) {
            Ok(()) => Ok(self.store.accept(ops, charge)),
            Err(_) => {
                self.stopped = Some(self.disk.faults());
                Err(Refusal::DiskFault)
            }
        }
    }

    /// Makes a write, durably: all its operations or none. The batch is within the limits of a write.
    ///
    /// The refusals come in this order: that a fault stopped the engine before, an unknown family, numbers spent,
    /// the store full, a disk fault. All memory is taken before the first device call.
    pub fn write(&mut self, batch: &Batch) -> Result<AcceptedWrite, ChangeFault>
        requires limits { IsWrite batch.now.ops }
        requires ready { IsReadyOn self.old (D.tells self.old.disk) }

        // An accepted write is the model's, and the engine then stands for the state after it.
        ensures accepted { OnOk result ((state : ModelState) → Stands self.old state
            → Stands self.new (state_written state batch.now)) }
        ensures numbers { IfOk result (λ wrote. (state : ModelState) → Stands self.old state
            → IsAccepted (capacity_of self.old) state batch.now wrote) }
        // A refused one is refused by the first refusal that holds, and changes no answer.
        ensures refused { IfErr result (λ refusal. (state : ModelState) → Stands self.old state
            → IsFirst (write_refusals state (capacity_of self.old) batch.now.ops) refusal) }
        ensures unchanged { OnErr result
            ((state : ModelState) → Stands self.old state → Stands self.new state) }

        // Each image of a crash within the call opens to the contents before the write or after it; after Ok to the latter.
        ensures crash { IsHonest (D.tells self.old.disk) → self.old.stopped ≡ None → (state : ModelState)
            → Stands self.old state
            → Leaves (λ image. OpensTo state image ⊎ OpensTo (state_written state batch.now) image)
            (D.tells self.old.disk) (D.tells self.new.disk) }
        ensures after { IsHonest (D.tells self.old.disk)
            → OnOk result ((state : ModelState) → Stands self.old state → (image : Image)
            → (D.tells self.new.disk).now image → OpensTo (state_written state batch.now) image) }
        ensures ready { IsReadyOn self.new (D.tells self.new.disk) }

        // A disk fault stops the engine, which makes no further device call.
        ensures stopped { IsErrOf result Refusal.Stopped ↔ IsSome self.old.stopped }
        ensures fault { IsErrOf result Refusal.DiskFault → self.new.stopped ≡ Some (D.tells self.new.disk).faults }
        ensures stop_unchanged { (IsErrOf result Refusal.DiskFault → ⊥) → self.new.stopped ≡ self.old.stopped }
        ensures untouched { IfErr result
            (λ refusal. (refusal ≡ Refusal.DiskFault → ⊥) → self.new.disk ≡ self.old.disk) }

        ensures options { SameOptions self.old self.new }
        ensures disk { ChangesDisk (D.tells self.old.disk) (D.tells self.new.disk) (D.tells self.old.disk).top
            (IsErrOf result Refusal.DiskFault) }
    {
        if self.stopped.is_some() {
            return Err(Refusal::Stopped);
        }
        let prepared = self.store.prepare(self.alloc, batch.ops.as_slice())?;
        let PreparedWrite {
            encoded,
            ops,
            charge,
        } = prepared;
        self.append(&encoded, ops, charge)
    }
}
