ghost use Rattle.std.specs.Prelude.{◌≡◌, ◌+◌, ◌≤◌, ◌<◌, ◌∷◌, [], ℕ, List, length, map, slice_get, IfErr, IfOk, IfNone, IfSome, OnOk, false, None, Some};
ghost use Rattle.std.specs.List.{AllByRecursion as Each};
ghost use Rattle.st_base.specs.Map.{value_at};
ghost use Rattle.st_model.specs.declared.state.ModelState.{ModelState};
ghost use Rattle.st_model.specs.Answer.{unknown_families, write_refusals};
ghost use Rattle.st_model.specs.Reads.{found, get_answer};
ghost use Rattle.st_base.specs.Entries.{add_charge};
ghost use Rattle.st_model.specs.Apply.{op_key, write_charge};
ghost use Rattle.st_model.specs.Causes.{is_stop};
ghost use Rattle.st_model.specs.Contents.{opened};
ghost use Rattle.log_recover.specs.Contents.{contents_of, known_of, written_marks};
ghost use Rattle.log_recover.specs.Opens.{last_number};
ghost use Rattle.log_engine.specs.Newest.{HasRoom, newest_at, shown};
ghost use Rattle.log_engine.specs.Op.{IsWrite, logged_op, marks_after_all};
ghost use Rattle.st_wal.specs.Batch.{batch_of};

use crate::newest::Newest;
use crate::ops::{charge_with, first_stranger, logged_ops};
use crate::{AcceptedWrite, ChangeFault, Options};
use st_base::{Family, GREATEST_NUMBER, Key, List, Mark, Value};
use st_model::{Op, Refusal, Reply};
use st_wal::{LogRecord, Logged, Operation};
use std::alloc::{AllocError, Global};

/// What the engine knows of its store without the disk.
#[derive(Drop)]
pub struct MarkStore {
    pub newest: Newest,
    /// How many changes were accepted since the opening.
    pub place: u64,
    /// The last sequence number.
    pub last: u64,
    /// What the contents at the opening and the accepted writes count against the capacity.
    pub charge: u64,
    pub behind: bool,
    pub capacity: u64,
}

/// A write with all that it needs of memory.
#[derive(Drop)]
pub struct PreparedWrite {
    /// The record of its operations.
    pub encoded: LogRecord,
    pub ops: Vec<Operation>,
    /// The store's charge with that of the write.
    pub charge: u64,
}

// The mark, where the contents keep it.
fn kept_mark(behind: bool, mark: Mark) -> Option<Mark>
    ensures { result ≡ shown behind (Some mark) }
{
    match mark {
        Mark::Put(value) => Some(Mark::Put(value)),
        Mark::Gone => { if behind { Some(Mark::Gone) } else { None } }
    }
}

// The newest marks that these operations leave.
fn newest_of(alloc: Global, operations: List<Logged>, behind: bool) -> Result<Newest, AllocError>
    ensures { IfOk result
        (λ newest. (key : List ℕ) → newest_at newest key ≡ shown behind (value_at (written_marks operations) key)) }
{
    let mut newest = Newest::new(alloc);
    for logged in operations.into_vec() {
        let Logged { key, mark, .. } = logged;
        newest.make_room(&key)?;
        newest.set(&key, kept_mark(behind, mark));
    }
    Ok(newest)
}

// The last number of these operations.
fn last_of(operations: &[Logged]) -> u64
    ensures { result ≡ last_number 0 operations.now }
{
    let mut last = 0;
    for logged in operations {
        last = logged.number;
    }
    last
}

impl MarkStore {
    ghost use Rattle.log_engine.specs.MarkStore.{HoldsOperations, IsAdvanced, IsFirst, IsSameStore, StandsForState};

    /// The store with these operations.
    pub fn open(
        alloc: Global,
        operations: List<Logged>,
        options: Options,
    ) -> Result<MarkStore, AllocError>
        ensures stands { IfOk result
            (λ store. StandsForState store (opened (contents_of options.behind operations) (known_of operations))) }
        ensures holds { IfOk result (λ store. HoldsOperations store operations) }
        ensures options { IfOk result (λ store. (store.behind ≡ options.behind) × (store.capacity ≡ options.capacity)) }
    {
        let last = last_of(operations.as_slice());
        let newest = newest_of(alloc, operations, options.behind)?;
        let charge = newest.charge();
        Ok(MarkStore {
            newest,
            place: 0,
            last,
            charge,
            behind: options.behind,
            capacity: options.capacity,
        })
    }

    // The first refusal that holds of a write.
    fn first_refusal(&self, ops: &[Op]) -> Result<Option<Refusal>, AllocError>
        ensures no_stop { IfOk result (λ refusal. IfSome refusal (λ refusal. is_stop (Reply.Refused refusal) ≡ false)) }
        ensures room { IfOk result
            (λ refusal. IfNone refusal
            ((self.now.last + length ops.now ≤ GREATEST_NUMBER) × (self.now.place < GREATEST_NUMBER))) }
        ensures first { IfOk result (λ refusal. (state : ModelState) → StandsForState self.now state
            → refusal ≡ slice_get (write_refusals state self.now.capacity ops.now) 0) }
    {
        if let Some(family) = first_stranger(ops) {
            return Ok(Some(Refusal::UnknownFamily(family.clone()?)));
        }
        if self.last.saturating_add(ops.len() as u64) > GREATEST_NUMBER {
            return Ok(Some(Refusal::NumbersSpent));
        }
        if self.place >= GREATEST_NUMBER {
            return Ok(Some(Refusal::NumbersSpent));
        }
        if charge_with(self.charge, ops) > self.capacity {
            return Ok(Some(Refusal::StoreFull));
        }
        Ok(None)
    }

    /// What the key reads. The one refusal of the store's own is `UnknownFamily`.
    pub fn read(&self, family: &Family, key: &Key) -> Result<Option<Value>, ChangeFault>
        ensures ok { IfOk result (λ value. (state : ModelState) → StandsForState self.now state
            → get_answer state state.last family.now key.now ≡ found value) }
        ensures refused { IfErr result (λ refusal. (state : ModelState) → StandsForState self.now state
            → IsFirst (unknown_families state (family.now ∷ [])) refusal) }
        ensures no_stop { IfErr result (λ refusal. is_stop (Reply.Refused refusal) ≡ false) }
    {
        if !family.is_default() {
            return Err(Refusal::UnknownFamily(family.clone()?));
        }
        match self.newest.get(key) {
            Some(Mark::Put(value)) => Ok(Some(value.clone()?)),
            Some(Mark::Gone) => Ok(None),
            None => Ok(None),
        }
    }

    // Makes a slot for the mark of each key that the operations name. Nothing else changes, with every answer.
    fn make_room(&mut self, ops: &[Op]) -> Result<(), AllocError>
        ensures unchanged { IsSameStore self.old self.new }
        ensures room { OnOk result (Each (λ op. HasRoom self.new.newest (op_key op)) ops.now) }
    {
        self.newest.make_rooms(ops)
    }

    /// Tests a write, and takes all the memory that it needs. What the store stands for stays, with every answer.
    pub fn prepare(&mut self, alloc: Global, ops: &[Op]) -> Result<PreparedWrite, ChangeFault>
        requires { IsWrite ops.now }
        ensures unchanged { IsSameStore self.old self.new }
        ensures encoded { IfOk result (λ prepared. batch_of prepared.encoded
            ≡ Some (record { first = self.old.last + 1; operations = map logged_op ops.now })) }
        ensures ops { IfOk result (λ prepared. prepared.ops.items ≡ map logged_op ops.now) }
        ensures room { IfOk result
            (λ prepared. Each (λ operation. HasRoom self.new.newest operation.1) prepared.ops.items) }
        ensures charge { IfOk result (λ prepared. prepared.charge ≡ add_charge self.old.charge (write_charge ops.now)) }
        ensures last { OnOk result (self.new.last + length ops.now ≤ GREATEST_NUMBER) }
        ensures place { OnOk result (self.new.place < GREATEST_NUMBER) }
        ensures unrefused { OnOk result ((state : ModelState) → StandsForState self.old state
            → slice_get (write_refusals state self.old.capacity ops.now) 0 ≡ None) }
        ensures refused { IfErr result (λ refusal. (state : ModelState) → StandsForState self.old state
            → IsFirst (write_refusals state self.old.capacity ops.now) refusal) }
        ensures no_stop { IfErr result (λ refusal. is_stop (Reply.Refused refusal) ≡ false) }
    {
        if let Some(refusal) = self.first_refusal(ops)? {
            return Err(refusal);
        }
        let logged = logged_ops(alloc, ops)?;
        self.make_room(ops)?;
        let encoded = LogRecord::new(alloc, self.last + 1, &logged)?;
        Ok(PreparedWrite {
            encoded,
            ops: logged,
            charge: charge_with(self.charge, ops),
        })
    }

    /// Takes a write in, whose operations are on the disk. It takes no memory.
    pub fn accept(&mut self, operations: Vec<Operation>, charge: u64) -> AcceptedWrite
        requires room { Each (λ operation. HasRoom self.old.newest operation.1) operations.items }
        requires last { self.old.last + length operations.items ≤ GREATEST_NUMBER }
        requires place { self.old.place < GREATEST_NUMBER }
        ensures marks { (key : List ℕ)
            → newest_at self.new.newest key ≡ marks_after_all (newest_at self.old.newest) operations.items key }
        ensures numbers { IsAdvanced self.old self.new (length operations.items) charge }
        ensures wrote { result ≡ record { place = self.new.place; first = self.old.last + 1; last = self.new.last } }
    {
        let first = self.last + 1;
        self.charge = charge;
        self.last += operations.len() as u64;
        self.place += 1;
        self.newest.set_all(operations);
        AcceptedWrite {
            place: self.place,
            first,
            last: self.last,
        }
    }
}
