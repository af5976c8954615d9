ghost use Rattle.std.specs.Prelude.{◌≡◌, ℕ, ◌+◌, ◌-◌, ◌<◌, ◌≤◌, ◌^◌, [], ◌∷◌, ◌++◌, List, IfOk, IsTrue, ◌↔◌, OnErr, OnOk, ◌*◌, length, take, drop, nat_eq, ◌%◌, ◌==◌, if◌then◌else◌};
ghost use Rattle.std.specs.List.{common_prefix_len};
ghost use Rattle.st_block.specs.Written.{shared_of};

use crate::entry::{entry_size, push_entry, put_entry};
use crate::tail::{put_tail, tail_size};
use st_base::{Bytes, INTERNAL_KEY_BYTES, List, Scratch, VALUE_BYTES};
use std::alloc::{AllocError, Global};
use std::marker::Model;

// How many bytes the two begin with alike.
fn common_front(one: &[u8], other: &[u8]) -> usize
    ensures { result ≡ common_prefix_len nat_eq one.now other.now }
{
    let mut index = 0;
    while index < one.len() && index < other.len() && one[index] == other[index] {
        index += 1;
    }
    index
}

// How many restarts there are with the one that may be due.
fn restarts_with(restarts: usize, count: usize, interval: usize) -> usize
    requires interval { 0 < interval }
    requires restarts { restarts < 2 ^ 32 }
    ensures size { (offsets : List ℕ) (at : ℕ) → length offsets ≡ restarts
        → result ≡ length (offsets ++ (if count % interval == 0 then at ∷ [] else [])) }
    ensures within { result ≤ 2 ^ 33 }
{
    if count % interval == 0 {
        restarts + 1
    } else {
        restarts
    }
}

// How many bytes the next entry shares with the key before.
fn shared_with(before: &[u8], key: &[u8], count: usize, interval: usize) -> usize
    requires { 0 < interval }
    ensures value { result ≡ shared_of interval count before.now key.now }
    ensures old { result ≤ length before.now }
    ensures new { result ≤ length key.now }
    ensures front { take result before.now ++ drop result key.now ≡ key.now }
{
    if count % interval == 0 {
        0
    } else {
        common_front(before, key)
    }
}

// Appends a restart where one is due.
fn push_restart(
    restarts: &mut List<u32>,
    at: usize,
    count: usize,
    interval: usize,
) -> Result<(), AllocError>
    requires interval { 0 < interval }
    requires at { at < 2 ^ 32 }
    ensures ok { OnOk result (restarts.new ≡ restarts.old ++ (if count % interval == 0 then at ∷ [] else [])) }
    ensures err { OnErr result (restarts.new ≡ restarts.old) }
{
    if count % interval == 0 {
        restarts.push(at as u32)?;
    }
    Ok(())
}

/// A writer of one block. Contracts see what it has so far; `HoldsPairs` says which keys and values these are.
#[derive(Drop)]
pub struct BlockWriter {
    interval: usize,
    count: usize,
    entries: Bytes,
    restarts: List<u32>,
    last: Scratch,
}

impl Model for BlockWriter {
    ghost use Rattle.st_block.specs.Written.{IsWriting, Writing};

    ghost Value = { Writing };

    ghost view = { λ writer. record { interval = writer.interval; count = writer.count; entries = writer.entries; restarts = writer.restarts; last = writer.last } };

    ghost invariant = { λ writer. IsWriting (record { interval = writer.interval; count = writer.count; entries = writer.entries; restarts = writer.restarts; last = writer.last }) };
}

impl BlockWriter {
    ghost use Rattle.st_block.specs.Written.{HoldsPairs, pair_added, finished_block, written_block};

    /// A writer without entries, with a restart at every so many of them, from the first on.
    pub fn new(alloc: Global, restart: u32) -> Result<BlockWriter, AllocError>
        requires { 0 < restart }
        ensures interval { IfOk result (λ writer. writer.interval ≡ restart) }
        ensures holds { IfOk result (λ writer. HoldsPairs writer []) }
    {
        Ok(BlockWriter {
            interval: restart as usize,
            count: 0,
            entries: Bytes::new(alloc),
            restarts: List::new(alloc),
            last: Scratch::new(alloc)?,
        })
    }

    /// Appends an entry; an error leaves the writer as it was. What `finish` then gives is to have fewer than 2^32
    /// bytes.
    pub fn add(&mut self, key: &[u8], value: &[u8]) -> Result<(), AllocError>
        requires key { length key.now ≤ INTERNAL_KEY_BYTES }
        requires value { length value.now ≤ VALUE_BYTES }
        requires room { length (finished_block (pair_added self.old key.now value.now)) < 2 ^ 32 }
        ensures ok { OnOk result (self.new ≡ pair_added self.old key.now value.now) }
        ensures err { OnErr result (self.new ≡ self.old) }
    {
        let shared = shared_with(self.last.as_slice(), key, self.count, self.interval);
        let restarts = self.restarts.len();
        push_restart(
            &mut self.restarts,
            self.entries.len(),
            self.count,
            self.interval,
        )?;
        if let Err(error) = push_entry(&mut self.entries, shared, key, value) {
            self.restarts.truncate(restarts);
            return Err(error);
        }
        self.last.keep_and_add(shared, &key[shared..]);
        self.count += 1;
        Ok(())
    }

    /// Whether the entry may be added: its key and value are within their limits, and what `finish` then gives has fewer than
    /// 2^32 bytes. It may be false from 64 bytes below that on.
    pub fn has_room(&self, key: &[u8], value: &[u8]) -> bool
        ensures key { IsTrue result → length key.now ≤ INTERNAL_KEY_BYTES }
        ensures value { IsTrue result → length value.now ≤ VALUE_BYTES }
        ensures room { IsTrue result → length (finished_block (pair_added self.now key.now value.now)) < 2 ^ 32 }
        ensures roomy { length key.now ≤ INTERNAL_KEY_BYTES → length value.now ≤ VALUE_BYTES
            → length self.now.entries + length key.now + length value.now + 4 * length self.now.restarts + 64 < 2 ^ 32
            → IsTrue result }
    {
        key.len() <= INTERNAL_KEY_BYTES
            && value.len() <= VALUE_BYTES
            && self.entries.len() + key.len() + value.len() + 4 * self.restarts.len() + 42
                < 0x1_0000_0000
    }

    /// How many bytes the entries have.
    pub fn size(&self) -> usize
        ensures { result ≡ length self.now.entries }
    {
        self.entries.len()
    }

    /// The block of what was added.
    pub fn finish(&self, alloc: Global) -> Result<Bytes, AllocError>
        ensures value { IfOk result (λ bytes. bytes ≡ finished_block self.now) }
        ensures written { IfOk result (λ bytes. (pairs : List (List ℕ × List ℕ)) → HoldsPairs self.now pairs
            → bytes ≡ written_block self.now.interval pairs) }
    {
        let mut bytes = Bytes::new(alloc);
        bytes.extend_from_slice(self.entries.as_slice())?;
        put_tail(&mut bytes, self.restarts.as_slice())?;
        Ok(bytes)
    }

    /// How many entries were added.
    pub fn len(&self) -> usize
        ensures { result ≡ self.now.count }
    {
        self.count
    }

    /// Whether no entry was added.
    pub fn is_empty(&self) -> bool
        ensures { IsTrue result ↔ (self.now.count ≡ 0) }
    {
        self.count == 0
    }

    /// The key of the last entry that was added; no bytes where there is none.
    pub fn last_key(&self) -> &[u8]
        ensures value { result.now ≡ self.now.last }
        ensures within { length self.now.last ≤ INTERNAL_KEY_BYTES }
    {
        self.last.as_slice()
    }

    /// How many bytes the entries have with this one more.
    pub fn size_with(&self, key: &[u8], value: &[u8]) -> usize
        requires key { length key.now ≤ INTERNAL_KEY_BYTES }
        requires value { length value.now ≤ VALUE_BYTES }
        ensures size { result ≡ length (pair_added self.now key.now value.now).entries }
        ensures within { result ≤ 2 ^ 33 }
    {
        let shared = shared_with(self.last.as_slice(), key, self.count, self.interval);
        self.entries.len() + entry_size(shared, key, value)
    }

    /// How many bytes `finish` gives with this entry more.
    pub fn finished_size_with(&self, key: &[u8], value: &[u8]) -> usize
        requires key { length key.now ≤ INTERNAL_KEY_BYTES }
        requires value { length value.now ≤ VALUE_BYTES }
        ensures size { result ≡ length (finished_block (pair_added self.now key.now value.now)) }
        ensures within { result ≤ 2 ^ 37 }
    {
        let restarts = restarts_with(self.restarts.len(), self.count, self.interval);
        self.size_with(key, value) + tail_size(restarts)
    }

    /// How many bytes `finish` gives.
    pub fn finished_size(&self) -> usize
        ensures size { result ≡ length (finished_block self.now) }
        ensures within { result ≤ 2 ^ 37 }
    {
        self.entries.len() + tail_size(self.restarts.len())
    }

    /// The block of what was added and this entry more, which is not added. It is to have fewer than 2^32 bytes.
    pub fn finish_with(&self, alloc: Global, key: &[u8], value: &[u8]) -> Result<Bytes, AllocError>
        requires key { length key.now ≤ INTERNAL_KEY_BYTES }
        requires value { length value.now ≤ VALUE_BYTES }
        requires room { length (finished_block (pair_added self.now key.now value.now)) < 2 ^ 32 }
        ensures { IfOk result (λ bytes. bytes ≡ finished_block (pair_added self.now key.now value.now)) }
    {
        let shared = shared_with(self.last.as_slice(), key, self.count, self.interval);
        let mut restarts = List::from_slice(alloc, self.restarts.as_slice())?;
        push_restart(&mut restarts, self.entries.len(), self.count, self.interval)?;
        let mut bytes = Bytes::from_slice(alloc, self.entries.as_slice())?;
        put_entry(&mut bytes, shared, key, value)?;
        put_tail(&mut bytes, restarts.as_slice())?;
        Ok(bytes)
    }
}
