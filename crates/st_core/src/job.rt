ghost use Rattle.std.specs.Prelude.{◌≡◌, ◌≤◌, map};
ghost use Rattle.core_model.specs.Picture.{is_flush};
ghost use Rattle.st_core.specs.Shared.{entries_of_input};

use crate::input::Input;
use st_base::{KeyRange, List, Rows};
use std::marker::Model;

/// A job that was picked: a flush where its outputs go to level 0, else a compaction.
///
/// It holds all that its merge needs: its inputs in the order of a read, the numbers that were live and the last number
/// when it was picked, and the ranges in which it may drop tombstones.
#[derive(Drop)]
pub struct Job<T: Rows + Drop> {
    pub(crate) number: u64,
    pub(crate) family: u32,
    pub(crate) level: u8,
    pub(crate) files: List<u64>,
    pub(crate) inputs: List<Input<T>>,
    pub(crate) range: KeyRange,
    pub(crate) live: List<u64>,
    pub(crate) began: u64,
    pub(crate) drops: List<KeyRange>,
}

impl<T: Rows + Drop> Model for Job<T> {
    ghost use Rattle.std.specs.Prelude.{◌≤◌, map};
    ghost use Rattle.core_model.specs.Picture.{Job as JobPicture};
    ghost use Rattle.st_core.specs.Shared.{entries_of_input};

    ghost Value = { JobPicture };

    ghost view = { λ job. record {
      number = job.number;
      family = job.family;
      level = job.level;
      files = job.files;
      inputs = map entries_of_input job.inputs;
      range = job.range;
      live = job.live;
      began = job.began;
      drops = job.drops;
    } };

    ghost invariant = { λ job. job.level ≤ 6 };
}

impl<T: Rows + Drop> Job<T> {
    /// Its number, which no other noted job has.
    pub fn number(&self) -> u64
        ensures { result ≡ self.now.number }
    {
        self.number
    }

    /// The id of its family.
    pub fn family(&self) -> u32
        ensures { result ≡ self.now.family }
    {
        self.family
    }

    /// Whether it is a flush.
    pub fn is_flush(&self) -> bool
        ensures { result ≡ is_flush self.now }
    {
        self.level == 0
    }

    /// The level of its outputs, at most 6.
    pub fn level(&self) -> u8
        ensures value { result ≡ self.now.level }
        ensures within { self.now.level ≤ 6 }
    {
        self.level
    }

    /// The files of its input tables, in the order of a read.
    pub fn files(&self) -> &[u64]
        ensures { result.now ≡ self.now.files }
    {
        self.files.as_slice()
    }

    /// Its inputs, in the order of a read.
    pub fn inputs(&self) -> &[Input<T>]
        ensures { map entries_of_input result.now ≡ self.now.inputs }
    {
        self.inputs.as_slice()
    }

    /// The least range that has all keys of its inputs.
    pub fn range(&self) -> &KeyRange
        ensures { result.now ≡ self.now.range }
    {
        &self.range
    }

    /// The numbers of the snapshots that lived when it was picked.
    pub fn live(&self) -> &[u64]
        ensures { result.now ≡ self.now.live }
    {
        self.live.as_slice()
    }

    /// The last number when it was picked.
    pub fn began(&self) -> u64
        ensures { result ≡ self.now.began }
    {
        self.began
    }

    /// The ranges in which it may drop tombstones.
    pub fn drops(&self) -> &[KeyRange]
        ensures { result.now ≡ self.now.drops }
    {
        self.drops.as_slice()
    }
}
