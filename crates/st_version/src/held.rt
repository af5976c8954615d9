ghost use Rattle.std.specs.Prelude.{◌≡◌, IfOk};
ghost use Rattle.st_base.specs.Range.{entries_charge};
ghost use Rattle.st_base.specs.Rows.{AreRows, mark_of};
ghost use Rattle.st_version.specs.Held.{least_above_zero};

use crate::totals::totals_of;
use st_base::{EntryRef, MarkRef, Rows, Scratch};
use std::alloc::{AllocError, Global};
use std::marker::Model;

/// A table in place: its file's number and length in bytes, the number under which its entries act (0 where each acts
/// under its own), the sum of their charges and their least number, and the table.
#[derive(Drop)]
pub struct Held<T: Rows + Drop> {
    file: u64,
    length: u64,
    number: u64,
    charge: u64,
    least: u64,
    table: T,
}

impl<T: Rows + Drop> Model for Held<T> {
    ghost use Rattle.st_version.specs.Held.{HeldView, IsHeld};

    ghost Value = { HeldView };

    ghost view = { λ held. record {
      number = held.number;
      table = record { file = held.file; length = held.length; entries = T.rows held.table };
    } };

    ghost invariant = { λ held. IsHeld (T.rows held.table) held.charge held.least };
}

impl<T: Rows + Drop> Held<T> {
    /// The table of a file of so many bytes, whose entries act under the number, or under their own where it is 0. It reads
    /// each entry once, for their charge and their least number.
    pub fn new(
        alloc: Global,
        file: u64,
        length: u64,
        number: u64,
        table: T,
    ) -> Result<Held<T>, AllocError>
        ensures number { IfOk result (λ held. held.number ≡ number) }
        ensures table { IfOk result (λ held. held.table
            ≡ record { file = file; length = length; entries = T.rows table }) }
    {
        let mut scratch = Scratch::new(alloc)?;
        let totals = totals_of(&table, &mut scratch);
        Ok(Held {
            file,
            length,
            number,
            charge: totals.charge,
            least: totals.least,
            table,
        })
    }

    /// The number of its file.
    pub fn file(&self) -> u64
        ensures { result ≡ self.now.table.file }
    {
        self.file
    }

    /// How many bytes its file has.
    pub fn length(&self) -> u64
        ensures { result ≡ self.now.table.length }
    {
        self.length
    }

    /// The number under which its entries act, or 0 where each acts under its own.
    pub fn number(&self) -> u64
        ensures { result ≡ self.now.number }
    {
        self.number
    }

    /// The sum of its entries' charges, as far as 64 bits hold it. It is kept and not computed.
    pub fn charge(&self) -> u64
        ensures { result ≡ entries_charge self.now.table.entries }
    {
        self.charge
    }

    /// The least number above 0 of its entries, or 0 where there is none. It is kept and not computed.
    pub fn least(&self) -> u64
        ensures { result ≡ least_above_zero self.now.table.entries }
    {
        self.least
    }

    /// The table.
    pub fn table(&self) -> &T
        ensures value { T.rows result.now ≡ self.now.table.entries }
        ensures rows { AreRows self.now.table.entries }
    {
        &self.table
    }
}

/// A table in place has the entries of its table.
impl<T: Rows + Drop> Rows for Held<T> {
    ghost rows = { λ held. held.table.entries };

    fn len(&self) -> usize {
        self.table.len()
    }

    fn at<'a>(&'a self, index: usize, scratch: &'a mut Scratch) -> EntryRef<'a> {
        self.table.at(index, scratch)
    }

    fn lower(&self, key: &[u8], number: u64, scratch: &mut Scratch) -> usize {
        self.table.lower(key, number, scratch)
    }

    fn first(&self) -> Option<&[u8]> {
        self.table.first()
    }

    fn last(&self) -> Option<&[u8]> {
        self.table.last()
    }

    fn newest<'a>(
        &'a self,
        key: &[u8],
        number: u64,
        scratch: &mut Scratch,
    ) -> Option<(u64, MarkRef<'a>)> {
        self.table.newest(key, number, scratch)
    }
}
