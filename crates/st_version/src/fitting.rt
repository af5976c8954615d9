ghost use Rattle.std.specs.Prelude.{◌≡◌, ◌↔◌, ◌≤◌, ◌++◌, IsTrue, OnOk, length, not};
ghost use Rattle.std.specs.List.{list_any, AllByRecursion};
ghost use Rattle.st_order.specs.Columns.{Pairwise};
ghost use Rattle.core_model.specs.Picture.{table_range};
ghost use Rattle.core_model.specs.RelationParts.{HasEntry};
ghost use Rattle.st_base.specs.Range.{key_at_end, key_at_front, meet};
ghost use Rattle.st_version.specs.Held.{tables_of};
ghost use Rattle.st_version.specs.Replace.{DontMeet};

use crate::held::Held;
use st_base::Rows;
use st_order::at_most;
use std::sync::Arc;

/// The table's first key, or no bytes where it has no entry.
pub(crate) fn front<T: Rows + Drop>(table: &Held<T>) -> &[u8]
    ensures { result.now ≡ key_at_front table.now.table.entries }
{
    match table.first() {
        Some(key) => key,
        None => &[],
    }
}

// The table's last key, or no bytes where it has no entry.
fn end<T: Rows + Drop>(table: &Held<T>) -> &[u8]
    ensures { result.now ≡ key_at_end table.now.table.entries }
{
    match table.last() {
        Some(key) => key,
        None => &[],
    }
}

// Whether the ranges of the two tables meet.
fn meets<T: Rows + Drop>(one: &Held<T>, other: &Held<T>) -> bool
    ensures { result ≡ meet (table_range one.now.table) (table_range other.now.table) }
{
    at_most(front(one), end(other)) && at_most(front(other), end(one))
}

// Whether the range of one of these tables meets the table's.
fn meets_any<T: Rows + Drop>(table: &Held<T>, others: &[Arc<Held<T>>]) -> bool
    ensures { result
        ≡ list_any (λ other. meet (table_range table.now.table) (table_range other.value.table)) others.now }
{
    others.iter().any(|other| meets(table, other))
}

/// Whether no two of these tables have ranges that meet.
pub(crate) fn are_apart<T: Rows + Drop>(tables: &[Arc<Held<T>>]) -> bool
    ensures { IsTrue result ↔ Pairwise DontMeet (tables_of tables.now) }
{
    let mut left = tables;
    while let Some((first, others)) = left.split_first() {
        if meets_any(first, others) {
            return false;
        }
        left = others;
    }
    true
}

/// Whether each of these tables has an entry.
pub(crate) fn are_filled<T: Rows + Drop>(tables: &[Arc<Held<T>>]) -> bool
    ensures { IsTrue result ↔ AllByRecursion HasEntry (tables_of tables.now) }
{
    for table in tables {
        if table.len() == 0 {
            return false;
        }
    }
    true
}
