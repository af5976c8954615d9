//! Tests of the slow programs of the model, by their public items: worked rows, limits, and single calls.
#![tactic(auto)]

#[cfg(test)]
mod cases;
#[cfg(test)]
mod limits;
#[cfg(test)]
mod plain;
#[cfg(test)]
mod rows;
