//! Tests of the words, the texts and the streams, by their public items.
#![tactic(auto)]

#[cfg(test)]
mod base;
#[cfg(test)]
mod builds;
#[cfg(test)]
mod streams;
#[cfg(test)]
mod texts;
