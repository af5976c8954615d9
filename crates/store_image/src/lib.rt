//! An image of the disk as mathematics: what its files decode to, what it opens to, and how it is tied to a core.
//!
//! Definitions alone, in `specs/`, without a byte: `Parts` (an image file by file), `Opens` (what it opens to, or its
//! first damage), `Image` (the contents of that), `Tie` (the image holds what a core keeps in memory), `Steps` and
//! `Calls` (what each call of the engine changes), `Recover` and `Every` (an opening of any image). Their laws stand
//! in `image_laws`.
#![tactic(auto)]
