// How many families and live snapshots a store has: a transcript that fills it, and one answer more.

use crate::cases::{answer, family};
use crate::rows::NEW;
use plain_legal::{asked_of, legal};
use st_base::{Family, List, MakeFault};
use st_model::{Call, Calls, Command, ModelState, Reply};
use std::alloc::Global;
use std::test::Fail;

// Names of families: the first letters of these.
static LETTERS: [u8; 64] = *b"ffffffffffffffffffffffffffffffffffffffffffffffffffffffffffffffff";

// The name of so many letters, or the longest.
fn name(letters: usize) -> &'static [u8] {
    match LETTERS.get(..letters) {
        Some(name) => name,
        None => &LETTERS,
    }
}

// One more snapshot, or one more family, whose name has so many letters.
fn one_more(alloc: Global, is_family: bool, letters: usize) -> Result<Command, MakeFault> {
    if is_family {
        Ok(Command::MakeFamily(Family::new(alloc, name(letters))?))
    } else {
        Ok(Command::Snap(family(alloc, "s")?))
    }
}

// What one of the first of them is answered.
fn taken(is_family: bool) -> Reply {
    if is_family {
        Reply::Made
    } else {
        Reply::Snapshot(0)
    }
}

// The call of one more, which names no snapshot.
fn more(
    alloc: Global,
    is_family: bool,
    letters: usize,
    place: u64,
    reply: Reply,
) -> Result<Call, MakeFault> {
    let command = one_more(alloc, is_family, letters)?;
    Ok(Call {
        asked: asked_of(alloc, &[], command, List::new(alloc)),
        place,
        reply,
    })
}

// So many of them.
fn filled(alloc: Global, is_family: bool, count: usize) -> Result<Calls, MakeFault> {
    let mut calls = Calls::new(alloc);
    for before in 0..count {
        let place = before as u64 + 1;
        let next = more(alloc, is_family, before + 1, place, taken(is_family))?;
        calls.push(next)?;
    }
    Ok(calls)
}

// A limit: whether it is that of families, how many there are, the answer to one more, and whether it is legal.
type Limit = (bool, usize, &'static str, bool);

static LIMITS: [Limit; 8] = [
    (true, 63, "63 refused 23 FamiliesFull", true),
    (true, 63, "64 made", false),
    (true, 62, "63 made", true),
    (true, 62, "62 refused 23 FamiliesFull", false),
    (false, 1024, "1024 refused 24 SnapshotsFull", true),
    (false, 1024, "1025 snapshot 0", false),
    (false, 1023, "1024 snapshot 0", true),
    (false, 1023, "1023 refused 24 SnapshotsFull", false),
];

fn limited(alloc: Global, limit: Limit) -> Result<Calls, Fail> {
    let (place, reply) = answer(alloc, limit.2)?;
    let mut calls = filled(alloc, limit.0, limit.1)?;
    calls.push(more(alloc, limit.0, 64, place, reply)?)?;
    Ok(calls)
}

fn keeps_limit(alloc: Global, limit: Limit) -> Result<bool, Fail> {
    let calls = limited(alloc, limit)?;
    let opening = ModelState::new_store(alloc, false)?;
    Ok(legal(alloc, &opening, NEW.capacity, &[calls], 0, false)?)
}

#[test]
fn limits_are_kept(rt: HostRuntime) -> Result<(), Fail> {
    for (index, limit) in LIMITS.iter().enumerate() {
        assert!(rt;
            keeps_limit(rt.alloc(), *limit)? == limit.3,
            "limit {index}"
        );
    }
    Ok(())
}
