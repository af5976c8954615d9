use crate::family::{View, whole};
use crate::view::{Found, are_found};
use st_base::{Family, List, Scratch};
use st_memtable::Run;
use st_model::Snapshot;
use st_version::{Alone, Ready, State};
use std::alloc::{AllocError, Global};
use std::collections::BTreeMap;
use std::sync::Arc;

// The family under its name.
fn families(
    alloc: Global,
    name: Family,
    view: View,
) -> Result<BTreeMap<Family, Arc<View>>, AllocError> {
    let shared = Arc::new(alloc, view)?;
    let mut families = BTreeMap::new(alloc);
    families.insert(name, shared)?;
    Ok(families)
}

// Live snapshots at the numbers 6 and 11.
fn live(alloc: Global) -> Result<List<Snapshot>, AllocError> {
    let snapshots = [
        Snapshot { id: 0, number: 6 },
        Snapshot { id: 1, number: 11 },
    ];
    List::from_slice(alloc, &snapshots)
}

// A state with the family under this name, and live snapshots.
fn state(alloc: Global, name: Family) -> Result<State<Run>, AllocError> {
    let families = families(alloc, name, whole(alloc)?)?;
    Ok(State::new(16, true, 560, families, live(alloc)?))
}

// What a live snapshot reads of `a`.
static LIVE: [Found; 2] = [(b"a", 6, b"1"), (b"a", 11, b"10")];

// Whether the live snapshots have the numbers of these.
fn are_live(live: &[Snapshot], cases: &[Found]) -> bool {
    for (snapshot, case) in live.iter().zip(cases.iter()) {
        if snapshot.number != case.1 {
            return false;
        }
    }
    live.len() == cases.len()
}

// Whether the family of the name is there and reads so.
fn reads(state: &State<Run>, name: &Family, scratch: &mut Scratch) -> bool {
    match state.family(name) {
        Some(view) => are_found(view, &LIVE, scratch),
        None => false,
    }
}

// Whether the state has its parts, the family under its name, and none under another.
fn has_parts(state: &State<Run>, there: &Family, missing: &Family, scratch: &mut Scratch) -> bool {
    state.last() == 16
        && state.behind()
        && state.charge() == 560
        && are_live(state.live(), &LIVE)
        && reads(state, there, scratch)
        && !reads(state, missing, scratch)
}

#[test]
fn a_state_has_its_parts(rt: HostRuntime) {
    let mut scratch = Scratch::new(rt.alloc()).expect(&rt, "memory");
    let there = Family::new(rt.alloc(), b"p").expect(&rt, "a name");
    let missing = Family::new(rt.alloc(), b"q").expect(&rt, "a name");
    let copy = there.clone().expect(&rt, "memory");
    let state = state(rt.alloc(), copy).expect(&rt, "memory");
    assert!(rt; has_parts(&state, &there, &missing, &mut scratch));
}

// Whether it took the state with the last number 16 at this place.
fn has_taken(alone: &Alone<Run>, place: u64) -> bool {
    match alone.last() {
        Some((state, at)) => state.last() == 16 && at == place,
        None => false,
    }
}

// Who takes states keeps the one that it took last, with its place.
#[test]
fn the_last_state_is_kept(rt: HostRuntime) {
    let name = Family::new(rt.alloc(), b"p").expect(&rt, "a name");
    let state = state(rt.alloc(), name).expect(&rt, "memory");
    let shared = Arc::new(rt.alloc(), state).expect(&rt, "memory");
    let mut alone = Alone::new();
    assert!(rt; alone.last().is_none());
    for place in [5, 6] {
        assert!(rt; alone.ready(&shared, place).is_ok() && has_taken(&alone, place));
    }
}
