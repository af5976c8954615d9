ghost use Rattle.std.specs.Prelude.{◌≡◌};

use crate::snapshots::{Snapper, is_snapped, opened};
use st_publish::{BlankHistory, HistoryName, Viewer};
use std::alloc::{AllocError, Global};
use std::marker::Brand;
use std::process::Abort;
use std::sync::Wait;
use std::test::*;

// The place that is entered, and whether the state is that at the place.
fn entered<J: HistoryName>(viewer: &mut Viewer<J>) -> Result<(u64, bool), AllocError> {
    let (state, place) = viewer.enter()?;
    Ok((place, is_snapped(&state, place)))
}

// What a viewer enters behind each call of the publisher: two snapshots, and a refresh.
fn followed<J: HistoryName, R: Wait + Drop>(
    alloc: Global,
    snapper: &mut Snapper<J, R>,
    viewer: &mut Viewer<J>,
) -> Result<[(u64, bool); 4], AllocError> {
    let first = entered(viewer)?;
    snapper.snap(alloc)?;
    let second = entered(viewer)?;
    snapper.snap(alloc)?;
    let third = entered(viewer)?;
    snapper.refresh(alloc)?;
    Ok([first, second, third, entered(viewer)?])
}

// The places of a viewer that didn't enter: before it learns what was told, after it, and after it learns what is older.
fn learnt<J: HistoryName, R: Wait + Drop>(
    snapper: &Snapper<J, R>,
    viewer: &mut Viewer<J>,
) -> [u64; 3] {
    let before = viewer.place();
    let older = viewer.told();
    viewer.learn(&snapper.tell());
    let told = viewer.place();
    viewer.learn(&older);
    [before, told, viewer.place()]
}

// What a viewer enters where a stop is noted behind one snapshot, and one more is taken behind that.
fn stopped<J: HistoryName, R: Wait + Drop>(
    alloc: Global,
    snapper: &mut Snapper<J, R>,
    viewer: &mut Viewer<J>,
) -> Result<[(u64, bool); 2], AllocError> {
    snapper.snap(alloc)?;
    let is_noted = snapper.stop();
    snapper.snap(alloc)?;
    let (place, is_right) = entered(viewer)?;
    Ok([(viewer.place(), is_noted), (place, is_right)])
}

#[test]
fn a_snapshot_is_taken_behind_a_stop(rt: HostRuntime) -> Result<(), Fail> {
    let alloc = rt.alloc();
    go_on_stopped::<Brand, _>(rt, alloc, BlankHistory::new())
}

fn go_on_stopped<J: HistoryName, R: Wait + Abort + Drop + Copy>(
    rt: R,
    alloc: Global,
    blank: BlankHistory,
) -> Result<(), Fail>
    requires { blank.seen.book ≡ J.book }
{
    let (mut snapper, mut viewers) = opened::<J, R>(rt, alloc, blank, 1)?;
    let Some(one) = viewers.get_mut(0) else {
        return Ok(());
    };
    let found = stopped(alloc, &mut snapper, one)?;
    assert_eq!(rt; found, [(2, true), (2, true)]);
    Ok(())
}

#[test]
fn a_viewer_goes_on_to_what_is_published(rt: HostRuntime) -> Result<(), Fail> {
    let alloc = rt.alloc();
    go_on::<Brand, _>(rt, alloc, BlankHistory::new())
}

fn go_on<J: HistoryName, R: Wait + Abort + Drop + Copy>(
    rt: R,
    alloc: Global,
    blank: BlankHistory,
) -> Result<(), Fail>
    requires { blank.seen.book ≡ J.book }
{
    let (mut snapper, mut viewers) = opened::<J, R>(rt, alloc, blank, 2)?;
    let Some(one) = viewers.get_mut(0) else {
        return Ok(());
    };
    let found = followed(alloc, &mut snapper, one)?;
    assert_eq!(rt; found, [(0, true), (1, true), (2, true), (2, true)]);
    let Some(two) = viewers.get_mut(1) else {
        return Ok(());
    };
    assert_eq!(rt; learnt(&snapper, two), [0, 2, 2]);
    Ok(())
}
