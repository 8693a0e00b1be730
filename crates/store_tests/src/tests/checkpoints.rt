//! A journal that is full: the action after it makes a checkpoint.
use super::faults::picks;
use super::rows::fill;
use super::{expect_eq, formatted, open, opened};
use sector_disk::{Fail, Fuse};
use session_store::{CheckpointFault, ConfirmFault, SubmitFault};
use std::alloc::Global;
use std::process::Abort;
use std::test::Fail as Failure;

/// 1,024 actions of 1 are confirmed; the next makes a checkpoint of 12 calls, of which this one fails: 9 parts, a sync, the
/// header, a sync. The store has failed then. After a power cut the header alone brings the action over.
fn stop_checkpoint(
    rt: &impl Abort,
    alloc: Global,
    calls: u8,
    (fail, effect): (Fail, bool),
    picks: &[u32],
) -> Result<(), Failure> {
    let row = (calls, fail, effect);
    let fuse = Fuse::new(
        formatted(rt, alloc)?,
        25 + 1024 + 16 + u64::from(calls),
        fail,
        effect,
    );
    let mut store = open(rt, alloc, fuse);
    expect_eq(rt, fill(&mut store), true, "filled");
    let answer = store.submit(&1);
    expect_eq(rt, matches!(answer, Err(SubmitFault::Disk)), true, row);
    let answer = store.submit(&1);
    expect_eq(rt, matches!(answer, Err(SubmitFault::Failed)), true, row);
    expect_eq(rt, store.confirm(), Err(ConfirmFault::Failed), row);
    expect_eq(rt, store.checkpoint(), Err(CheckpointFault::Failed), row);
    expect_eq(rt, store.state().total(), 1025, row);
    let mut disk = store.into_disk().into_inner();
    disk.crash(picks);
    let is_written = calls == 10 && effect || calls == 11;
    let is_picked = picks.first().is_some_and(|pick| pick % 2 == 1);
    let due = if calls == 11 && effect || is_written && is_picked {
        1025
    } else {
        1024
    };
    let found = opened(alloc, disk).1;
    expect_eq(rt, found.map(|it| it.0), Ok(due), row);
    Ok(())
}

// At the calls of the header any power cut, at the others one kind after another.
fn stop_every_call(rt: &impl Abort, alloc: Global, kind: (Fail, bool)) -> Result<(), Failure> {
    let lists = picks();
    for calls in 0..10 {
        stop_checkpoint(rt, alloc, calls, kind, &lists[usize::from(calls) % 4])?;
    }
    for calls in 10..12 {
        for list in &lists {
            stop_checkpoint(rt, alloc, calls, kind, list)?;
        }
    }
    Ok(())
}

#[test]
fn a_call_of_a_checkpoint_fails(rt: HostRuntime) -> Result<(), Failure> {
    stop_every_call(&rt, rt.alloc(), (Fail::Once, false))
}

#[test]
fn a_call_of_a_checkpoint_fails_and_has_effect(rt: HostRuntime) -> Result<(), Failure> {
    stop_every_call(&rt, rt.alloc(), (Fail::Once, true))
}

#[test]
fn all_calls_from_one_of_a_checkpoint_on_fail_and_have_effect(
    rt: HostRuntime,
) -> Result<(), Failure> {
    stop_every_call(&rt, rt.alloc(), (Fail::Always, true))
}
