//! Random walks of machines of one, two and three callers, with the words checked on the way: no version that can be
//! reached is free, dead or about to be given out, and names stand for the objects that they were written for.
use crate::play::{common, fresh};
use crate::table::Walk;
use hm_core::{Machine, StepKind, StepRefused};
use std::alloc::Global;
use std::process::Abort;
use std::test::Fail;

// How often each kind was taken, in their order, and each refusal came, how many cycles were done, and how often another
// First came behind a Second.
#[derive(Drop)]
struct Tally {
    taken: [u64; 15],
    refused: [u64; 11],
    cycles: u64,
    again: u64,
}

// A walk of a fresh machine.
fn begin(alloc: Global, callers: u32, random: u64) -> Result<Walk, Fail> {
    let mut walk = Walk {
        callers,
        machine: fresh(alloc, callers, 4)?,
        random,
        seen: [0; 3],
        used: [1, 0, 0],
        join: [0; 3],
        done: [0; 3],
        made: [1, 0, 0],
        goal: [0; 3],
        written: [false; 48],
        masks: [false; 9],
        held: [false; 144],
        names: [None; 48],
        refs: [None; 192],
    };
    walk.names[0] = Some(common());
    walk.held[0] = true;
    walk.held[48] = true;
    walk.held[96] = true;
    Ok(walk)
}

// The place of a kind in their order.
fn kind_place(kind: &StepKind) -> usize {
    match *kind {
        StepKind::LoadField { .. } => 0,
        StepKind::LoadLink { .. } => 1,
        StepKind::StoreOwn { .. } => 2,
        StepKind::Publish { .. } => 3,
        StepKind::LinkStore { .. } => 4,
        StepKind::Split => 5,
        StepKind::Meet { .. } => 6,
        StepKind::LoadStage => 7,
        StepKind::MoveStage { .. } => 8,
        StepKind::LoadReply { .. } => 9,
        StepKind::StoreReply { .. } => 10,
        StepKind::LoadRoles { .. } => 11,
        StepKind::StoreRoles { .. } => 12,
        StepKind::LinkCopy { .. } => 13,
        StepKind::Shorten { .. } => 14,
    }
}

// The place of a refusal in their order.
fn refusal_place(refused: StepRefused) -> usize {
    match refused {
        StepRefused::Caller => 0,
        StepRefused::Held => 1,
        StepRefused::Holds => 2,
        StepRefused::Place => 3,
        StepRefused::Words => 4,
        StepRefused::Change => 5,
        StepRefused::Stage => 6,
        StepRefused::Reply => 7,
        StepRefused::Roles => 8,
        StepRefused::Later => 9,
        StepRefused::Memory => 10,
    }
}

// One more is counted, where there is such a place.
fn count(list: &mut [u64], i: usize) {
    if i < list.len() {
        list[i] = list[i].wrapping_add(1);
    }
}

// Whether a kind may free or bury regions, or replace a name.
fn may_lose(kind: &StepKind) -> bool {
    match *kind {
        StepKind::MoveStage { .. }
        | StepKind::StoreRoles { .. }
        | StepKind::LinkCopy { .. }
        | StepKind::Shorten { .. } => true,
        _ => false,
    }
}

// One step of a walk. The words are checked after one that is taken and may lose a version, and else at each fourth.
// Whether the step was a turn, a join or a reuse that was refused.
fn go(rt: &impl Abort, walk: &mut Walk, tally: &mut Tally, at: u32) -> bool {
    let step = walk.choose();
    let before = walk.stage();
    match walk.take(&step) {
        Ok(_word) => {
            count(&mut tally.taken, kind_place(&step.kind));
            if at % 4 == 0 || may_lose(&step.kind) {
                assert_eq!(rt; walk.first_fault(), None, "after step {at}: {step:?}");
            }
            if before % 4 == 3 && walk.stage() % 4 == 2 {
                tally.again = tally.again.wrapping_add(1);
            }
            if before % 4 == 3 && walk.stage() % 4 == 0 {
                tally.cycles = tally.cycles.wrapping_add(1);
            }
            false
        }
        Err(refused) => {
            count(&mut tally.refused, refusal_place(refused));
            refused == StepRefused::Roles
        }
    }
}

// So many steps of machines of these callers. A machine is left for a fresh one after 2000 steps, and where no region is
// left for its copies.
fn walks(rt: &impl Abort, alloc: Global, callers: u32, steps: u32) -> Result<Tally, Fail> {
    let mut tally = Tally {
        taken: [0; 15],
        refused: [0; 11],
        cycles: 0,
        again: 0,
    };
    let mut walk = begin(alloc, callers, 7)?;
    let mut stuck = 0u32;
    for at in 0..steps {
        if at % 2000 == 1999 || stuck > 60 {
            walk = begin(alloc, callers, u64::from(at))?;
            stuck = 0;
        }
        if go(rt, &mut walk, &mut tally, at) {
            stuck = stuck.wrapping_add(1);
        }
    }
    Ok(tally)
}

// Each kind was taken, and each refusal came but for Holds and Memory. Some cycles were done.
fn is_whole(rt: &impl Abort, tally: &Tally) {
    for (i, taken) in tally.taken.iter().enumerate() {
        assert!(rt; *taken > 0, "kind {i}");
    }
    for (i, refused) in tally.refused.iter().enumerate() {
        assert!(rt; *refused > 0 || i == 2 || i == 10, "refusal {i}");
    }
    assert!(rt; tally.cycles >= 10, "{} cycles", tally.cycles);
}

#[test]
fn no_walk_of_one_caller_loses_a_version(rt: HostRuntime) -> Result<(), Fail> {
    let tally = walks(&rt, rt.alloc(), 1, 30000)?;
    is_whole(&rt, &tally);
    Ok(())
}

#[test]
fn no_walk_of_two_callers_loses_a_version(rt: HostRuntime) -> Result<(), Fail> {
    let tally = walks(&rt, rt.alloc(), 2, 40000)?;
    is_whole(&rt, &tally);
    assert!(rt; tally.again > 0, "no second round");
    Ok(())
}

#[test]
fn no_walk_of_three_callers_loses_a_version(rt: HostRuntime) -> Result<(), Fail> {
    let tally = walks(&rt, rt.alloc(), 3, 30000)?;
    is_whole(&rt, &tally);
    assert!(rt; tally.again > 0, "no second round");
    Ok(())
}
