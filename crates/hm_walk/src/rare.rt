//! Two cases that are rare in random walks: a name of from-space that only an exchange finds, and a reply to a Join by a
//! caller that joined in an earlier one.
use crate::play::*;
use hm_core::{Machine, StepKind, StepRefused};
use hm_shape::ReplyKind;
use std::process::Abort;
use std::test::Fail;

// Caller 1 joins and stores 7: that is version 20. Caller 0 stores 8 behind it, as version 1, and joins then.
fn join_late(rt: &impl Abort, machine: &mut Machine) {
    let lines = [
        (1, to(JOIN_1), Ok(0)),
        (1, roles(7), Ok(0)),
        (1, reply(ReplyKind::Joined), Ok(0)),
    ];
    play(rt, machine, &lines);
    write(rt, machine, 1, plain_words(1, 7));
    take(rt, machine, 1, store_number(1, 0, 7), 0);
    take(rt, machine, 0, look(0, false), 21);
    write(rt, machine, 0, plain_words(2, 8));
    let lines = [
        (0, store_number(0, 20, 8), Ok(0)),
        (0, StepKind::LoadStage, Ok(JOIN_1)),
        (0, roles(7), Ok(0)),
        (0, reply(ReplyKind::Joined), Ok(0)),
        (0, reply_of(0), Ok(JOINED_1)),
        (0, reply_of(1), Ok(JOINED_1)),
        (0, to(FIRST_2), Ok(JOIN_1)),
    ];
    play(rt, machine, &lines);
}

// Caller 0 scans: version 1 is copied to version 4. It keeps version 20, of caller 1's To region, and replies.
fn scan_late(rt: &impl Abort, machine: &mut Machine) {
    let lines = [
        (0, roles_of(0), Ok(7)),
        (0, roles_of(1), Ok(7)),
        (0, look(1, true), Ok(0)),
    ];
    play(rt, machine, &lines);
    write(rt, machine, 0, plain_words(2, 8));
    take(rt, machine, 0, copy(1), 0);
    scan(rt, machine, 0, 4, [0; 5]);
    letting(rt, machine, 0, (0, reply_of(0), Ok(JOINED_1)));
    letting(rt, machine, 1, (0, reply_of(0), Ok(JOINED_1)));
    take(rt, machine, 0, reply(ReplyKind::Clean), 0);
}

// Caller 1 scans: the link of version 20 comes to name the copy.
fn scan_early(rt: &impl Abort, machine: &mut Machine) {
    let lines = [
        (1, StepKind::LoadStage, Ok(FIRST_2)),
        (1, roles_of(1), Ok(7)),
        (1, roles_of(0), Ok(7)),
        (1, look(20, true), Ok(2)),
        (1, shorten(20, 0, 1), Err(StepRefused::Later)),
        (1, look(1, true), Ok(5)),
        (1, shorten(20, 0, 4), Ok(0)),
    ];
    play(rt, machine, &lines);
    scan(rt, machine, 1, 20, [5, 0, 0, 0, 0]);
    letting(rt, machine, 0, (1, reply_of(1), Ok(JOINED_1)));
    refuse(rt, machine, 1, reply(ReplyKind::Clean), StepRefused::Reply);
    letting(rt, machine, 1, (1, reply_of(1), Ok(JOINED_1)));
    let lines = [
        (1, reply(ReplyKind::Clean), Ok(0)),
        (1, reply_of(0), Ok(CLEAN_2)),
        (1, reply_of(1), Ok(CLEAN_2)),
        (1, to(SECOND_3), Ok(FIRST_2)),
        (1, reply(ReplyKind::Clean), Ok(0)),
    ];
    play(rt, machine, &lines);
}

#[test]
fn a_failed_exchange_that_finds_from_space_sets_the_mark(rt: HostRuntime) -> Result<(), Fail> {
    let mut machine = fresh(rt.alloc(), 2, 4)?;
    join_late(&rt, &mut machine);
    scan_late(&rt, &mut machine);
    write(&rt, &mut machine, 0, plain_words(2, 9));
    take(&rt, &mut machine, 0, store_number(0, 20, 9), 2);
    scan_early(&rt, &mut machine);
    let lines = [
        (0, StepKind::LoadStage, Ok(SECOND_3)),
        (0, reply(ReplyKind::Clean), Err(StepRefused::Reply)),
        (0, reply(ReplyKind::Dirty), Ok(0)),
        (1, reply_of(0), Ok(DIRTY_3)),
        (1, reply_of(1), Ok(CLEAN_3)),
        (1, to(IDLE_4), Err(StepRefused::Stage)),
        (1, to(FIRST_4), Ok(SECOND_3)),
    ];
    play(&rt, &mut machine, &lines);
    has(&rt, &machine, &[(0, FIRST_4)]);
    Ok(())
}

#[test]
fn without_that_exchange_the_cycle_ends(rt: HostRuntime) -> Result<(), Fail> {
    let mut machine = fresh(rt.alloc(), 2, 4)?;
    join_late(&rt, &mut machine);
    scan_late(&rt, &mut machine);
    scan_early(&rt, &mut machine);
    let lines = [
        (0, StepKind::LoadStage, Ok(SECOND_3)),
        (0, reply(ReplyKind::Dirty), Err(StepRefused::Reply)),
        (0, reply(ReplyKind::Clean), Ok(0)),
        (1, reply_of(0), Ok(CLEAN_3)),
        (1, reply_of(1), Ok(CLEAN_3)),
        (1, to(FIRST_4), Err(StepRefused::Stage)),
        (1, to(IDLE_4), Ok(SECOND_3)),
    ];
    play(&rt, &mut machine, &lines);
    has(&rt, &machine, &[(0, IDLE_4)]);
    Ok(())
}

#[test]
fn a_join_before_a_restart_allows_no_reply_behind_it(rt: HostRuntime) -> Result<(), Fail> {
    let mut machine = fresh(rt.alloc(), 2, 4)?;
    let lines = [
        (0, to(JOIN_1), Ok(0)),
        (0, roles(7), Ok(0)),
        (0, reply(ReplyKind::Joined), Ok(0)),
        (1, StepKind::LoadStage, Ok(JOIN_1)),
        (1, roles(7), Ok(0)),
        (1, reply(ReplyKind::Joined), Ok(0)),
        (0, reply_of(0), Ok(JOINED_1)),
        (0, reply_of(1), Ok(JOINED_1)),
        (0, to(FIRST_2), Ok(JOIN_1)),
        (0, roles_of(1), Ok(7)),
        (0, to(JOIN_3), Ok(FIRST_2)),
        (1, StepKind::LoadStage, Ok(JOIN_3)),
        (1, roles(31), Ok(0)),
        (1, reply(ReplyKind::Joined), Ok(0)),
        (0, reply(ReplyKind::Joined), Err(StepRefused::Reply)),
        (0, reply_of(0), Ok(JOINED_1)),
        (0, reply_of(1), Ok(JOINED_3)),
        (0, to(FIRST_4), Err(StepRefused::Stage)),
        // With a join of its own, the mask that it has of the other is forgotten, and all goes on.
        (0, roles(31), Ok(0)),
        (0, reply(ReplyKind::Joined), Ok(0)),
        (0, reply_of(0), Ok(JOINED_3)),
        (0, to(FIRST_4), Ok(JOIN_3)),
    ];
    play(&rt, &mut machine, &lines);
    letting(&rt, &mut machine, 0, (0, roles_of(0), Ok(31)));
    let lines = [
        (0, reply(ReplyKind::Clean), Err(StepRefused::Reply)),
        (0, roles_of(1), Ok(31)),
        (0, reply(ReplyKind::Clean), Ok(0)),
    ];
    play(&rt, &mut machine, &lines);
    Ok(())
}
