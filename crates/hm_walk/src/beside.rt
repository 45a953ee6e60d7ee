//! Object calls beside a cycle: a store and a copy of one version, and a caller that stops in First.
use crate::play::*;
use hm_core::{Machine, StepKind, StepRefused};
use hm_model::Entry;
use hm_shape::{ReplyKind, Version};
use std::process::Abort;
use std::test::Fail;

// Both callers join, and have seen First. The common object's version 0 is of from-space then, as caller 1 knows.
fn both_in_first(rt: &impl Abort, machine: &mut Machine) {
    let lines = [
        (0, to(JOIN_1), Ok(0)),
        (0, roles(7), Ok(0)),
        (0, reply(ReplyKind::Joined), Ok(0)),
        (1, StepKind::LoadStage, Ok(JOIN_1)),
        (1, roles(7), Ok(0)),
        (1, reply(ReplyKind::Joined), Ok(0)),
        (1, reply_of(0), Ok(JOINED_1)),
        (1, reply_of(1), Ok(JOINED_1)),
        (1, to(FIRST_2), Ok(JOIN_1)),
        (0, StepKind::LoadStage, Ok(FIRST_2)),
        (1, roles_of(1), Ok(7)),
        (1, roles_of(0), Ok(7)),
    ];
    play(rt, machine, &lines);
}

#[test]
fn a_store_behind_a_copy_hangs_on_the_copy(rt: HostRuntime) -> Result<(), Fail> {
    let mut machine = fresh(rt.alloc(), 2, 4)?;
    both_in_first(&rt, &mut machine);
    write(&rt, &mut machine, 0, plain_words(1, 7));
    write(&rt, &mut machine, 1, plain_words(0, 0));
    let lines = [
        (1, copy(0), Ok(0)),
        (0, store_number(0, 0, 7), Ok(21)),
        (0, look(20, false), Ok(0)),
        (0, store_number(0, 20, 7), Ok(0)),
    ];
    play(&rt, &mut machine, &lines);
    has(&rt, &machine, &[(5, 21), (325, 5), (70, 1), (75, 7)]);
    stores(&rt, &machine, 1, plain_contents(1, 7));
    Ok(())
}

#[test]
fn a_copy_behind_a_store_is_not_made(rt: HostRuntime) -> Result<(), Fail> {
    let mut machine = fresh(rt.alloc(), 2, 4)?;
    both_in_first(&rt, &mut machine);
    write(&rt, &mut machine, 0, plain_words(1, 7));
    write(&rt, &mut machine, 1, plain_words(0, 0));
    let lines = [
        (0, store_number(0, 0, 7), Ok(0)),
        (1, copy(0), Ok(5)),
        (1, copy(4), Err(StepRefused::Change)),
    ];
    play(&rt, &mut machine, &lines);
    letting(&rt, &mut machine, 0, (1, look(4, true), Ok(0)));
    take(&rt, &mut machine, 1, reply(ReplyKind::Clean), 0);
    has(&rt, &machine, &[(5, 5), (69, 0)]);
    stores(&rt, &machine, 1, plain_contents(1, 7));
    Ok(())
}

// Caller 1 does all that it can for the cycle: it copies the common object as version 20, and replies.
fn reply_alone(rt: &impl Abort, machine: &mut Machine) {
    write(rt, machine, 1, plain_words(0, 0));
    take(rt, machine, 1, copy(0), 0);
    letting(rt, machine, 0, (1, look(20, true), Ok(0)));
    let lines = [
        (1, reply(ReplyKind::Clean), Ok(0)),
        (1, reply_of(0), Ok(JOINED_1)),
        (1, reply_of(1), Ok(CLEAN_2)),
        (1, to(SECOND_3), Err(StepRefused::Stage)),
    ];
    play(rt, machine, &lines);
}

#[test]
fn a_caller_that_stops_in_first_hinders_no_object_call(rt: HostRuntime) -> Result<(), Fail> {
    let mut machine = fresh(rt.alloc(), 2, 4)?;
    both_in_first(&rt, &mut machine);
    reply_alone(&rt, &mut machine);
    // Caller 0 takes no step any more. Caller 1 creates, stores and fetches, and turns to another region.
    for count in 0..2u64 {
        make(&rt, &mut machine, 1, count, count);
    }
    write(&rt, &mut machine, 1, plain_words(1, 9));
    let fetch = StepKind::LoadLink {
        v: Version(23),
        entry: Some(Entry::Fetch {
            caller: 1,
            name: common(),
            answer: plain_contents(1, 9),
        }),
        scan: false,
    };
    let lines = [
        (1, store_number(1, 20, 9), Ok(0)),
        (1, fetch, Ok(0)),
        (1, roles(27), Ok(0)),
        (1, to(SECOND_3), Err(StepRefused::Stage)),
    ];
    play(&rt, &mut machine, &lines);
    has(&rt, &machine, &[(0, FIRST_2), (4, 27)]);
    stores(&rt, &machine, 3, plain_contents(1, 9));
    // What it had given up stays in use until all have replied.
    take(&rt, &mut machine, 0, look(0, false), 21);
    Ok(())
}
