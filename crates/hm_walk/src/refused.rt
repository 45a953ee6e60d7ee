//! The refusals of the kinds of step that a cycle needs.
use crate::play::*;
use hm_core::{StepKind, StepRefused};
use hm_shape::ReplyKind;
use std::test::Fail;

#[test]
fn a_stage_is_left_for_the_next_one_alone(rt: HostRuntime) -> Result<(), Fail> {
    let mut machine = fresh(rt.alloc(), 1, 4)?;
    let refused = Err(StepRefused::Stage);
    let lines = [
        // Idle of the next number, First, Second, and Idle again.
        (0, to(4294967296), refused),
        (0, to(4294967298), refused),
        (0, to(4294967299), refused),
        (0, to(4294967300), refused),
        // A Join of the same number, of one too great, and with another count of cycles.
        (0, to(1), refused),
        (0, to(8589934593), refused),
        (0, to(4294967301), refused),
        (0, to(JOIN_1), Ok(0)),
        (0, to(JOIN_1), refused),
        (0, to(FIRST_2), refused),
        // A restart.
        (0, to(8589934593), Ok(JOIN_1)),
        (0, StepKind::LoadStage, Ok(8589934593)),
    ];
    play(&rt, &mut machine, &lines);
    Ok(())
}

#[test]
fn an_exchange_of_the_stage_fails_where_another_moved_it(rt: HostRuntime) -> Result<(), Fail> {
    let mut machine = fresh(rt.alloc(), 2, 4)?;
    let lines = [
        (0, to(JOIN_1), Ok(0)),
        // The second caller's exchange finds the other's, sees it, and counts as no move.
        (1, to(JOIN_1), Ok(JOIN_1)),
        (1, roles(7), Ok(0)),
        (0, reply_of(1), Ok(0)),
        (1, reply(ReplyKind::Joined), Ok(0)),
        (0, reply_of(1), Ok(JOINED_1)),
        (0, reply_of(0), Ok(0)),
        (0, to(FIRST_2), Err(StepRefused::Stage)),
    ];
    play(&rt, &mut machine, &lines);
    has(&rt, &machine, &[(0, JOIN_1)]);
    Ok(())
}

#[test]
fn replies_and_roles_are_those_of_the_stage_seen(rt: HostRuntime) -> Result<(), Fail> {
    let mut machine = fresh(rt.alloc(), 1, 4)?;
    let (no_reply, no_roles) = (Err(StepRefused::Reply), Err(StepRefused::Roles));
    let lines = [
        // In Idle nobody replies, joins, turns without a full region, or frees what is not left behind.
        (0, reply(ReplyKind::Joined), no_reply),
        (0, reply(ReplyKind::Clean), no_reply),
        (0, reply(ReplyKind::Dirty), no_reply),
        (0, roles(7), no_roles),
        (0, roles(6), no_roles),
        (0, roles(1), no_roles),
        (0, roles(0), no_roles),
        (0, to(JOIN_1), Ok(0)),
        // A join takes the lowest Free region, and changes no other.
        (0, reply(ReplyKind::Joined), no_reply),
        (0, roles(19), no_roles),
        (0, roles(71), no_roles),
        (0, roles(3), no_roles),
        (0, roles(7), Ok(0)),
        (0, reply(ReplyKind::Clean), no_reply),
        (0, reply(ReplyKind::Dirty), no_reply),
        (0, reply(ReplyKind::Joined), Ok(0)),
        // It joins once, and replies once.
        (0, roles(31), no_roles),
        (0, reply(ReplyKind::Joined), no_reply),
        (0, reply_of(0), Ok(JOINED_1)),
        (0, to(FIRST_2), Ok(JOIN_1)),
        (0, reply(ReplyKind::Joined), no_reply),
        (0, reply(ReplyKind::Dirty), no_reply),
        (0, reply(ReplyKind::Clean), no_reply),
        (0, roles(31), no_roles),
    ];
    play(&rt, &mut machine, &lines);
    Ok(())
}

#[test]
fn a_copy_and_a_later_name_have_their_conditions_in_order(rt: HostRuntime) -> Result<(), Fail> {
    let mut machine = fresh(rt.alloc(), 2, 4)?;
    let (held, later) = (Err(StepRefused::Held), Err(StepRefused::Later));
    let lines = [
        (0, reply_of(2), Err(StepRefused::Caller)),
        (0, roles_of(2), Err(StepRefused::Caller)),
        (2, StepKind::LoadStage, Err(StepRefused::Caller)),
        (1, copy(1), held),
    ];
    play(&rt, &mut machine, &lines);
    letting(&rt, &mut machine, 1, (1, StepKind::LoadStage, held));
    let lines = [
        (0, shorten(0, 2, 1), held),
        // Words of the common object's version that name nothing, that name nothing ever, and that are not there.
        (0, shorten(0, 0, 0), later),
        (0, shorten(0, 2, 0), later),
        (0, shorten(0, 6, 0), later),
        (0, shorten(0, 16, 0), later),
        (1, shorten(0, 0, 0), later),
        (0, shorten(99, 0, 0), later),
        (1, copy(0), Err(StepRefused::Words)),
    ];
    play(&rt, &mut machine, &lines);
    // A copy with another stamp, and one of a version that is not of from-space.
    write(&rt, &mut machine, 1, plain_words(1, 0));
    refuse(&rt, &mut machine, 1, copy(0), StepRefused::Change);
    write(&rt, &mut machine, 1, plain_words(0, 0));
    refuse(&rt, &mut machine, 1, copy(0), StepRefused::Later);
    make_all(&rt, &mut machine, 1, (0, 4));
    refuse(&rt, &mut machine, 1, copy(0), StepRefused::Place);
    Ok(())
}

#[test]
fn a_turn_keeps_two_free_regions(rt: HostRuntime) -> Result<(), Fail> {
    let mut machine = fresh(rt.alloc(), 2, 4)?;
    make_all(&rt, &mut machine, 1, (0, 4));
    take(&rt, &mut machine, 1, roles(6), 0);
    for count in 4..8u64 {
        refuse(&rt, &mut machine, 1, roles(26), StepRefused::Roles);
        make(&rt, &mut machine, 1, count, 0);
    }
    // Two are Free: the second turn would leave one.
    refuse(&rt, &mut machine, 1, roles(26), StepRefused::Roles);
    // A join takes one of them, and leaves both others behind. The one that is left is kept then.
    let lines = [
        (1, to(JOIN_1), Ok(0)),
        (1, roles(31), Ok(0)),
        (0, StepKind::LoadStage, Ok(JOIN_1)),
    ];
    play(&rt, &mut machine, &lines);
    make_all(&rt, &mut machine, 1, (8, 12));
    refuse(&rt, &mut machine, 1, roles(111), StepRefused::Roles);
    Ok(())
}

#[test]
fn a_copy_is_refused_to_a_caller_that_holds_512_versions(rt: HostRuntime) -> Result<(), Fail> {
    let mut machine = fresh(rt.alloc(), 1, 1024)?;
    make_all(&rt, &mut machine, 0, (1, 512));
    let holds = Err(StepRefused::Holds);
    // What may find or publish a version is refused, also where one is let go.
    letting(&rt, &mut machine, 1, (0, copy(0), holds));
    let lines = [
        (0, copy(0), holds),
        (0, look(0, true), holds),
        // The others are not.
        (0, shorten(0, 0, 0), Err(StepRefused::Later)),
        (0, roles_of(0), Ok(1)),
        (0, to(JOIN_1), Ok(0)),
        (0, roles(7), Ok(0)),
        (0, reply(ReplyKind::Joined), Ok(0)),
    ];
    play(&rt, &mut machine, &lines);
    letting(&rt, &mut machine, 1, (0, reply_of(0), Ok(JOINED_1)));
    refuse(&rt, &mut machine, 0, copy(0), StepRefused::Words);
    Ok(())
}
