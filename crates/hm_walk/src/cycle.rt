//! Whole cycles, step by step: of one caller that frees and uses a region again, and of two callers of whom one reads
//! an old name behind its scan.
use crate::play::*;
use hm_core::{Machine, StepKind, StepRefused};
use hm_model::{Contents, Entry, Field, Name};
use hm_shape::{ReplyKind, Version};
use std::process::Abort;
use std::test::Fail;

// The only caller begins a cycle, joins with these roles, and goes on to First.
fn first_alone(rt: &impl Abort, machine: &mut Machine, old: [u64; 2], join: [u64; 2], first: u64) {
    let [idle, kept] = old;
    let [joining, word] = join;
    has(rt, machine, &[(0, idle), (2, kept)]);
    take(rt, machine, 0, to(joining), idle);
    take(rt, machine, 0, roles(word), 0);
    has(rt, machine, &[(0, joining), (2, word)]);
    let joined = joining / 4294967296 * 4 + 1;
    let lines = [
        (0, reply(ReplyKind::Joined), Ok(0)),
        (0, reply(ReplyKind::Joined), Err(StepRefused::Reply)),
        (0, to(first), Err(StepRefused::Stage)),
        (0, reply_of(0), Ok(joined)),
        (0, to(first), Ok(joining)),
    ];
    play(rt, machine, &lines);
    has(rt, machine, &[(1, joined), (0, first)]);
}

// It copies the common object from one version to the next one, scans, and goes on to Second and Idle.
fn done_alone(rt: &impl Abort, machine: &mut Machine, copied: [u32; 2], stages: [u64; 3]) {
    let [old, new] = copied;
    let [first, second, idle] = stages;
    let clean = first / 4294967296 * 4 + 2;
    let kept = machine.word(2).unwrap_or(0);
    let joined = machine.word(1).unwrap_or(0);
    take(rt, machine, 0, roles_of(0), kept);
    write(rt, machine, 0, plain_words(0, 0));
    take(rt, machine, 0, copy(old), 0);
    scan(rt, machine, 0, new, [0; 5]);
    refuse(rt, machine, 0, reply(ReplyKind::Clean), StepRefused::Reply);
    letting(rt, machine, old, (0, reply_of(0), Ok(joined)));
    let lines = [
        (0, reply(ReplyKind::Clean), Ok(0)),
        (0, to(second), Err(StepRefused::Stage)),
        (0, reply_of(0), Ok(clean)),
        (0, to(second), Ok(first)),
    ];
    play(rt, machine, &lines);
    has(rt, machine, &[(0, second)]);
    let lines = [
        (0, reply(ReplyKind::Dirty), Err(StepRefused::Reply)),
        (0, reply(ReplyKind::Clean), Ok(0)),
        (0, reply_of(0), Ok(second / 4294967296 * 4 + 2)),
        (0, to(idle), Ok(second)),
    ];
    play(rt, machine, &lines);
    has(rt, machine, &[(0, idle)]);
}

// It fills its To region, and may not turn before that.
fn fill(rt: &impl Abort, machine: &mut Machine) {
    for count in 1..5u64 {
        refuse(rt, machine, 0, roles(27), StepRefused::Roles);
        make(rt, machine, 0, count, count);
    }
}

#[test]
fn one_caller_frees_its_region_and_uses_it_again(rt: HostRuntime) -> Result<(), Fail> {
    let mut machine = fresh(rt.alloc(), 1, 4)?;
    first_alone(&rt, &mut machine, [0, 1], [JOIN_1, 7], FIRST_2);
    refuse(&rt, &mut machine, 0, roles(4), StepRefused::Roles);
    done_alone(&rt, &mut machine, [0, 4], [FIRST_2, SECOND_3, IDLE_4]);
    // What it wrote into before the join is free: the region is used again by the next join.
    let lines = [
        (0, field(0, 1, false), Err(StepRefused::Held)),
        (0, roles(4), Ok(0)),
        (0, roles(4), Err(StepRefused::Roles)),
    ];
    play(&rt, &mut machine, &lines);
    has(&rt, &machine, &[(3, 5)]);
    first_alone(
        &rt,
        &mut machine,
        [IDLE_4, 4],
        [21474836485, 13],
        25769803782,
    );
    done_alone(
        &rt,
        &mut machine,
        [4, 0],
        [25769803782, 30064771079, 34359738376],
    );
    has(&rt, &machine, &[(3, 0), (67, 1)]);
    // This join frees the region itself, and a turn makes the full one Old.
    first_alone(
        &rt,
        &mut machine,
        [34359738376, 13],
        [38654705673, 7],
        42949672970,
    );
    fill(&rt, &mut machine);
    has(&rt, &machine, &[(67, 0)]);
    take(&rt, &mut machine, 0, roles(27), 0);
    has(&rt, &machine, &[(2, 27), (0, 42949672970)]);
    Ok(())
}

#[test]
fn a_second_round_comes_where_an_old_name_was_read(rt: HostRuntime) -> Result<(), Fail> {
    let mut machine = fresh(rt.alloc(), 2, 8)?;
    read_behind_a_scan(&rt, &mut machine);
    reply_marked(&rt, &mut machine);
    // The first Second is left over a Dirty reply.
    has(&rt, &machine, &[(0, FIRST_4)]);
    let lines = [
        (0, roles(4), Err(StepRefused::Roles)),
        (1, roles(4), Err(StepRefused::Roles)),
    ];
    play(&rt, &mut machine, &lines);
    scan_again(&rt, &mut machine);
    has(&rt, &machine, &[(0, SECOND_5)]);
    end(&rt, &mut machine);
    has(&rt, &machine, &[(0, IDLE_6)]);
    let lines = [
        (0, roles(4), Ok(0)),
        (1, roles(4), Err(StepRefused::Roles)),
        (1, StepKind::LoadStage, Ok(IDLE_6)),
        (1, roles(4), Ok(0)),
    ];
    play(&rt, &mut machine, &lines);
    has(&rt, &machine, &[(3, 4), (4, 4)]);
    stores(&rt, &machine, 2, referring());
    // Caller 0 joins again, and writes into the region that was freed.
    let lines = [(0, to(JOIN_7), Ok(IDLE_6)), (0, roles(13), Ok(0))];
    play(&rt, &mut machine, &lines);
    make(&rt, &mut machine, 0, 2, 3);
    has(&rt, &machine, &[(0, JOIN_7), (3, 13), (5, 0), (11, 3)]);
    stores(&rt, &machine, 3, referring());
    Ok(())
}

#[test]
fn a_name_read_in_second_marks_its_reader(rt: HostRuntime) -> Result<(), Fail> {
    let mut machine = fresh(rt.alloc(), 2, 8)?;
    read_behind_a_scan(&rt, &mut machine);
    // Caller 1 still holds the old version of X, and writes its name into what it stores now.
    write(
        &rt,
        &mut machine,
        1,
        [0, 2, 2, 0, 0, 0, 7, 0, 0, 0, 0, 0, 0, 0, 0, 0],
    );
    let lines = [
        (1, store_number(1, 8, 7), Ok(0)),
        (0, look(8, false), Ok(42)),
        (0, field(41, 2, false), Ok(2)),
        (0, reply(ReplyKind::Clean), Err(StepRefused::Reply)),
        (0, reply(ReplyKind::Dirty), Ok(0)),
    ];
    play(&rt, &mut machine, &lines);
    has(&rt, &machine, &[(0, SECOND_3), (1, DIRTY_3), (133, 42)]);
    Ok(())
}

// The object that caller 0 makes first.
fn x_name() -> Name {
    Name { maker: 0, count: 1 }
}

// Caller 0 stores a reference to X, while caller 1 has scanned and it has not. Caller 1 finds the old version of X then.
fn read_behind_a_scan(rt: &impl Abort, machine: &mut Machine) {
    write(
        rt,
        machine,
        0,
        [0, 0, 0, 0, 0, 0, 5, 5, 5, 5, 5, 5, 5, 5, 5, 5],
    );
    take(rt, machine, 0, create(0, 1, [5; 10]), 0);
    join_both(rt, machine);
    // Caller 1 scans: the common object is copied.
    let lines = [
        (1, StepKind::LoadStage, Ok(FIRST_2)),
        (1, roles_of(1), Ok(7)),
        (1, roles_of(0), Ok(7)),
        (1, look(0, true), Ok(0)),
    ];
    play(rt, machine, &lines);
    write(rt, machine, 1, plain_words(0, 0));
    take(rt, machine, 1, copy(0), 0);
    scan(rt, machine, 1, 40, [0; 5]);
    letting(rt, machine, 0, (1, reply_of(1), Ok(JOINED_1)));
    take(rt, machine, 1, reply(ReplyKind::Clean), 0);
    // Caller 0 stores X in the copy, and caller 1 reads it there.
    let lines = [(0, look(0, false), Ok(41)), (0, look(40, false), Ok(0))];
    play(rt, machine, &lines);
    write(
        rt,
        machine,
        0,
        [0, 1, 2, 0, 0, 0, 0, 0, 0, 0, 0, 0, 0, 0, 0, 0],
    );
    take(rt, machine, 0, store(0, 40, x_field()), 0);
    has(rt, machine, &[(645, 9)]);
    let lines = [
        (1, look(40, false), Ok(9)),
        (1, field(8, 2, false), Ok(2)),
        (1, fetch_x(), Ok(0)),
        (1, look(1, false), Ok(0)),
    ];
    play(rt, machine, &lines);
    clean_behind(rt, machine);
}

// Caller 0 begins a cycle, both join, and it goes on to First.
fn join_both(rt: &impl Abort, machine: &mut Machine) {
    let lines = [
        (0, to(JOIN_1), Ok(0)),
        (0, roles(7), Ok(0)),
        (0, reply(ReplyKind::Joined), Ok(0)),
        (1, StepKind::LoadStage, Ok(JOIN_1)),
        (1, roles(7), Ok(0)),
        (1, reply(ReplyKind::Joined), Ok(0)),
        (0, reply_of(0), Ok(JOINED_1)),
        (0, to(FIRST_2), Err(StepRefused::Stage)),
        (0, reply_of(1), Ok(JOINED_1)),
        (0, to(FIRST_2), Ok(JOIN_1)),
    ];
    play(rt, machine, &lines);
    has(rt, machine, &[(0, FIRST_2)]);
}

// The first reference of the common object becomes X.
fn x_field() -> Field {
    Field::Refer {
        i: 0,
        value: Some(x_name()),
    }
}

// What the common object holds then.
fn referring() -> Contents {
    Contents {
        stamp: 1,
        refs: [Some(x_name()), None, None, None],
        numbers: [0; 10],
    }
}

// Caller 1 fetches the common object with that reference.
fn fetch_x() -> StepKind {
    StepKind::LoadLink {
        v: Version(8),
        entry: Some(Entry::Fetch {
            caller: 1,
            name: common(),
            answer: referring(),
        }),
        scan: false,
    }
}

// Caller 0 scans: X is copied, and its own version names the copy. All have replied Clean then, and it goes on to Second.
fn clean_behind(rt: &impl Abort, machine: &mut Machine) {
    let lines = [
        (0, roles_of(0), Ok(7)),
        (0, roles_of(1), Ok(7)),
        (0, look(1, true), Ok(0)),
    ];
    play(rt, machine, &lines);
    write(
        rt,
        machine,
        0,
        [0, 0, 0, 0, 0, 0, 5, 5, 5, 5, 5, 5, 5, 5, 5, 5],
    );
    take(rt, machine, 0, copy(1), 0);
    scan(rt, machine, 0, 8, [0, 2, 0, 0, 0]);
    take(rt, machine, 0, shorten(8, 2, 9), 0);
    has(rt, machine, &[(135, 10)]);
    scan(rt, machine, 0, 9, [0; 5]);
    letting(rt, machine, 0, (0, reply_of(0), Ok(JOINED_1)));
    letting(rt, machine, 1, (0, reply_of(0), Ok(JOINED_1)));
    let lines = [
        (0, reply(ReplyKind::Clean), Ok(0)),
        (0, reply_of(0), Ok(CLEAN_2)),
        (0, reply_of(1), Ok(CLEAN_2)),
        (0, to(SECOND_3), Ok(FIRST_2)),
    ];
    play(rt, machine, &lines);
}

// Caller 0 replies Clean, and caller 1 that it is marked: there is another First.
fn reply_marked(rt: &impl Abort, machine: &mut Machine) {
    let lines = [
        (0, reply(ReplyKind::Dirty), Err(StepRefused::Reply)),
        (0, reply(ReplyKind::Clean), Ok(0)),
        (1, StepKind::LoadStage, Ok(SECOND_3)),
        (1, reply(ReplyKind::Clean), Err(StepRefused::Reply)),
        (1, reply(ReplyKind::Dirty), Ok(0)),
        (0, reply_of(0), Ok(CLEAN_3)),
        (0, reply_of(1), Ok(DIRTY_3)),
        (0, to(IDLE_4), Err(StepRefused::Stage)),
        (0, to(FIRST_4), Ok(SECOND_3)),
    ];
    play(rt, machine, &lines);
}

// Both scan the second First, where nothing is left to copy, and caller 1 goes on to Second.
fn scan_again(rt: &impl Abort, machine: &mut Machine) {
    take(rt, machine, 0, roles_of(0), 7);
    take(rt, machine, 0, roles_of(1), 7);
    scan(rt, machine, 0, 8, [0, 10, 0, 0, 0]);
    scan(rt, machine, 0, 9, [0; 5]);
    let lines = [
        (0, reply(ReplyKind::Clean), Ok(0)),
        (1, StepKind::LoadStage, Ok(FIRST_4)),
        (1, roles_of(1), Ok(7)),
        (1, roles_of(0), Ok(7)),
        (1, look(1, true), Ok(10)),
    ];
    play(rt, machine, &lines);
    scan(rt, machine, 1, 40, [9, 0, 0, 0, 0]);
    refuse(rt, machine, 1, reply(ReplyKind::Clean), StepRefused::Reply);
    letting(rt, machine, 1, (1, reply_of(1), Ok(DIRTY_3)));
    let lines = [
        (1, reply(ReplyKind::Clean), Ok(0)),
        (1, reply_of(0), Ok(CLEAN_4)),
        (1, reply_of(1), Ok(CLEAN_4)),
        (1, to(SECOND_5), Ok(FIRST_4)),
    ];
    play(rt, machine, &lines);
}

// Both reply clean, and caller 0 ends the cycle.
fn end(rt: &impl Abort, machine: &mut Machine) {
    let lines = [
        (1, reply(ReplyKind::Clean), Ok(0)),
        (0, StepKind::LoadStage, Ok(SECOND_5)),
        (0, reply(ReplyKind::Clean), Ok(0)),
        (0, reply_of(0), Ok(CLEAN_5)),
        (0, reply_of(1), Ok(CLEAN_5)),
        (0, to(IDLE_6), Ok(SECOND_5)),
    ];
    play(rt, machine, &lines);
}
