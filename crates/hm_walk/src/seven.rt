//! Lists of steps, with the words that they leave and the refusals that they meet.
use crate::play::*;
use hm_core::{Other, StepKind, StepRefused, machine_after};
use hm_model::Start;
use hm_shape::Shape;
use std::test::Fail;

#[test]
fn a_store_hangs_its_version_on_the_one_that_it_read(rt: HostRuntime) -> Result<(), Fail> {
    let mut machine = fresh(rt.alloc(), 1, 4)?;
    has(&rt, &machine, &[(2, 1), (258, 0)]);
    assert_eq!(rt; machine.word(259), None);
    take(&rt, &mut machine, 0, look(0, false), 0);
    for i in 1..16u32 {
        take(&rt, &mut machine, 0, field(0, i, false), 0);
    }
    refuse(
        &rt,
        &mut machine,
        0,
        store_number(0, 0, 7),
        StepRefused::Words,
    );
    write(&rt, &mut machine, 0, plain_words(1, 7));
    take(&rt, &mut machine, 0, store_number(0, 0, 7), 0);
    has(&rt, &machine, &[(3, 2), (20, 1), (25, 7)]);
    let own = StepKind::StoreOwn { i: 2, word: 9 };
    refuse(&rt, &mut machine, 0, own, StepRefused::Held);
    refuse(&rt, &mut machine, 1, StepKind::Split, StepRefused::Caller);
    Ok(())
}

#[test]
fn each_refusal_comes_once(rt: HostRuntime) -> Result<(), Fail> {
    let mut machine = fresh(rt.alloc(), 1, 4)?;
    write(&rt, &mut machine, 0, plain_words(1, 7));
    let lines = [
        (0, note(), Err(StepRefused::Caller)),
        (0, store_number(0, 3, 7), Err(StepRefused::Held)),
        (0, field(0, 16, false), Err(StepRefused::Place)),
        (0, store_number(0, 0, 8), Err(StepRefused::Change)),
        (0, store_number(0, 0, 7), Ok(0)),
        (0, store_number(0, 0, 7), Err(StepRefused::Words)),
    ];
    play(&rt, &mut machine, &lines);
    Ok(())
}

#[test]
fn the_second_of_two_stores_is_hung_on_the_first(rt: HostRuntime) -> Result<(), Fail> {
    let mut machine = fresh(rt.alloc(), 2, 4)?;
    write(&rt, &mut machine, 0, plain_words(1, 7));
    write(&rt, &mut machine, 1, plain_words(1, 9));
    let lines = [
        (0, store_number(0, 0, 7), Ok(0)),
        (1, store_number(1, 0, 9), Ok(2)),
        (1, store_number(1, 1, 9), Err(StepRefused::Change)),
    ];
    play(&rt, &mut machine, &lines);
    write(&rt, &mut machine, 1, plain_words(2, 9));
    take(&rt, &mut machine, 1, store_number(1, 1, 9), 0);
    stores(&rt, &machine, 1, plain_contents(2, 9));
    Ok(())
}

#[test]
fn a_list_of_steps_is_taken_from_a_fresh_machine_on(rt: HostRuntime) -> Result<(), Fail> {
    let shape = Shape::new(1, 4, 4).ok().ok_or("shape")?;
    let start = Start {
        numbers: [3; 10],
        sides: [Some([1; 10]), None, None, None],
    };
    let steps = [
        step(0, StepKind::Split),
        step(1, StepKind::Split),
        step(0, StepKind::StoreOwn { i: 6, word: 5 }),
    ];
    let (mut machine, played) = machine_after(rt.alloc(), shape, start, &steps)
        .ok()
        .ok_or("memory")?;
    assert!(rt; played.is_ok());
    assert_eq!(rt; machine.store().len(), 2);
    has(&rt, &machine, &[(21, 1), (41, 5)]);
    // The first of these is refused, and the second is taken.
    let more = [
        step(1, StepKind::Split),
        step(0, StepKind::StoreOwn { i: 6, word: 6 }),
    ];
    assert!(rt; machine.apply_all(&more).is_ok());
    has(&rt, &machine, &[(41, 6)]);
    Ok(())
}

// A meeting with the first note.
fn note() -> StepKind {
    StepKind::Meet {
        other: Other::Note(0),
    }
}

#[test]
fn a_note_is_met_once(rt: HostRuntime) -> Result<(), Fail> {
    let mut machine = fresh(rt.alloc(), 2, 4)?;
    let other = StepKind::Meet {
        other: Other::Caller(1),
    };
    let lines = [
        (1, note(), Err(StepRefused::Caller)),
        (0, StepKind::Split, Ok(0)),
        (1, note(), Ok(0)),
        (0, note(), Err(StepRefused::Caller)),
        (0, other, Ok(0)),
        (1, StepKind::Split, Err(StepRefused::Caller)),
    ];
    play(&rt, &mut machine, &lines);
    Ok(())
}

#[test]
fn a_caller_holds_512_versions_and_no_more(rt: HostRuntime) -> Result<(), Fail> {
    let mut machine = fresh(rt.alloc(), 1, 1024)?;
    make_all(&rt, &mut machine, 0, (1, 512));
    write(&rt, &mut machine, 0, plain_words(0, 0));
    let more = create(0, 512, [0; 10]);
    refuse(&rt, &mut machine, 0, more, StepRefused::Holds);
    let own = StepKind::StoreOwn { i: 6, word: 0 };
    letting(&rt, &mut machine, 1, (0, own, Ok(0)));
    take(&rt, &mut machine, 0, more, 0);
    Ok(())
}
