//! One caller alone, two by turns, and two side by side on threads of their own.
ghost use Rattle.std.specs.Prelude.{◌≡◌, ◌<◌, ◌≤◌, All, IfOk, map};
ghost use Rattle.hm_model.specs.Sight.{IsSameCaller};
ghost use Rattle.hm_cells.specs.Facts.{sight_of};
ghost use Rattle.hm_ops.specs.Resting.{IsResting};
ghost use Rattle.hm_heap.specs.Mutators.{AreSameCallers};

use crate::{Heap, Mutator, close};
use hm_cells::{Counts, Memory, Pass};
use hm_model::{AnyUsage, Caller, Full, Root, Start, StoreIfRefused, Tended, Worker};
use hm_shape::Shape;
use std::alloc::{AllocError, Global};
use std::marker::Model;
use std::process::Abort;
use std::test::Fail;
use std::thread::{self, Threads};

// How often each of two callers creates, side by side.
const TRIES: u32 = 300;

// There is the common object alone, with all numbers 0.
const BARE: Start = Start {
    numbers: [0; 10],
    sides: [None; 4],
};

// A heap of one caller with four versions a region.
fn alone(rt: &impl Abort, alloc: Global) -> Result<(Heap<AnyUsage>, Pass<AnyUsage>), Memory>
    ensures { IfOk result (λ r. IsResting r.1 r.0) }
{
    let shape = Shape::new(1, 4, 4).unwrap();
    let (heap, mut passes) = Heap::make(alloc, shape, AnyUsage, BARE)?;
    let pass = passes.pop().expect(rt, "caller 0");
    Ok((heap, pass))
}

// A heap of two callers with four versions a region.
fn two(
    rt: &impl Abort,
    alloc: Global,
) -> Result<(Heap<AnyUsage>, Pass<AnyUsage>, Pass<AnyUsage>), Memory>
    ensures { IfOk result (λ r. IsResting r.1 r.0 × IsResting r.2 r.0) }
{
    let shape = Shape::new(2, 4, 4).unwrap();
    let (heap, mut passes) = Heap::make(alloc, shape, AnyUsage, BARE)?;
    let b = passes.pop().expect(rt, "caller 1");
    let a = passes.pop().expect(rt, "caller 0");
    Ok((heap, a, b))
}

// An object with these numbers and no references, at place 1.
fn creates<C: Caller<AnyUsage>>(caller: &mut C, number: u64) -> Result<(), Full>
    ensures { IsSameCaller (C.sight caller.old) (C.sight caller.new) }
{
    caller.create(Root(1), [None; 4], [number; 10])
}

// So many creates, with a tend after each. Answers how many had room.
fn works<W: Worker<AnyUsage>>(worker: &mut W, tries: u32) -> u32
    ensures { IsSameCaller (W.sight worker.old) (W.sight worker.new) }
{
    let mut made = 0u32;
    for i in 0..tries {
        if creates(worker, u64::from(i)).is_ok() {
            made = made.saturating_add(1);
        }
        worker.tend();
    }
    made
}

#[test]
fn regions_of_four_versions_have_room_for_seven_creates(rt: HostRuntime) -> Result<(), Fail> {
    let (heap, pass) = alone(&rt, rt.alloc())?;
    assert_eq!(rt; pass.room(), 7);
    let mut caller = Mutator::new(&heap, pass);
    for number in 3..10 {
        assert_eq!(rt; creates(&mut caller, number), Ok(()));
    }
    assert_eq!(rt; creates(&mut caller, 10), Err(Full));
    assert_eq!(rt; (caller.used(), caller.free()), (4, 2));
    assert!(rt; caller.is_set(Root(1)));
    assert_eq!(rt; caller.fetch_number(Root(1), 9), 9);
    assert_eq!(rt; caller.into_pass().room(), 0);
    Ok(())
}

// The next tends of a caller answer these.
fn tends<W: Worker<AnyUsage>>(rt: &impl Abort, caller: &mut W, answers: &[Tended])
    ensures { IsSameCaller (W.sight caller.old) (W.sight caller.new) }
{
    for answer in answers {
        assert_eq!(rt; caller.tend(), *answer);
    }
}

// Of seven versions five are not reached at the end. The two regions that they are in are freed.
#[test]
fn a_caller_alone_takes_a_cycle_to_its_end(rt: HostRuntime) -> Result<(), Fail> {
    let (heap, pass) = alone(&rt, rt.alloc())?;
    let mut caller = Mutator::new(&heap, pass);
    assert_eq!(rt; caller.tend(), Tended::Nothing);
    for number in 3..10 {
        assert_eq!(rt; creates(&mut caller, number), Ok(()));
    }
    let answers = [
        Tended::Advanced,
        Tended::Joined,
        Tended::Advanced,
        Tended::Scanned { copied: 2 },
        Tended::Replied { clean: true },
        Tended::Advanced,
        Tended::Replied { clean: true },
        Tended::Advanced,
        Tended::Freed { versions: 8 },
        Tended::Nothing,
    ];
    tends(&rt, &mut caller, &answers);
    assert_eq!(rt; (caller.used(), caller.free()), (2, 3));
    assert!(rt; caller.is_set(Root(1)));
    assert_eq!(rt; caller.fetch_number(Root(1), 9), 9);
    assert_eq!(rt; caller.into_pass().room(), 6);
    Ok(())
}

// The caller that begins waits for the other one, which finds the copy that is made of what both name.
#[test]
fn two_callers_take_a_cycle_to_its_end_by_turns(rt: HostRuntime) -> Result<(), Fail> {
    let (heap, a, b) = two(&rt, rt.alloc())?;
    let mut a = Mutator::new(&heap, a);
    let mut b = Mutator::new(&heap, b);
    for number in 3..7 {
        assert_eq!(rt; creates(&mut a, number), Ok(()));
    }
    let waits = Tended::Waits { caller: 1 };
    let clean = Tended::Replied { clean: true };
    tends(&rt, &mut a, &[Tended::Advanced, Tended::Joined, waits]);
    tends(&rt, &mut b, &[Tended::Joined, Tended::Advanced]);
    tends(&rt, &mut a, &[Tended::Scanned { copied: 2 }, clean, waits]);
    tends(
        &rt,
        &mut b,
        &[
            Tended::Scanned { copied: 0 },
            clean,
            Tended::Advanced,
            clean,
        ],
    );
    tends(
        &rt,
        &mut a,
        &[
            clean,
            Tended::Advanced,
            Tended::Freed { versions: 8 },
            Tended::Nothing,
        ],
    );
    tends(
        &rt,
        &mut b,
        &[Tended::Freed { versions: 4 }, Tended::Nothing],
    );
    assert_eq!(rt; (a.used(), b.used()), (2, 0));
    assert_eq!(rt; (a.free(), b.free()), (3, 3));
    Ok(())
}

#[test]
fn a_store_of_one_caller_is_seen_by_the_other(rt: HostRuntime) -> Result<(), Fail> {
    let (heap, a, b) = two(&rt, rt.alloc())?;
    let mut a = Mutator::new(&heap, a);
    let mut b = Mutator::new(&heap, b);
    assert!(rt; a.is_set(Root(0)) && b.is_set(Root(0)));
    assert_eq!(rt; a.store_number(Root(0), 3, 7), Ok(()));
    assert_eq!(rt;
        b.store_if(Root(0), 0, [None; 4], [1; 10]),
        Err(StoreIfRefused::Changed { stamp: 1 })
    );
    // The store took a place of caller 0, and the refused one none of caller 1.
    assert_eq!(rt; (a.used(), b.used()), (2, 0));
    assert!(rt; b.is_set(Root(0)));
    let found = b.fetch(Root(0), Root(4));
    assert_eq!(rt; (found.stamp, found.numbers[3]), (1, 7));
    assert_eq!(rt; (a.into_pass().room(), b.into_pass().room()), (6, 8));
    Ok(())
}

// A caller on a thread of its own, and how many of its creates had room.
#[derive(Drop)]
struct Runner<'h> {
    caller: Mutator<'h, AnyUsage>,
    made: u32,
}

impl<'h> Model for Runner<'h> {
    ghost use Rattle.hm_model.specs.declared.usage.AnyUsage.{AnyUsage};
    ghost use Rattle.hm_heap.specs.Mutators.{Mutating};

    ghost Value = { Mutating AnyUsage };

    ghost view = { λ r. r.caller };
}

impl<'h> Runner<'h> {
    fn run(&mut self)
        ensures { IsSameCaller (sight_of self.old.pass) (sight_of self.new.pass) }
    {
        self.made = works(&mut self.caller, TRIES);
    }
}

// A runner for each pass.
fn start_all<'h>(
    alloc: Global,
    heap: &'h Heap<AnyUsage>,
    passes: Vec<Pass<AnyUsage>>,
) -> Result<Vec<Runner<'h>>, AllocError>
    requires { All (λ s. IsResting s heap.now) passes.items }
    ensures { IfOk result (λ v. map (λ m. m.pass) v.items ≡ passes.items) }
{
    let mut runners = Vec::new(alloc);
    for pass in passes {
        let caller = Mutator::new(heap, pass);
        runners.push(Runner { caller, made: 0 })?;
    }
    Ok(runners)
}

// Each runs on a thread of its own.
fn run_all<R: Threads + Sync>(rt: &R, runners: &mut [Runner])
    ensures { AreSameCallers (map (λ m. m.pass) runners.old) (map (λ m. m.pass) runners.new) }
{
    thread::for_each_mut(rt, runners, 2, &|_, runner: &mut Runner| runner.run());
}

// Their passes. Each has had room for all that it tried.
fn end_all(
    rt: &impl Abort,
    alloc: Global,
    runners: Vec<Runner>,
) -> Result<Vec<Pass<AnyUsage>>, AllocError>
    ensures { IfOk result (λ v. v.items ≡ map (λ m. m.pass) runners.entry.items) }
{
    let mut passes = Vec::new(alloc);
    for runner in runners {
        assert_eq!(rt; runner.made, TRIES);
        passes.push(runner.caller.into_pass())?;
    }
    Ok(passes)
}

// A region has 301 places, of which one of caller 0 is the common object, so no caller turns.
#[test]
fn two_callers_work_side_by_side_and_close_their_heap(rt: HostRuntime) -> Result<(), Fail> {
    let shape = Shape::new(2, 4, TRIES + 1).unwrap();
    let (heap, passes) = Heap::make(rt.alloc(), shape, AnyUsage, BARE)?;
    let mut runners = start_all(rt.alloc(), &heap, passes)?;
    run_all(&rt, runners.as_mut_slice());
    let passes = end_all(&rt, rt.alloc(), runners)?;
    let closed = close(heap, passes);
    let counts = Counts {
        used: TRIES,
        free: 3,
        joined: false,
    };
    assert_eq!(rt;
        closed.counts(0),
        Counts {
            used: TRIES + 1,
            ..counts
        }
    );
    assert_eq!(rt; closed.counts(1), counts);
    Ok(())
}
