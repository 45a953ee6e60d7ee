//! Calls on plain heaps, through the bounds of their traits.
ghost use Rattle.std.specs.Prelude.{◌≡◌, ◌<◌};

use crate::heap::PlainHeap;
use hm_model::{AnyUsage, Caller, Full, Root, Snapshot, Start, StoreIfRefused, Tended, Worker};
use std::process::Abort;
use std::test::Fail;

const NO_REFS: [Option<Root>; 4] = [None; 4];

fn start_with(sides: [Option<[u64; 10]>; 4]) -> Start
    ensures { result.sides ≡ sides }
{
    Start {
        numbers: [5; 10],
        sides,
    }
}

fn creates<C: Caller<AnyUsage>>(c: &mut C, into: u32) -> Result<(), Full>
    requires { into < 256 }
{
    c.create(Root(into), NO_REFS, [7; 10])
}

fn stores<C: Caller<AnyUsage>>(rt: &impl Abort, c: &mut C, value: u64) -> Result<(), Full> {
    assert!(rt; c.is_set(Root(0)));
    c.store_number(Root(0), 3, value)
}

fn stores_if<C: Caller<AnyUsage>>(
    rt: &impl Abort,
    c: &mut C,
    stamp: u64,
) -> Result<(), StoreIfRefused> {
    assert!(rt; c.is_set(Root(0)));
    c.store_if(Root(0), stamp, NO_REFS, [9; 10])
}

fn fetches<C: Caller<AnyUsage>>(rt: &impl Abort, c: &mut C) -> Snapshot {
    assert!(rt; c.is_set(Root(0)));
    c.fetch(Root(0), Root(4))
}

// Stores the object at place 0 into that at place 7, and follows the reference to place 9 and then 10.
fn stores_and_follows<C: Caller<AnyUsage>>(
    rt: &impl Abort,
    c: &mut C,
) -> Result<(u64, bool, u64), Full> {
    assert!(rt; c.is_set(Root(7)) && c.is_set(Root(0)));
    let side = c.fetch_number(Root(7), 9);
    assert!(rt; c.is_set(Root(7)) && c.is_set(Root(0)));
    c.store_ref(Root(7), 2, Some(Root(0)))?;
    assert!(rt; c.is_set(Root(7)));
    let there = c.fetch_ref(Root(7), 2, Root(9));
    c.copy_root(Root(9), Root(10));
    c.clear_root(Root(9));
    assert!(rt; c.is_set(Root(10)));
    Ok((side, there, c.fetch_number(Root(10), 0)))
}

fn tends<C: Worker<AnyUsage>>(c: &mut C) -> (Tended, u32, u32) {
    (c.tend(), c.used(), c.free())
}

#[test]
fn a_heap_of_three_versions_is_full_after_two_creates(rt: HostRuntime) -> Result<(), Fail> {
    let mut c = PlainHeap::make(rt.alloc(), AnyUsage, start_with([None; 4]), 3)?;
    assert_eq!(rt; creates(&mut c, 1), Ok(()));
    assert_eq!(rt; creates(&mut c, 2), Ok(()));
    assert_eq!(rt; creates(&mut c, 3), Err(Full));
    assert_eq!(rt; (c.is_set(Root(2)), c.is_set(Root(3))), (true, false));
    assert_eq!(rt; tends(&mut c), (Tended::Nothing, 3, 0));
    Ok(())
}

#[test]
fn a_store_takes_a_version_and_is_read_back(rt: HostRuntime) -> Result<(), Fail> {
    let mut c = PlainHeap::make(rt.alloc(), AnyUsage, start_with([None; 4]), 2)?;
    assert_eq!(rt; stores(&rt, &mut c, 6), Ok(()));
    assert_eq!(rt; stores(&rt, &mut c, 8), Err(Full));
    assert_eq!(rt; stores_if(&rt, &mut c, 1), Err(StoreIfRefused::Full));
    let found = fetches(&rt, &mut c);
    assert_eq!(rt; found.stamp, 1);
    assert_eq!(rt; found.numbers, [5, 5, 5, 6, 5, 5, 5, 5, 5, 5]);
    Ok(())
}

#[test]
fn a_conditional_store_is_refused_at_another_stamp(rt: HostRuntime) -> Result<(), Fail> {
    let mut c = PlainHeap::make(rt.alloc(), AnyUsage, start_with([None; 4]), 3)?;
    assert_eq!(rt; stores(&rt, &mut c, 6), Ok(()));
    let refused = stores_if(&rt, &mut c, 0);
    assert_eq!(rt; refused, Err(StoreIfRefused::Changed { stamp: 1 }));
    assert_eq!(rt; fetches(&rt, &mut c).stamp, 1);
    assert_eq!(rt; stores_if(&rt, &mut c, 1), Ok(()));
    let found = fetches(&rt, &mut c);
    assert_eq!(rt; found.stamp, 2);
    assert_eq!(rt; found.numbers, [9; 10]);
    Ok(())
}

#[test]
fn a_hand_names_the_side_object_and_what_is_stored_there(rt: HostRuntime) -> Result<(), Fail> {
    let sides = [None, None, None, Some([8; 10])];
    let mut c = PlainHeap::make(rt.alloc(), AnyUsage, start_with(sides), 4)?;
    creates(&mut c, 5)?;
    let found = fetches(&rt, &mut c);
    assert_eq!(rt; found.set, [false, false, false, true]);
    assert!(rt; !c.is_set(Root(5)) && c.is_set(Root(7)) && c.is_set(Root(0)));
    assert_eq!(rt; stores_and_follows(&rt, &mut c), Ok((8, true, 5)));
    assert!(rt; !c.is_set(Root(9)) && c.is_set(Root(10)));
    Ok(())
}
