//! Two passes on one thread: what one makes or stores and the other sees of it, and how much room there is.
ghost use Rattle.std.specs.Prelude.{◌≡◌, ◌<◌, ◌≤◌, IfOk, IfSome};
ghost use Rattle.hm_model.specs.declared.object.Field.TheVariants.{Number};
ghost use Rattle.hm_model.specs.Sight.{IsSet};
ghost use Rattle.hm_model.specs.Calls.{MayStore};
ghost use Rattle.hm_model.specs.Reading.{ReadsBack};
ghost use Rattle.hm_cells.specs.Facts.{sight_of};
ghost use Rattle.hm_ops.specs.Resting.{IsResting};

use crate::{
    NoFree, create, fetch, fetch_number, fetch_ref, store_if, store_number, store_ref, turn,
};
use hm_cells::{Cells, Memory, Pass, meet, split};
use hm_model::{AnyUsage, Full, Root, Snapshot, Start, StoreIfRefused, Usage};
use hm_shape::{Role, Shape, Version};
use std::alloc::Global;
use std::process::Abort;
use std::test::Fail;

pub(crate) type Two = (Cells<AnyUsage>, Pass<AnyUsage>, Pass<AnyUsage>);

// Cells of two callers with four versions a region. Of the common object's references the last is given.
fn two(rt: &impl Abort, alloc: Global) -> Result<Two, Memory>
    ensures { IfOk result (λ r. IsResting r.1 r.0 × IsResting r.2 r.0) }
{
    let shape = Shape::new(2, 4, 4).unwrap();
    let start = Start {
        numbers: [5; 10],
        sides: [None, None, None, Some([8; 10])],
    };
    let (cells, mut passes) = Cells::make(alloc, shape, AnyUsage, start)?;
    let b = passes.pop().expect(rt, "caller 1");
    let a = passes.pop().expect(rt, "caller 0");
    Ok((cells, a, b))
}

// Cells of two callers with so many versions a region. There is the common object alone, with all numbers 0.
pub(crate) fn bare(rt: &impl Abort, alloc: Global, versions: u32) -> Result<Two, Memory>
    requires { (4 ≤ versions) × (versions ≤ 65536) }
    ensures { IfOk result (λ r. IsResting r.1 r.0 × IsResting r.2 r.0) }
{
    let shape = Shape::new(2, 4, versions).unwrap();
    let start = Start {
        numbers: [0; 10],
        sides: [None; 4],
    };
    let (cells, mut passes) = Cells::make(alloc, shape, AnyUsage, start)?;
    let b = passes.pop().expect(rt, "caller 1");
    let a = passes.pop().expect(rt, "caller 0");
    Ok((cells, a, b))
}

// Cells of one caller with four versions a region. There is the common object alone, with all numbers 0.
fn alone(rt: &impl Abort, alloc: Global) -> Result<(Cells<AnyUsage>, Pass<AnyUsage>), Memory>
    ensures { IfOk result (λ r. IsResting r.1 r.0) }
{
    let shape = Shape::new(1, 4, 4).unwrap();
    let start = Start {
        numbers: [0; 10],
        sides: [None; 4],
    };
    let (cells, mut passes) = Cells::make(alloc, shape, AnyUsage, start)?;
    let a = passes.pop().expect(rt, "caller 0");
    Ok((cells, a))
}

// A turn of a caller that has used all places of its To region.
fn turns(rt: &impl Abort, cells: &Cells<AnyUsage>, pass: &mut Pass<AnyUsage>) -> Result<(), NoFree>
    requires rests { IsResting pass.old cells.now }
    ensures { IsResting pass.new cells.now }
{
    assert!(rt; pass.used() == cells.shape().versions);
    turn(cells, pass)
}

fn creates(cells: &Cells<AnyUsage>, pass: &mut Pass<AnyUsage>, into: u32) -> Result<(), Full>
    requires rests { IsResting pass.old cells.now }
    requires into { into < 256 }
    ensures { IsResting pass.new cells.now }
{
    create(cells, pass, Root(into), [None; 4], [7; 10])
}

fn fetches(
    rt: &impl Abort,
    cells: &Cells<AnyUsage>,
    pass: &mut Pass<AnyUsage>,
    from: u32,
) -> (Snapshot, u64, bool)
    requires rests { IsResting pass.old cells.now }
    requires from { from < 4 }
    ensures { IsResting pass.new cells.now }
{
    assert!(rt; pass.is_set(Root(from)));
    let whole = fetch(cells, pass, Root(from), Root(4));
    assert!(rt; pass.is_set(Root(from)));
    let number = fetch_number(cells, pass, Root(from), 9);
    assert!(rt; pass.is_set(Root(from)));
    let there = fetch_ref(cells, pass, Root(from), 3, Root(8));
    (whole, number, there)
}

fn tells(cells: &Cells<AnyUsage>, from: &mut Pass<AnyUsage>, to: &mut Pass<AnyUsage>)
    requires from { IsResting from.old cells.now }
    requires to { IsResting to.old cells.now }
    ensures from { IsResting from.new cells.now }
    ensures to { IsResting to.new cells.now }
{
    let note = split(cells, from);
    meet(cells, to, note);
}

// A conditional store of ten equal numbers, and no references, into the common object.
fn replaces(
    rt: &impl Abort,
    cells: &Cells<AnyUsage>,
    pass: &mut Pass<AnyUsage>,
    stamp: u64,
    value: u64,
) -> Result<(), StoreIfRefused>
    requires rests { IsResting pass.old cells.now }
    ensures { IsResting pass.new cells.now }
{
    assert!(rt; pass.is_set(Root(0)));
    store_if(cells, pass, Root(0), stamp, [None; 4], [value; 10])
}

// A store of number `i` of the common object.
fn stores(
    rt: &impl Abort,
    cells: &Cells<AnyUsage>,
    pass: &mut Pass<AnyUsage>,
    i: u32,
    value: u64,
) -> Result<(), Full>
    requires rests { IsResting pass.old cells.now }
    requires field { i < 10 }
    ensures { IsResting pass.new cells.now }
{
    assert!(rt; pass.is_set(Root(0)));
    store_number(cells, pass, Root(0), i, value)
}

// A store of number `i` of the object at a place, and a fetch of it: the caller reads its own number, unless another
// one stored to the object between.
fn reads_back<U: Usage>(
    cells: &Cells<U>,
    pass: &mut Pass<U>,
    at: Root,
    i: u32,
    value: u64,
) -> Result<u64, Full>
    requires rests { IsResting pass.old cells.now }
    requires at { IsSet (sight_of pass.old) at }
    requires field { i < 10 }
    requires allowed { MayStore U.lawful U.allowed (sight_of pass.old) at (Number i value) }
    ensures read { IfOk result
        (ReadsBack U.lawful U.allowed (sight_of pass.old) (sight_of pass.new) at i value) }
    ensures rests { IsResting pass.new cells.now }
{
    store_number(cells, pass, at, i, value)?;
    Ok(fetch_number(cells, pass, at, i))
}

// A store of reference `i` of the common object: what a place names, or none.
fn refers(
    rt: &impl Abort,
    cells: &Cells<AnyUsage>,
    pass: &mut Pass<AnyUsage>,
    i: u32,
    value: Option<Root>,
) -> Result<(), Full>
    requires rests { IsResting pass.old cells.now }
    requires field { i < 4 }
    requires place { IfSome value (λ r. r.0 < 256) }
    ensures { IsResting pass.new cells.now }
{
    assert!(rt; pass.is_set(Root(0)));
    if let Some(r) = value {
        assert!(rt; pass.is_set(r));
    }
    store_ref(cells, pass, Root(0), i, value)
}

// Number 9 of the object that reference 0 of the common object names, if it names one.
fn refers_to(rt: &impl Abort, cells: &Cells<AnyUsage>, pass: &mut Pass<AnyUsage>) -> Option<u64>
    requires rests { IsResting pass.old cells.now }
    ensures { IsResting pass.new cells.now }
{
    assert!(rt; pass.is_set(Root(0)));
    if fetch_ref(cells, pass, Root(0), 0, Root(9)) {
        assert!(rt; pass.is_set(Root(9)));
        Some(fetch_number(cells, pass, Root(9), 9))
    } else {
        assert!(rt; !pass.is_set(Root(9)));
        None
    }
}

fn snapshot(stamp: u64, numbers: [u64; 10], set: [bool; 4]) -> Snapshot {
    Snapshot {
        stamp,
        numbers,
        set,
    }
}

fn counts(pass: &Pass<AnyUsage>) -> (u64, u32, u32) {
    (pass.room(), pass.used(), pass.free())
}

#[test]
fn what_one_makes_changes_no_place_of_the_other(rt: HostRuntime) -> Result<(), Fail> {
    let (cells, mut a, mut b) = two(&rt, rt.alloc())?;
    assert_eq!(rt; creates(&cells, &mut a, 1), Ok(()));
    tells(&cells, &mut a, &mut b);
    assert_eq!(rt; (a.is_set(Root(1)), b.is_set(Root(1))), (true, false));
    assert_eq!(rt; (counts(&a), counts(&b)), ((5, 3, 3), (8, 0, 3)));
    let made = Snapshot {
        stamp: 0,
        numbers: [7; 10],
        set: [false; 4],
    };
    assert_eq!(rt; fetches(&rt, &cells, &mut a, 1), (made, 7, false));
    assert!(rt; !a.is_set(Root(7)) && !a.is_set(Root(8)));
    let common = Snapshot {
        stamp: 0,
        numbers: [5; 10],
        set: [false, false, false, true],
    };
    assert_eq!(rt; fetches(&rt, &cells, &mut b, 0), (common, 5, true));
    assert!(rt; b.is_set(Root(7)) && b.is_set(Root(8)) && !b.is_set(Root(4)));
    Ok(())
}

#[test]
fn two_regions_of_four_versions_have_room_for_eight(rt: HostRuntime) -> Result<(), Fail> {
    let (cells, mut a, mut b) = two(&rt, rt.alloc())?;
    for (left, used, free) in [
        (6, 2, 3),
        (5, 3, 3),
        (4, 4, 3),
        (3, 1, 2),
        (2, 2, 2),
        (1, 3, 2),
    ] {
        assert_eq!(rt; counts(&a), (left, used, free));
        assert_eq!(rt; creates(&cells, &mut a, 1), Ok(()));
    }
    for (left, used, free) in [
        (8, 0, 3),
        (7, 1, 3),
        (6, 2, 3),
        (5, 3, 3),
        (4, 4, 3),
        (3, 1, 2),
    ] {
        assert_eq!(rt; counts(&b), (left, used, free));
        assert_eq!(rt; creates(&cells, &mut b, 1), Ok(()));
    }
    assert_eq!(rt; (counts(&a), counts(&b)), ((0, 4, 2), (2, 2, 2)));
    assert_eq!(rt; creates(&cells, &mut a, 2), Err(Full));
    assert_eq!(rt; creates(&cells, &mut b, 2), Ok(()));
    assert_eq!(rt; creates(&cells, &mut b, 3), Ok(()));
    assert_eq!(rt; creates(&cells, &mut b, 4), Err(Full));
    assert_eq!(rt; (counts(&a), counts(&b)), ((0, 4, 2), (0, 4, 2)));
    assert_eq!(rt; (a.is_set(Root(2)), b.is_set(Root(4))), (false, false));
    Ok(())
}

#[test]
fn a_heap_that_never_collects_keeps_two_regions(rt: HostRuntime) -> Result<(), Fail> {
    let (cells, mut a) = alone(&rt, rt.alloc())?;
    for left in [7, 6, 5, 4, 3, 2, 1] {
        assert_eq!(rt; a.room(), left);
        assert_eq!(rt; creates(&cells, &mut a, 1), Ok(()));
    }
    assert_eq!(rt; creates(&cells, &mut a, 1), Err(Full));
    assert_eq!(rt; counts(&a), (0, 4, 2));
    assert_eq!(rt; turns(&rt, &cells, &mut a), Err(NoFree));
    assert_eq!(rt; counts(&a), (0, 4, 2));
    Ok(())
}

#[test]
fn a_turn_leaves_the_room(rt: HostRuntime) -> Result<(), Fail> {
    let (cells, mut a) = alone(&rt, rt.alloc())?;
    for number in [1, 2, 3] {
        assert_eq!(rt; stores(&rt, &cells, &mut a, 0, number), Ok(()));
    }
    assert_eq!(rt; counts(&a), (4, 4, 3));
    assert_eq!(rt; turns(&rt, &cells, &mut a), Ok(()));
    assert_eq!(rt; counts(&a), (4, 0, 2));
    let [role, next, ..] = a.roles().0;
    assert_eq!(rt; (role, next), (Role::Old, Role::To));
    let last = snapshot(3, [3, 0, 0, 0, 0, 0, 0, 0, 0, 0], [false; 4]);
    assert_eq!(rt; fetches(&rt, &cells, &mut a, 0), (last, 0, false));
    assert_eq!(rt; stores(&rt, &cells, &mut a, 0, 4), Ok(()));
    assert_eq!(rt; a.root(Root(0)), Some(Version(4)));
    Ok(())
}

#[test]
fn a_store_that_finds_another_stamp_answers_it(rt: HostRuntime) -> Result<(), Fail> {
    let (cells, mut a, mut b) = two(&rt, rt.alloc())?;
    let changed = Err(StoreIfRefused::Changed { stamp: 1 });
    assert_eq!(rt; replaces(&rt, &cells, &mut b, 0, 6), Ok(()));
    assert_eq!(rt; replaces(&rt, &cells, &mut a, 0, 7), changed);
    assert_eq!(rt; replaces(&rt, &cells, &mut b, 1, 7), Ok(()));
    assert_eq!(rt; replaces(&rt, &cells, &mut b, 2, 8), Ok(()));
    assert_eq!(rt; (counts(&a), counts(&b)), ((6, 2, 3), (5, 3, 3)));
    assert_eq!(rt; replaces(&rt, &cells, &mut a, 3, 9), Ok(()));
    let last = Snapshot {
        stamp: 4,
        numbers: [9; 10],
        set: [false; 4],
    };
    assert_eq!(rt; fetches(&rt, &cells, &mut b, 0), (last, 9, false));
    assert_eq!(rt; (counts(&a), counts(&b)), ((5, 3, 3), (5, 3, 3)));
    assert_eq!(rt; replaces(&rt, &cells, &mut b, 4, 1), Ok(()));
    assert_eq!(rt; replaces(&rt, &cells, &mut b, 5, 1), Ok(()));
    assert_eq!(rt; replaces(&rt, &cells, &mut b, 6, 1), Ok(()));
    assert_eq!(rt; replaces(&rt, &cells, &mut b, 7, 1), Ok(()));
    assert_eq!(rt; replaces(&rt, &cells, &mut b, 8, 1), Ok(()));
    assert_eq!(rt; counts(&b), (0, 4, 2));
    assert_eq!(rt;
        replaces(&rt, &cells, &mut b, 0, 2),
        Err(StoreIfRefused::Full)
    );
    Ok(())
}

#[test]
fn a_reader_seven_links_behind_finds_the_last_stamp(rt: HostRuntime) -> Result<(), Fail> {
    let (cells, mut a, mut b) = bare(&rt, rt.alloc(), 4)?;
    for number in [1, 2, 3, 4, 5, 6, 7] {
        assert_eq!(rt; stores(&rt, &cells, &mut a, 0, number), Ok(()));
    }
    assert_eq!(rt; stores(&rt, &cells, &mut a, 0, 8), Err(Full));
    let last = snapshot(7, [7, 0, 0, 0, 0, 0, 0, 0, 0, 0], [false; 4]);
    assert_eq!(rt; fetches(&rt, &cells, &mut b, 0), (last, 0, false));
    assert_eq!(rt; (counts(&a), counts(&b)), ((0, 4, 2), (8, 0, 3)));
    Ok(())
}

#[test]
fn a_caller_reads_back_its_own_store(rt: HostRuntime) -> Result<(), Fail> {
    let (cells, mut a, mut b) = bare(&rt, rt.alloc(), 4)?;
    assert_eq!(rt; stores(&rt, &cells, &mut b, 3, 6), Ok(()));
    assert!(rt; a.is_set(Root(0)));
    assert_eq!(rt; reads_back(&cells, &mut a, Root(0), 3, 8), Ok(8));
    assert_eq!(rt; (counts(&a), counts(&b)), ((6, 2, 3), (7, 1, 3)));
    Ok(())
}

#[test]
fn a_conditional_store_behind_a_store_answers_the_new_stamp(rt: HostRuntime) -> Result<(), Fail> {
    let (cells, mut a, mut b) = bare(&rt, rt.alloc(), 4)?;
    assert_eq!(rt; stores(&rt, &cells, &mut a, 0, 7), Ok(()));
    assert_eq!(rt;
        replaces(&rt, &cells, &mut b, 0, 9),
        Err(StoreIfRefused::Changed { stamp: 1 })
    );
    assert_eq!(rt; counts(&b), (8, 0, 3));
    let last = snapshot(1, [7, 0, 0, 0, 0, 0, 0, 0, 0, 0], [false; 4]);
    assert_eq!(rt; fetches(&rt, &cells, &mut a, 0), (last, 0, false));
    Ok(())
}

#[test]
fn a_reference_is_named_unnamed_and_renamed(rt: HostRuntime) -> Result<(), Fail> {
    let (cells, mut a, mut b) = bare(&rt, rt.alloc(), 16)?;
    assert_eq!(rt; create(&cells, &mut a, Root(1), [None; 4], [7; 10]), Ok(()));
    assert_eq!(rt; create(&cells, &mut a, Root(2), [None; 4], [8; 10]), Ok(()));
    assert_eq!(rt; refers_to(&rt, &cells, &mut b), None);
    assert_eq!(rt; refers(&rt, &cells, &mut a, 0, Some(Root(1))), Ok(()));
    assert_eq!(rt; refers_to(&rt, &cells, &mut b), Some(7));
    assert_eq!(rt; refers(&rt, &cells, &mut a, 0, None), Ok(()));
    assert_eq!(rt; refers_to(&rt, &cells, &mut b), None);
    assert_eq!(rt; refers(&rt, &cells, &mut a, 0, Some(Root(2))), Ok(()));
    assert_eq!(rt; refers_to(&rt, &cells, &mut b), Some(8));
    assert_eq!(rt; refers(&rt, &cells, &mut a, 0, Some(Root(0))), Ok(()));
    assert_eq!(rt; refers_to(&rt, &cells, &mut b), Some(0));
    assert_eq!(rt; stores(&rt, &cells, &mut b, 9, 6), Ok(()));
    assert_eq!(rt; refers_to(&rt, &cells, &mut a), Some(6));
    Ok(())
}

// A store by caller 0 of each field in turn, each seen by caller 1 with all other fields as they were.
#[test]
fn a_store_changes_its_field_alone(rt: HostRuntime) -> Result<(), Fail> {
    let (cells, mut a, mut b) = bare(&rt, rt.alloc(), 64)?;
    let mut numbers = [0; 10];
    for i in 0..10u32 {
        let value = u64::from(i) + 100;
        assert_eq!(rt; stores(&rt, &cells, &mut a, i, value), Ok(()));
        numbers[i as usize] = value;
        let now = snapshot(u64::from(i) + 1, numbers, [false; 4]);
        let nine = if i == 9 { 109 } else { 0 };
        assert_eq!(rt;
            fetches(&rt, &cells, &mut b, 0),
            (now, nine, false),
            "number {i}"
        );
    }
    let mut set = [false; 4];
    for i in 0..4u32 {
        assert_eq!(rt; refers(&rt, &cells, &mut a, i, Some(Root(0))), Ok(()));
        set[i as usize] = true;
        let now = snapshot(u64::from(i) + 11, numbers, set);
        assert_eq!(rt;
            fetches(&rt, &cells, &mut b, 0),
            (now, 109, i == 3),
            "reference {i}"
        );
    }
    for i in 0..4u32 {
        assert_eq!(rt; refers(&rt, &cells, &mut a, i, None), Ok(()));
        set[i as usize] = false;
        let now = snapshot(u64::from(i) + 15, numbers, set);
        assert_eq!(rt;
            fetches(&rt, &cells, &mut b, 0),
            (now, 109, i < 3),
            "reference {i}"
        );
    }
    Ok(())
}
