//! Cells with two passes, on one thread.
ghost use Rattle.std.specs.Prelude.{◌≡◌, IfOk};
ghost use Rattle.hm_cells.specs.Facts.{Fits, IsAtRest};

use crate::{
    Cells, Closed, Counts, Pass, a_pass_is_sound, load_field, meet, publish, split, store_own,
};
use hm_model::{AnyUsage, Root, Start};
use hm_shape::{Phase, Shape, Stage, Version};
use std::alloc::{AllocError, Global};
use std::process::Abort;

// A heap of two callers, whose common object names one side object, at place 1.
fn start() -> Start {
    Start {
        numbers: [5; 10],
        sides: [None, Some([7; 10]), None, None],
    }
}

// Number 0 of the common object, by one load.
fn loads(rt: &impl Abort, cells: &Cells<AnyUsage>, pass: &mut Pass<AnyUsage>) -> u64
    requires fits { Fits pass.old cells.now }
    requires rest { IsAtRest pass.old }
    ensures { Fits pass.new cells.now }
{
    let common = pass.root(Root(0)).expect(rt, "place 0 is set");
    load_field(cells, pass, common, 6, false)
}

// An object without references, by sixteen stores.
fn creates(rt: &impl Abort, cells: &Cells<AnyUsage>, pass: &mut Pass<AnyUsage>) -> Version
    requires fits { Fits pass.old cells.now }
    requires rest { IsAtRest pass.old }
    ensures { Fits pass.new cells.now }
{
    a_pass_is_sound(pass);
    assert!(rt; pass.used() < cells.shape().versions);
    for i in 1..16u32 {
        store_own(cells, pass, i, 0);
    }
    publish(cells, pass)
}

// Both passes of a heap of two callers, which is closed with them.
fn closes(
    rt: &impl Abort,
    alloc: Global,
    cells: Cells<AnyUsage>,
    one: Pass<AnyUsage>,
    other: Pass<AnyUsage>,
) -> Result<Closed<AnyUsage>, AllocError>
    requires one { Fits one cells }
    requires other { Fits other cells }
    ensures { IfOk result (λ closed. closed.site.shape.callers ≡ 2) }
{
    assert!(rt; cells.shape().callers == 2);
    assert!(rt; one.number() == 0);
    assert!(rt; other.number() == 1);
    let passes = vec![in alloc; one, other]?;
    Ok(cells.close(passes))
}

#[test]
fn closed_cells_tell_what_each_caller_used(rt: HostRuntime) {
    let shape = Shape::new(2, 4, 4).expect(&rt, "a shape");
    let start = start();
    assert!(rt; start.objects() <= shape.versions);
    let (cells, mut passes) = Cells::make(rt.alloc(), shape, AnyUsage, start).expect(&rt, "memory");
    let mut other = passes.pop().expect(&rt, "pass 1");
    let mut one = passes.pop().expect(&rt, "pass 0");
    assert_eq!(rt; creates(&rt, &cells, &mut other), Version(16));
    assert_eq!(rt; loads(&rt, &cells, &mut one), 5);
    let closed = closes(&rt, rt.alloc(), cells, one, other).expect(&rt, "memory");
    for (caller, used) in [(0, 2), (1, 1)] {
        let counts = Counts {
            used,
            free: 3,
            joined: false,
        };
        assert!(rt; caller < 2);
        assert_eq!(rt; closed.counts(caller), counts);
    }
    let idle = Stage {
        number: 0,
        done: 0,
        phase: Phase::Idle,
    };
    assert_eq!(rt; closed.stage(), idle);
}

#[test]
fn an_object_of_one_pass_changes_no_place_of_another(rt: HostRuntime) {
    let shape = Shape::new(2, 4, 4).expect(&rt, "a shape");
    let start = start();
    assert!(rt; start.objects() <= shape.versions);
    let (cells, mut passes) = Cells::make(rt.alloc(), shape, AnyUsage, start).expect(&rt, "memory");
    let mut other = passes.pop().expect(&rt, "pass 1");
    let mut one = passes.pop().expect(&rt, "pass 0");
    assert_eq!(rt; loads(&rt, &cells, &mut one), 5);
    assert_eq!(rt; creates(&rt, &cells, &mut other), Version(16));
    let note = split(&cells, &mut other);
    meet(&cells, &mut one, note);
    assert_eq!(rt; one.root(Root(0)), Some(Version(1)));
    assert_eq!(rt; one.root(Root(1)), None);
    assert_eq!(rt; other.published(0), Some(Version(16)));
    assert_eq!(rt; other.room(), 7);
}

#[test]
fn a_fresh_heap_has_a_pass_for_each_caller(rt: HostRuntime) {
    let shape = Shape::new(2, 4, 4).expect(&rt, "a shape");
    let start = start();
    assert!(rt; start.objects() <= shape.versions);
    let (cells, mut passes) = Cells::make(rt.alloc(), shape, AnyUsage, start).expect(&rt, "memory");
    assert_eq!(rt; cells.shape(), shape);
    assert_eq!(rt; passes.len(), 2);
    for (number, used, published) in [(1, 0, None), (0, 2, Some(Version(1)))] {
        let mut pass = passes.pop().expect(&rt, "a pass");
        assert_eq!(rt; pass.number(), number);
        assert_eq!(rt; pass.used(), used);
        assert_eq!(rt; pass.free(), 3);
        assert_eq!(rt; pass.room(), u64::from(8 - used));
        assert_eq!(rt; pass.root(Root(0)), Some(Version(1)));
        assert_eq!(rt; pass.published(1), published);
        pass.copy_root(Root(0), Root(9));
        pass.clear_root(Root(0));
        assert!(rt; pass.is_set(Root(9)) && !pass.is_set(Root(0)));
    }
}
