//! Two callers side by side: what each has made, and that no store of either is lost.
ghost use Rattle.std.specs.Prelude.{◌<◌};
ghost use Rattle.hm_ops.specs.Resting.{IsResting};

use crate::tests::bare;
use crate::{create, fetch, fetch_number, store_if, store_number};
use hm_cells::{Cells, Pass};
use hm_model::{AnyUsage, Root, Snapshot, Start, StoreIfRefused};
use hm_shape::Shape;
use std::marker::Model;
use std::test::Fail;
use std::thread;

// How often each caller creates, or stores.
const TRIES: u32 = 300;

// A caller's pass beside its cells. Of its creates and stores it counts those that had room.
#[derive(Drop)]
struct Runner<'c> {
    cells: &'c Cells<AnyUsage>,
    pass: Pass<AnyUsage>,
    made: u32,
}

impl<'c> Model for Runner<'c> {
    ghost use Rattle.hm_model.specs.declared.usage.AnyUsage.{AnyUsage};
    ghost use Rattle.hm_cells.specs.Facts.{Facts};
    ghost use Rattle.hm_ops.specs.Resting.{IsResting};

    ghost Value = { Facts AnyUsage };

    ghost view = { λ m. m.pass };

    ghost invariant = { λ m. IsResting m.pass m.cells.now };
}

impl<'c> Runner<'c> {
    fn new(cells: &'c Cells<AnyUsage>, pass: Pass<AnyUsage>) -> Runner<'c>
        requires { IsResting pass cells.now }
    {
        Runner {
            cells,
            pass,
            made: 0,
        }
    }

    // The place that its objects go to: 1 for caller 0, and 2 for caller 1.
    fn place(&self) -> Root
        ensures { result.0 < 256 }
    {
        Root(if self.pass.number() == 0 { 1 } else { 2 })
    }

    // Each object has the number of its try in all ten fields, and caller 1 adds 1000.
    fn make(&mut self, number: u64) {
        let cells = self.cells;
        let into = self.place();
        if create(cells, &mut self.pass, into, [None; 4], [number; 10]).is_ok() {
            self.made = self.made.saturating_add(1);
        }
    }

    fn make_all(&mut self) {
        let first = if self.pass.number() == 0 { 0 } else { 1000 };
        for i in 0..TRIES {
            self.make(first + u64::from(i));
        }
    }

    // Number 0 of the common object is raised by one, if the object is still what was fetched. Answers as `store_if`
    // does, and `Full` also where place 0 is unset.
    fn try_add(&mut self) -> Result<(), StoreIfRefused> {
        let cells = self.cells;
        if !self.pass.is_set(Root(0)) {
            return Err(StoreIfRefused::Full);
        }
        let found = fetch(cells, &mut self.pass, Root(0), Root(4));
        let mut numbers = found.numbers;
        numbers[0] = numbers[0].wrapping_add(1);
        if !self.pass.is_set(Root(0)) {
            return Err(StoreIfRefused::Full);
        }
        store_if(
            cells,
            &mut self.pass,
            Root(0),
            found.stamp,
            [None; 4],
            numbers,
        )
    }

    // It is raised by one, after as many attempts as it takes.
    fn add(&mut self) {
        for _ in 0..u64::MAX {
            match self.try_add() {
                Ok(()) => {
                    self.made = self.made.saturating_add(1);
                    return;
                }
                Err(StoreIfRefused::Changed { .. }) => {}
                Err(StoreIfRefused::Full) => return,
            }
        }
    }

    fn add_all(&mut self) {
        for _ in 0..TRIES {
            self.add();
        }
    }

    // Of the common object a number of this caller's own is stored.
    fn store(&mut self, value: u64) {
        let cells = self.cells;
        let own = if self.pass.number() == 0 { 0 } else { 9 };
        if self.pass.is_set(Root(0))
            && store_number(cells, &mut self.pass, Root(0), own, value).is_ok()
        {
            self.made = self.made.saturating_add(1);
        }
    }

    fn store_all(&mut self) {
        for i in 0..TRIES {
            self.store(u64::from(i) + 1);
        }
    }

    // What the common object holds, if place 0 names it still.
    fn common(&mut self) -> Option<Snapshot> {
        let cells = self.cells;
        if self.pass.is_set(Root(0)) {
            Some(fetch(cells, &mut self.pass, Root(0), Root(4)))
        } else {
            None
        }
    }

    // The last number of the object at a place, if one is there.
    fn last_number(&mut self, place: u32) -> Option<u64>
        requires { place < 256 }
    {
        let cells = self.cells;
        if self.pass.is_set(Root(place)) {
            Some(fetch_number(cells, &mut self.pass, Root(place), 9))
        } else {
            None
        }
    }

    fn counts(&self) -> (u32, u64, u32) {
        (self.made, self.pass.room(), self.pass.used())
    }

    fn numbers(&mut self) -> [Option<u64>; 4] {
        [
            self.last_number(0),
            self.last_number(1),
            self.last_number(2),
            self.last_number(3),
        ]
    }
}

// A caller has room for 300 versions, in two regions. Two of caller 0 are the starting objects, so the last two of its
// tries find no room.
#[test]
fn two_callers_fill_their_own_places_side_by_side(rt: HostRuntime) -> Result<(), Fail> {
    let shape = Shape::new(2, 4, TRIES / 2).unwrap();
    let start = Start {
        numbers: [5; 10],
        sides: [None, None, None, Some([8; 10])],
    };
    let (cells, passes) = Cells::make(rt.alloc(), shape, AnyUsage, start)?;
    let mut runners = Vec::new(rt.alloc());
    for pass in passes {
        runners.push(Runner::new(&cells, pass))?;
    }
    thread::for_each_mut(
        &rt,
        runners.as_mut_slice(),
        2,
        &|_, runner| runner.make_all(),
    );
    let mut second = runners.pop().expect(&rt, "the runner of caller 1");
    let mut first = runners.pop().expect(&rt, "the runner of caller 0");
    assert_eq!(rt; first.counts(), (298, 0, 150));
    assert_eq!(rt; second.counts(), (300, 0, 150));
    assert_eq!(rt; first.numbers(), [Some(5), Some(297), None, None]);
    assert_eq!(rt; second.numbers(), [Some(5), None, Some(1299), None]);
    Ok(())
}

// Each increment is a conditional store that is tried until it is stored.
#[test]
fn increments_of_two_callers_add_up(rt: HostRuntime) -> Result<(), Fail> {
    let (cells, a, b) = bare(&rt, rt.alloc(), TRIES / 2 + 1)?;
    let mut runners = vec![in rt.alloc(); Runner::new(&cells, a), Runner::new(&cells, b)]?;
    thread::for_each_mut(
        &rt,
        runners.as_mut_slice(),
        2,
        &|_, runner| runner.add_all(),
    );
    let mut second = runners.pop().expect(&rt, "the runner of caller 1");
    let mut first = runners.pop().expect(&rt, "the runner of caller 0");
    assert_eq!(rt; first.counts(), (300, 1, 150));
    assert_eq!(rt; second.counts(), (300, 2, 149));
    let all = Snapshot {
        stamp: 600,
        numbers: [600, 0, 0, 0, 0, 0, 0, 0, 0, 0],
        set: [false; 4],
    };
    assert_eq!(rt; first.common(), Some(all));
    assert_eq!(rt; second.common(), Some(all));
    Ok(())
}

// Each caller stores a number of its own, and leaves the other's as it finds it.
#[test]
fn stores_of_two_callers_into_one_object_are_not_lost(rt: HostRuntime) -> Result<(), Fail> {
    let (cells, a, b) = bare(&rt, rt.alloc(), TRIES / 2 + 1)?;
    let mut runners = vec![in rt.alloc(); Runner::new(&cells, a), Runner::new(&cells, b)]?;
    thread::for_each_mut(
        &rt,
        runners.as_mut_slice(),
        2,
        &|_, runner| runner.store_all(),
    );
    let mut second = runners.pop().expect(&rt, "the runner of caller 1");
    let mut first = runners.pop().expect(&rt, "the runner of caller 0");
    let all = Snapshot {
        stamp: 600,
        numbers: [300, 0, 0, 0, 0, 0, 0, 0, 0, 300],
        set: [false; 4],
    };
    assert_eq!(rt; first.common(), Some(all));
    assert_eq!(rt; second.common(), Some(all));
    assert_eq!(rt; first.counts(), (300, 1, 150));
    assert_eq!(rt; second.counts(), (300, 2, 149));
    Ok(())
}
