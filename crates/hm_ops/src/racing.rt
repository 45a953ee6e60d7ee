//! Steps of two calls by turns, on one thread. docs/COLLECTING.md tells of them word by word.
ghost use Rattle.std.specs.Prelude.{◌≡◌, ◌<◌};
ghost use Rattle.hm_model.specs.Sight.{IsSet};
ghost use Rattle.hm_moves.specs.Allowed.{HasRoom};
ghost use Rattle.hm_cells.specs.declared.want.Want.TheVariants.{Store};
ghost use Rattle.hm_cells.specs.Calls.{IsWholeCopy, MayChange, turned};
ghost use Rattle.hm_cells.specs.Facts.{known_at, sight_of};
ghost use Rattle.hm_ops.specs.Resting.{IsAtPlace, IsResting, Keeps};

use crate::copying::copy_changed;
use crate::linking::{link, look};
use crate::reading::{read_number, read_stamp};
use crate::tests::bare;
use crate::walking::walk;
use crate::{fetch, store_number};
use hm_cells::{Cells, Pass, Want, WantField};
use hm_model::{AnyUsage, Root, Snapshot};
use hm_shape::Version;
use std::process::Abort;
use std::test::Fail;

// The caller's next version is written as a changed copy of a version, which place 0 names and which has no link.
fn writes(
    rt: &impl Abort,
    cells: &Cells<AnyUsage>,
    pass: &mut Pass<AnyUsage>,
    v: Version,
    field: WantField,
)
    requires rests { IsResting pass.old cells.now }
    requires field { MayChange pass.old field }
    ensures rests { IsResting pass.new cells.now }
    ensures set { IsSet (sight_of pass.new) record { 0 = 0 } }
    ensures place { IsAtPlace pass.new 0 v }
    ensures room { HasRoom pass.new.part }
    ensures field { MayChange pass.new field }
    ensures whole { IsWholeCopy pass.new.part
        (turned pass.new (known_at pass.new v) (Store field)) }
{
    assert!(rt; pass.used() < cells.shape().versions && pass.root(Root(0)) == Some(v));
    assert_eq!(rt; look(cells, pass, Root(0), v, Want::Nothing), None);
    copy_changed(cells, pass, v, field);
}

// The link of that version is exchanged for the copy, or is found.
fn exchanges(
    rt: &impl Abort,
    cells: &Cells<AnyUsage>,
    pass: &mut Pass<AnyUsage>,
    v: Version,
    field: WantField,
) -> Option<Version>
    requires rests { IsResting pass.old cells.now }
    requires set { IsSet (sight_of pass.old) record { 0 = 0 } }
    requires place { IsAtPlace pass.old 0 v }
    requires room { HasRoom pass.old.part }
    requires field { MayChange pass.old field }
    requires whole { IsWholeCopy pass.old.part
        (turned pass.old (known_at pass.old v) (Store field)) }
    ensures rests { IsResting pass.new cells.now }
{
    assert!(rt; pass.room() > 0);
    link(cells, pass, Root(0), v, Want::Store { field })
}

// What the common object holds.
fn fetches(rt: &impl Abort, cells: &Cells<AnyUsage>, pass: &mut Pass<AnyUsage>) -> Snapshot
    requires { IsResting pass.old cells.now }
    ensures { IsResting pass.new cells.now }
{
    assert!(rt; pass.is_set(Root(0)));
    fetch(cells, pass, Root(0), Root(4))
}

// The version that is linked behind the one at place 0, which then names it.
fn follows(rt: &impl Abort, cells: &Cells<AnyUsage>, pass: &mut Pass<AnyUsage>) -> Option<Version>
    requires { IsResting pass.old cells.now }
    ensures { IsResting pass.new cells.now }
{
    assert!(rt; pass.is_set(Root(0)));
    let v = pass.root(Root(0)).unwrap();
    look(cells, pass, Root(0), v, Want::Nothing)
}

fn snapshot(stamp: u64, first: u64, second: u64) -> Snapshot {
    Snapshot {
        stamp,
        numbers: [first, second, 0, 0, 0, 0, 0, 0, 0, 0],
        set: [false; 4],
    }
}

#[test]
fn two_stores_race_on_one_object(rt: HostRuntime) -> Result<(), Fail> {
    let (cells, mut a, mut b) = bare(&rt, rt.alloc(), 4)?;
    let seven = WantField::Number { i: 0, value: 7 };
    let nine = WantField::Number { i: 1, value: 9 };
    writes(&rt, &cells, &mut a, Version(0), seven);
    writes(&rt, &cells, &mut b, Version(0), nine);
    // Caller 1 exchanges first, so caller 0 finds its version, and writes its copy anew in the same place.
    assert_eq!(rt; exchanges(&rt, &cells, &mut b, Version(0), nine), None);
    assert_eq!(rt;
        exchanges(&rt, &cells, &mut a, Version(0), seven),
        Some(Version(16))
    );
    assert_eq!(rt; (a.used(), b.used()), (1, 1));
    writes(&rt, &cells, &mut a, Version(16), seven);
    assert_eq!(rt; exchanges(&rt, &cells, &mut a, Version(16), seven), None);
    assert_eq!(rt; a.root(Root(0)), Some(Version(1)));
    assert_eq!(rt; (a.used(), b.used()), (2, 1));
    // Behind caller 1's version lies caller 0's, and that is the last.
    assert_eq!(rt; b.root(Root(0)), Some(Version(16)));
    assert_eq!(rt; follows(&rt, &cells, &mut b), Some(Version(1)));
    assert_eq!(rt; follows(&rt, &cells, &mut b), None);
    assert_eq!(rt; fetches(&rt, &cells, &mut b), snapshot(2, 7, 9));
    Ok(())
}

#[test]
fn a_fetch_beside_a_store_reads_the_version_that_it_found(rt: HostRuntime) -> Result<(), Fail> {
    let (cells, mut a, mut b) = bare(&rt, rt.alloc(), 4)?;
    assert!(rt; a.is_set(Root(0)) && b.is_set(Root(0)));
    // The fetch finds a link of 0. The store comes before the fetch loads what the version holds.
    let v = walk(&cells, &mut a, Root(0));
    assert_eq!(rt; store_number(&cells, &mut b, Root(0), 0, 7), Ok(()));
    assert_eq!(rt; v, Version(0));
    assert_eq!(rt; read_stamp(&cells, &mut a, v), 0);
    assert_eq!(rt; read_number(&cells, &mut a, v, 0), 0);
    assert_eq!(rt; b.root(Root(0)), Some(Version(16)));
    // The next fetch finds the link, and follows it.
    assert_eq!(rt; fetches(&rt, &cells, &mut a), snapshot(1, 7, 0));
    assert_eq!(rt; a.root(Root(0)), Some(Version(16)));
    Ok(())
}
