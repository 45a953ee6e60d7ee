//! Fetches.
ghost use Rattle.std.specs.Prelude.{◌≡◌, ◌≢◌, ◌+◌, ◌<◌, ◌≤◌};
ghost use Rattle.hm_model.specs.Sight.{IsSet, Continues};
ghost use Rattle.hm_model.specs.Calls.{FetchesAll, FetchesNumber, FetchesRef, IsOutside};
ghost use Rattle.hm_cells.specs.Facts.{sight_of};
ghost use Rattle.hm_ops.specs.Resting.{IsResting, Keeps};

use crate::bringing::copy_behind;
use crate::reading::{read_number, read_numbers, read_reference, read_references, read_stamp};
use crate::walking::walk;
use hm_cells::{Cells, Pass};
use hm_model::{Root, Snapshot, Usage};

/// Reads the whole object that a place names. Place `hand.0 + i` then names its reference `i`, or is unset where that
/// is none.
pub fn fetch<U: Usage>(cells: &Cells<U>, pass: &mut Pass<U>, from: Root, hand: Root) -> Snapshot
    requires rests { IsResting pass.old cells.now }
    requires from { IsSet (sight_of pass.old) from }
    requires hand { hand.0 + 4 ≤ 256 }
    requires outside { IsOutside from hand }
    ensures fetched { FetchesAll U.lawful U.allowed
        (sight_of pass.old) (sight_of pass.new) from hand result }
    ensures stamp { result.stamp < u64.MAX }
    ensures same { Continues U.lawful U.allowed (sight_of pass.old) (sight_of pass.new) }
    ensures keeps { Keeps U.lawful U.allowed pass.new cells.now }
{
    let at = walk(cells, pass, from);
    // The entry is made. All fields are loaded from that one version: a store beside this hangs another behind it.
    // A walk in between could give the stamp of one version and the numbers of another.
    let stamp = read_stamp(cells, pass, at);
    let numbers = read_numbers(cells, pass, at);
    let set = read_references(cells, pass, at, hand);
    // Last, since the place may name another version then.
    copy_behind(cells, pass, from, at);
    Snapshot {
        stamp,
        numbers,
        set,
    }
}

/// Reads number `i`, below 10, of the object that a place names.
pub fn fetch_number<U: Usage>(cells: &Cells<U>, pass: &mut Pass<U>, from: Root, i: u32) -> u64
    requires rests { IsResting pass.old cells.now }
    requires from { IsSet (sight_of pass.old) from }
    requires field { i < 10 }
    ensures fetched { FetchesNumber U.lawful U.allowed
        (sight_of pass.old) (sight_of pass.new) from i result }
    ensures same { Continues U.lawful U.allowed (sight_of pass.old) (sight_of pass.new) }
    ensures keeps { Keeps U.lawful U.allowed pass.new cells.now }
{
    let at = walk(cells, pass, from);
    let number = read_number(cells, pass, at, i);
    copy_behind(cells, pass, from, at);
    number
}

/// Reads reference `i`, below 4, of the object that a place names, into another place. Where there is none, that place
/// is unset and the answer is false.
pub fn fetch_ref<U: Usage>(
    cells: &Cells<U>,
    pass: &mut Pass<U>,
    from: Root,
    i: u32,
    into: Root,
) -> bool
    requires rests { IsResting pass.old cells.now }
    requires from { IsSet (sight_of pass.old) from }
    requires field { i < 4 }
    requires into { into.0 < 256 }
    requires other { into.0 ≢ from.0 }
    ensures fetched { FetchesRef U.lawful U.allowed
        (sight_of pass.old) (sight_of pass.new) from i into result }
    ensures same { Continues U.lawful U.allowed (sight_of pass.old) (sight_of pass.new) }
    ensures keeps { Keeps U.lawful U.allowed pass.new cells.now }
{
    let at = walk(cells, pass, from);
    let is_some = read_reference(cells, pass, at, i, into);
    copy_behind(cells, pass, from, at);
    is_some
}
