//! Loads of what a version holds, by a pass at rest.
ghost use Rattle.std.specs.Prelude.{◌≡◌, ◌+◌, ◌<◌, ◌≤◌, None, is_some, map, slice_index, slice_index_or};
ghost use Rattle.hm_model.specs.Sight.{Rests, SetsHand};
ghost use Rattle.hm_model.specs.Calls.{IsOutside};
ghost use Rattle.hm_moves.specs.Chain.{reference_at};
ghost use Rattle.hm_cells.specs.Facts.{sight_of};
ghost use Rattle.hm_ops.specs.Resting.{IsRooted, IsRootedBeside, IsRootedOutside, Keeps};
ghost use Rattle.hm_ops.specs.Walking.{Reads, ReadsInto, contents_at};

use crate::loading::{load_number, load_numbers, load_stamp, take_reference};
use crate::placing::settle;
use hm_cells::{Cells, Pass};
use hm_model::{Root, Usage};
use hm_shape::Version;

/// The stamp of a version.
pub(crate) fn read_stamp<U: Usage>(cells: &Cells<U>, pass: &mut Pass<U>, v: Version) -> u64
    requires keeps { Keeps U.lawful U.allowed pass.old cells.now }
    requires rooted { IsRooted pass.old v }
    ensures value { result ≡ (contents_at pass.old v).stamp }
    ensures small { result < u64.MAX }
    ensures reads { Reads U.lawful U.allowed cells.now pass.old v pass.new }
{
    load_stamp(cells, pass, v, false)
}

/// Number `i` of a version.
pub(crate) fn read_number<U: Usage>(cells: &Cells<U>, pass: &mut Pass<U>, v: Version, i: u32) -> u64
    requires keeps { Keeps U.lawful U.allowed pass.old cells.now }
    requires rooted { IsRooted pass.old v }
    requires number { i < 10 }
    ensures value { result ≡ slice_index (contents_at pass.old v).numbers i }
    ensures reads { Reads U.lawful U.allowed cells.now pass.old v pass.new }
{
    load_number(cells, pass, v, i, false)
}

/// All numbers of a version.
pub(crate) fn read_numbers<U: Usage>(cells: &Cells<U>, pass: &mut Pass<U>, v: Version) -> [u64; 10]
    requires keeps { Keeps U.lawful U.allowed pass.old cells.now }
    requires rooted { IsRooted pass.old v }
    ensures value { result ≡ (contents_at pass.old v).numbers }
    ensures reads { Reads U.lawful U.allowed cells.now pass.old v pass.new }
{
    load_numbers(cells, pass, v, false)
}

/// Loads reference `i` of a version into a place, and answers whether there is one.
pub(crate) fn read_reference<U: Usage>(
    cells: &Cells<U>,
    pass: &mut Pass<U>,
    v: Version,
    i: u32,
    into: Root,
) -> bool
    requires keeps { Keeps U.lawful U.allowed pass.old cells.now }
    requires rooted { IsRootedBeside into.0 pass.old v }
    requires reference { i < 4 }
    requires into { into.0 < 256 }
    ensures value { result ≡ is_some (reference_at (contents_at pass.old v) i) }
    ensures reads { ReadsInto U.lawful U.allowed cells.now pass.old v i into.0 pass.new }
{
    match take_reference(cells, pass, v, i, false) {
        Some(next) => {
            // What the place named before may be let go of then, but not `v`, which another place names.
            settle(pass, into, next);
            true
        }
        None => {
            pass.clear_root(into);
            false
        }
    }
}

/// Loads all references of a version into a hand, and answers which there are.
pub(crate) fn read_references<U: Usage>(
    cells: &Cells<U>,
    pass: &mut Pass<U>,
    v: Version,
    hand: Root,
) -> [bool; 4]
    requires keeps { Keeps U.lawful U.allowed pass.old cells.now }
    requires rooted { IsRootedOutside hand pass.old v }
    requires hand { hand.0 + 4 ≤ 256 }
    ensures value { result ≡ map is_some (contents_at pass.old v).refs }
    ensures names { SetsHand (sight_of pass.old) (sight_of pass.new) hand.0
        (contents_at pass.old v).refs }
    ensures places { (r : Root) → IsOutside r hand
        → slice_index_or pass.new.roots r.0 None ≡ slice_index_or pass.old.roots r.0 None }
    ensures same { Rests (sight_of pass.old) (sight_of pass.new) }
    ensures keeps { Keeps U.lawful U.allowed pass.new cells.now }
{
    let mut set = [false; 4];
    // Place by place: each reference has its place before the next load, which lets go of what nothing names.
    for i in 0..4u32 {
        set[i as usize] = read_reference(cells, pass, v, i, Root(hand.0 + i));
    }
    set
}
