//! Objects that are brought out of from-space.
ghost use Rattle.std.specs.Prelude.{◌≡◌, ◌≢◌, ◌≤◌, true, IfSome, Contains, length};
ghost use Rattle.std.specs.Option.{option_or};
ghost use Rattle.hm_model.specs.Sight.{IsSet};
ghost use Rattle.hm_moves.specs.Cycles.{known_from};
ghost use Rattle.hm_cells.specs.Facts.{known_at, sight_of, with_hand};
ghost use Rattle.hm_ops.specs.Resting.{IsAtPlace, IsKept, IsResting, Keeps, Works};
ghost use Rattle.hm_ops.specs.Bringing.{Brings, CopiesBehind, CopiesOutOf, HasEnd, Searches, without_former};

use crate::copying::copy_same;
use crate::placing::settle;
use crate::turning::make_place;
use hm_cells::{Cells, Pass, Want, link_copy, load_link};
use hm_model::{Root, Usage};
use hm_shape::Version;

/// Whether an object was copied out of from-space: `Already` where its current version is not known as from-space,
/// `NoRoom` where it is and the caller has no room for a copy.
#[derive(Clone, Copy, PartialEq, Eq, Debug)]
pub enum Copied {
    Already,
    Moved,
    NoRoom,
}

/// Where a search for the current version of an object has ended. `later` is that version, in hand, where it is another
/// than the one that the search began with.
#[derive(Clone, Copy, PartialEq, Eq, Debug)]
pub struct Brought {
    pub copied: Copied,
    pub later: Option<Version>,
}

/// What an attempt at a copy came to: another version was found behind, or the search has ended.
#[derive(Clone, Copy)]
pub(crate) enum Search {
    Goes(Version),
    Ends(Brought),
}

/// Brings an object out of from-space, from a version of it that a root place or the hand names. Where the current
/// version is known as from-space, a copy is hung behind it, as far as there is room. `scan` tells that the loads are
/// those of a scan.
pub fn bring_out<U: Usage>(cells: &Cells<U>, pass: &mut Pass<U>, v: Version, scan: bool) -> Brought
    requires works { Works U.lawful U.allowed pass.old cells.now }
    requires hand { length pass.old.hand ≤ 1 }
    requires kept { IsKept pass.old v }
    ensures brings { Brings pass.old v scan result pass.new }
    ensures works { Works U.lawful U.allowed pass.new cells.now }
{
    let mut later = None;
    loop {
        match attempt(cells, pass, later.unwrap_or(v), scan) {
            Search::Goes(next) => later = last_of(pass, later, Some(next)),
            Search::Ends(end) => {
                return Brought {
                    copied: end.copied,
                    later: last_of(pass, later, end.later),
                };
            }
        }
    }
}

// An attempt to end a search at a version.
fn attempt<U: Usage>(cells: &Cells<U>, pass: &mut Pass<U>, v: Version, scan: bool) -> Search
    requires works { Works U.lawful U.allowed pass.old cells.now }
    requires hand { length pass.old.hand ≤ 2 }
    requires kept { IsKept pass.old v }
    ensures searches { Searches pass.old v scan result pass.new }
    ensures works { Works U.lawful U.allowed pass.new cells.now }
{
    if let Some(next) = load_link(cells, pass, v, Want::Nothing, scan) {
        return Search::Goes(next);
    }
    if !pass.known_from(v) {
        return ends(Copied::Already);
    }
    // Asked before a word of the copy is written. No step until then takes a version.
    if pass.room() == 0 {
        return ends(Copied::NoRoom);
    }
    hang_copy(cells, pass, v, scan)
}

// A search has ended at the version at which it was.
fn ends(copied: Copied) -> Search
    ensures { result ≡ Search.Ends record { copied = copied; later = None } }
{
    Search::Ends(Brought {
        copied,
        later: None,
    })
}

// Hangs a copy behind a version of from-space, where a look has found none behind it. Another may be there by then.
fn hang_copy<U: Usage>(cells: &Cells<U>, pass: &mut Pass<U>, v: Version, scan: bool) -> Search
    requires works { Works U.lawful U.allowed pass.old cells.now }
    requires hand { length pass.old.hand ≤ 2 }
    requires kept { IsKept pass.old v }
    requires from { known_from pass.old.part v ≡ true }
    requires end { HasEnd pass.old v }
    requires room { (sight_of pass.old).room ≢ 0 }
    ensures searches { Searches pass.old v scan result pass.new }
    ensures works { Works U.lawful U.allowed pass.new cells.now }
{
    make_place(cells, pass);
    copy_same(cells, pass, v, scan);
    // A scan's caller finds nothing of from-space here, since its own look was the one that found the end.
    match link_copy(cells, pass, v) {
        Ok(made) => Search::Ends(Brought {
            copied: Copied::Moved,
            later: Some(made),
        }),
        Err(next) => Search::Goes(next),
    }
}

// Of two finds, the second or none, the last. The first is released where there is a second.
fn last_of<U: Usage>(
    pass: &mut Pass<U>,
    first: Option<Version>,
    second: Option<Version>,
) -> Option<Version>
    requires { IfSome first (Contains pass.old.hand) }
    ensures last { result ≡ option_or second first }
    ensures pass { pass.new ≡ with_hand pass.old (without_former first second pass.old.hand) }
{
    match (first, second) {
        (Some(former), Some(next)) => {
            pass.release(former);
            Some(next)
        }
        (None, Some(next)) => Some(next),
        (first, None) => first,
    }
}

/// Copies the object at a root place out of from-space, where its current version is known as that. The place names the
/// version that was found, or the copy.
pub fn copy_out<U: Usage>(cells: &Cells<U>, pass: &mut Pass<U>, r: Root) -> Copied
    requires rests { IsResting pass.old cells.now }
    requires set { IsSet (sight_of pass.old) r }
    ensures copies { CopiesOutOf pass.old r result pass.new }
    ensures keeps { Keeps U.lawful U.allowed pass.new cells.now }
{
    let v = pass.root(r).unwrap();
    let brought = bring_out(cells, pass, v, false);
    if let Some(later) = brought.later {
        settle(pass, r, later);
    }
    brought.copied
}

/// Copies the object at a root place out of from-space, where the version there is known as that. Whether there was room
/// for it is not told.
pub(crate) fn copy_behind<U: Usage>(cells: &Cells<U>, pass: &mut Pass<U>, r: Root, v: Version)
    requires keeps { Keeps U.lawful U.allowed pass.old cells.now }
    requires set { IsSet (sight_of pass.old) r }
    requires place { IsAtPlace pass.old r.0 v }
    ensures copies { CopiesBehind pass.old pass.new }
    ensures keeps { Keeps U.lawful U.allowed pass.new cells.now }
{
    // Without all masks a caller copies nothing.
    if pass.has_masks() && pass.known_from(v) {
        copy_out(cells, pass, r);
    }
}
