//! Conditional stores, which replace all fields.
ghost use Rattle.std.specs.Prelude.{◌≡◌, ◌<◌, ◌↔◌, IfErr, IfNone, IfSome, OnOk};
ghost use Rattle.hm_model.specs.Sight.{AreSet, Continues, IsSet, MayEnter};
ghost use Rattle.hm_model.specs.declared.entry.Tried.TheVariants.{Stored};
ghost use Rattle.hm_model.specs.Calls.{FindsChanged, IfChanged, MayStoreIf, StoresAll};
ghost use Rattle.hm_moves.specs.Allowed.{HasRoom};
ghost use Rattle.hm_cells.specs.Facts.{sight_of};
ghost use Rattle.hm_ops.specs.Resting.{IsAtPlace, IsResting, Keeps};
ghost use Rattle.hm_ops.specs.Storing.{Attempts, tried_at};

use crate::linking::{link, look};
use crate::reading::read_stamp;
use crate::turning::make_place;
use crate::writing::rewrite;
use hm_cells::{Cells, Pass, Want};
use hm_model::{Root, StoreIfRefused, Usage};
use hm_shape::Version;

/// What an attempt at a conditional store came to.
pub(crate) enum Attempt {
    Goes(Version),
    Stored,
    Changed(u64),
}

/// Replaces all fields of the object that a place names, and raises its stamp by one, on the condition that it still
/// has the given stamp. Where the caller's room is 0 it answers `Full`, and nothing changes: no step is taken. Where
/// the object has another stamp it answers `Changed` with that.
pub fn store_if<U: Usage>(
    cells: &Cells<U>,
    pass: &mut Pass<U>,
    at: Root,
    stamp: u64,
    refs: [Option<Root>; 4],
    numbers: [u64; 10],
) -> Result<(), StoreIfRefused>
    requires rests { IsResting pass.old cells.now }
    requires at { IsSet (sight_of pass.old) at }
    requires refs { AreSet (sight_of pass.old) refs }
    requires allowed { MayStoreIf U.lawful U.allowed (sight_of pass.old) at stamp refs numbers }
    ensures stored { OnOk result (StoresAll U.lawful U.allowed
        (sight_of pass.old) (sight_of pass.new) at stamp refs numbers) }
    ensures changed { IfErr result (λ e. IfChanged e (FindsChanged U.lawful U.allowed
        (sight_of pass.old) (sight_of pass.new) at stamp refs numbers)) }
    ensures stamp { IfErr result (λ e. IfChanged e (λ found. found < u64.MAX)) }
    ensures full { (result ≡ Err StoreIfRefused.Full) ↔ ((sight_of pass.old).room ≡ 0) }
    ensures unchanged { result ≡ Err StoreIfRefused.Full → pass.new ≡ pass.old }
    ensures same { Continues U.lawful U.allowed (sight_of pass.old) (sight_of pass.new) }
    ensures keeps { Keeps U.lawful U.allowed pass.new cells.now }
{
    // Asked before the first step, so that Full changes nothing.
    if pass.room() == 0 {
        return Err(StoreIfRefused::Full);
    }
    make_place(cells, pass);
    match replace_placed(cells, pass, at, stamp, refs, numbers) {
        None => Ok(()),
        Some(found) => Err(StoreIfRefused::Changed { stamp: found }),
    }
}

// Replaces all fields of the object that a place names, where the To region has a place, on the condition that the
// object still has the given stamp. Where it has another one, that is answered.
fn replace_placed<U: Usage>(
    cells: &Cells<U>,
    pass: &mut Pass<U>,
    at: Root,
    stamp: u64,
    refs: [Option<Root>; 4],
    numbers: [u64; 10],
) -> Option<u64>
    requires keeps { Keeps U.lawful U.allowed pass.old cells.now }
    requires room { HasRoom pass.old.part }
    requires at { IsSet (sight_of pass.old) at }
    requires refs { AreSet (sight_of pass.old) refs }
    requires allowed { MayStoreIf U.lawful U.allowed (sight_of pass.old) at stamp refs numbers }
    ensures stored { IfNone result (StoresAll U.lawful U.allowed
        (sight_of pass.old) (sight_of pass.new) at stamp refs numbers) }
    ensures changed { IfSome result (FindsChanged U.lawful U.allowed
        (sight_of pass.old) (sight_of pass.new) at stamp refs numbers) }
    ensures stamp { IfSome result (λ found. found < u64.MAX) }
    ensures same { Continues U.lawful U.allowed (sight_of pass.old) (sight_of pass.new) }
    ensures keeps { Keeps U.lawful U.allowed pass.new cells.now }
{
    let mut v = pass.root(at).unwrap();
    loop {
        match try_replace(cells, pass, at, v, stamp, refs, numbers) {
            Attempt::Goes(next) => v = next,
            Attempt::Stored => return None,
            Attempt::Changed(found) => return Some(found),
        }
    }
}

// An attempt at a conditional store, by a copy of the version at a root place, or by a look at its link where it has
// another stamp.
fn try_replace<U: Usage>(
    cells: &Cells<U>,
    pass: &mut Pass<U>,
    at: Root,
    v: Version,
    stamp: u64,
    refs: [Option<Root>; 4],
    numbers: [u64; 10],
) -> Attempt
    requires keeps { Keeps U.lawful U.allowed pass.old cells.now }
    requires at { IsSet (sight_of pass.old) at }
    requires place { IsAtPlace pass.old at.0 v }
    requires room { HasRoom pass.old.part }
    requires refs { AreSet (sight_of pass.old) refs }
    requires allowed { MayEnter U.lawful U.allowed (sight_of pass.old)
        (tried_at pass.old v stamp refs numbers Stored) }
    ensures { Attempts U.lawful U.allowed cells.now pass.old at v stamp refs numbers result
        pass.new }
{
    let want = Want::StoreIf {
        stamp,
        refs,
        numbers,
    };
    let found = read_stamp(cells, pass, v);
    // Another stamp is not Changed yet: a version behind this one may have the given stamp. Where there is none, the
    // load of the link makes the entry.
    if found != stamp {
        return match look(cells, pass, at, v, want) {
            Some(next) => Attempt::Goes(next),
            None => Attempt::Changed(found),
        };
    }
    // Without a look at the link: the exchange finds out whether this version is the last.
    rewrite(cells, pass, stamp, refs, numbers);
    match link(cells, pass, at, v, want) {
        // The stamp of the version found is loaded next: Changed has to tell the stamp of the last one.
        Some(next) => Attempt::Goes(next),
        None => Attempt::Stored,
    }
}
