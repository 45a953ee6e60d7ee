//! Steps on the link of the version at a root place.
ghost use Rattle.std.specs.Prelude.{◌≡◌};
ghost use Rattle.hm_model.specs.Sight.{IsSet, MayEnter};
ghost use Rattle.hm_moves.specs.Allowed.{HasRoom};
ghost use Rattle.hm_cells.specs.Calls.{IsWholeCopy, MayStore, MayWant, stored, turned, wanted};
ghost use Rattle.hm_cells.specs.Facts.{known_at, sight_of};
ghost use Rattle.hm_ops.specs.Resting.{IsAtPlace, Keeps};
ghost use Rattle.hm_ops.specs.Walking.{Looks};
ghost use Rattle.hm_ops.specs.Storing.{Steps};

use crate::placing::settle;
use hm_cells::{Cells, Pass, Want, link_store, load_link};
use hm_model::{Root, Usage};
use hm_shape::Version;

/// Looks for the next version behind the one at a root place, which then names it. Where there is none, the wanted
/// entry is made, if one is wanted.
pub(crate) fn look<U: Usage>(
    cells: &Cells<U>,
    pass: &mut Pass<U>,
    at: Root,
    v: Version,
    want: Want,
) -> Option<Version>
    requires keeps { Keeps U.lawful U.allowed pass.old cells.now }
    requires at { IsSet (sight_of pass.old) at }
    requires place { IsAtPlace pass.old at.0 v }
    requires want { MayWant pass.old (known_at pass.old v) want }
    ensures { Looks U.lawful U.allowed cells.now pass.old at v
        (wanted pass.old (known_at pass.old v) want) result pass.new }
{
    let next = load_link(cells, pass, v, want, false)?;
    // The version before may be named by nothing then, and is not looked into again.
    settle(pass, at, next);
    Some(next)
}

/// Hangs the caller's next version, a changed copy of the one at a root place, on that one. Where there is another
/// version behind it already, that is answered. The place names either from then on.
pub(crate) fn link<U: Usage>(
    cells: &Cells<U>,
    pass: &mut Pass<U>,
    at: Root,
    v: Version,
    want: Want,
) -> Option<Version>
    requires keeps { Keeps U.lawful U.allowed pass.old cells.now }
    requires at { IsSet (sight_of pass.old) at }
    requires place { IsAtPlace pass.old at.0 v }
    requires room { HasRoom pass.old.part }
    requires want { MayStore pass.old (known_at pass.old v) want }
    requires whole { IsWholeCopy pass.old.part (turned pass.old (known_at pass.old v) want) }
    requires allowed { MayEnter U.lawful U.allowed (sight_of pass.old)
        (stored pass.old (known_at pass.old v) want) }
    ensures { Steps U.lawful U.allowed cells.now pass.old at v
        (stored pass.old (known_at pass.old v) want) 1 result pass.new }
{
    match link_store(cells, pass, v, want) {
        Ok(made) => {
            settle(pass, at, made);
            None
        }
        Err(next) => {
            // The copy is written anew, on this version.
            settle(pass, at, next);
            Some(next)
        }
    }
}
