//! Creates.
ghost use Rattle.std.specs.Prelude.{◌≡◌, ◌<◌, ◌↔◌, IsErr, OnOk, OnErr};
ghost use Rattle.hm_model.specs.Sight.{AreSet, Continues};
ghost use Rattle.hm_model.specs.Calls.{Creates, MayCreate};
ghost use Rattle.hm_cells.specs.Facts.{sight_of};
ghost use Rattle.hm_ops.specs.Resting.{IsResting, Keeps};

use crate::placing::settle;
use crate::turning::make_place;
use crate::writing::draft;
use hm_cells::{Cells, Pass, publish};
use hm_model::{Full, Root, Usage};

/// Makes an object that names what the given places name. Place `into` then names it. Where the caller's room is 0 it
/// answers `Full`, and nothing changes: no step is taken.
pub fn create<U: Usage>(
    cells: &Cells<U>,
    pass: &mut Pass<U>,
    into: Root,
    refs: [Option<Root>; 4],
    numbers: [u64; 10],
) -> Result<(), Full>
    requires rests { IsResting pass.old cells.now }
    requires into { into.0 < 256 }
    requires refs { AreSet (sight_of pass.old) refs }
    requires allowed { MayCreate U.lawful U.allowed (sight_of pass.old) refs numbers }
    ensures created { OnOk result
        (Creates U.lawful U.allowed (sight_of pass.old) (sight_of pass.new) into refs numbers) }
    ensures full { IsErr result ↔ ((sight_of pass.old).room ≡ 0) }
    ensures unchanged { OnErr result (pass.new ≡ pass.old) }
    ensures same { Continues U.lawful U.allowed (sight_of pass.old) (sight_of pass.new) }
    ensures keeps { Keeps U.lawful U.allowed pass.new cells.now }
{
    // Asked before the first step, so that Full changes nothing.
    if pass.room() == 0 {
        return Err(Full);
    }
    make_place(cells, pass);
    // All words but the link: once that is stored, the version is published and nothing of it may change.
    draft(cells, pass, refs, numbers);
    let made = publish(cells, pass);
    settle(pass, into, made);
    Ok(())
}
