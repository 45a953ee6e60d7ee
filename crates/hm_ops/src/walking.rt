//! Walks along links.
ghost use Rattle.hm_model.specs.Sight.{IsSet};
ghost use Rattle.hm_cells.specs.Facts.{sight_of};
ghost use Rattle.hm_ops.specs.Resting.{IsResting};
ghost use Rattle.hm_ops.specs.Walking.{Walks};

use crate::linking::look;
use hm_cells::{Cells, Pass, Want};
use hm_model::{Root, Usage};
use hm_shape::Version;

/// Walks from the version at a root place to the last one of its object, and fetches the object there.
pub(crate) fn walk<U: Usage>(cells: &Cells<U>, pass: &mut Pass<U>, from: Root) -> Version
    requires rests { IsResting pass.old cells.now }
    requires from { IsSet (sight_of pass.old) from }
    ensures { Walks U.lawful U.allowed cells.now pass.old from result pass.new }
{
    let mut at = pass.root(from).unwrap();
    // Each look wants the Fetch: the load that finds no link is the one moment at which this version is known to be
    // the last.
    while let Some(next) = look(cells, pass, from, at, Want::Fetch) {
        at = next;
    }
    at
}
