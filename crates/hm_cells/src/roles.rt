//! The steps of the machine on roles of regions: one call a step.
ghost use Rattle.std.specs.Prelude.{◌≡◌, ◌<◌};
ghost use Rattle.hm_shape.specs.Words.{roles_word};
ghost use Rattle.hm_moves.specs.declared.moving.Act.TheVariants.{Shifts};
ghost use Rattle.hm_moves.specs.declared.moving.Shift.TheVariants.{LoadRoles};
ghost use Rattle.hm_moves.specs.Allowed.{MayShift};
ghost use Rattle.hm_cells.specs.Facts.{Fits, IsSound};
ghost use Rattle.hm_cells.specs.Calls.{Takes};
ghost use Rattle.hm_cells.specs.Owns.{scanned_loaded, shift_to};

use crate::pass::Pass;
use crate::plan::Plan;
use crate::table::Cells;
use hm_model::Usage;
use hm_moves::Seen;
use hm_shape::{Phase, Roles};
use std::marker::Brand;

/// A load of the roles of a caller's regions. For a caller that has seen a First they are its mask of that caller; where
/// it has not replied to that First, its scan begins anew, and by a load of its own roles its mark is taken away.
pub fn load_roles<U: Usage>(cells: &Cells<U>, pass: &mut Pass<U>, p: u32) -> Roles
    requires cells { Fits pass.old cells.now }
    requires caller { p < pass.old.part.site.shape.callers }
    ensures took { Takes U.lawful U.allowed pass.old (Shifts (LoadRoles p)) (roles_word result)
        pass.new }
    ensures sound { IsSound U.lawful U.allowed pass.new }
{
    let at = pass.own.shape.roles_at(p);
    let plan = Plan::LoadRoles { of: p };
    let word = cells.load::<Brand>(&mut pass.seat, &pass.grip, at, &plan);
    let Some(roles) = Roles::unpack(word) else {
        unreachable!()
    };
    let scanned = still_scanned(pass.own.watch.stage, pass.grip.scanned());
    pass.grip.note_scan(scanned);
    pass.own.mask(p, roles);
    roles
}

// That a scan ended clean in the First that is seen does not outlive a load of roles there.
fn still_scanned(stage: Seen, scanned: Option<u32>) -> Option<u32>
    ensures { result ≡ scanned_loaded stage scanned }
{
    match scanned {
        Some(n) if stage.phase == Phase::First && n == stage.number => None,
        _ => scanned,
    }
}

/// A store of the roles of the caller's own regions, by a join, a turn or a reuse. What was its To region is then From
/// after a join, and Old after a turn.
pub fn store_roles<U: Usage>(cells: &Cells<U>, pass: &mut Pass<U>, roles: Roles)
    requires cells { Fits pass.old cells.now }
    requires may { MayShift pass.old.part (shift_to pass.old.part roles) }
    ensures took { Takes U.lawful U.allowed pass.old (Shifts (shift_to pass.old.part roles))
        (roles_word roles) pass.new }
    ensures sound { IsSound U.lawful U.allowed pass.new }
{
    let at = pass.own.shape.roles_at(pass.own.number);
    let plan = Plan::StoreRoles { roles };
    cells.store::<Brand>(&mut pass.seat, &pass.grip, at, roles.pack(), &plan);
    pass.own.shift(roles);
}
