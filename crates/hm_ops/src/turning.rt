//! Turns: where the To region is full, a Free region becomes To.
ghost use Rattle.std.specs.Prelude.{◌≡◌, ◌≢◌, ◌<◌, ◌≤◌, ◌↔◌, IsErr, OnErr, OnOk};
ghost use Rattle.std.specs.List.{position_or_len};
ghost use Rattle.hm_moves.specs.Allowed.{HasRoom, free_count, kept_free};
ghost use Rattle.hm_moves.specs.Cycles.{is_free};
ghost use Rattle.hm_moves.specs.Shifts.{taking, turned_role as role_turned};
ghost use Rattle.hm_cells.specs.Facts.{sight_of};
ghost use Rattle.hm_ops.specs.Resting.{IsResting, Keeps, Works};
ghost use Rattle.hm_ops.specs.Turning.{MakesPlace, Turns};

use hm_cells::{Cells, Pass, a_pass_is_sound, store_roles};
use hm_model::Usage;
use hm_shape::{Role, Roles};

/// No region of the caller is Free beyond those that it keeps for its next join, and nothing changed.
#[derive(Clone, Copy, Debug, PartialEq, Eq)]
pub struct NoFree;

/// Turns from the To region, of which all places are used, to the lowest Free one: that becomes To, and the other one
/// Old. Where no more regions are Free than the caller keeps, one where it has joined a cycle and two where it has not,
/// it answers `NoFree`, and nothing changes: no step is taken.
pub fn turn<U: Usage>(cells: &Cells<U>, pass: &mut Pass<U>) -> Result<(), NoFree>
    requires rests { IsResting pass.old cells.now }
    requires full { pass.old.part.draft.used ≡ pass.old.part.site.shape.versions }
    ensures no_free { IsErr result ↔ (free_count pass.old.part ≤ kept_free pass.old.part) }
    ensures unchanged { OnErr result (pass.new ≡ pass.old) }
    ensures turned { OnOk result (Turns pass.old pass.new) }
    ensures keeps { Keeps U.lawful U.allowed pass.new cells.now }
{
    a_pass_is_sound(pass);
    let kept = if pass.joined() { 1 } else { 2 };
    if pass.free() <= kept {
        return Err(NoFree);
    }
    take_free(cells, pass);
    Ok(())
}

/// Makes a place for a version in the To region: where that is full, it turns to a Free one.
pub(crate) fn make_place<U: Usage>(cells: &Cells<U>, pass: &mut Pass<U>)
    requires works { Works U.lawful U.allowed pass.old cells.now }
    requires room { (sight_of pass.old).room ≢ 0 }
    ensures room { HasRoom pass.new.part }
    ensures makes { MakesPlace pass.old pass.new }
    ensures works { Works U.lawful U.allowed pass.new cells.now }
{
    // What is left of the room is then in Free regions that are not kept.
    if pass.used() == cells.shape().versions {
        take_free(cells, pass);
    }
}

// The To region becomes Old, and the lowest Free one To.
fn take_free<U: Usage>(cells: &Cells<U>, pass: &mut Pass<U>)
    requires works { Works U.lawful U.allowed pass.old cells.now }
    requires full { pass.old.part.draft.used ≡ pass.old.part.site.shape.versions }
    requires reserve { kept_free pass.old.part < free_count pass.old.part }
    ensures turned { Turns pass.old pass.new }
    ensures works { Works U.lawful U.allowed pass.new cells.now }
{
    let roles = pass.roles();
    let region = first_free(&roles);
    store_roles(cells, pass, turned(roles, region));
}

// The first region that is Free, and 8 where none is.
fn first_free(roles: &Roles) -> usize
    ensures { result ≡ position_or_len is_free roles.now.0 }
{
    let at = roles.0.iter().position(|role| *role == Role::Free);
    at.unwrap_or(roles.0.len())
}

// The roles after a turn to a region.
fn turned(roles: Roles, region: usize) -> Roles
    requires { region < 8 }
    ensures { result ≡ taking roles role_turned region }
{
    let mut after = roles.0.map(turned_role);
    after[region] = Role::To;
    Roles(after)
}

// What a turn makes of a role.
fn turned_role(role: Role) -> Role
    ensures { result ≡ role_turned role }
{
    match role {
        Role::To => Role::Old,
        other => other,
    }
}
