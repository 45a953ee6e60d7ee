//! What changes the roles of a caller's own regions: a join, and a reuse.
ghost use Rattle.std.specs.Prelude.{◌≡◌, ◌≤◌, ◌<◌, ◌+◌, ◌*◌, ◌-◌, ℕ, false, filter, length, map, take};
ghost use Rattle.std.specs.List.{position_or_len};
ghost use Rattle.hm_moves.specs.Cycles.{is_free, is_from};
ghost use Rattle.hm_moves.specs.Shifts.{frees, joined_role, joined_roles, reused_role, reused_roles};
ghost use Rattle.hm_cells.specs.Facts.{Fits, IsAtRest, IsSound, sight_of};
ghost use Rattle.hm_cycle.specs.Standing.{Keeps, Stays, standing_of};
ghost use Rattle.hm_cycle.specs.Roles.{FreesRightly, Joins, MayJoinNow, Reuses, free_joined, freed_count, from_count, is_free_then};

use hm_cells::{Cells, Pass, a_pass_is_sound, store_reply, store_roles};
use hm_model::Usage;
use hm_shape::{REGIONS, ReplyKind, Role, Roles};

/// Joins the Join that the pass has seen and not replied to, and replies Joined. A region is Free for that, or is freed:
/// what was given up in a cycle that is done. The regions in use are given up, and the lowest Free one is used next. The
/// pass has no masks then.
pub fn join<U: Usage>(cells: &Cells<U>, pass: &mut Pass<U>)
    requires cells { Fits pass.old cells.now }
    requires may { MayJoinNow pass.old.part }
    ensures joins { Joins pass.old pass.new }
    ensures frees { FreesRightly pass.old pass.new }
    ensures sight { sight_of pass.new ≡ record (sight_of pass.old) {
      room = pass.old.part.site.shape.versions
          + pass.old.part.site.shape.versions * (free_joined pass.old.part - 2);
      copying = false;
      used = 0;
      free = free_joined pass.old.part - 1;
      kept = 1;
    } }
    ensures stays { Stays pass.old pass.new }
    ensures rest { IsAtRest pass.old → 2 ≤ free_joined pass.old.part → IsAtRest pass.new }
    ensures sound { IsSound U.lawful U.allowed pass.new }
{
    a_pass_is_sound(pass);
    let roles = roles_joined(pass);
    store_roles(cells, pass, roles);
    store_reply(cells, pass, ReplyKind::Joined);
}

// The roles of the pass's regions after a join: the lowest that is Free then is To.
fn roles_joined<U: Usage>(pass: &Pass<U>) -> Roles
    requires { 0 < free_joined pass.now.part }
    ensures { result ≡ joined_roles pass.now.part
        (position_or_len (is_free_then pass.now.part) pass.now.part.cycle.ties.roles.0) }
{
    let mut roles = given_up(pass.roles(), frees(pass));
    let lowest = first_free(&roles);
    roles.0[lowest] = Role::To;
    roles
}

// Roles after a join, before one becomes To.
fn given_up(roles: Roles, frees: bool) -> Roles
    ensures { result.0 ≡ map (joined_role frees) roles.0 }
{
    Roles(roles.0.map(|role| role_joined(role, frees)))
}

// The first region that is Free, and 8 where none is.
fn first_free(roles: &Roles) -> usize
    ensures { result ≡ position_or_len is_free roles.now.0 }
{
    let at = roles.0.iter().position(|role| *role == Role::Free);
    at.unwrap_or(roles.0.len())
}

// A region's role after a join, before one becomes To.
fn role_joined(role: Role, frees: bool) -> Role
    ensures { result ≡ joined_role frees role }
{
    match role {
        Role::Free => Role::Free,
        Role::From if frees => Role::Free,
        _ => Role::From,
    }
}

// Whether more cycles are done, by the stage that the pass has seen, than when it joined.
fn frees<U: Usage>(pass: &Pass<U>) -> bool
    ensures { result ≡ frees pass.now.part }
{
    pass.joined_at() < pass.stage().done
}

/// Frees the regions that the pass gave up in a cycle that is done, by the stage that it has seen, and answers how many
/// versions they have, 0 where there is none. The pass is not joined then, and has no masks. Where it answers 0, nothing
/// changes.
pub fn reuse<U: Usage>(cells: &Cells<U>, pass: &mut Pass<U>) -> u64
    requires cells { Fits pass.old cells.now }
    ensures versions { result ≡ freed_count pass.old.part * pass.old.part.site.shape.versions }
    ensures reuses { Reuses pass.old result pass.new }
    ensures frees { FreesRightly pass.old pass.new }
    ensures keeps { Keeps U.lawful U.allowed pass.old pass.new }
{
    a_pass_is_sound(pass);
    let freed = regions_freed(pass);
    if freed == 0 {
        return 0;
    }
    let roles = roles_reused(pass.roles());
    store_roles(cells, pass, roles);
    u64::from(freed) * u64::from(cells.shape().versions)
}

// How many regions of the pass a reuse frees.
fn regions_freed<U: Usage>(pass: &Pass<U>) -> u32
    ensures count { result ≡ freed_count pass.now.part }
    ensures few { result ≤ 8 }
{
    if frees(pass) {
        regions_from(&pass.roles())
    } else {
        0
    }
}

// How many of the regions that a caller has are From.
fn regions_from(roles: &Roles) -> u32
    ensures count { result ≡ length (filter is_from (take 4 roles.now.0)) }
    ensures few { result ≤ 8 }
{
    let from = roles.0[..REGIONS as usize]
        .iter()
        .filter(|role| **role == Role::From);
    from.count() as u32
}

// Roles after a reuse.
fn roles_reused(roles: Roles) -> Roles
    ensures { result.0 ≡ map reused_role roles.0 }
{
    Roles(roles.0.map(role_reused))
}

// A region's role after a reuse.
fn role_reused(role: Role) -> Role
    ensures { result ≡ reused_role role }
{
    match role {
        Role::From => Role::Free,
        other => other,
    }
}
