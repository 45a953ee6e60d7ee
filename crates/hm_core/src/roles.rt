//! Whether a caller may store roles: as a join, a turn or a reuse.
ghost use Rattle.std.specs.Prelude.{◌≡◌, ◌+◌, ◌<◌, ◌↔◌, true, Some, IsTrue, length, map, filter, take, slice_set};
ghost use Rattle.hm_shape.specs.declared.roles.Role.{Role};
ghost use Rattle.hm_shape.specs.declared.roles.Role.TheVariants.{To};
ghost use Rattle.hm_moves.specs.Cycles.{is_free as free_role};
ghost use Rattle.hm_moves.specs.Shifts.{joined_role as role_joined, turned_role as role_turned, reused_role as role_reused};
ghost use Rattle.hm_core.specs.Stepping.{HasFrom, IsFirstFree};

use crate::machine::Machine;
use crate::step::StepKind;
use crate::ticking::shift_of;
use hm_moves::Shift;
use hm_shape::{Phase, Role, Roles};

impl Machine {
    ghost use Rattle.hm_moves.specs.Allowed.{MayJoin, MayReuse, MayShift, MayTurn};
    ghost use Rattle.hm_moves.specs.Shifts.{frees as part_frees};
    ghost use Rattle.hm_core.specs.Stepping.{MayRole};
    ghost use Rattle.hm_core.specs.Running.{own_part};

    // Whether the caller may store these roles.
    pub(crate) fn may_role(&self, caller: u32, kind: &StepKind) -> bool
        requires { caller < self.now.shape.callers }
        ensures { IsTrue result ↔ MayRole (own_part self.now caller) kind.now }
    {
        match *kind {
            StepKind::StoreRoles { roles } => match shift_of(self.hand(caller).region(), roles) {
                Some(shift) => self.may_shift(caller, &shift),
                None => false,
            },
            _ => true,
        }
    }

    // Whether it may take a step on roles.
    fn may_shift(&self, caller: u32, shift: &Shift) -> bool
        requires { caller < self.now.shape.callers }
        ensures { IsTrue result ↔ MayShift (own_part self.now caller) shift.now }
    {
        match *shift {
            Shift::LoadRoles { of } => of < self.callers(),
            Shift::Join { region, roles } => self.may_join(caller, region, roles),
            Shift::Turn { region, roles } => self.may_turn(caller, region, roles),
            Shift::Reuse { roles } => self.may_reuse(caller, roles),
        }
    }

    // Whether it has seen more cycles done than when it joined.
    fn frees(&self, caller: u32) -> bool
        requires { caller < self.now.shape.callers }
        ensures { result ≡ part_frees (own_part self.now caller) }
    {
        let track = self.hand(caller).track();
        track.done() < track.stage().done
    }

    // Whether it may join so.
    fn may_join(&self, caller: u32, region: u32, roles: Roles) -> bool
        requires { caller < self.now.shape.callers }
        ensures { IsTrue result ↔ MayJoin (own_part self.now caller) region roles }
    {
        let track = self.hand(caller).track();
        if track.stage().phase != Phase::Join || !track.is_open() {
            return false;
        }
        let joined = joined_roles(track.roles(), self.frees(caller));
        is_first_free(&joined, region, self.shape.regions)
            && is_same_roles(roles, taking(joined, region))
    }

    // Whether it may turn so.
    fn may_turn(&self, caller: u32, region: u32, roles: Roles) -> bool
        requires { caller < self.now.shape.callers }
        ensures { IsTrue result ↔ MayTurn (own_part self.now caller) region roles }
    {
        let track = self.hand(caller).track();
        let own = track.roles();
        let kept = if track.is_joined() { 1 } else { 2 };
        if self.hand(caller).used() != self.shape.versions
            || count_free(&own, self.shape.regions) <= kept
        {
            return false;
        }
        is_first_free(&own, region, self.shape.regions)
            && is_same_roles(roles, taking(turned_roles(own), region))
    }

    // Whether it may free its From regions so.
    fn may_reuse(&self, caller: u32, roles: Roles) -> bool
        requires { caller < self.now.shape.callers }
        ensures { IsTrue result ↔ MayReuse (own_part self.now caller) roles }
    {
        let own = self.hand(caller).track().roles();
        self.frees(caller)
            && has_from(&own, self.shape.regions)
            && is_same_roles(roles, reused_roles(own))
    }
}

// The roles after a join, before a region is taken.
fn joined_roles(roles: Roles, frees: bool) -> Roles
    ensures { result.0 ≡ map (role_joined frees) roles.0 }
{
    Roles(roles.0.map(|role| joined_role(role, frees)))
}

// What a join makes of a role.
fn joined_role(role: Role, frees: bool) -> Role
    ensures { result ≡ role_joined frees role }
{
    match role {
        Role::Free => Role::Free,
        Role::To | Role::Old => Role::From,
        Role::From => { if frees { Role::Free } else { Role::From } }
    }
}

// The roles after a turn, before a region is taken.
fn turned_roles(roles: Roles) -> Roles
    ensures { result.0 ≡ map role_turned roles.0 }
{
    Roles(roles.0.map(turned_role))
}

// What a turn makes of a role.
fn turned_role(role: Role) -> Role
    ensures { result ≡ role_turned role }
{
    match role {
        Role::To => Role::Old,
        other => other,
    }
}

// The roles after a reuse.
fn reused_roles(roles: Roles) -> Roles
    ensures { result.0 ≡ map role_reused roles.0 }
{
    Roles(roles.0.map(reused_role))
}

// What a reuse makes of a role.
fn reused_role(role: Role) -> Role
    ensures { result ≡ role_reused role }
{
    match role {
        Role::From => Role::Free,
        other => other,
    }
}

// A region becomes To.
fn taking(roles: Roles, region: u32) -> Roles
    requires { region < 8 }
    ensures { result.0 ≡ slice_set roles.0 region To }
{
    let mut after = roles;
    after.0[region as usize] = Role::To;
    after
}

// Whether the roles of two are the same.
fn is_same_roles(a: Roles, b: Roles) -> bool
    ensures { IsTrue result ↔ (a ≡ b) }
{
    a == b
}

// Whether a region is the first of so many that is Free.
fn is_first_free(roles: &Roles, region: u32, regions: u32) -> bool
    requires { regions < 8 }
    ensures { IsTrue result ↔ IsFirstFree roles.now regions region }
{
    if region >= regions || roles.0[region as usize] != Role::Free {
        return false;
    }
    for before in 0..region {
        if roles.0[before as usize] == Role::Free {
            return false;
        }
    }
    true
}

// How many of the first regions are Free.
fn count_free(roles: &Roles, regions: u32) -> u32
    requires { regions < 8 }
    ensures { result ≡ length (filter free_role (take regions roles.now.0)) }
{
    let mut count = 0;
    for region in 0..regions {
        if roles.0[region as usize] == Role::Free {
            count += 1;
        }
    }
    count
}

// Whether one of the first regions is From.
fn has_from(roles: &Roles, regions: u32) -> bool
    requires { regions < 8 }
    ensures { IsTrue result ↔ HasFrom roles.now regions }
{
    for region in 0..regions {
        if roles.0[region as usize] == Role::From {
            return true;
        }
    }
    false
}
