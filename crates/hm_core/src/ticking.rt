//! Steps on stage, replies and roles: the words that they move, and what these become.
ghost use Rattle.std.specs.Prelude.{◌≡◌, ◌*◌, ◌<◌, ◌≤◌, ◌^◌};
ghost use Rattle.hm_moves.specs.Acts.{shift_word, shifted_word, tick_word, ticked_word};
ghost use Rattle.hm_moves.specs.Decoding.{seen_of as stage_seen, seen_word as word_of_seen};
ghost use Rattle.hm_shape.specs.Words.{phase_number as number_of_phase};
ghost use Rattle.hm_moves.specs.Cycles.{role_at};
ghost use Rattle.hm_moves.specs.declared.moving.Act.TheVariants.{Ticks};
ghost use Rattle.hm_core.specs.Stepping.{first_to as first_place, shift_by, IsPackable, IsShiftOf, IsTickOf};

use hm_moves::{Seen, Shift, Tick};
use hm_shape::{Phase, Role, Roles, STAGE_AT, Shape, Stage};

// The word that a tick moves.
pub(crate) fn tick_at(shape: Shape, caller: u32, tick: &Tick) -> u64
    requires caller { caller < shape.callers }
    requires of { IsTickOf shape.callers tick.now }
    ensures value { result ≡ tick_word caller tick.now }
    ensures below { result ≤ shape.callers }
{
    match *tick {
        Tick::LoadStage | Tick::MoveStage { .. } => STAGE_AT,
        Tick::LoadReply { of } => shape.reply_at(of),
        Tick::StoreReply { .. } => shape.reply_at(caller),
    }
}

// What the word becomes that a tick moves, where this was found.
pub(crate) fn becomes_ticked(tick: &Tick, found: u64) -> u64
    requires { IsPackable (Ticks tick.now) }
    ensures { result ≡ ticked_word tick.now found }
{
    match *tick {
        Tick::LoadStage | Tick::LoadReply { .. } => found,
        Tick::MoveStage { from, to } => {
            if found == seen_word(from) {
                seen_word(to)
            } else {
                found
            }
        }
        Tick::StoreReply { reply } => reply.pack(),
    }
}

// The word that a step on roles moves.
pub(crate) fn shift_at(shape: Shape, caller: u32, shift: &Shift) -> u64
    requires caller { caller < shape.callers }
    requires of { IsShiftOf shape.callers shift.now }
    ensures value { result ≡ shift_word shape caller shift.now }
    ensures below { result ≤ 2 * shape.callers }
{
    match *shift {
        Shift::LoadRoles { of } => shape.roles_at(of),
        Shift::Join { .. } | Shift::Turn { .. } | Shift::Reuse { .. } => shape.roles_at(caller),
    }
}

// What the word becomes that a step on roles moves, where this was found.
pub(crate) fn becomes_shifted(shift: &Shift, found: u64) -> u64
    ensures { result ≡ shifted_word shift.now found }
{
    match *shift {
        Shift::LoadRoles { .. } => found,
        Shift::Join { roles, .. } | Shift::Turn { roles, .. } | Shift::Reuse { roles } =>
            roles.pack(),
    }
}

// The step on roles that a store of these is, where a caller wrote into this region.
pub(crate) fn shift_of(region: u32, roles: Roles) -> Option<Shift>
    requires { region < 8 }
    ensures { result ≡ shift_by (role_at roles region) roles }
{
    match roles.0[region as usize] {
        Role::Free => None,
        Role::To => Some(Shift::Reuse { roles }),
        Role::Old => Some(Shift::Turn {
            region: first_to(&roles),
            roles,
        }),
        Role::From => Some(Shift::Join {
            region: first_to(&roles),
            roles,
        }),
    }
}

// The first region that is To.
fn first_to(roles: &Roles) -> u32
    ensures { result ≡ first_place roles.now.0 }
{
    for region in 0..8 {
        if roles.0[region as usize] == Role::To {
            return region;
        }
    }
    8
}

// A stage as a caller sees it.
pub(crate) fn seen_of(stage: Stage) -> Seen
    ensures { result ≡ stage_seen stage }
{
    Seen {
        number: stage.number,
        done: stage.done,
        phase: stage.phase,
    }
}

// The word of a stage.
pub(crate) fn seen_word(stage: Seen) -> u64
    requires { stage.done < 2 ^ 30 }
    ensures { result ≡ word_of_seen stage }
{
    u64::from(stage.number) * (1 << 32) + u64::from(stage.done) * 4 + phase_number(stage.phase)
}

// The number of a phase, in the order of a cycle.
fn phase_number(phase: Phase) -> u64
    ensures { result ≡ number_of_phase phase }
{
    match phase {
        Phase::Idle => 0,
        Phase::Join => 1,
        Phase::First => 2,
        Phase::Second => 3,
    }
}
