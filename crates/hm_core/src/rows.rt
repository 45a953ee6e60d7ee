//! What is counted of rows, and known of their versions, once a caller frees rows, and once a cycle ends.
ghost use Rattle.std.specs.Prelude.{◌≡◌, ℕ, ◌+◌, ◌-◌, ◌*◌, ◌/◌, ◌<◌, ◌^◌, ◌&&◌, None, length, if◌then◌else◌};
ghost use Rattle.hm_moves.specs.After.{is_row_of};
ghost use Rattle.hm_moves.specs.Cycles.{is_from as role_is_from, role_at};
ghost use Rattle.hm_moves.specs.Places.{row_count};
ghost use Rattle.hm_core.specs.Rows.{AreDead, AreForgotten, AreFreed, ends_by, frees_by, is_ended, is_freed_by, row_dead_if, row_freed_if};
ghost use Rattle.hm_core.specs.Running.{role_in, row_at};
ghost use Rattle.hm_core.specs.Stepping.{IsPackable};

use crate::hand::Hand;
use crate::machine::Row;
use crate::ticking::seen_word;
use hm_moves::{Act, Known, Shift, Tick};
use hm_shape::{Phase, Role, Roles, Shape};

// The rows of a caller that its act frees.
pub(crate) fn free(rows: &mut Vec<Row>, shape: Shape, caller: u32, hand: &Hand, act: &Act)
    requires caller { caller < shape.callers }
    requires rows { length rows.old.items ≡ row_count shape }
    requires freed { (row : ℕ) → (row_at rows.old.items row).freed + 1 < 2 ^ 32 }
    ensures freed { AreFreed (is_freed_by shape caller hand.now act.now)
        rows.old.items rows.new.items }
    ensures long { length rows.new.items ≡ length rows.old.items }
{
    if frees(hand, act) {
        free_rows(rows, shape, caller, &hand.track().roles());
    }
}

// Whether an act frees rows: a join or a reuse, where its caller has seen more cycles done than when it joined.
fn frees(hand: &Hand, act: &Act) -> bool
    ensures { result ≡ frees_by hand.now act.now }
{
    let track = hand.track();
    match *act {
        Act::Shifts(Shift::Join { .. } | Shift::Reuse { .. }) => {
            track.done() < track.stage().done
        }
        Act::Looks(_)
        | Act::Builds(_)
        | Act::Ticks(_)
        | Act::Shifts(Shift::LoadRoles { .. } | Shift::Turn { .. }) => false,
    }
}

// The rows of a caller that are From are freed.
fn free_rows(rows: &mut Vec<Row>, shape: Shape, caller: u32, roles: &Roles)
    requires caller { caller < shape.callers }
    requires rows { length rows.old.items ≡ row_count shape }
    requires freed { (row : ℕ) → (row_at rows.old.items row).freed + 1 < 2 ^ 32 }
    ensures freed { AreFreed (λ row. is_row_of shape caller row
        && role_is_from (role_at roles.now (row - caller * shape.regions)))
        rows.old.items rows.new.items }
    ensures long { length rows.new.items ≡ length rows.old.items }
{
    let first = caller * shape.regions;
    for region in 0..shape.regions {
        let at = (first + region) as usize;
        rows[at] = freed_if(is_from(roles, region), rows[at]);
    }
}

// Whether a cycle ends by an act that found a word.
pub(crate) fn ends_cycle(act: &Act, found: u64) -> bool
    requires { IsPackable act.now }
    ensures { result ≡ ends_by act.now found }
{
    match *act {
        Act::Ticks(Tick::MoveStage { from, to }) => {
            found == seen_word(from) && to.phase == Phase::Idle
        }
        _ => false,
    }
}

// At the end of a cycle the rows that are From are dead, and nothing is known of their versions.
pub(crate) fn end(
    rows: &mut Vec<Row>,
    known: &mut Vec<Option<Known>>,
    shape: Shape,
    hands: &[Hand],
    ends: bool,
)
    requires hands { length hands.now ≡ shape.callers }
    requires rows { length rows.old.items ≡ row_count shape }
    ensures dead { AreDead (is_ended ends shape hands.now) rows.old.items rows.new.items }
    ensures rows_long { length rows.new.items ≡ length rows.old.items }
    ensures forgotten { AreForgotten shape (is_ended ends shape hands.now)
        known.old.items known.new.items }
    ensures known_long { length known.new.items ≡ length known.old.items }
{
    if ends {
        end_rows(rows, shape, hands);
        forget(known, shape, hands);
    }
}

// Rows that are From are dead.
fn end_rows(rows: &mut Vec<Row>, shape: Shape, hands: &[Hand])
    requires hands { length hands.now ≡ shape.callers }
    requires rows { length rows.old.items ≡ row_count shape }
    ensures dead { AreDead (λ row. role_is_from (role_in shape hands.now row))
        rows.old.items rows.new.items }
    ensures long { length rows.new.items ≡ length rows.old.items }
{
    for row in 0..shape.callers * shape.regions {
        let roles = hands[(row / shape.regions) as usize].track().roles();
        let at = row as usize;
        rows[at] = dead_if(is_from(&roles, row % shape.regions), rows[at]);
    }
}

// What is known of their versions is forgotten.
fn forget(known: &mut Vec<Option<Known>>, shape: Shape, hands: &[Hand])
    ensures forgotten { AreForgotten shape (λ row. role_is_from (role_in shape hands.now row))
        known.old.items known.new.items }
    ensures long { length known.new.items ≡ length known.old.items }
{
    for v in 0..known.len() {
        known[v] = unless_from(shape, hands, v as u64, known[v]);
    }
}

// What is known of the version of a number, unless its row is From.
fn unless_from(shape: Shape, hands: &[Hand], v: u64, known: Option<Known>) -> Option<Known>
    ensures { result ≡ (if role_is_from (role_in shape hands.now (v / shape.versions)) then None
        else known) }
{
    if row_is_from(shape, hands, v / u64::from(shape.versions)) {
        None
    } else {
        known
    }
}

// Whether a row is From.
fn row_is_from(shape: Shape, hands: &[Hand], row: u64) -> bool
    ensures { result ≡ role_is_from (role_in shape hands.now row) }
{
    let region = row % u64::from(shape.regions);
    match hands.get((row / u64::from(shape.regions)) as usize) {
        Some(hand) => hand.track().roles().0[region as usize] == Role::From,
        None => false,
    }
}

// A row that is dead from now on, or as it was.
fn dead_if(dies: bool, row: Row) -> Row
    ensures { result ≡ row_dead_if dies row }
{
    Row {
        dead: row.dead || dies,
        ..row
    }
}

// Whether a region is From.
fn is_from(roles: &Roles, region: u32) -> bool
    requires { region < 8 }
    ensures { result ≡ role_is_from (role_at roles.now region) }
{
    roles.0[region as usize] == Role::From
}

// A row that is freed, or is not.
fn freed_if(frees: bool, row: Row) -> Row
    requires { row.freed + 1 < 2 ^ 32 }
    ensures { result ≡ row_freed_if frees row }
{
    if frees {
        Row {
            used: 0,
            freed: row.freed + 1,
            dead: false,
            ..row
        }
    } else {
        row
    }
}
