//! Tending: one act of the collector's cycle, by the stage that the caller sees.
//!
//! The first of these that applies is done:
//!
//! | What the caller finds | What it does | What it answers |
//! |---|---|---|
//! | it has given up regions in a cycle that is done by now | frees them | `Freed` |
//! | Idle, and it has room for a region of versions | nothing | `Nothing` |
//! | Idle, and it has less | begins a cycle | `Advanced`, `Overtaken` or `Spent` |
//! | a Join that it has not replied to, and it has not joined | joins | `Joined` |
//! | such a Join, and it has joined before | nothing | `NoRoom` |
//! | a First that it has not replied to, and no clean scan in it, or from-space met since | scans | `Scanned` or `NoRoom` |
//! | a First or a Second that it has not replied to | replies | `Replied` |
//! | a stage that it has replied to | moves the stage on | `Advanced`, `Waits`, `Overtaken` or `Spent` |

ghost use Rattle.std.specs.Prelude.{◌≡◌, ◌<◌, not};
ghost use Rattle.hm_moves.specs.Cycles.{is_open};
ghost use Rattle.hm_cells.specs.Facts.{Fits};
ghost use Rattle.hm_ops.specs.Resting.{IsResting, Keeps};
ghost use Rattle.hm_cycle.specs.Cycling.{stage_seen};
ghost use Rattle.hm_heap.specs.Tending.{is_scanned};
ghost use Rattle.hm_heap.specs.Acting.{Acts, GoesOn, Sees, Tends, act_of};
ghost use Rattle.hm_heap.specs.declared.tending.Act.TheVariants as act;

use hm_cells::{Cells, Pass, a_pass_is_sound};
use hm_cycle::{Begun, Moved, advance, begin, join, reply, reuse, see};
use hm_model::{Tended, Usage};
use hm_scan::{Scanned, scan};
use hm_shape::Phase;

/// What a caller does when it tends.
#[derive(Clone, Copy)]
pub(crate) enum Act {
    Reuse,
    Rest,
    Begin,
    Join,
    Lack,
    Scan,
    Reply,
    Advance,
}

/// Tends once.
pub(crate) fn tend<U: Usage>(cells: &Cells<U>, pass: &mut Pass<U>) -> Tended
    requires rests { IsResting pass.old cells.now }
    ensures tends { Tends U.lawful U.allowed pass.old result pass.new }
    ensures goes { GoesOn U.lawful U.allowed cells.now pass.old result pass.new }
{
    look(cells, pass);
    let act = next_act(cells, pass);
    do_act(cells, pass, act)
}

// Loads the stage.
fn look<U: Usage>(cells: &Cells<U>, pass: &mut Pass<U>)
    requires rests { IsResting pass.old cells.now }
    ensures sees { Sees pass.old pass.new }
    ensures low { (stage_seen pass.new).number < 4294967296 }
    ensures keeps { Keeps U.lawful U.allowed pass.new cells.now }
{
    see(cells, pass);
}

// Does what is to be done in the stage that the caller has seen.
fn do_act<U: Usage>(cells: &Cells<U>, pass: &mut Pass<U>, act: Act) -> Tended
    requires keeps { Keeps U.lawful U.allowed pass.old cells.now }
    requires low { (stage_seen pass.old).number < 4294967296 }
    requires act { act ≡ act_of pass.old }
    ensures acts { Acts U.lawful U.allowed act pass.old result pass.new }
    ensures goes { GoesOn U.lawful U.allowed cells.now pass.old result pass.new }
{
    match act {
        Act::Reuse => free(cells, pass),
        Act::Rest => Tended::Nothing,
        Act::Begin => start(cells, pass),
        Act::Join => give_up(cells, pass),
        Act::Lack => Tended::NoRoom,
        Act::Scan => look_through(cells, pass),
        Act::Reply => answer(cells, pass),
        Act::Advance => move_on(cells, pass),
    }
}

// What is to be done in the stage that the caller has seen.
fn next_act<U: Usage>(cells: &Cells<U>, pass: &Pass<U>) -> Act
    requires { Fits pass.now cells.now }
    ensures { result ≡ act_of pass.now }
{
    let stage = pass.stage();
    if pass.joined() && pass.joined_at() < stage.done {
        return Act::Reuse;
    }
    if stage.phase != Phase::Idle && has_replied(pass) {
        return Act::Advance;
    }
    match stage.phase {
        Phase::Idle if u64::from(cells.shape().versions) <= pass.room() => Act::Rest,
        Phase::Idle => Act::Begin,
        Phase::Join if pass.joined() => Act::Lack,
        Phase::Join => Act::Join,
        Phase::First if !is_clean(pass) => Act::Scan,
        Phase::First | Phase::Second => Act::Reply,
    }
}

// Whether the caller has replied to the stage that it has seen.
fn has_replied<U: Usage>(pass: &Pass<U>) -> bool
    ensures { result ≡ not (is_open pass.now.part) }
{
    match pass.replied() {
        Some(reply) => reply.number >= pass.stage().number,
        None => false,
    }
}

// Whether a scan ended clean in the First that the caller has seen, and it has met no from-space since.
fn is_clean<U: Usage>(pass: &Pass<U>) -> bool
    ensures { result ≡ is_scanned pass.now }
{
    match pass.scanned() {
        Some(number) => number == pass.stage().number && !pass.marked(),
        None => false,
    }
}

// Frees what the caller gave up in a cycle that is done.
fn free<U: Usage>(cells: &Cells<U>, pass: &mut Pass<U>) -> Tended
    requires keeps { Keeps U.lawful U.allowed pass.old cells.now }
    requires low { (stage_seen pass.old).number < 4294967296 }
    requires act { act.Reuse ≡ act_of pass.old }
    ensures acts { Acts U.lawful U.allowed act.Reuse pass.old result pass.new }
    ensures goes { GoesOn U.lawful U.allowed cells.now pass.old result pass.new }
{
    let versions = reuse(cells, pass);
    Tended::Freed { versions }
}

// Begins a cycle.
fn start<U: Usage>(cells: &Cells<U>, pass: &mut Pass<U>) -> Tended
    requires keeps { Keeps U.lawful U.allowed pass.old cells.now }
    requires low { (stage_seen pass.old).number < 4294967296 }
    requires act { act.Begin ≡ act_of pass.old }
    ensures acts { Acts U.lawful U.allowed act.Begin pass.old result pass.new }
    ensures goes { GoesOn U.lawful U.allowed cells.now pass.old result pass.new }
{
    match begin(cells, pass) {
        Begun::Begun => Tended::Advanced,
        Begun::Running { stage } => Tended::Overtaken { stage },
        Begun::Spent => Tended::Spent,
    }
}

// Joins the cycle that was begun.
fn give_up<U: Usage>(cells: &Cells<U>, pass: &mut Pass<U>) -> Tended
    requires keeps { Keeps U.lawful U.allowed pass.old cells.now }
    requires low { (stage_seen pass.old).number < 4294967296 }
    requires act { act.Join ≡ act_of pass.old }
    ensures acts { Acts U.lawful U.allowed act.Join pass.old result pass.new }
    ensures goes { GoesOn U.lawful U.allowed cells.now pass.old result pass.new }
{
    a_pass_is_sound(pass);
    join(cells, pass);
    Tended::Joined
}

// Scans all that the caller has.
fn look_through<U: Usage>(cells: &Cells<U>, pass: &mut Pass<U>) -> Tended
    requires keeps { Keeps U.lawful U.allowed pass.old cells.now }
    requires low { (stage_seen pass.old).number < 4294967296 }
    requires act { act.Scan ≡ act_of pass.old }
    ensures acts { Acts U.lawful U.allowed act.Scan pass.old result pass.new }
    ensures goes { GoesOn U.lawful U.allowed cells.now pass.old result pass.new }
{
    match scan(cells, pass) {
        Scanned::Clean { copied } => Tended::Scanned { copied },
        Scanned::NoRoom => Tended::NoRoom,
    }
}

// Tells the others whether the caller is clean.
fn answer<U: Usage>(cells: &Cells<U>, pass: &mut Pass<U>) -> Tended
    requires keeps { Keeps U.lawful U.allowed pass.old cells.now }
    requires low { (stage_seen pass.old).number < 4294967296 }
    requires act { act.Reply ≡ act_of pass.old }
    ensures acts { Acts U.lawful U.allowed act.Reply pass.old result pass.new }
    ensures goes { GoesOn U.lawful U.allowed cells.now pass.old result pass.new }
{
    let clean = reply(cells, pass);
    Tended::Replied { clean }
}

// Moves the stage on, where all callers have replied to it.
fn move_on<U: Usage>(cells: &Cells<U>, pass: &mut Pass<U>) -> Tended
    requires keeps { Keeps U.lawful U.allowed pass.old cells.now }
    requires low { (stage_seen pass.old).number < 4294967296 }
    requires act { act.Advance ≡ act_of pass.old }
    ensures acts { Acts U.lawful U.allowed act.Advance pass.old result pass.new }
    ensures goes { GoesOn U.lawful U.allowed cells.now pass.old result pass.new }
{
    match advance(cells, pass) {
        Moved::Advanced => Tended::Advanced,
        Moved::NotYet { caller } => Tended::Waits { caller },
        Moved::Overtaken { stage } => Tended::Overtaken { stage },
        Moved::Spent => Tended::Spent,
    }
}
