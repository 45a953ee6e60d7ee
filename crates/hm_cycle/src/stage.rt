//! What looks at the stage, or moves it on.
ghost use Rattle.std.specs.Prelude.{◌≡◌, ◌+◌, ◌<◌, ◌||◌, false, IfErr, IfOk, IfSome, IsNone, IsTrue, OnOk, ◌↔◌};
ghost use Rattle.hm_moves.specs.Cycles.{is_idle, is_open};
ghost use Rattle.hm_moves.specs.Decoding.{seen_of};
ghost use Rattle.hm_cells.specs.Facts.{Fits, IsCounted, IsNext, IsSound, sight_of};
ghost use Rattle.hm_cycle.specs.Standing.{Keeps, standing_of};
ghost use Rattle.hm_cycle.specs.Cycling.{Advances, Begins, Hears, HearsOf, HearsUpTo, Knows, advanced_moves, begun_moves, is_dirty, is_spent, next_join, onward, stage_seen};

use hm_cells::{Cells, Pass, a_pass_is_sound, load_reply, load_stage, move_stage};
use hm_model::Usage;
use hm_shape::{DONE_END, Phase, ReplyKind, Stage};

/// What a call to begin a cycle did.
#[derive(Clone, Copy, Debug, PartialEq, Eq)]
pub enum Begun {
    /// The stage is a Join now.
    Begun,
    /// Another cycle runs: the word of the stage was this one.
    Running { stage: u64 },
    /// The number of the stage, or its count of cycles done, is the last.
    Spent,
}

/// What a call to move the stage on did.
#[derive(Clone, Copy, Debug, PartialEq, Eq)]
pub enum Moved {
    /// The stage is the next one now.
    Advanced,
    /// This caller, the first such, has not replied to the stage.
    NotYet { caller: u32 },
    /// Another caller has moved the stage on: its word was this one.
    Overtaken { stage: u64 },
    /// The number of the stage is the last.
    Spent,
}

/// Loads the stage, which is then seen.
pub fn see<U: Usage>(cells: &Cells<U>, pass: &mut Pass<U>) -> Stage
    requires cells { Fits pass.old cells.now }
    ensures stage { standing_of pass.new
        ≡ record (standing_of pass.old) { stage = seen_of result } }
    ensures later { IsNext (stage_seen pass.old) (seen_of result) }
    ensures sight { sight_of pass.new ≡ sight_of pass.old }
    ensures keeps { Keeps U.lawful U.allowed pass.old pass.new }
{
    load_stage(cells, pass)
}

/// Loads the stage, and begins a cycle where no cycle runs: an Idle is exchanged for a Join, whose number is one more.
///
/// `Running` has the word of the stage that the load or the exchange found, which is not the Idle to begin from. `Spent`
/// comes where that Idle has the number 4294967295, or the done count 1073741823.
pub fn begin<U: Usage>(cells: &Cells<U>, pass: &mut Pass<U>) -> Begun
    requires cells { Fits pass.old cells.now }
    ensures begins { Begins U.lawful U.allowed pass.old result pass.new }
    ensures stage { standing_of pass.new ≡ record (standing_of pass.old) {
      stage = stage_seen pass.new;
      moves = begun_moves result pass.old.part.cycle.clock.moves;
    } }
    ensures later { IsNext (stage_seen pass.old) (stage_seen pass.new) }
    ensures sight { sight_of pass.new ≡ record (sight_of pass.old) {
      moves = begun_moves result pass.old.part.cycle.clock.moves;
    } }
    ensures keeps { Keeps U.lawful U.allowed pass.old pass.new }
{
    let stage = load_stage(cells, pass);
    if stage.phase != Phase::Idle {
        return Begun::Running {
            stage: stage.pack(),
        };
    }
    let Some(next) = join_after(stage) else {
        return Begun::Spent;
    };
    match move_stage(cells, pass, next) {
        Ok(()) => Begun::Begun,
        Err(stage) => Begun::Running { stage },
    }
}

// The Join that comes after a stage. None where its number or its done count is the last.
fn join_after(stage: Stage) -> Option<Stage>
    ensures spent { IsNone result ↔ IsTrue (is_spent (seen_of stage)) }
    ensures next { IfSome result (λ next. seen_of next ≡ next_join (seen_of stage)) }
    ensures counts { IfSome result (λ next. stage.done + 1 < 1073741824) }
{
    if stage.done == DONE_END - 1 {
        return None;
    }
    let number = stage.number.checked_add(1)?;
    Some(Stage {
        number,
        done: stage.done,
        phase: Phase::Join,
    })
}

/// Moves the stage on that the pass has seen and replied to. It loads the replies of all callers in order of their
/// numbers, and answers `NotYet` at the first that is not to that stage. A Join goes on to a First, a First to a Second,
/// and a Second to an Idle, by which one more cycle is done; where a caller's reply is Dirty, it goes back to a First.
///
/// `Spent` comes where all have replied and the stage has the number 4294967295. `Overtaken` has the word of the stage
/// that the exchange found, where that is another.
pub fn advance<U: Usage>(cells: &Cells<U>, pass: &mut Pass<U>) -> Moved
    requires cells { Fits pass.old cells.now }
    requires running { is_idle (stage_seen pass.old).phase ≡ false }
    requires replied { is_open pass.old.part ≡ false }
    ensures advances { Advances U.lawful U.allowed pass.old result pass.new }
    ensures stage { standing_of pass.new ≡ record (standing_of pass.old) {
      stage = stage_seen pass.new;
      moves = advanced_moves result pass.old.part.cycle.clock.moves;
    } }
    ensures later { IsNext (stage_seen pass.old) (stage_seen pass.new) }
    ensures sight { sight_of pass.new ≡ record (sight_of pass.old) {
      moves = advanced_moves result pass.old.part.cycle.clock.moves;
    } }
    ensures keeps { Keeps U.lawful U.allowed pass.old pass.new }
{
    let stage = pass.stage();
    // All replies are loaded before the exchange: a move is allowed only over replies to this very stage.
    let marked = match hear(cells, pass) {
        Ok(marked) => marked,
        Err(caller) => return Moved::NotYet { caller },
    };
    let Some(number) = stage.number.checked_add(1) else {
        return Moved::Spent;
    };
    match move_stage(cells, pass, stage_after(stage, number, marked)) {
        Ok(()) => Moved::Advanced,
        Err(stage) => Moved::Overtaken { stage },
    }
}

// Whether a reply to the stage that the pass has seen is Dirty, once all callers' are loaded; else the first caller who
// has not replied to it.
fn hear<U: Usage>(cells: &Cells<U>, pass: &mut Pass<U>) -> Result<bool, u32>
    requires cells { Fits pass.old cells.now }
    ensures all { OnOk result (Hears U.lawful U.allowed pass.old
        pass.old.part.site.shape.callers pass.new) }
    ensures known { IfOk result (λ marked.
        Knows pass.new.part pass.old.part.site.shape.callers marked) }
    ensures other { IfErr result (λ caller.
        HearsUpTo U.lawful U.allowed pass.old caller pass.new) }
    ensures same { standing_of pass.new ≡ standing_of pass.old }
    ensures keeps { Keeps U.lawful U.allowed pass.old pass.new }
{
    a_pass_is_sound(pass);
    let mut marked = false;
    for caller in 0..cells.shape().callers {
        let Some(kind) = kind_of(cells, pass, caller) else {
            return Err(caller);
        };
        marked = or_dirty(marked, kind);
    }
    Ok(marked)
}

// Whether one more reply is Dirty, or one before it was.
fn or_dirty(marked: bool, kind: ReplyKind) -> bool
    ensures { result ≡ (marked || is_dirty kind) }
{
    match kind {
        ReplyKind::Dirty => true,
        _ => marked,
    }
}

// The kind of a caller's reply, where that is to the stage that the pass has seen.
fn kind_of<U: Usage>(cells: &Cells<U>, pass: &mut Pass<U>, caller: u32) -> Option<ReplyKind>
    requires cells { Fits pass.old cells.now }
    requires caller { caller < pass.old.part.site.shape.callers }
    ensures hears { HearsOf U.lawful U.allowed pass.old caller result pass.new }
    ensures sound { IsSound U.lawful U.allowed pass.new }
{
    let number = pass.stage().number;
    let reply = load_reply(cells, pass, caller)?;
    if reply.number == number {
        Some(reply.kind)
    } else {
        None
    }
}

// The stage that comes after one by the replies of all callers, of which one is Dirty or none.
fn stage_after(stage: Stage, number: u32, marked: bool) -> Stage
    requires number { number ≡ stage.number + 1 }
    requires counts { IsCounted (seen_of stage) }
    ensures { seen_of result ≡ onward (seen_of stage) marked }
{
    let phase = match stage.phase {
        Phase::Idle => Phase::Join,
        Phase::Join => Phase::First,
        Phase::First => Phase::Second,
        Phase::Second if marked => Phase::First,
        Phase::Second => Phase::Idle,
    };
    let ended = stage.phase == Phase::Second && !marked;
    Stage {
        number,
        done: stage.done + u32::from(ended),
        phase,
    }
}
