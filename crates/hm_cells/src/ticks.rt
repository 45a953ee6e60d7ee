//! The steps of the machine on the stage and on replies: one call a step.
ghost use Rattle.std.specs.Prelude.{◌≡◌, ◌≢◌, ◌<◌, IfErr, false};
ghost use Rattle.hm_shape.specs.Words.{stage_word};
ghost use Rattle.hm_moves.specs.declared.moving.Act.TheVariants.{Ticks};
ghost use Rattle.hm_moves.specs.declared.moving.Tick.TheVariants.{LoadStage, MoveStage, LoadReply, StoreReply};
ghost use Rattle.hm_moves.specs.Allowed.{MayMoveStage};
ghost use Rattle.hm_moves.specs.Decoding.{seen_of, seen_word};
ghost use Rattle.hm_moves.specs.Showing.{word_of_reply};
ghost use Rattle.hm_cells.specs.Facts.{Fits, IsSound};
ghost use Rattle.hm_cells.specs.Calls.{MayReplySo, Takes, replying, stage_found};

use crate::pass::Pass;
use crate::plan::Plan;
use crate::table::Cells;
use hm_model::Usage;
use hm_moves::Seen;
use hm_shape::{Phase, Reply, ReplyKind, STAGE_AT, Stage};
use std::marker::Brand;

// A stage as a caller sees it, and its word.
fn seen(word: u64) -> (Stage, Seen)
    ensures word { stage_word result.0 ≡ word }
    ensures seen { result.1 ≡ seen_of result.0 }
{
    let Some(stage) = Stage::unpack(word) else {
        unreachable!()
    };
    let seen = Seen {
        number: stage.number,
        done: stage.done,
        phase: stage.phase,
    };
    (stage, seen)
}

/// A load of the stage, which is then seen.
pub fn load_stage<U: Usage>(cells: &Cells<U>, pass: &mut Pass<U>) -> Stage
    requires { Fits pass.old cells.now }
    ensures took { Takes U.lawful U.allowed pass.old (Ticks LoadStage) (stage_word result) pass.new }
    ensures sound { IsSound U.lawful U.allowed pass.new }
{
    let word = cells.load::<Brand>(&mut pass.seat, &pass.grip, STAGE_AT, &Plan::LoadStage);
    let (stage, seen) = seen(word);
    pass.own.watch.stage = seen;
    stage
}

/// An exchange of the stage from the one that the caller has seen. Where another is found, `Err` has its word. What was
/// found, or put there, is then seen.
pub fn move_stage<U: Usage>(cells: &Cells<U>, pass: &mut Pass<U>, to: Stage) -> Result<(), u64>
    requires cells { Fits pass.old cells.now }
    requires may { MayMoveStage pass.old.part pass.old.part.cycle.clock.stage (seen_of to) }
    ensures took { Takes U.lawful U.allowed pass.old
        (Ticks (MoveStage pass.old.part.cycle.clock.stage (seen_of to)))
        (stage_found pass.old result) pass.new }
    ensures other { IfErr result (λ word. word ≢ seen_word pass.old.part.cycle.clock.stage) }
    ensures sound { IsSound U.lawful U.allowed pass.new }
{
    let from = pass.stage().pack();
    let plan = Plan::MoveStage { to };
    let next = to.pack();
    let word = cells.exchange::<Brand>(&mut pass.seat, &pass.grip, STAGE_AT, from, next, &plan);
    let moved = word == from;
    pass.own.watch.stage = seen(if moved { next } else { word }).1;
    if moved { Ok(()) } else { Err(word) }
}

/// A load of a caller's reply; None exactly where its word is 0. It is known while no other stage is seen.
pub fn load_reply<U: Usage>(cells: &Cells<U>, pass: &mut Pass<U>, p: u32) -> Option<Reply>
    requires cells { Fits pass.old cells.now }
    requires caller { p < pass.old.part.site.shape.callers }
    ensures took { Takes U.lawful U.allowed pass.old (Ticks (LoadReply p)) (word_of_reply result)
        pass.new }
    ensures sound { IsSound U.lawful U.allowed pass.new }
{
    let at = pass.own.shape.reply_at(p);
    let plan = Plan::LoadReply { of: p };
    let word = cells.load::<Brand>(&mut pass.seat, &pass.grip, at, &plan);
    Reply::unpack(word)
}

/// A store of the caller's own reply to the stage that it has seen. A Clean reply to a First takes its mark away.
pub fn store_reply<U: Usage>(cells: &Cells<U>, pass: &mut Pass<U>, kind: ReplyKind)
    requires cells { Fits pass.old cells.now }
    requires may { MayReplySo pass.old kind }
    ensures took { Takes U.lawful U.allowed pass.old (Ticks (StoreReply (replying pass.old kind)))
        (word_of_reply (Some (replying pass.old kind))) pass.new }
    ensures sound { IsSound U.lawful U.allowed pass.new }
{
    let reply = Reply {
        number: pass.own.watch.stage.number,
        kind,
    };
    let at = pass.own.shape.reply_at(pass.own.number);
    let plan = Plan::StoreReply { kind };
    cells.store::<Brand>(&mut pass.seat, &pass.grip, at, reply.pack(), &plan);
    pass.own.watch.reply = Some(reply);
    if pass.own.watch.stage.phase == Phase::First {
        pass.own.watch.mark = false;
    }
}
