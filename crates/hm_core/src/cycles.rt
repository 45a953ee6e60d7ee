//! The conditions of a step on stage, replies and roles, each tested by a function of its own.
ghost use Rattle.hm_core.specs.Stepping.{IsNext};
ghost use Rattle.std.specs.Prelude.{◌≡◌, ◌+◌, ◌<◌, ◌↔◌, ℕ, Some, None, IsTrue, slice_index_or};

use crate::machine::Machine;
use crate::step::StepKind;
use crate::ticking::seen_of;
use hm_moves::Seen;
use hm_shape::{DONE_END, Phase, Reply, ReplyKind};

impl Machine {
    ghost use Rattle.hm_moves.specs.Allowed.{HasReplied, HaveReplied, MayGo, MayMoveStage};
    ghost use Rattle.hm_moves.specs.Cycles.{has_masks, is_open};
    ghost use Rattle.hm_core.specs.Stepping.{own_reply as reply_by, IsAwake, MayAnswer, MayMove};
    ghost use Rattle.hm_core.specs.declared.step.StepKind.TheVariants.{StoreReply};
    ghost use Rattle.hm_shape.specs.declared.reply.ReplyKind.TheVariants.{Dirty};
    ghost use Rattle.hm_core.specs.Running.{core_of, own_part, own_view};

    // Whether the stage may be moved so.
    pub(crate) fn may_move(&self, caller: u32, kind: &StepKind) -> bool
        requires { caller < self.now.shape.callers }
        ensures { IsTrue result ↔ MayMove (own_part self.now caller) kind.now }
    {
        match *kind {
            StepKind::MoveStage { to } => self.may_move_stage(caller, seen_of(to)),
            _ => true,
        }
    }

    // Whether the caller may move the stage that it has seen to this one.
    fn may_move_stage(&self, caller: u32, to: Seen) -> bool
        requires { caller < self.now.shape.callers }
        ensures { IsTrue result ↔ MayMoveStage (own_part self.now caller)
            (own_part self.now caller).cycle.clock.stage to }
    {
        let from = self.hand(caller).track().stage();
        if !is_next(from, to) {
            return false;
        }
        self.may_go(caller, from.phase, to.phase)
    }

    // Whether the stage goes on from a phase to another, over the replies that the caller loaded.
    fn may_go(&self, caller: u32, from: Phase, to: Phase) -> bool
        requires { caller < self.now.shape.callers }
        ensures { IsTrue result ↔ MayGo (own_part self.now caller) from to }
    {
        match (from, to) {
            (Phase::Idle, Phase::Join) => self.hand(caller).track().stage().done < DONE_END - 1,
            (Phase::Join | Phase::First | Phase::Second, Phase::Join) => true,
            (Phase::Join, Phase::First) => self.have_replied(caller, ReplyKind::Joined),
            (Phase::First, Phase::Second) | (Phase::Second, Phase::Idle) => {
                self.have_replied(caller, ReplyKind::Clean)
            }
            (Phase::Second, Phase::First) => {
                self.have_all_replied(caller) && self.has_dirty(caller)
            }
            _ => false,
        }
    }

    // Whether every caller has replied so, by the replies that this one loaded.
    fn have_replied(&self, caller: u32, kind: ReplyKind) -> bool
        requires { caller < self.now.shape.callers }
        ensures { IsTrue result ↔ HaveReplied (own_part self.now caller) kind }
    {
        for q in 0..self.callers() {
            if !self.has_replied_so(caller, q, kind) {
                return false;
            }
        }
        true
    }

    // Whether a caller has.
    fn has_replied_so(&self, caller: u32, q: u32, kind: ReplyKind) -> bool
        requires { caller < self.now.shape.callers }
        ensures { IsTrue result
            ↔ (slice_index_or (own_part self.now caller).cycle.clock.replies q None
            ≡ Some (reply_by (own_part self.now caller) kind)) }
    {
        match self.hand(caller).track().reply_of(q) {
            Some(reply) => is_same_reply(reply, self.own_reply(caller, kind)),
            None => false,
        }
    }

    // Whether every caller has replied in some way.
    fn have_all_replied(&self, caller: u32) -> bool
        requires { caller < self.now.shape.callers }
        ensures { IsTrue result ↔ ((q : ℕ) → q < self.now.shape.callers
            → HasReplied (own_part self.now caller) q) }
    {
        for q in 0..self.callers() {
            if !self.has_replied(caller, q) {
                return false;
            }
        }
        true
    }

    // Whether a caller has.
    fn has_replied(&self, caller: u32, q: u32) -> bool
        requires { caller < self.now.shape.callers }
        ensures { IsTrue result ↔ HasReplied (own_part self.now caller) q }
    {
        match self.hand(caller).track().reply_of(q) {
            Some(reply) => reply.number == self.hand(caller).track().stage().number,
            None => false,
        }
    }

    // Whether one of them is marked.
    fn has_dirty(&self, caller: u32) -> bool
        requires { caller < self.now.shape.callers }
        ensures { IsTrue result ↔ ((q : ℕ) × (q < self.now.shape.callers)
            × (slice_index_or (own_part self.now caller).cycle.clock.replies q None
            ≡ Some (reply_by (own_part self.now caller) Dirty))) }
    {
        for q in 0..self.callers() {
            if self.has_replied_so(caller, q, ReplyKind::Dirty) {
                return true;
            }
        }
        false
    }

    // Whether the caller may reply so to the stage that it has seen.
    pub(crate) fn may_answer(&self, caller: u32, kind: &StepKind) -> bool
        requires caller { caller < self.now.shape.callers }
        requires awake { IsAwake (core_of self.now) caller (own_view self.now caller)
            (own_part self.now caller) }
        ensures { IsTrue result ↔ MayAnswer (core_of self.now) (own_part self.now caller) kind.now }
    {
        match *kind {
            StepKind::StoreReply { kind } => self.may_reply(caller, kind),
            _ => true,
        }
    }

    // Whether it has not replied to it, and may do so in this way.
    fn may_reply(&self, caller: u32, kind: ReplyKind) -> bool
        requires caller { caller < self.now.shape.callers }
        requires awake { IsAwake (core_of self.now) caller (own_view self.now caller)
            (own_part self.now caller) }
        ensures { IsTrue result ↔ MayAnswer (core_of self.now) (own_part self.now caller)
            (StoreReply kind) }
    {
        let track = self.hand(caller).track();
        if !track.is_open() {
            return false;
        }
        match (track.stage().phase, kind) {
            (Phase::Join, ReplyKind::Joined) => track.join() == Some(track.stage().number),
            (Phase::First, ReplyKind::Clean) => track.has_masks() && self.holds_clean(caller),
            (Phase::Second, ReplyKind::Clean) => !track.is_marked(),
            (Phase::Second, ReplyKind::Dirty) => track.is_marked(),
            _ => false,
        }
    }
}

// Whether the number of a stage and its count of cycles are those of the next one.
fn is_next(from: Seen, to: Seen) -> bool
    ensures { IsTrue result ↔ IsNext from to }
{
    let ended = if to.phase == Phase::Idle { 1 } else { 0 };
    u64::from(to.number) == u64::from(from.number) + 1
        && to.done < DONE_END
        && u64::from(to.done) == u64::from(from.done) + ended
}

// Whether two replies are the same.
fn is_same_reply(a: Reply, b: Reply) -> bool
    ensures { IsTrue result ↔ (a ≡ b) }
{
    a == b
}
