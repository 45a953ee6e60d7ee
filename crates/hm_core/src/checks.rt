//! The conditions of a step that ask no entry, each tested by a function of its own.
ghost use Rattle.std.specs.Prelude.{◌≡◌, ◌<◌, ◌↔◌, true, IsTrue, IfSome};
ghost use Rattle.hm_core.specs.declared.step.Other.TheVariants.{Note};

use crate::machine::Machine;
use crate::names::names_a_version;
use crate::step::{Other, StepKind};
use hm_shape::{VERSION_WORDS, Version};

impl Machine {
    ghost use Rattle.hm_moves.specs.After.{is_naming};
    ghost use Rattle.hm_moves.specs.Allowed.{Names};
    ghost use Rattle.hm_moves.specs.Allowed.{AreWrittenFrom};
    ghost use Rattle.hm_core.specs.Stepping.{IsAwake, IsAlone, MayMeet, HasSeat, IsHeld, HoldsWhatItNeeds, MayHoldMore, HasPlace, HasWords};
    ghost use Rattle.hm_core.specs.Running.{core_of, own_part, own_view};

    // Whether a caller takes steps: it is there, and its seat was not joined with another.
    pub(crate) fn is_awake(&self, caller: u32) -> bool
        ensures awake { IsTrue result ↔ IsAwake (core_of self.now) caller
            (own_view self.now caller) (own_part self.now caller) }
        ensures below { IsTrue result → caller < self.now.shape.callers }
    {
        match self.seat(caller as usize) {
            Some(seat) => seat.is_of(caller),
            None => false,
        }
    }

    // Whether the seat that a step meets may be met.
    pub(crate) fn has_seat(&self, caller: u32, kind: &StepKind) -> bool
        requires { caller < self.now.shape.callers }
        ensures { IsTrue result
            ↔ HasSeat (core_of self.now) self.now.shape.callers caller kind.now }
    {
        match *kind {
            StepKind::Meet {
                other: Other::Note(i),
            } => self.is_live_note(i),
            StepKind::Meet {
                other: Other::Caller(r),
            } => r != caller && self.is_alone(r),
            StepKind::LoadReply { p } | StepKind::LoadRoles { p } => p < self.callers(),
            _ => true,
        }
    }

    // Whether there is such a note, and it is not spent.
    fn is_live_note(&self, i: u64) -> bool
        ensures { IsTrue result ↔ MayMeet (core_of self.now) self.now.shape.callers 0 (Note i) }
    {
        if i >= self.notes() {
            return false;
        }
        match self.seat((u64::from(self.callers()) + i) as usize) {
            Some(seat) => seat.seen() > 0,
            None => false,
        }
    }

    // Whether there is such a caller, and its seat carries it alone.
    fn is_alone(&self, caller: u32) -> bool
        ensures { IsTrue result ↔ ((caller < self.now.shape.callers)
            × IsAlone (core_of self.now) caller) }
    {
        match self.seat(caller as usize) {
            Some(seat) => seat.is_of(caller) && seat.parts().len() == 1,
            None => false,
        }
    }

    // Whether a version that is let go is held.
    pub(crate) fn may_let_go(&self, caller: u32, let_go: Option<Version>) -> bool
        requires { caller < self.now.shape.callers }
        ensures { IsTrue result ↔ IfSome let_go (IsHeld (own_part self.now caller)) }
    {
        match let_go {
            Some(v) => self.holds(caller, v),
            None => true,
        }
    }

    // Whether a word may be stored: it is 0 or names a held version, where it is to name one.
    fn is_named(&self, caller: u32, i: u32, word: u64) -> bool
        requires { caller < self.now.shape.callers }
        ensures { IsTrue result ↔ (is_naming i ≡ true
            → Names (own_part self.now caller).hands.held word) }
    {
        !names_a_version(i) || self.hand(caller).names(word)
    }

    // Whether what a kind needs held is held, or may be looked into.
    pub(crate) fn holds_what_it_needs(&self, caller: u32, kind: &StepKind) -> bool
        requires { caller < self.now.shape.callers }
        ensures { IsTrue result ↔ HoldsWhatItNeeds (own_part self.now caller) kind.now }
    {
        match *kind {
            StepKind::LoadField { v, .. }
            | StepKind::LoadLink { v, .. }
            | StepKind::LinkStore { v, .. }
            | StepKind::LinkCopy { v } => self.may_look_into(caller, v),
            StepKind::StoreOwn { i, word } => self.is_named(caller, i, word),
            StepKind::Shorten { u, .. } => self.holds(caller, u),
            _ => true,
        }
    }

    // Whether the caller may hold one version more, where a kind may find or publish one.
    pub(crate) fn may_hold_more(&self, caller: u32, kind: &StepKind) -> bool
        requires { caller < self.now.shape.callers }
        ensures { IsTrue result ↔ MayHoldMore (own_part self.now caller) kind.now }
    {
        match *kind {
            StepKind::LoadField { .. }
            | StepKind::LoadLink { .. }
            | StepKind::Publish { .. }
            | StepKind::LinkStore { .. }
            | StepKind::LinkCopy { .. } => self.has_hand(caller),
            _ => true,
        }
    }

    // Whether a place is left where a kind needs one, and the word is one of the kind's.
    pub(crate) fn has_place(&self, caller: u32, kind: &StepKind) -> bool
        requires { caller < self.now.shape.callers }
        ensures { IsTrue result ↔ HasPlace (own_part self.now caller) kind.now }
    {
        match *kind {
            StepKind::LoadField { i, .. } => 0 < i && i < VERSION_WORDS,
            StepKind::StoreOwn { i, .. } => self.has_room(caller) && i < VERSION_WORDS,
            StepKind::Publish { .. } | StepKind::LinkStore { .. } | StepKind::LinkCopy { .. } => {
                self.has_room(caller)
            }
            _ => true,
        }
    }

    // Whether the words of the caller's next version are written, from one on.
    fn are_written_from(&self, caller: u32, first: u32) -> bool
        requires { caller < self.now.shape.callers }
        ensures { IsTrue result ↔ AreWrittenFrom (own_part self.now caller) first }
    {
        for j in first..VERSION_WORDS {
            if self.written(caller, j).is_none() {
                return false;
            }
        }
        true
    }

    // Whether the words are written that a kind publishes.
    pub(crate) fn has_words(&self, caller: u32, kind: &StepKind) -> bool
        requires { caller < self.now.shape.callers }
        ensures { IsTrue result ↔ HasWords (own_part self.now caller) kind.now }
    {
        match *kind {
            StepKind::Publish { .. } => self.are_written_from(caller, 1),
            StepKind::LinkStore { .. } | StepKind::LinkCopy { .. } => {
                self.are_written_from(caller, 0)
            }
            _ => true,
        }
    }
}
