//! A step is taken, or refused for the first of its conditions that fails.
ghost use Rattle.std.specs.Prelude.{◌≡◌, IfOk, IfErr, OnOk, OnErr};

use crate::machine::Machine;
use crate::step::{Other, Step, StepKind, StepRefused};
use hm_moves::{Known, Move};
use hm_shape::Version;
use std::alloc::AllocError;

impl From<AllocError> for StepRefused {
    ghost use Rattle.std.specs.Prelude.{◌≡◌};
    ghost use Rattle.hm_core.specs.declared.step.StepRefused.TheVariants.{Memory};

    ghost from_gives = { λ _ refused. refused ≡ Memory };

    fn from(_error: AllocError) -> StepRefused {
        StepRefused::Memory
    }
}

impl Machine {
    ghost use Rattle.std.specs.Prelude.{◌<◌, length};
    ghost use Rattle.hm_core.specs.declared.step.StepRefused.TheVariants.{Memory};
    ghost use Rattle.hm_core.specs.Stepping.{seat_of as place_of, HoldsWhatItNeeds, IsAct, IsAwake};
    ghost use Rattle.hm_core.specs.Running.{any_store, any_entry, core_of, own_part, own_view, site_of, IsSound};
    ghost use Rattle.hm_moves.specs.Safe.{Leads};
    ghost use Rattle.hm_core.specs.Giving.{GivesNoneAgain};
    ghost use Rattle.hm_core.specs.Taking.{let_go_of as known_to_go, Becomes, IsAdmitted, IsRefusedFor, Moves, AreFurtherMet, IsFurtherRefusedFor, Takes};

    /// Takes one step, and answers the word that was found: 0 for a StoreOwn, a Publish, a Split, a Meet, a StoreReply, a
    /// StoreRoles and a Shorten.
    pub fn apply(&mut self, s: &Step) -> Result<u64, StepRefused>
        ensures accepted { IfOk result (λ word. Takes self.old s.now word self.new) }
        ensures given { OnOk result (GivesNoneAgain self.old self.new) }
        ensures refused { IfErr result (IsRefusedFor self.old s.now) }
        ensures unchanged { OnErr result (self.new ≡ self.old) }
        ensures leads { Leads any_store any_entry (core_of self.old) (core_of self.new) }
        ensures site { site_of self.new ≡ site_of self.old }
    {
        self.admit(s)?;
        let word = self.carry_out(s)?;
        Ok(word)
    }

    // What an admitted step makes. Without memory nothing changes.
    fn carry_out(&mut self, s: &Step) -> Result<u64, AllocError>
        requires below { s.now.caller < self.old.shape.callers }
        requires admitted { IsAdmitted self.old s.now }
        ensures becomes { IfOk result (λ word.
            Becomes self.old self.new s.now word s.now.kind) }
        ensures site { site_of self.new ≡ site_of self.old }
        ensures unchanged { OnErr result (self.new ≡ self.old) }
    {
        match s.kind {
            StepKind::Split => {
                let let_go = self.let_go_of(s.let_go);
                self.split(s.caller, let_go)?;
                Ok(0)
            }
            StepKind::Meet { other } => {
                let let_go = self.let_go_of(s.let_go);
                let seat = self.seat_of(other);
                self.meet(s.caller, seat, let_go)?;
                Ok(0)
            }
            _ => self.move_word(s),
        }
    }

    // What is known of a version that is let go.
    fn let_go_of(&self, let_go: Option<Version>) -> Option<Known>
        ensures known { result ≡ known_to_go self.now let_go }
        ensures sound { IsSound self.now }
    {
        let _shape = &self.shape;
        match let_go {
            Some(v) => self.known(v),
            None => None,
        }
    }

    // The seat that is met.
    fn seat_of(&self, other: Other) -> usize
        requires { place_of self.now.shape.callers other < length self.now.seats }
        ensures { result ≡ place_of self.now.shape.callers other }
    {
        let _notes = self.notes();
        match other {
            Other::Note(i) => (u64::from(self.callers()) + i) as usize,
            Other::Caller(r) => r as usize,
        }
    }

    // The first condition of a step that fails, if any.
    fn admit(&self, s: &Step) -> Result<(), StepRefused>
        ensures admitted { OnOk result (IsAdmitted self.now s.now) }
        ensures below { OnOk result (s.now.caller < self.now.shape.callers) }
        ensures sound { IsSound self.now }
        ensures refused { IfErr result (IsRefusedFor self.now s.now) }
    {
        let _shape = &self.shape;
        if !self.is_awake(s.caller) || !self.has_seat(s.caller, &s.kind) {
            return Err(StepRefused::Caller);
        }
        if !self.holds_what_it_needs(s.caller, &s.kind) || !self.may_let_go(s.caller, s.let_go) {
            return Err(StepRefused::Held);
        }
        if !self.may_hold_more(s.caller, &s.kind) {
            return Err(StepRefused::Holds);
        }
        if !self.has_place(s.caller, &s.kind) {
            return Err(StepRefused::Place);
        }
        if !self.has_words(s.caller, &s.kind) {
            return Err(StepRefused::Words);
        }
        if !self.fits(s.caller, &s.kind) {
            return Err(StepRefused::Change);
        }
        self.admit_cycle(s.caller, &s.kind)
    }

    // The first of the conditions on the cycle that fails, if any.
    fn admit_cycle(&self, caller: u32, kind: &StepKind) -> Result<(), StepRefused>
        requires caller { caller < self.now.shape.callers }
        requires awake { IsAwake (core_of self.now) caller (own_view self.now caller)
            (own_part self.now caller) }
        requires needs { HoldsWhatItNeeds (own_part self.now caller) kind.now }
        ensures met { OnOk result (AreFurtherMet self.now caller kind.now) }
        ensures refused { IfErr result (IsFurtherRefusedFor self.now caller kind.now) }
    {
        if !self.may_move(caller, kind) {
            return Err(StepRefused::Stage);
        }
        if !self.may_answer(caller, kind) {
            return Err(StepRefused::Reply);
        }
        if !self.may_role(caller, kind) {
            return Err(StepRefused::Roles);
        }
        if !self.is_further(caller, kind) {
            return Err(StepRefused::Later);
        }
        Ok(())
    }

    // An admitted step of one of the kinds that move a word.
    fn move_word(&mut self, s: &Step) -> Result<u64, AllocError>
        requires below { s.now.caller < self.old.shape.callers }
        requires admitted { IsAdmitted self.old s.now }
        requires kind { IsAct s.now.kind }
        ensures moved { IfOk result (λ word. Moves self.old self.new s.now word) }
        ensures site { site_of self.new ≡ site_of self.old }
        ensures unchanged { OnErr result (self.new ≡ self.old) }
    {
        let let_go = self.let_go_of(s.let_go);
        let Some(act) = self.act_of(s.caller, &s.kind) else {
            unreachable!()
        };
        let x = self.take(
            s.caller,
            &Move {
                act,
                scan: s.kind.is_scan(),
                let_go,
            },
        )?;
        Ok(match s.kind {
            StepKind::StoreOwn { .. }
            | StepKind::Publish { .. }
            | StepKind::StoreReply { .. }
            | StepKind::StoreRoles { .. }
            | StepKind::Shorten { .. } => 0,
            _ => x,
        })
    }
}
