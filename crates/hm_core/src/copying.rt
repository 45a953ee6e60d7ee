//! Whether a caller may copy a version out of from-space, and shorten what an own version names.
ghost use Rattle.std.specs.Prelude.{◌≡◌, ◌<◌, ◌↔◌, true, IsTrue, length, slice_index};
ghost use Rattle.hm_moves.specs.After.{is_naming};

use crate::machine::Machine;
use crate::names::{FIELDS, field_word, names_a_version};
use crate::step::StepKind;
use hm_moves::Known;
use hm_shape::Version;

impl Machine {
    ghost use Rattle.hm_shape.specs.Words.{word_at};
    ghost use Rattle.hm_moves.specs.Allowed.{HoldsClean};
    ghost use Rattle.hm_moves.specs.Chain.{lookup};
    ghost use Rattle.hm_moves.specs.Cycles.{meets};
    ghost use Rattle.hm_core.specs.Hands.{HasVersion};
    ghost use Rattle.hm_core.specs.Stepping.{HoldsWhatItNeeds, IsAwake, IsFurther, IsHeld};
    ghost use Rattle.hm_core.specs.Running.{core_of, index_of, own_part, own_view, NamesClean};
    ghost use Rattle.hm_core.specs.declared.step.StepKind.TheVariants.{Shorten};

    // Whether what is copied is of from-space, and what is shortened names something later.
    pub(crate) fn is_further(&self, caller: u32, kind: &StepKind) -> bool
        requires caller { caller < self.now.shape.callers }
        requires awake { IsAwake (core_of self.now) caller (own_view self.now caller)
            (own_part self.now caller) }
        requires needs { HoldsWhatItNeeds (own_part self.now caller) kind.now }
        ensures { IsTrue result ↔ IsFurther (core_of self.now) (own_part self.now caller) kind.now }
    {
        match *kind {
            StepKind::LinkCopy { v } => self.hand(caller).knows_from(self.shape, v),
            StepKind::Shorten { v, i, u } => self.shortens(caller, v, i, u),
            _ => true,
        }
    }

    // Whether a word of an own version may name a held one from now on: a later one of the same object, that is not
    // of from-space.
    fn shortens(&self, caller: u32, v: Version, i: u32, u: Version) -> bool
        requires caller { caller < self.now.shape.callers }
        requires awake { IsAwake (core_of self.now) caller (own_view self.now caller)
            (own_part self.now caller) }
        requires held { IsHeld (own_part self.now caller) u }
        ensures { IsTrue result
            ↔ IsFurther (core_of self.now) (own_part self.now caller) (Shorten v i u) }
    {
        let hand = self.hand(caller);
        if !names_a_version(i) || !hand.owns(v) || hand.knows_from(self.shape, u) {
            return false;
        }
        match (self.known(u), self.named_by(caller, v, i)) {
            (Some(target), Some(was)) => target.name == was.name && was.rank < target.rank,
            _ => false,
        }
    }

    // The version that a word of an own version names.
    fn named_by(&self, caller: u32, v: Version, i: u32) -> Option<Known>
        requires caller { caller < self.now.shape.callers }
        requires awake { IsAwake (core_of self.now) caller (own_view self.now caller)
            (own_part self.now caller) }
        requires own { HasVersion (own_part self.now caller).hands.own v }
        requires word { is_naming i ≡ true }
        ensures { result ≡ lookup (index_of self.now.known)
            (slice_index self.now.words (word_at self.now.shape v i)) }
    {
        self.named(self.words[v.word_of(self.shape, i) as usize])
    }

    // Whether the caller holds nothing that it knows as from-space, and its own versions name nothing such.
    pub(crate) fn holds_clean(&self, caller: u32) -> bool
        requires caller { caller < self.now.shape.callers }
        requires awake { IsAwake (core_of self.now) caller (own_view self.now caller)
            (own_part self.now caller) }
        ensures { IsTrue result ↔ HoldsClean self.now.words (own_part self.now caller) }
    {
        if self.hand(caller).holds_from(self.shape) {
            return false;
        }
        for i in 0..self.hand(caller).own().len() {
            if !self.names_clean(caller, i) {
                return false;
            }
        }
        true
    }

    // Whether the i-th of its own versions names nothing such.
    fn names_clean(&self, caller: u32, i: usize) -> bool
        requires caller { caller < self.now.shape.callers }
        requires awake { IsAwake (core_of self.now) caller (own_view self.now caller)
            (own_part self.now caller) }
        requires own { i < length (own_part self.now caller).hands.own }
        ensures { IsTrue result ↔ NamesClean self.now (own_part self.now caller) i }
    {
        let v = self.hand(caller).own()[i].version;
        for field in 0..FIELDS {
            if self.names_from(caller, v, field_word(field)) {
                return false;
            }
        }
        true
    }

    // Whether a word of an own version names one that the caller knows as from-space.
    fn names_from(&self, caller: u32, v: Version, i: u32) -> bool
        requires caller { caller < self.now.shape.callers }
        requires awake { IsAwake (core_of self.now) caller (own_view self.now caller)
            (own_part self.now caller) }
        requires own { HasVersion (own_part self.now caller).hands.own v }
        requires word { is_naming i ≡ true }
        ensures { result ≡ meets (own_part self.now caller) (lookup (index_of self.now.known)
            (slice_index self.now.words (word_at self.now.shape v i))) }
    {
        match self.named_by(caller, v, i) {
            Some(known) => self.hand(caller).knows_from(self.shape, known.version),
            None => false,
        }
    }
}
