//! Passes, and the calls on them that take no step.
ghost use Rattle.std.specs.Prelude.{◌≡◌, ◌+◌, ◌<◌, ◌↔◌, Some, None, IsTrue, IsSome, IfSome, Contains, slice_get, slice_index_or};
ghost use Rattle.std.specs.Option.{option_map};
ghost use Rattle.hm_cells.specs.Facts.{IsSound};

use crate::grip::Grip;
use crate::knowledge::Knowledge;
use crate::own::Own;
use atomic_table::Seat;
use hm_model::{Root, Usage};
use hm_shape::{Reply, Roles, Stage, Version};
use std::marker::Model;

/// One caller of a heap: its seat, its 256 root places, and what it knows of its regions and of the cycle.
///
/// Contracts see of it which cells it was made with, the history that it has seen, what the machine keeps of
/// its caller, the versions at its root places and in its hand, and which scan of it ended clean. A version that a
/// call answers, or that the word it answers names, is in hand until it is released. Each step lets go of the first
/// held version that neither a root place nor the hand names.
#[derive(Drop)]
pub struct Pass<U: Usage> {
    pub(crate) seat: Seat<(), Knowledge<U>>,
    pub(crate) grip: Grip<U>,
    pub(crate) own: Own,
}

impl<U: Usage> Model for Pass<U> {
    ghost use Rattle.hm_cells.specs.Facts.{Facts};

    ghost Value = { Facts U };

    ghost use Rattle.hm_cells.specs.Shows.{facts_of, IsSeated};

    ghost view = { λ p. facts_of p.seat p.grip };

    ghost invariant = { λ p.
        IsSeated U.lawful U.allowed p.seat (facts_of p.seat p.grip) p.own };
}

impl<U: Usage> Pass<U> {
    ghost use Rattle.hm_model.specs.Sight.{root_of, SetsRoot, Rests};
    ghost use Rattle.hm_moves.specs.Acts.{next_version};
    ghost use Rattle.hm_moves.specs.Allowed.{HasRoom};
    ghost use Rattle.hm_moves.specs.Cycles.{has_masks, known_from};
    ghost use Rattle.hm_moves.specs.Decoding.{seen_of};
    ghost use Rattle.hm_shape.specs.Versions.{IsVersionOf};
    ghost use Rattle.hm_cells.specs.Facts.{sight_of, place_name, with_root, with_hand, without_first, IsHeldAt, MayEnd};

    /// The caller's number.
    pub fn number(&self) -> u32
        ensures { result ≡ (sight_of self.now).number }
    {
        self.own.number
    }

    /// How many places are used of the caller's To region.
    pub fn used(&self) -> u32
        ensures { result ≡ (sight_of self.now).used }
    {
        self.own.used
    }

    /// How many of the caller's regions are Free.
    pub fn free(&self) -> u32
        ensures { result ≡ (sight_of self.now).free }
    {
        self.own.free()
    }

    /// How many versions the caller may still publish: in the places that are left of its To region, and in its Free
    /// regions but one, and but another one where it has not joined a cycle.
    pub fn room(&self) -> u64
        ensures room { result ≡ (sight_of self.now).room }
        ensures sound { IsSound U.lawful U.allowed self.now }
    {
        let versions = u64::from(self.own.shape.versions);
        let left = versions - u64::from(self.own.used);
        left + versions * u64::from(self.own.spare())
    }

    /// Whether the caller has joined a cycle, and freed nothing since.
    pub fn joined(&self) -> bool
        ensures { result ≡ self.now.part.cycle.ties.joined }
    {
        self.own.watch.joined
    }

    /// Whether it has met from-space outside of its scan, since that began.
    pub fn marked(&self) -> bool
        ensures { result ≡ self.now.part.cycle.scan.mark }
    {
        self.own.watch.mark
    }

    /// Whether it has a mask of every caller.
    pub fn has_masks(&self) -> bool
        ensures { result ≡ has_masks self.now.part }
    {
        self.own.has_all()
    }

    /// Whether it knows a version of the heap as from-space.
    pub fn known_from(&self, v: Version) -> bool
        requires { IsVersionOf self.now.part.site.shape v }
        ensures { result ≡ known_from self.now.part v }
    {
        self.own.knows_from(v)
    }

    /// The stage that it saw last.
    pub fn stage(&self) -> Stage
        ensures { seen_of result ≡ self.now.part.cycle.clock.stage }
    {
        let seen = self.own.watch.stage;
        Stage {
            number: seen.number,
            done: seen.done,
            phase: seen.phase,
        }
    }

    /// Its last reply; None exactly where it has not replied yet.
    pub fn replied(&self) -> Option<Reply>
        ensures { result ≡ self.now.part.cycle.clock.reply }
    {
        self.own.watch.reply
    }

    /// The roles of its regions.
    pub fn roles(&self) -> Roles
        ensures { result ≡ self.now.part.cycle.ties.roles }
    {
        self.own.watch.roles
    }

    /// How many cycles were done when it joined last, 0 where it never joined.
    pub fn joined_at(&self) -> u32
        ensures { result ≡ self.now.part.cycle.ties.done }
    {
        self.own.watch.done
    }

    /// How many links and references of its versions in To and Old its scan has passed.
    pub fn cursor(&self) -> u64
        ensures { result ≡ self.now.part.cycle.scan.cursor }
    {
        self.own.watch.cursor
    }

    /// The number of the First in which its scan ended clean; None exactly where there is none.
    pub fn scanned(&self) -> Option<u32>
        ensures { result ≡ self.now.scanned }
    {
        self.grip.scanned()
    }

    /// Its scan ends clean in the First that it has seen.
    pub fn end_scan(&mut self)
        requires { MayEnd self.old.part }
        ensures { self.new ≡ record self.old {
          scanned = Some self.old.part.cycle.clock.stage.number;
        } }
    {
        self.grip.note_scan(Some(self.own.watch.stage.number));
    }

    /// The version at a root place; None exactly where the place is unset.
    pub fn root(&self, r: Root) -> Option<Version>
        requires { r.0 < 256 }
        ensures place { result ≡ slice_index_or self.now.roots r.0 None }
        ensures held { IfSome result (IsHeldAt self.now) }
        ensures name { root_of (sight_of self.now) r ≡ place_name self.now.part.hands.held result }
        ensures set { IsSome result ↔ IsSome (root_of (sight_of self.now) r) }
        ensures sound { IsSound U.lawful U.allowed self.now }
    {
        self.grip.root(r)
    }

    /// The i-th of its published versions in To and Old, in order of publishing, counted from 0; None exactly where
    /// there are no more than `i`.
    pub fn published(&self, i: u32) -> Option<Version>
        ensures { result
            ≡ option_map (λ k. k.version) (slice_get self.now.part.hands.own i) }
    {
        self.own.version(i)
    }

    // The version that the caller writes next: the first place of its To region that is not used.
    pub(crate) fn next_version(&self) -> Version
        requires { HasRoom self.now.part }
        ensures { result ≡ next_version self.now.part }
    {
        Version(self.own.to + self.own.used)
    }

    /// Whether the place names an object.
    pub fn is_set(&self, r: Root) -> bool
        requires { r.0 < 256 }
        ensures { IsTrue result ↔ IsSome (root_of (sight_of self.now) r) }
    {
        self.root(r).is_some()
    }

    /// Place `to` then names what `from` names, or nothing where that is unset.
    pub fn copy_root(&mut self, from: Root, to: Root)
        requires from { from.0 < 256 }
        requires to { to.0 < 256 }
        ensures names { SetsRoot (sight_of self.old) (sight_of self.new) to.0
            (root_of (sight_of self.old) from) }
        ensures same { Rests (sight_of self.old) (sight_of self.new) }
        ensures pass { self.new
            ≡ with_root self.old to (slice_index_or self.old.roots from.0 None) }
    {
        let version = self.grip.root(from);
        self.grip.set(to, version);
    }

    /// The place is then unset.
    pub fn clear_root(&mut self, r: Root)
        requires { r.0 < 256 }
        ensures names { SetsRoot (sight_of self.old) (sight_of self.new) r.0 None }
        ensures same { Rests (sight_of self.old) (sight_of self.new) }
        ensures pass { self.new ≡ with_root self.old r None }
    {
        self.grip.set(r, None);
    }

    /// The place then names this held version.
    pub fn set_root(&mut self, r: Root, v: Version)
        requires place { r.0 < 256 }
        requires held { IsHeldAt self.old v }
        ensures names { SetsRoot (sight_of self.old) (sight_of self.new) r.0
            (place_name self.old.part.hands.held (Some v)) }
        ensures same { Rests (sight_of self.old) (sight_of self.new) }
        ensures pass { self.new ≡ with_root self.old r (Some v) }
    {
        self.grip.set(r, Some(v));
    }

    /// Counts one more tend of the caller, which contracts alone see. No word of the cells is looked at.
    pub fn count_tend(&mut self)
        ensures { self.new ≡ record self.old { tends = self.old.tends + 1 } }
    {
        self.grip.tend();
    }

    /// The version is no longer in hand. Where it was taken twice, it is once more.
    pub fn release(&mut self, v: Version)
        requires { Contains self.old.hand v }
        ensures { self.new ≡ with_hand self.old (without_first v self.old.hand) }
    {
        self.grip.release(v);
    }
}

/// Every pass is sound.
pub fn a_pass_is_sound<U: Usage>(pass: &Pass<U>)
    ensures { IsSound U.lawful U.allowed pass.now }
{
    let _ = &pass.grip;
}
