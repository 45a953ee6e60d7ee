//! What the machine keeps of a caller: its draft, the versions that it may use, and its cycle.
ghost use Rattle.std.specs.Prelude.{◌≡◌, ℕ, ◌++◌, [], ◌≤◌, ◌<◌, ◌↔◌, ◌+◌, ◌^◌, None, IfOk, IfSome, IsTrue, OnErr, OnOk, length, slice_index_or};
ghost use Rattle.hm_shape.specs.Layout.{version_words};

use crate::cuts::{end_found, publishes};
use crate::names::{has_version, names_one, spells_one, unname};
use crate::scanning::knows_any_from;
use crate::track::Track;
use hm_model::Name;
use hm_moves::{Act, Build, Known, Move, Shift};
use hm_shape::{Shape, Version};
use std::alloc::{AllocError, Global};
use std::marker::Model;
use std::mem;

/// The most versions that a caller holds when it takes one more.
pub(crate) const MOST_HELD: u64 = 512;

/// A caller's draft, the versions that it holds, published, and left behind, and what it knows of the cycle. There is
/// room for as many own ones, and for as many left behind, as its regions have places.
#[derive(Drop)]
pub(crate) struct Hand {
    room: u32,
    region: u32,
    used: u32,
    written: [Option<u64>; 16],
    held: Vec<Known>,
    own: Vec<Known>,
    left: Vec<Known>,
    track: Track,
}

impl Model for Hand {
    ghost use Rattle.std.specs.Prelude.{vec_capacity};
    ghost use Rattle.hm_core.specs.Hands.{HandState, IsLaidOut, hand_by};

    ghost Value = { HandState };

    ghost view = { λ h. hand_by h.room h.region h.used h.written
        h.held.items h.own.items h.left.items h.track };

    ghost invariant = { λ h. IsLaidOut
        (hand_by h.room h.region h.used h.written h.held.items h.own.items h.left.items h.track)
        (vec_capacity h.held) (vec_capacity h.own) (vec_capacity h.left) };
}

impl Hand {
    ghost use Rattle.hm_core.specs.Hands.{HandState, HasVersion, CanHold, CanPublish, CanReady, CanWork, CanFollow, IsLookWord, IsOwnWord, fresh_hand, ending, hand_after, hand_bared, hand_letting, hand_noted, hand_readied, hand_worked, holding, listing, part_by, redrafting, writing, publishing};
    ghost use Rattle.hm_moves.specs.declared.moving.Act.TheVariants.{Shifts};
    ghost use Rattle.hm_moves.specs.Shifts.{left_after};
    ghost use Rattle.hm_moves.specs.Allowed.{Names, Spells};
    ghost use Rattle.hm_moves.specs.After.{unnamed, with_held, without, written_with};
    ghost use Rattle.hm_moves.specs.Cycles.{found_end, holds_from as part_holds_from};

    /// A hand that holds one version and has published these, with no word written.
    pub fn new(
        alloc: Global,
        shape: Shape,
        common: Known,
        own: &[Known],
    ) -> Result<Hand, AllocError>
        requires { length own.now ≤ shape.versions }
        ensures { IfOk result (λ hand. hand ≡ fresh_hand shape common own.now) }
    {
        let room = shape.regions * shape.versions;
        let mut held = Vec::with_capacity(alloc, MOST_HELD as usize)?;
        held.push(common)?;
        let mut published = Vec::with_capacity(alloc, room as usize)?;
        published.extend_from_slice(own)?;
        let left = Vec::with_capacity(alloc, room as usize)?;
        Ok(Hand {
            room,
            region: 0,
            used: own.len() as u32,
            written: [None; 16],
            held,
            own: published,
            left,
            track: Track::new(alloc, shape)?,
        })
    }

    /// The region into which it writes.
    pub fn region(&self) -> u32
        ensures { result ≡ self.now.draft.region }
    {
        self.region
    }

    /// How many places of that region are used.
    pub fn used(&self) -> u32
        ensures { result ≡ self.now.draft.used }
    {
        self.used
    }

    /// Word `i`, where it is written.
    pub fn word(&self, i: u32) -> Option<u64>
        requires { i < version_words }
        ensures { result ≡ slice_index_or self.now.draft.written i None }
    {
        self.written[i as usize]
    }

    /// How many versions are held.
    pub fn count(&self) -> u64
        ensures { result ≡ length self.now.hands.held }
    {
        self.held.len() as u64
    }

    /// Whether the version is held.
    pub fn holds(&self, v: Version) -> bool
        ensures { IsTrue result ↔ HasVersion self.now.hands.held v }
    {
        has_version(self.held.as_slice(), v)
    }

    /// Whether the version is an own one.
    pub fn owns(&self, v: Version) -> bool
        ensures { IsTrue result ↔ HasVersion self.now.hands.own v }
    {
        has_version(self.own.as_slice(), v)
    }

    /// Whether a word is 0 or names a held version.
    pub fn names(&self, word: u64) -> bool
        ensures { IsTrue result ↔ Names self.now.hands.held word }
    {
        word == 0 || names_one(self.held.as_slice(), word)
    }

    /// Whether a word spells a reference.
    pub fn spells(&self, word: u64, name: Option<Name>) -> bool
        ensures { IsTrue result ↔ Spells self.now.hands.held word name }
    {
        match name {
            Some(name) => spells_one(self.held.as_slice(), word, name),
            None => word == 0,
        }
    }

    /// The versions that the caller published in its To and Old regions, in order of publishing.
    pub fn own(&self) -> &[Known]
        ensures { result.now ≡ self.now.hands.own }
    {
        self.own.as_slice()
    }

    /// What it knows of the cycle.
    pub fn track(&self) -> &Track
        ensures { result.now ≡ self.now.cycle }
    {
        &self.track
    }

    /// Whether it holds a version that it knows as from-space.
    pub fn holds_from(&self, shape: Shape) -> bool
        ensures { (q : ℕ) → result ≡ part_holds_from (part_by shape q self.now) }
    {
        knows_any_from(&self.track, shape, self.held.as_slice())
    }

    /// The end of a chain that an act has found is noted, before the hand follows the move. Without memory nothing
    /// changes.
    pub fn note_end(&mut self, act: &Act, found: u64) -> Result<(), AllocError>
        ensures noted { OnOk result (self.new ≡ ending self.old (found_end act.now found)) }
        ensures unchanged { OnErr result (self.new ≡ self.old) }
    {
        if let Some(end) = end_found(act, found) {
            self.track.push_end(end)?;
        }
        Ok(())
    }

    /// That end is forgotten.
    pub fn drop_end(&mut self, act: &Act, found: u64)
        ensures { (h : HandState) → self.old ≡ ending h (found_end act.now found) → self.new ≡ h }
    {
        if end_found(act, found).is_some() {
            self.track.pop_end();
        }
    }

    /// The hand after a move that found a word and the version that it names, once its end is noted.
    pub fn follow(&mut self, shape: Shape, caller: u32, m: &Move, x: u64, found: Option<Known>)
        requires { CanFollow self.old m.now x found }
        ensures { (h : HandState) → self.old ≡ ending h (found_end m.now.act x)
            → self.new ≡ hand_after shape caller h m.now x found }
    {
        self.ready(caller, &m.act, x);
        self.note(shape, m, found);
        self.work(m, x, found);
        self.bare(shape);
    }

    /// The hand after a version is let go alone.
    pub fn release(&mut self, shape: Shape, let_go: Option<Known>)
        ensures { (q : ℕ) → self.new ≡ hand_letting shape q self.old let_go }
    {
        self.leave(let_go);
        self.forget(let_go);
        self.bare(shape);
    }

    // What an act that found a word does to stage, replies and regions.
    fn ready(&mut self, caller: u32, act: &Act, x: u64)
        requires { CanReady self.old act.now x }
        ensures { (s : Shape) → self.new ≡ hand_readied s caller self.old act.now x }
    {
        match *act {
            Act::Looks(_) | Act::Builds(_) => {}
            Act::Ticks(tick) => self.track.tick(&tick, x),
            Act::Shifts(shift) => self.shift(caller, &shift, x),
        }
    }

    // What a step on roles that found a word does.
    fn shift(&mut self, caller: u32, shift: &Shift, x: u64)
        requires { CanReady self.old (Shifts shift.now) x }
        ensures { (s : Shape) → self.new ≡ hand_readied s caller self.old (Shifts shift.now) x }
    {
        match *shift {
            Shift::LoadRoles { of } => self.track.load_roles(caller, of, x),
            Shift::Join { region, roles } => {
                self.leave_behind();
                self.redraft(region);
                self.track.join_with(roles);
            }
            Shift::Turn { region, roles } => {
                self.redraft(region);
                self.track.turn_to(roles);
            }
            Shift::Reuse { roles } => {
                self.left.clear();
                self.track.reuse_as(roles);
            }
        }
    }

    // The own versions are left behind, where those that were before are freed or not.
    fn leave_behind(&mut self)
        requires { length self.old.hands.left + length self.old.hands.own ≤ self.old.room }
        ensures { (s : Shape) (q : ℕ) → self.new ≡ listing self.old
            (left_after (part_by s q self.old) ++ self.old.hands.own) [] }
    {
        if self.track.done() < self.track.stage().done {
            mem::swap(&mut self.left, &mut self.own);
            self.own.clear();
        } else {
            self.left.append(&mut self.own).unwrap();
        }
    }

    // The draft is a fresh one in a region.
    fn redraft(&mut self, region: u32)
        ensures { self.new ≡ redrafting self.old region }
    {
        self.region = region;
        self.used = 0;
        self.written = [None; 16];
    }

    // Mark, cursor and what the scan has met after a move that found a version.
    fn note(&mut self, shape: Shape, m: &Move, found: Option<Known>)
        requires look { IsLookWord m.now.act }
        requires cursor { self.old.cycle.scan.cursor + 1 < 2 ^ 64 }
        ensures { self.new ≡ hand_noted shape self.old m.now found }
    {
        let passes = self.passes(shape, m, found);
        let stops = self.stops(shape, m, found);
        let marks = !self.is_scan(m) && self.meets(shape, found);
        self.track.note(marks, passes, stops, found);
    }

    // What is found, published and let go.
    fn work(&mut self, m: &Move, x: u64, found: Option<Known>)
        requires { CanWork self.old m.now x found }
        ensures { self.new ≡ hand_worked self.old m.now x found }
    {
        let fresh = publishes(&m.act, x);
        self.leave(m.let_go);
        self.take_in(found);
        self.take_in(fresh);
        self.list(fresh);
        self.write_by(&m.act, fresh);
        self.forget(m.let_go);
    }

    // Whether the caller is bare after a step.
    fn bare(&mut self, shape: Shape)
        ensures { self.new ≡ hand_bared shape self.old }
    {
        let clean = !self.holds_from(shape);
        let bare = clean && (self.has_passed() || self.track.is_bare());
        self.track.set_bare(bare);
    }

    // A version that is let go leaves the held ones.
    fn leave(&mut self, let_go: Option<Known>)
        ensures { self.new ≡ holding self.old (without self.old.hands.held let_go) }
    {
        if let Some(gone) = let_go {
            self.held.retain(|known| known.version.0 != gone.version.0);
        }
    }

    // A version that is found or published is held, once.
    fn take_in(&mut self, found: Option<Known>)
        requires { IfSome found (CanHold self.old) }
        ensures { self.new ≡ holding self.old (with_held self.old.hands.held found) }
    {
        if let Some(known) = found {
            if !has_version(self.held.as_slice(), known.version) {
                self.held.push(known).unwrap();
            }
        }
    }

    // A version that is published is an own one, and takes a place.
    fn list(&mut self, fresh: Option<Known>)
        requires { IfSome fresh (CanPublish self.old) }
        ensures { self.new ≡ publishing self.old fresh }
    {
        if let Some(known) = fresh {
            self.own.push(known).unwrap();
            self.used += 1;
        }
    }

    // An own word that is stored counts as written, and a version that is published leaves none.
    fn write_by(&mut self, act: &Act, fresh: Option<Known>)
        requires { IsOwnWord act.now }
        ensures { self.new ≡ writing self.old (written_with self.old.draft.written act.now fresh) }
    {
        if fresh.is_some() {
            self.written = [None; 16];
        } else if let Act::Builds(Build::StoreOwn { i, word }) = *act {
            self.written[i as usize] = Some(word);
        }
    }

    // No word that names a version that is let go counts as written.
    fn forget(&mut self, let_go: Option<Known>)
        ensures { self.new ≡ writing self.old (unnamed let_go self.old.draft.written) }
    {
        if let Some(known) = let_go {
            unname(&mut self.written, &known);
        }
    }
}
