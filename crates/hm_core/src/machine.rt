//! The running machine: plain data that tell a moment of the heap, and what can be read off them.
ghost use Rattle.std.specs.Prelude.{◌≡◌, ◌+◌, ◌^◌, ◌<◌, ◌≤◌, ◌↔◌, IsNone, length, slice_get, slice_index_or, option_copied, None, IsTrue, IfSome};
ghost use Rattle.hm_shape.specs.Layout.{version_words};

use crate::chronicle::Chronicle;
use crate::hand::{Hand, MOST_HELD};
use crate::seat::Seat;
use hm_model::{Contents, Name, Start};
use hm_moves::Known;
use hm_shape::{Shape, VERSION_WORDS, Version};
use std::alloc::{AllocError, Global};
use std::marker::Model;

/// There was no memory.
#[derive(Clone, Copy, Debug, PartialEq, Eq)]
pub struct Memory;

impl From<AllocError> for Memory {
    fn from(_error: AllocError) -> Memory {
        Memory
    }
}

/// What is counted of a region.
#[derive(Clone, Copy, Debug, PartialEq, Eq)]
pub(crate) struct Row {
    /// How many of its places are used now.
    pub used: u32,
    /// How many versions were ever published in it.
    pub made: u64,
    /// How often it was freed.
    pub freed: u32,
    /// Whether it is From, of a cycle that is done.
    pub dead: bool,
}

/// A machine: the words of the Table, and what is known of versions, callers and seats. What is known of a version
/// is found by its number, and an object by its name, in constant time.
#[derive(Drop)]
pub struct Machine {
    pub(crate) alloc: Global,
    pub(crate) shape: Shape,
    pub(crate) start: Start,
    /// The words of the Table.
    pub(crate) words: Vec<u64>,
    /// What is known of the version of each number, where it is published.
    pub(crate) known: Vec<Option<Known>>,
    /// What is counted of each region, those of all callers one behind another.
    pub(crate) rows: Vec<Row>,
    /// How many cycles are done.
    pub(crate) done: u32,
    pub(crate) chronicle: Chronicle,
    /// Of each caller, its draft, and what it may look into.
    pub(crate) hands: Vec<Hand>,
    /// The callers' seats, and behind them the notes.
    pub(crate) seats: Vec<Seat>,
}

impl Model for Machine {
    ghost use Rattle.hm_core.specs.Running.{Moment};

    ghost Value = { Moment };

    ghost use Rattle.hm_core.specs.Tables.{moment_of, IsRunning};

    ghost view = { moment_of };

    ghost invariant = { IsRunning };
}

impl Machine {
    ghost use Rattle.hm_shape.specs.Words.{word_count};
    ghost use Rattle.hm_model.specs.Store.{contents_of, IsThere};
    ghost use Rattle.hm_model.specs.History.{store_of};
    ghost use Rattle.hm_moves.specs.Chain.{lookup};
    ghost use Rattle.hm_moves.specs.Acts.{next_version};
    ghost use Rattle.hm_moves.specs.After.{row_of_part};
    ghost use Rattle.hm_moves.specs.Allowed.{next_name, HasRoom, HasHand};
    ghost use Rattle.hm_core.specs.Stepping.{IsLookable, IsHeld};
    ghost use Rattle.hm_core.specs.Running.{core_of, hand_at, index_of, own_part, site_of, IsSmall, IsSound};
    ghost use Rattle.hm_moves.specs.Safe.{IsSafe};

    /// The present plain store, in order of making.
    pub fn store(&self) -> &[(Name, Contents)]
        ensures store { result.now ≡ store_of self.now.history }
        ensures safe { IsSafe (site_of self.now) (core_of self.now) }
    {
        self.chronicle.store()
    }

    /// A word of the Table; None exactly where `i` is past it.
    pub fn word(&self, i: u64) -> Option<u64>
        ensures word { result ≡ slice_get self.now.words i }
        ensures past { IsNone result ↔ (word_count self.now.shape ≤ i) }
    {
        self.word_at(i)
    }

    // A word of the Table, if there is one of this number.
    fn word_at(&self, i: u64) -> Option<u64>
        ensures word { result ≡ slice_get self.now.words i }
        ensures sound { IsSound self.now }
    {
        self.words.get(i as usize).copied()
    }

    /// How many callers the heap has.
    pub(crate) fn callers(&self) -> u32
        ensures { result ≡ self.now.shape.callers }
    {
        self.shape.callers
    }

    // A seat, by its number.
    pub(crate) fn seat(&self, j: usize) -> Option<&Seat>
        ensures seat { option_copied result ≡ slice_get self.now.seats j }
        ensures sound { IsSound self.now }
    {
        self.seats.get(j)
    }

    // How many notes were split off.
    pub(crate) fn notes(&self) -> u64
        ensures notes { result + self.now.shape.callers ≡ length self.now.seats }
        ensures small { result + self.now.shape.callers < 2 ^ 64 }
        ensures sound { IsSound self.now }
    {
        self.seats.len() as u64 - u64::from(self.shape.callers)
    }

    // The hand of a caller.
    pub(crate) fn hand(&self, caller: u32) -> &Hand
        requires { caller < self.now.shape.callers }
        ensures hand { result.now ≡ hand_at self.now caller }
        ensures sound { IsSound self.now }
    {
        &self.hands[caller as usize]
    }

    // What is known of the version of a number.
    pub(crate) fn known(&self, v: Version) -> Option<Known>
        ensures known { result ≡ index_of self.now.known v.0 }
        ensures small { IfSome result IsSmall }
        ensures sound { IsSound self.now }
    {
        self.known.get(v.0 as usize).copied().flatten()
    }

    // What is known of the version that a word names.
    pub(crate) fn named(&self, word: u64) -> Option<Known>
        ensures named { result ≡ lookup (index_of self.now.known) word }
        ensures sound { IsSound self.now }
    {
        let known = self.known.as_slice();
        if word == 0 {
            return None;
        }
        known.get((word - 1) as usize).copied().flatten()
    }

    // Whether a caller holds a version.
    pub(crate) fn holds(&self, caller: u32, v: Version) -> bool
        requires { caller < self.now.shape.callers }
        ensures { IsTrue result ↔ IsHeld (own_part self.now caller) v }
    {
        self.hand(caller).holds(v)
    }

    // Whether a caller may look into a version: it holds it, or it is its own.
    pub(crate) fn may_look_into(&self, caller: u32, v: Version) -> bool
        requires { caller < self.now.shape.callers }
        ensures { IsTrue result ↔ IsLookable (own_part self.now caller) v }
    {
        let hand = self.hand(caller);
        hand.holds(v) || hand.owns(v)
    }

    // Whether a caller may hold one version more.
    pub(crate) fn has_hand(&self, caller: u32) -> bool
        requires { caller < self.now.shape.callers }
        ensures { IsTrue result ↔ HasHand (own_part self.now caller) }
    {
        self.hand(caller).count() < MOST_HELD
    }

    // The row of the region into which a caller writes.
    pub(crate) fn row_of(&self, caller: u32) -> u32
        requires { caller < self.now.shape.callers }
        ensures row { result ≡ row_of_part (own_part self.now caller) }
        ensures below { result < length self.now.rows }
    {
        caller * self.shape.regions + self.hand(caller).region()
    }

    // Whether a place of the caller's region is left.
    pub(crate) fn has_room(&self, caller: u32) -> bool
        requires { caller < self.now.shape.callers }
        ensures { IsTrue result ↔ HasRoom (own_part self.now caller) }
    {
        self.hand(caller).used() < self.shape.versions
    }

    // The next version of a caller.
    pub(crate) fn next_version(&self, caller: u32) -> Version
        requires caller { caller < self.now.shape.callers }
        requires room { HasRoom (own_part self.now caller) }
        ensures { result ≡ next_version (own_part self.now caller) }
    {
        let hand = self.hand(caller);
        Version::at(self.shape, caller, hand.region(), hand.used())
    }

    // Word `i` of a caller's next version, where it is written.
    pub(crate) fn written(&self, caller: u32, i: u32) -> Option<u64>
        requires caller { caller < self.now.shape.callers }
        requires word { i < version_words }
        ensures { result ≡ slice_index_or (own_part self.now caller).draft.written i None }
    {
        self.hand(caller).word(i)
    }

    // The name of a caller's next object.
    pub(crate) fn next_name(&self, caller: u32) -> Name
        requires { caller < self.now.shape.callers }
        ensures { result ≡ next_name (own_part self.now caller) }
    {
        Name {
            maker: caller,
            count: self.chronicle.made(caller),
        }
    }

    // Whether an object is there.
    pub(crate) fn is_there(&self, name: Name) -> bool
        ensures { IsTrue result ↔ IsThere (store_of self.now.history) name }
    {
        self.chronicle.contents(name).is_some()
    }
}
