//! Closing cells, and what is left of them.
ghost use Rattle.std.specs.Prelude.{◌≡◌};

use crate::knowledge::Knowledge;
use crate::pass::Pass;
use crate::table::{Agreement, Cells};
use atomic_table::Seat;
use hm_model::Usage;
use hm_shape::{MOST_CALLERS, Stage};
use std::marker::Model;

/// What a caller's regions were at the end.
#[derive(Clone, Copy, Debug, PartialEq, Eq)]
pub struct Counts {
    /// How many places were used of its To region.
    pub used: u32,
    /// How many Free regions its room counted: none while calls take no other To region.
    pub free: u32,
    /// Whether it had joined a cycle of collecting, and freed nothing since.
    pub joined: bool,
}

impl Counts {
    /// Those of a caller that there was not.
    const NONE: Counts = Counts {
        used: 0,
        free: 0,
        joined: false,
    };
}

/// What is left of closed cells.
///
/// It keeps a note that has seen the whole history, and nothing of the words but the stage. Contracts see of it what
/// all callers agreed on, that history, the stage at the end, and each caller's counts. Whoever has one knows that the
/// rule of the Table held to the end.
#[derive(Drop)]
pub struct Closed<U: Usage> {
    note: Seat<(), Knowledge<U>>,
    agreement: Agreement<U>,
    stage: Stage,
    counts: [Counts; 8],
}

impl<U: Usage> Model for Closed<U> {
    ghost use Rattle.hm_cells.specs.Closing.{Ended};

    ghost Value = { Ended U };

    ghost use Rattle.std.specs.Prelude.{◌≡◌, length};
    ghost use Rattle.hm_cells.specs.Grips.{site_of};
    ghost use Rattle.hm_cells.specs.Closing.{HeldToTheEnd};

    ghost view = { λ c. record {
      site = site_of c.agreement.shared.key;
      history = c.note.me.0.view.seen;
      stage = c.stage;
      counts = c.counts;
    } };

    ghost invariant = { λ c. (length c.counts ≡ 8) × HeldToTheEnd U.lawful U.allowed (record {
      site = site_of c.agreement.shared.key;
      history = c.note.me.0.view.seen;
      stage = c.stage;
      counts = c.counts;
    }) };
}

impl<U: Usage> Closed<U> {
    ghost use Rattle.std.specs.Prelude.{◌<◌, Some, slice_get};
    ghost use Rattle.hm_cells.specs.Closing.{HeldToTheEnd, IsWholeHistory};

    /// The stage at the end.
    pub fn stage(&self) -> Stage
        ensures value { result ≡ self.now.stage }
        ensures held { HeldToTheEnd U.lawful U.allowed self.now }
        ensures whole { IsWholeHistory U.lawful U.allowed self.now }
    {
        self.stage
    }

    /// What the caller's regions were at the end.
    pub fn counts(&self, caller: u32) -> Counts
        requires { caller < self.now.site.shape.callers }
        ensures value { slice_get self.now.counts caller ≡ Some result }
        ensures held { HeldToTheEnd U.lawful U.allowed self.now }
        ensures whole { IsWholeHistory U.lawful U.allowed self.now }
    {
        self.counts[caller as usize]
    }
}

impl<U: Usage> Pass<U> {
    ghost use Rattle.std.specs.Prelude.{[]};
    ghost use mathlib.Core.Option.{some};
    ghost use lib.ListN.{get_elem?};
    ghost use Rattle.hm_cells.specs.Closing.{counts_of};

    // What the caller's regions are now.
    fn counts(&self) -> Counts
        ensures { result ≡ counts_of self.now }
    {
        Counts {
            used: self.used(),
            free: self.free(),
            joined: self.joined(),
        }
    }

    // Its seat, which carries its caller first. The grip's memory is freed.
    fn into_seat(self) -> Seat<(), Knowledge<U>>
        ensures cells { result.table_id ≡ self.cells }
        ensures carries { get_elem? result.me.0.view.parts 0 ≡ some self.part }
        ensures seen { result.me.0.view.seen ≡ self.seen }
        ensures none { result.me.1 ≡ [] }
    {
        let Pass {
            seat,
            grip: _,
            own: _,
        } = self;
        seat
    }
}

impl<U: Usage> Cells<U> {
    ghost use Rattle.std.specs.Prelude.{All};
    ghost use Rattle.hm_cells.specs.Closing.{AreAll, CarriesPass, EndsIn, HeldToTheEnd, IsWholeHistory};

    /// Closes the cells, with all their passes in order of number. The seats of all other passes are joined to that of
    /// pass 0, each by the joining and a load, and then the Table is closed. It takes no memory.
    pub fn close(self, mut all: Vec<Pass<U>>) -> Closed<U>
        requires all { AreAll self all.items }
        ensures site { result.site ≡ self.site }
        ensures whole { IsWholeHistory U.lawful U.allowed result }
        ensures passes { All (EndsIn result) all.items }
        ensures held { (held : HeldToTheEnd U.lawful U.allowed result)
            × All (CarriesPass held.core) all.items }
    {
        let mut counts = [Counts::NONE; MOST_CALLERS as usize];
        let first = all.remove(0);
        counts[0] = first.counts();
        let mut seat = first.into_seat();
        while let Some(other) = all.pop() {
            counts[other.number() as usize] = other.counts();
            self.gather(&mut seat, other.into_seat());
        }
        // Only now, since each caller has to be carried by the seat with which the Table is closed.
        let (note, agreement, word) = self.finish(seat);
        let Some(stage) = Stage::unpack(word) else {
            unreachable!()
        };
        Closed {
            note,
            agreement,
            stage,
            counts,
        }
    }
}
