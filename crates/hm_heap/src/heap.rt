//! Heaps: how they are made with their passes, and closed with all of them.
ghost use Rattle.std.specs.Prelude.{◌≡◌, ◌+◌, ◌*◌, ◌≤◌, All, IfOk, OnOk};
ghost use Rattle.hm_model.specs.History.{store_of, opening_of, starting_count};
ghost use Rattle.hm_model.specs.Sight.{HasHistory, IsFresh};
ghost use Rattle.hm_cells.specs.Closing.{AreAll, CarriesPass, EndsIn, HeldToTheEnd, IsWholeHistory};
ghost use Rattle.hm_cells.specs.Facts.{Fits, IsAtRest};
ghost use Rattle.hm_heap.specs.Tending.{working_sight};
ghost use Rattle.hm_cells.specs.Making.{first_used, fresh_passes};

use hm_cells::{Cells, Closed, Memory, Pass};
use hm_model::{Start, Usage};
use hm_shape::Shape;
use std::alloc::Global;
use std::marker::Model;

/// A heap that callers on several threads share.
///
/// Contracts see of it which Table its words are, and what all callers agree on.
#[derive(Drop)]
pub struct Heap<U: Usage> {
    pub(crate) cells: Cells<U>,
}

impl<U: Usage> Model for Heap<U> {
    ghost use Rattle.hm_cells.specs.Facts.{Made};

    ghost Value = { Made U };

    ghost view = { λ h. h.cells };
}

impl<U: Usage> Heap<U> {
    /// Makes a heap with its starting objects, and a pass for each caller, in order of number. The starting objects
    /// take the first places of caller 0, one each, and every other place is free. A caller's room is then what is left
    /// of its To region, and one Free region more: two of the three are kept for its joins. All memory of the heap is
    /// taken here, also what its closing needs.
    pub fn make(
        alloc: Global,
        shape: Shape,
        usage: U,
        start: Start,
    ) -> Result<(Heap<U>, Vec<Pass<U>>), Memory>
        requires objects { starting_count start ≤ shape.versions }
        requires lawful { U.lawful usage (store_of (opening_of start)) }
        ensures site { IfOk result (λ r.
            r.0.site ≡ record { usage = usage; shape = shape; start = start }) }
        ensures passes { IfOk result (λ r.
            r.1.items ≡ fresh_passes r.0.table r.0.site shape.callers) }
        ensures all { IfOk result (λ r. AreAll r.0 r.1.items) }
        ensures fits { IfOk result (λ r. All (λ s. Fits s r.0) r.1.items) }
        ensures rest { IfOk result (λ r. All IsAtRest r.1.items) }
        ensures fresh { IfOk result (λ r. All (λ s. IsFresh (working_sight s)) r.1.items) }
        ensures histories { IfOk result (λ r.
            All (λ s. HasHistory U.lawful U.allowed (working_sight s)) r.1.items) }
        ensures used { IfOk result (λ r.
            All (λ s. (working_sight s).used ≡ first_used start (working_sight s).number) r.1.items) }
        ensures room { IfOk result (λ r.
            All (λ s. (working_sight s).room + (working_sight s).used ≡ 2 * shape.versions) r.1.items) }
        ensures span { IfOk result (λ r.
            All (λ s. (working_sight s).span ≡ shape.versions) r.1.items) }
    {
        let (cells, passes) = Cells::make(alloc, shape, usage, start)?;
        Ok((Heap { cells }, passes))
    }
}

/// Closes a heap, with all its passes in order of number. It takes no memory.
pub fn close<U: Usage>(heap: Heap<U>, all: Vec<Pass<U>>) -> Closed<U>
    requires all { AreAll heap all.items }
    ensures site { result.site ≡ heap.site }
    ensures whole { IsWholeHistory U.lawful U.allowed result }
    ensures passes { All (EndsIn result) all.items }
    ensures held { (held : HeldToTheEnd U.lawful U.allowed result)
        × All (CarriesPass held.core) all.items }
{
    heap.cells.close(all)
}
