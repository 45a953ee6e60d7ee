//! Making cells with their passes.
ghost use Rattle.std.specs.Prelude.{◌≡◌, ◌<◌, ◌≤◌, ◌++◌, [], IfOk, OnOk, replicate};
ghost use Rattle.hm_model.specs.History.{store_of, opening_of, starting_count};
ghost use Rattle.hm_cells.specs.Grips.{site_of};
ghost use Rattle.hm_cells.specs.Making.{HasFirst};

use crate::grip::Grip;
use crate::knowledge::{Knowledge, Opening};
use crate::own::Own;
use crate::pass::Pass;
use crate::table::Cells;
use atomic_table::Seat;
use hm_model::{Root, Start, Usage};
use hm_moves::first_words;
use hm_shape::{Shape, Version};
use std::alloc::{AllocError, Global};

/// There was no memory.
#[derive(Clone, Copy, Debug, PartialEq, Eq)]
pub struct Memory;

impl From<AllocError> for Memory {
    fn from(_error: AllocError) -> Memory {
        Memory
    }
}

impl<U: Usage> Cells<U> {
    ghost use Rattle.std.specs.Prelude.{All};
    ghost use Rattle.hm_model.specs.Sight.{HasHistory, IsFresh};
    ghost use Rattle.hm_cells.specs.Facts.{Fits, IsAtRest, sight_of};
    ghost use Rattle.hm_cells.specs.Shows.{knowledge};
    ghost use Rattle.hm_cells.specs.Making.{first_view, fresh_passes};

    /// Makes cells with their starting objects, and a pass for each caller, in order of number. The starting
    /// objects are the first versions of the first region of caller 0. All memory is taken here.
    pub fn make(
        alloc: Global,
        shape: Shape,
        usage: U,
        start: Start,
    ) -> Result<(Cells<U>, Vec<Pass<U>>), Memory>
        requires objects { starting_count start ≤ shape.versions }
        requires lawful { U.lawful usage (store_of (opening_of start)) }
        ensures site { IfOk result (λ r.
            r.0.site ≡ record { usage = usage; shape = shape; start = start }) }
        ensures passes { IfOk result (λ r.
            r.1.items ≡ fresh_passes r.0.table r.0.site shape.callers) }
        ensures fits { IfOk result (λ r. All (λ s. Fits s r.0) r.1.items) }
        ensures fresh { IfOk result (λ r. All (λ s. IsFresh (sight_of s)) r.1.items) }
        ensures rest { IfOk result (λ r. All IsAtRest r.1.items) }
        ensures histories { IfOk result (λ r.
            All (λ s. HasHistory U.lawful U.allowed (sight_of s)) r.1.items) }
    {
        let words = first_words(alloc, shape, start)?;
        let opening = Opening {
            usage,
            shape,
            start,
        };
        let (cells, seat) = Cells::open(alloc, words.as_slice(), &opening)?;
        let passes = cells.deal(alloc, seat, &opening)?;
        Ok((cells, passes))
    }

    // A pass for each caller. The words are those that the Table was made with.
    fn deal(
        &self,
        alloc: Global,
        mut seat: Seat<(), Knowledge<U>>,
        opening: &Opening<U>,
    ) -> Result<Vec<Pass<U>>, AllocError>
        requires objects { starting_count opening.now.start ≤ opening.now.shape.versions }
        requires lawful { U.lawful opening.now.usage (store_of (opening_of opening.now.start)) }
        requires words { HasFirst opening.now.shape opening.now.start }
        requires table { seat.table_id ≡ self.now.table }
        requires seat { seat.me ≡ (knowledge (first_view (site_of opening.now)), []) }
        ensures { IfOk result (λ v. v.items
            ≡ fresh_passes self.now.table (site_of opening.now) opening.now.shape.callers) }
    {
        let callers = opening.shape.callers;
        let mut passes = Vec::new(alloc);
        for k in 0..callers - 1 {
            let last = self.last_out(&mut seat);
            let pass = Pass::fresh(alloc, last, opening, callers - 1 - k, 0)?;
            passes.insert(0, pass)?;
        }
        let pass = Pass::fresh(alloc, seat, opening, 0, opening.start.objects())?;
        passes.insert(0, pass)?;
        Ok(passes)
    }
}

impl<U: Usage> Pass<U> {
    ghost use Rattle.hm_moves.specs.After.{view};
    ghost use Rattle.hm_cells.specs.Shows.{knowledge};
    ghost use Rattle.hm_cells.specs.Making.{first_used, fresh_pass, newcomer};

    // The pass of a caller of a fresh heap.
    fn fresh(
        alloc: Global,
        seat: Seat<(), Knowledge<U>>,
        opening: &Opening<U>,
        number: u32,
        used: u32,
    ) -> Result<Pass<U>, AllocError>
        requires objects { starting_count opening.now.start ≤ opening.now.shape.versions }
        requires lawful { U.lawful opening.now.usage (store_of (opening_of opening.now.start)) }
        requires words { HasFirst opening.now.shape opening.now.start }
        requires number { number < opening.now.shape.callers }
        requires used { used ≡ first_used opening.now.start number }
        requires seat { seat.me ≡ (knowledge (newcomer (site_of opening.now) number), []) }
        ensures { IfOk result
            (λ p. p ≡ fresh_pass seat.table_id (site_of opening.now) number) }
    {
        let mut grip = Grip::open(alloc, opening)?;
        let common = opening.start.objects() - 1;
        grip.set(Root(0), Some(Version(common)));
        Ok(Pass {
            seat,
            grip,
            own: Own::fresh(opening.shape, number, used),
        })
    }
}
