//! Mutators: passes beside their heap.
ghost use Rattle.std.specs.Prelude.{◌≡◌, ◌+◌, ◌<◌};
ghost use Rattle.hm_ops.specs.Resting.{IsResting};

use crate::heap::Heap;
use crate::tending;
use hm_cells::{Pass, a_pass_is_sound};
use hm_model::{Caller, Full, Root, Snapshot, StoreIfRefused, Tended, Usage, Worker};
use std::marker::Model;

/// One caller of a heap, which it borrows, with the caller's pass. Contracts see both.
#[derive(Drop)]
pub struct Mutator<'h, U: Usage> {
    heap: &'h Heap<U>,
    pass: Pass<U>,
    // Nobody reads it. Where mutators lie side by side in a `Vec`, what one of them counts lies by it in other cache
    // lines than what the next one reads, also where lines come in pairs. docs/BENCHMARKS.md has what sharing costs.
    _apart: [u64; 16],
}

impl<'h, U: Usage> Model for Mutator<'h, U> {
    ghost use Rattle.hm_heap.specs.Mutators.{Mutating};
    ghost use Rattle.hm_ops.specs.Resting.{IsResting};

    ghost Value = { Mutating U };

    ghost view = { λ m. record { heap = m.heap.now; pass = m.pass } };

    ghost invariant = { λ m. IsResting m.pass m.heap.now };
}

impl<'h, U: Usage> Mutator<'h, U> {
    ghost use Rattle.hm_cells.specs.Facts.{IsSound};

    /// The caller of a pass of this heap, or of one that a mutator of this heap gave back.
    pub fn new(heap: &'h Heap<U>, pass: Pass<U>) -> Mutator<'h, U>
        requires { IsResting pass heap.now }
        ensures { result ≡ record { heap = heap.now; pass = pass } }
    {
        Mutator {
            heap,
            pass,
            _apart: [0; 16],
        }
    }

    /// Its pass, as it stands.
    pub fn into_pass(self) -> Pass<U>
        ensures pass { result ≡ self.entry.pass }
        ensures rests { IsResting result self.entry.heap }
        ensures sound { IsSound U.lawful U.allowed result }
    {
        let Mutator {
            heap: _,
            pass,
            _apart: _,
        } = self;
        a_pass_is_sound(&pass);
        pass
    }
}

impl<'h, U: Usage> Caller<U> for Mutator<'h, U> {
    ghost use Rattle.hm_heap.specs.Tending.{working_sight};

    ghost sight = { λ m. working_sight m.pass };

    fn is_set(&self, r: Root) -> bool {
        self.pass.is_set(r)
    }

    fn copy_root(&mut self, from: Root, to: Root) {
        self.pass.copy_root(from, to);
    }

    fn clear_root(&mut self, r: Root) {
        self.pass.clear_root(r);
    }

    fn create(
        &mut self,
        into: Root,
        refs: [Option<Root>; 4],
        numbers: [u64; 10],
    ) -> Result<(), Full> {
        let heap = self.heap;
        hm_ops::create(&heap.cells, &mut self.pass, into, refs, numbers)
    }

    fn fetch(&mut self, from: Root, hand: Root) -> Snapshot {
        let heap = self.heap;
        hm_ops::fetch(&heap.cells, &mut self.pass, from, hand)
    }

    fn fetch_number(&mut self, from: Root, i: u32) -> u64 {
        let heap = self.heap;
        hm_ops::fetch_number(&heap.cells, &mut self.pass, from, i)
    }

    fn fetch_ref(&mut self, from: Root, i: u32, into: Root) -> bool {
        let heap = self.heap;
        hm_ops::fetch_ref(&heap.cells, &mut self.pass, from, i, into)
    }

    fn store_number(&mut self, at: Root, i: u32, value: u64) -> Result<(), Full> {
        let heap = self.heap;
        hm_ops::store_number(&heap.cells, &mut self.pass, at, i, value)
    }

    fn store_ref(&mut self, at: Root, i: u32, value: Option<Root>) -> Result<(), Full> {
        let heap = self.heap;
        hm_ops::store_ref(&heap.cells, &mut self.pass, at, i, value)
    }

    fn store_if(
        &mut self,
        at: Root,
        stamp: u64,
        refs: [Option<Root>; 4],
        numbers: [u64; 10],
    ) -> Result<(), StoreIfRefused> {
        let heap = self.heap;
        hm_ops::store_if(&heap.cells, &mut self.pass, at, stamp, refs, numbers)
    }
}

impl<'h, U: Usage> Worker<U> for Mutator<'h, U> {
    ghost use Rattle.hm_model.specs.Tending.{ComesNearer, KeepsNames, moves_after};
    ghost use Rattle.hm_heap.specs.Acting.{Tends};
    ghost use Rattle.hm_heap.specs.Mutators.{tended};
    ghost use Rattle.hm_heap.specs.Tending.{working_sight};

    /// Loads the stage, and does what is then to be done: it frees regions, begins a cycle, joins it, scans, replies, or
    /// moves the stage on. The first of these that applies is done, and answered; with room for a region of versions
    /// and no cycle, or where a join is asked of a caller that has joined before, nothing is.
    fn tend(&mut self) -> Tended
        ensures exact { Tends U.lawful U.allowed (tended self.old.pass) result self.new.pass }
        ensures heap { self.new.heap ≡ self.old.heap }
        ensures moves { (working_sight self.new.pass).moves
            ≡ moves_after result (working_sight self.old.pass).moves }
        ensures tends { (working_sight self.new.pass).tends
            ≡ (working_sight self.old.pass).tends + 1 }
        ensures to_go { ComesNearer result (working_sight self.old.pass).to_go
            (working_sight self.new.pass).to_go }
        ensures same { KeepsNames (working_sight self.old.pass) (working_sight self.new.pass) }
    {
        let heap = self.heap;
        self.pass.count_tend();
        tending::tend(&heap.cells, &mut self.pass)
    }

    fn used(&self) -> u32 {
        self.pass.used()
    }

    fn free(&self) -> u32 {
        self.pass.free()
    }
}
