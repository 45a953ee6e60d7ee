//! One caller's part of a replay.
ghost use Rattle.std.specs.Prelude.{◌≡◌};
ghost use Rattle.hm_ops.specs.Resting.{IsResting};
ghost use Rattle.hm_replay.specs.Working.{IsAtWork, IsReady, IsUnder, Works};

use crate::conclusion::Came;
use hm_cellbook::BookUsage;
use hm_cells::Pass;
use hm_desk::{Admission, Desk, Gate, Progress, Worked};
use hm_heap::{Heap, Mutator};
use hm_orders::Order;
use std::alloc::Global;
use std::marker::Model;

/// A caller with the orders of its file, and how far it has come with them.
#[derive(Drop)]
pub(crate) struct Job<'h> {
    orders: &'h [Order],
    came: Came,
    // Last, so that its padding keeps the next job in a list off its cache lines.
    mutator: Mutator<'h, BookUsage>,
}

impl<'h> Model for Job<'h> {
    ghost use Rattle.hm_replay.specs.Working.{IsAtWork, Working};

    ghost Value = { Working };

    ghost view = { λ j. record {
      pass = j.mutator.pass;
      orders = j.orders.now;
      came = j.came;
    } };

    ghost invariant = { λ j. IsAtWork (record {
      pass = j.mutator.pass;
      orders = j.orders.now;
      came = j.came;
    }) };
}

impl<'h> Job<'h> {
    /// A caller that has applied none of its orders.
    pub fn new(
        alloc: Global,
        heap: &'h Heap<BookUsage>,
        pass: Pass<BookUsage>,
        orders: &'h [Order],
    ) -> Job<'h>
        requires rests { IsResting pass heap.now }
        requires ready { IsReady pass orders.now }
        ensures pass { result.pass ≡ pass }
        ensures orders { result.orders ≡ orders.now }
    {
        Job {
            orders,
            came: Came {
                progress: Progress::new(alloc),
                worked: Worked::Memory,
            },
            mutator: Mutator::new(heap, pass),
        }
    }

    /// Applies the orders as far as the caller comes.
    pub fn work<F: Admission, G: Gate>(&mut self, alloc: Global, desk: &Desk<F>, gate: &G)
        requires { IsUnder desk.now self.old }
        ensures { Works self.old self.new }
    {
        self.came.worked = desk.work(
            alloc,
            &mut self.mutator,
            self.orders,
            &mut self.came.progress,
            gate,
        );
    }

    /// Gives the pass back, and what the work came to.
    pub fn end(self) -> (Pass<BookUsage>, Came)
        ensures pass { result.0 ≡ self.entry.pass }
        ensures came { result.1 ≡ self.entry.came }
        ensures at_work { IsAtWork self.entry }
    {
        let Job {
            orders: _,
            came,
            mutator,
        } = self;
        (mutator.into_pass(), came)
    }
}
