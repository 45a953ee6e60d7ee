//! One caller of a heap, on a thread of its own.
ghost use Rattle.hm_ops.specs.Resting.{IsResting};

use crate::call::Call;
use crate::making::make;
use hm_cells::{Cells, Pass};
use hm_model::{AnyUsage, Root};
use std::marker::Model;
use std::rt::Clock;
use std::sync::{Barrier, Wait};
use std::time::Instant;

/// When a caller began its calls, and when it had made them.
#[derive(Clone, Copy)]
pub(crate) struct Span {
    pub from: Instant,
    pub to: Instant,
}

/// A caller's pass beside its cells.
#[derive(Drop)]
pub(crate) struct Runner<'c> {
    cells: &'c Cells<AnyUsage>,
    pass: Pass<AnyUsage>,
    call: Call,
    span: Option<Span>,
    read: u64,
    // What one caller counts lies in other cache lines than what the next one reads, also where they come in pairs.
    _apart: [u64; 16],
}

impl<'c> Model for Runner<'c> {
    ghost use Rattle.hm_model.specs.declared.usage.AnyUsage.{AnyUsage};
    ghost use Rattle.hm_cells.specs.Facts.{Facts};
    ghost use Rattle.hm_ops.specs.Resting.{IsResting};

    ghost Value = { Facts AnyUsage };

    ghost view = { λ m. m.pass };

    ghost invariant = { λ m. IsResting m.pass m.cells.now };
}

impl<'c> Runner<'c> {
    ghost use Rattle.hm_cells.specs.Facts.{Fits, IsAtRest};

    pub fn new(cells: &'c Cells<AnyUsage>, pass: Pass<AnyUsage>, call: Call) -> Runner<'c>
        requires fits { Fits pass cells.now }
        requires rest { IsAtRest pass }
    {
        Runner {
            cells,
            pass,
            call,
            span: None,
            read: 0,
            _apart: [0; 16],
        }
    }

    /// Makes its calls once all have come to the gate. It has a span where it made all of them.
    pub fn run<R: Wait + Clock>(&mut self, rt: &R, gate: &Barrier) {
        if !self.pass.is_set(Root(0)) {
            return;
        }
        let cells = self.cells;
        let count = self.call.count();
        gate.wait(rt);
        let from = Instant::now(rt);
        let run = make(cells, &mut self.pass, self.call, count);
        let to = Instant::now(rt);
        self.read = run.read;
        if run.made == count
            && let (Ok(from), Ok(to)) = (from, to)
        {
            self.span = Some(Span { from, to });
        }
    }

    pub fn span(&self) -> Option<Span> {
        self.span
    }
}
