//! Seats: how much of the history each has seen, and which callers it carries.
ghost use Rattle.std.specs.Prelude.{◌≡◌, ◌↔◌, [], ◌∷◌, ◌++◌, nat_lt, if◌then◌else◌, IfOk, IsTrue, OnErr, OnOk, Some, slice_get};

use std::alloc::{AllocError, Global};
use std::marker::Model;

/// A seat. A note carries no caller; one that is spent has seen nothing.
#[derive(Drop)]
pub(crate) struct Seat {
    /// How many entries of the history it has seen.
    seen: usize,
    /// The callers that it carries, its own first.
    parts: Vec<u32>,
}

impl Model for Seat {
    ghost use Rattle.hm_core.specs.SeatStates.{SeatState};

    ghost Value = { SeatState };

    ghost view = { λ s. record { seen = s.seen; parts = s.parts.items } };
}

impl Seat {
    ghost use Rattle.hm_core.specs.SeatStates.{SeatState};

    /// The seat of a caller.
    pub fn of(alloc: Global, caller: u32, seen: usize) -> Result<Seat, AllocError>
        ensures { IfOk result (λ seat. seat ≡ record { seen = seen; parts = caller ∷ [] }) }
    {
        let parts = vec![in alloc; caller]?;
        Ok(Seat { seen, parts })
    }

    /// A note, which carries nobody.
    pub fn note(alloc: Global, seen: usize) -> Seat
        ensures { result ≡ record { seen = seen; parts = [] } }
    {
        Seat {
            seen,
            parts: Vec::new(alloc),
        }
    }

    /// How many entries it has seen.
    pub fn seen(&self) -> usize
        ensures { result ≡ self.now.seen }
    {
        self.seen
    }

    /// The callers that it carries.
    pub fn parts(&self) -> &[u32]
        ensures { result.now ≡ self.now.parts }
    {
        self.parts.as_slice()
    }

    /// A copy of the list of callers that it carries.
    pub fn copy_parts(&self, alloc: Global) -> Result<Vec<u32>, AllocError>
        ensures { IfOk result (λ parts. parts.items ≡ self.now.parts) }
    {
        let mut parts = Vec::new(alloc);
        parts.extend_from_slice(self.parts.as_slice())?;
        Ok(parts)
    }

    /// Whether it is the seat of a caller: the first that it carries.
    pub fn is_of(&self, caller: u32) -> bool
        ensures { IsTrue result ↔ (slice_get self.now.parts 0 ≡ Some caller) }
    {
        match self.parts.first() {
            Some(first) => *first == caller,
            None => false,
        }
    }

    /// It has now seen so much.
    pub fn see(&mut self, seen: usize)
        ensures { self.new ≡ record { seen = seen; parts = self.old.parts } }
    {
        self.seen = seen;
    }

    /// It carries further callers, and has seen so much, if that is more. Without memory nothing changes.
    pub fn carry(&mut self, seen: usize, others: &[u32]) -> Result<(), AllocError>
        ensures carried { OnOk result (self.new ≡ record {
          seen = if nat_lt self.old.seen seen then seen else self.old.seen;
          parts = self.old.parts ++ others.now;
        }) }
        ensures unchanged { OnErr result (self.new ≡ self.old) }
    {
        self.parts.extend_from_slice(others)?;
        self.seen = self.seen.max(seen);
        Ok(())
    }

    /// It is spent.
    pub fn spend(&mut self)
        ensures { self.new ≡ record { seen = 0; parts = [] } }
    {
        self.seen = 0;
        self.parts.clear();
    }
}
