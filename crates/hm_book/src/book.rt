//! The plain book.
ghost use Rattle.std.specs.Prelude.{◌≡◌, ◌<◌, length, IsFalse, IsOk, IfOk, OnOk, OnErr};
ghost use Rattle.hm_orders.specs.Orders.{IsWellFormed};
ghost use Rattle.hm_book.specs.Effect.{came_to_trade};
ghost use Rattle.hm_book.specs.Run.{done_of, empty_state, state_after};

use crate::limits::Limits;
use crate::trading::carry_out;
use hm_orders::{Done, Fills, Order, Side};
use std::alloc::{AllocError, AllocFailed, Global};
use std::marker::Model;

/// Want of memory.
#[derive(Clone, Copy, Debug, PartialEq, Eq)]
pub struct Memory;

impl From<AllocError> for Memory {
    fn from(_error: AllocError) -> Memory {
        Memory
    }
}

impl<T: Drop> From<AllocFailed<T>> for Memory {
    fn from(_failed: AllocFailed<T>) -> Memory {
        Memory
    }
}

/// An order that rests in the book.
#[derive(Clone, Copy, Debug, PartialEq, Eq)]
pub struct Resting {
    pub side: Side,
    pub price: u32,
    /// Its place among all orders applied, from 1.
    pub root: u64,
    pub file: u32,
    pub row: u64,
    pub id: u32,
    /// What is left of it, at least 1.
    pub quantity: u32,
}

/// A book of resting orders, with the numbers of orders applied to it and of fills made.
#[derive(Debug, Drop)]
pub struct Book {
    resting: Vec<Resting>,
    applied: u64,
    fills: u64,
}

impl Model for Book {
    ghost use Rattle.hm_book.specs.Run.{BookState};

    ghost Value = { BookState };

    ghost use Rattle.hm_book.specs.Sound.{IsSound};

    ghost view = { λ b. record { book = b.resting.items; applied = b.applied; fills = b.fills } };

    ghost invariant = { λ b.
        IsSound (record { book = b.resting.items; applied = b.applied; fills = b.fills }) };
}

impl Book {
    /// An empty book, to which no order was applied.
    pub fn new(alloc: Global) -> Book
        ensures { result ≡ empty_state }
    {
        Book {
            resting: Vec::new(alloc),
            applied: 0,
            fills: 0,
        }
    }

    /// How many orders rest.
    pub fn resting(&self) -> u64
        ensures { result ≡ length self.now.book }
    {
        self.resting.len() as u64
    }

    /// Applies an order of any kind under the limits, by the first of these cases that applies:
    ///
    /// - the limits do not admit it: it is denied, and does nothing;
    /// - a cancel takes out the order of its file with its id, which is cancelled, and where none rests it is unknown;
    /// - an order of its file with its id rests: it is repeated, and does nothing;
    /// - else it trades with the best opposite orders that it crosses, and is filled where nothing is left of it. What
    ///   is left of a limit order rests; of an immediate or a market order it is thrown away, and the order is dropped.
    ///
    /// After `Memory` nothing has changed.
    pub fn apply(&mut self, limits: &Limits, order: &Order) -> Result<Done, Memory>
        requires well_formed { IsWellFormed order.now }
        requires room { self.old.applied < 18446744073709551615 }

        ensures done { IfOk result (λ done. done ≡ done_of limits.now self.old order.now) }
        ensures book { OnOk result (self.new ≡ state_after limits.now self.old order.now) }
        ensures memory { OnErr result (self.new ≡ self.old) }

        // An order that does not come to trade takes no memory.
        ensures free { IsFalse (came_to_trade (done_of limits.now self.old order.now).fate)
            → IsOk result }
    {
        let root = self.applied + 1;
        let made = self.fills;
        let alloc = *self.resting.allocator();
        let outcome = carry_out(alloc, limits, &mut self.resting, order, root, made)?;
        self.applied = root;
        self.fills += outcome.fills.len() as u64;
        Ok(Done {
            root,
            file: order.file,
            row: order.row,
            fate: outcome.fate,
            fills: Fills::new(outcome.fills),
        })
    }
}

#[cfg(test)]
mod tests;
