//! A desk, at which a caller applies its orders to the book on a heap.
ghost use Rattle.std.specs.Prelude.{◌≡◌, ◌+◌, ◌*◌, ◌<◌, ◌≤◌, length, List, OnOk, IfErr};
ghost use Rattle.hm_model.specs.declared.entry.Entry.{Entry};
ghost use Rattle.hm_model.specs.Sight.{Goes};
ghost use Rattle.hm_cellbook.specs.Fetched.{book_allowed, book_lawful};
ghost use Rattle.hm_desk.specs.Desk.{AreOwn, KeepsBook};
ghost use Rattle.hm_desk.specs.Progress.{HasCome};
ghost use Rattle.hm_desk.specs.Stalling.{IfFull, IfStalled, IsUsedUp, WasFull};
ghost use Rattle.hm_desk.specs.Hindered.{IsHindered};
ghost use Rattle.hm_desk.specs.Working.{GoesOn, IsAtWork};

use crate::admission::Admission;
use crate::applying::apply;
use crate::gate::Gate;
use crate::halt::Halt;
use crate::progress::Progress;
use crate::telling::{settle, tell};
use crate::tending::tend_after;
use hm_book::Limits;
use hm_cellbook::BookUsage;
use hm_list::clear_places;
use hm_model::{Root, Worker};
use hm_orders::Order;
use std::alloc::Global;
use std::marker::Model;

/// What a call of [`Desk::work`] came to.
#[derive(Clone, Copy, Debug, PartialEq, Eq)]
pub enum Worked {
    /// All orders are applied and told.
    Finished,
    /// The caller has no room, and tending freed none: the order with this index is not applied, or the board is not
    /// told. The counts are the caller's when it last found its room 0.
    Stalled { at: u64, used: u32, free: u32 },
    /// There was no memory. The order under way is not applied.
    Memory,
}

/// The limits under which callers apply orders, and what tells of each order whether they admit it.
#[derive(Drop)]
pub struct Desk<F: Admission> {
    limits: Limits,
    admit: F,
}

impl<F: Admission> Model for Desk<F> {
    ghost use Rattle.hm_book.specs.declared.limits.Limits.{Limits};

    ghost Value = { Limits };

    ghost view = { λ d. d.limits };

    ghost invariant = { λ d. F.tells d.limits d.admit };
}

impl<F: Admission> Desk<F> {
    /// A desk under limits, with a closure that may be called on every order and answers whether they admit it.
    pub fn new(limits: Limits, admit: F) -> Desk<F>
        requires { F.tells limits admit }
        ensures { result ≡ limits }
    {
        Desk { limits, admit }
    }

    /// Applies the caller's orders from where it left off, tells the board, and tends between them.
    ///
    /// Whatever the answer, the orders that are applied are noted in `so_far`, and the next call goes on from there.
    /// [`Worked::Finished`] comes where all orders are applied and told, and [`Worked::Stalled`] where the caller's room
    /// was 0. At `Stalled` the board may be owed the last number. [`Worked::Memory`] comes at want of memory alone.
    pub fn work<C: Worker<BookUsage>, G: Gate>(
        &self,
        alloc: Global,
        c: &mut C,
        orders: &[Order],
        so_far: &mut Progress,
        gate: &G,
    ) -> Worked
        requires keeps { KeepsBook self.now (C.sight c.old) }
        requires orders { AreOwn (C.sight c.old) orders.now }
        requires come { HasCome (C.sight c.old) orders.now so_far.old }
        ensures keeps { KeepsBook self.now (C.sight c.new) }
        ensures come { HasCome (C.sight c.new) orders.now so_far.new }
        ensures further { so_far.old.next ≤ so_far.new.next }
        ensures goes { (own : List Entry)
            × Goes book_lawful book_allowed (C.sight c.old) (C.sight c.new) own }
        ensures finished { result ≡ Worked.Finished
            → so_far.new.next ≡ length orders.now }
        ensures told { result ≡ Worked.Finished → so_far.new.told ≡ so_far.new.next }
        ensures stalled { IfStalled result (λ at used free. (at ≡ so_far.new.next)
            × WasFull (C.sight c.old) used free) }
        ensures up { IfStalled result (λ at used free. IsUsedUp (C.sight c.new) used free) }
        ensures tends { (C.sight c.old).tends + so_far.new.next
            ≤ (C.sight c.new).tends + so_far.old.next }
        ensures moves { (C.sight c.new).moves + 24 * so_far.old.next
            ≤ (C.sight c.old).moves + 24 * (so_far.new.next + 1) }
        ensures hindered { IfStalled result (λ at used free. so_far.new.next ≡ so_far.old.next
            → IsHindered 0 orders.now so_far.old.next (C.sight c.old) (C.sight c.new)) }
    {
        let ended = self.work_through(alloc, c, orders, so_far, gate);
        clear_places(c, Root(4), Root(17));
        match ended {
            Ok(()) => Worked::Finished,
            Err(Halt::Full { used, free }) => Worked::Stalled {
                at: so_far.next,
                used,
                free,
            },
            Err(Halt::Memory) => Worked::Memory,
        }
    }

    /// Applies the next order, tells the board, and tends.
    fn work_on<C: Worker<BookUsage>, G: Gate>(
        &self,
        alloc: Global,
        c: &mut C,
        orders: &[Order],
        so_far: &mut Progress,
        gate: &G,
    ) -> Result<(), Halt>
        requires work { IsAtWork (C.sight c.old) orders.now so_far.old }
        requires limits { (C.sight c.old).usage.limits ≡ self.now }
        requires more { so_far.old.next < length orders.now }
        requires settled { so_far.old.told ≡ so_far.old.next }
        ensures work { IsAtWork (C.sight c.new) orders.now so_far.new }
        ensures goes { GoesOn (C.sight c.old) (C.sight c.new) }
        ensures further { so_far.old.next ≤ so_far.new.next }
        ensures next { OnOk result (so_far.new.next ≡ so_far.old.next + 1) }
        ensures told { OnOk result (so_far.new.told ≡ so_far.new.next) }
        ensures full { IfErr result (λ halt. IfFull halt (WasFull (C.sight c.old))) }
        ensures up { IfErr result (λ halt. IfFull halt (IsUsedUp (C.sight c.new))) }
        ensures tends { (C.sight c.old).tends + so_far.new.next
            ≤ (C.sight c.new).tends + so_far.old.next }
        ensures moves { (C.sight c.new).moves + 24 * so_far.old.next
            ≤ (C.sight c.old).moves + 24 * so_far.new.next + 8 }
        ensures moves_each { OnOk result ((C.sight c.new).moves ≤ (C.sight c.old).moves + 24) }
        ensures hindered { IfErr result (λ halt. IfFull halt (λ used free.
            so_far.new.next ≡ so_far.old.next
            → IsHindered 1 orders.now so_far.old.next (C.sight c.old) (C.sight c.new))) }
    {
        let order = &orders[so_far.next as usize];
        // The files are numbered one above their callers.
        gate.pass(order.file - 1, order.row);
        let admitted = self.admit.admits(order);
        apply(alloc, c, orders, so_far, admitted)?;
        tell(c, orders, so_far)?;
        tend_after(c);
        Ok(())
    }

    /// The same for all orders that are left, after the number that the board is owed.
    fn work_through<C: Worker<BookUsage>, G: Gate>(
        &self,
        alloc: Global,
        c: &mut C,
        orders: &[Order],
        so_far: &mut Progress,
        gate: &G,
    ) -> Result<(), Halt>
        requires work { IsAtWork (C.sight c.old) orders.now so_far.old }
        requires limits { (C.sight c.old).usage.limits ≡ self.now }
        ensures work { IsAtWork (C.sight c.new) orders.now so_far.new }
        ensures goes { GoesOn (C.sight c.old) (C.sight c.new) }
        ensures further { so_far.old.next ≤ so_far.new.next }
        ensures next { OnOk result (so_far.new.next ≡ length orders.now) }
        ensures told { OnOk result (so_far.new.told ≡ so_far.new.next) }
        ensures full { IfErr result (λ halt. IfFull halt (WasFull (C.sight c.old))) }
        ensures up { IfErr result (λ halt. IfFull halt (IsUsedUp (C.sight c.new))) }
        ensures tends { (C.sight c.old).tends + so_far.new.next
            ≤ (C.sight c.new).tends + so_far.old.next }
        ensures moves { (C.sight c.new).moves + 24 * so_far.old.next
            ≤ (C.sight c.old).moves + 24 * (so_far.new.next + 1) }
        ensures hindered { IfErr result (λ halt. IfFull halt (λ used free.
            so_far.new.next ≡ so_far.old.next
            → IsHindered 0 orders.now so_far.old.next (C.sight c.old) (C.sight c.new))) }
    {
        settle(c, orders, so_far)?;
        while so_far.next < orders.len() as u64 {
            self.work_on(alloc, c, orders, so_far, gate)?;
        }
        Ok(())
    }
}
