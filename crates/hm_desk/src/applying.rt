//! How a caller applies its next order.
ghost use Rattle.std.specs.Prelude.{◌≡◌, ◌≢◌, ◌+◌, ◌<◌, ◌≤◌, Some, IfSome, IfOk, OnOk, OnErr, Err, IfErr, length, slice_get};
ghost use Rattle.hm_orders.specs.Orders.{IsWellFormed};
ghost use Rattle.hm_model.specs.Sight.{name_at};
ghost use Rattle.hm_book.specs.Limits.{admits};
ghost use Rattle.hm_agreement.specs.Cells.{board_name};
ghost use Rattle.hm_cellbook.specs.Fetched.{WasFetched};
ghost use Rattle.hm_desk.specs.Stalling.{IfFull, IsUsedUp, WasFull};
ghost use Rattle.hm_desk.specs.Hindered.{FetchesBook, FindsGreater, IsHindered, TakesCost, WasOvertaken};
ghost use Rattle.hm_desk.specs.Working.{GoesOn, GoesQuietly, IsAtDesk, IsAtWork, IsChanged, IsReady, book_stamp};

use crate::halt::{Halt, meet_full};
use crate::progress::Progress;
use hm_cellbook::{Attempt, AttemptRefused, BookUsage, cell_apply};
use hm_model::{Root, Snapshot, StoreIfRefused, Worker};
use hm_orders::Order;
use std::alloc::Global;

/// Where the common object is named.
pub(crate) const COMMON: Root = Root(0);

/// Where a fetch of it names the three lists and the board.
const HAND: Root = Root(4);

/// How an attempt at an order ended.
#[derive(Clone, Copy, Debug, PartialEq, Eq)]
enum Tried {
    /// The order is applied.
    Applied,
    /// The common object has changed since it was fetched.
    Changed,
    /// The caller's room is 0.
    Full,
    /// There was no memory.
    Memory,
}

impl From<AttemptRefused> for Tried {
    ghost use Rattle.hm_desk.specs.Working.{tried_refused};

    ghost from_gives = { λ refused tried. tried ≡ tried_refused refused };

    fn from(refused: AttemptRefused) -> Tried {
        match refused {
            AttemptRefused::Full => Tried::Full,
            AttemptRefused::Memory => Tried::Memory,
        }
    }
}

impl From<StoreIfRefused> for Tried {
    ghost use Rattle.hm_desk.specs.Working.{tried_to_store};

    ghost from_gives = { λ refused tried. tried ≡ tried_to_store refused };

    fn from(refused: StoreIfRefused) -> Tried {
        match refused {
            StoreIfRefused::Full => Tried::Full,
            StoreIfRefused::Changed { .. } => Tried::Changed,
        }
    }
}

/// Fetches the common object and the names of its lists and of the board.
fn fetch_book<C: Worker<BookUsage>>(c: &mut C) -> Snapshot
    requires desk { IsAtDesk (C.sight c.old) }
    ensures desk { IsAtDesk (C.sight c.new) }
    ensures quiet { GoesQuietly (C.sight c.old) (C.sight c.new) }
    ensures fetched { WasFetched (C.sight c.new) result }
    ensures stamp { result.stamp < u64.MAX }
    ensures now { book_stamp (C.sight c.new) ≡ result.stamp }
    ensures tends { (C.sight c.new).tends ≡ (C.sight c.old).tends }
    ensures moves { (C.sight c.new).moves ≡ (C.sight c.old).moves }
    ensures entry { FetchesBook (C.sight c.old) (C.sight c.new) result }
{
    c.fetch(COMMON, HAND)
}

/// Builds what an order, which is admitted or not, makes of the book that was fetched.
fn build<C: Worker<BookUsage>>(
    alloc: Global,
    c: &mut C,
    at: &Snapshot,
    order: &Order,
    admitted: bool,
) -> Result<Attempt, AttemptRefused>
    requires desk { IsAtDesk (C.sight c.old) }
    requires fetched { WasFetched (C.sight c.old) at.now }
    requires stamp { at.now.stamp < u64.MAX }
    requires admits { admitted ≡ admits (C.sight c.old).usage.limits order.now }
    requires well_formed { IsWellFormed order.now }
    requires file { order.now.file ≡ (C.sight c.old).number + 1 }
    ensures desk { IsAtDesk (C.sight c.new) }
    ensures quiet { GoesQuietly (C.sight c.old) (C.sight c.new) }
    ensures ready { IfOk result (IsReady (C.sight c.new) order.now at.now.stamp) }
    ensures board { name_at (C.sight c.new).roots 7 ≡ Some board_name }
    ensures full { result ≡ Err AttemptRefused.Full → (C.sight c.new).room ≡ 0 }
    ensures tends { (C.sight c.new).tends ≡ (C.sight c.old).tends }
    ensures moves { (C.sight c.new).moves ≡ (C.sight c.old).moves }
    ensures takes { TakesCost (C.sight c.old) (C.sight c.new) at.now order.now }
{
    cell_apply(alloc, c, at, order, admitted)
}

/// Stores an attempt at the next order, and takes its memory before. Where it was not stored, nothing is noted of it.
fn store<C: Worker<BookUsage>>(
    c: &mut C,
    orders: &[Order],
    so_far: &mut Progress,
    stamp: u64,
    attempt: Attempt,
) -> Tried
    requires work { IsAtWork (C.sight c.old) orders.now so_far.old }
    requires order { IfSome (slice_get orders.now so_far.old.next)
        (λ order. IsReady (C.sight c.old) order stamp attempt) }
    requires more { so_far.old.next < length orders.now }
    requires settled { so_far.old.told ≡ so_far.old.next }
    requires stamp { stamp ≤ book_stamp (C.sight c.old) }
    ensures work { IsAtWork (C.sight c.new) orders.now so_far.new }
    ensures goes { GoesOn (C.sight c.old) (C.sight c.new) }
    ensures roots { (C.sight c.new).roots ≡ (C.sight c.old).roots }
    ensures next { result ≡ Tried.Applied → so_far.new.next ≡ so_far.old.next + 1 }
    ensures unchanged { result ≢ Tried.Applied → so_far.new ≡ so_far.old }
    ensures told { so_far.new.told ≡ so_far.old.told }
    ensures full { result ≡ Tried.Full → (C.sight c.new).room ≡ 0 }
    ensures changed { result ≡ Tried.Changed → IsChanged (C.sight c.new) stamp }
    ensures tends { (C.sight c.new).tends ≡ (C.sight c.old).tends }
    ensures moves { (C.sight c.new).moves ≡ (C.sight c.old).moves }
    ensures same { result ≡ Tried.Full → C.sight c.new ≡ C.sight c.old }
    ensures greater { result ≡ Tried.Changed
        → FindsGreater (C.sight c.old) (C.sight c.new) stamp }
{
    let Attempt {
        refs,
        numbers,
        done,
    } = attempt;
    if so_far.done.push(done).is_err() {
        return Tried::Memory;
    }
    match c.store_if(COMMON, stamp, refs, numbers) {
        Ok(()) => {
            so_far.next += 1;
            so_far.resting = numbers[8];
            Tried::Applied
        }
        Err(refused) => {
            so_far.done.pop();
            Tried::from(refused)
        }
    }
}

/// Attempts the next order, which is admitted or not, at the book as it is.
fn attempt<C: Worker<BookUsage>>(
    alloc: Global,
    c: &mut C,
    orders: &[Order],
    so_far: &mut Progress,
    admitted: bool,
) -> Tried
    requires work { IsAtWork (C.sight c.old) orders.now so_far.old }
    requires more { so_far.old.next < length orders.now }
    requires settled { so_far.old.told ≡ so_far.old.next }
    requires admits { IfSome (slice_get orders.now so_far.old.next)
        (λ order. admitted ≡ admits (C.sight c.old).usage.limits order) }
    ensures work { IsAtWork (C.sight c.new) orders.now so_far.new }
    ensures goes { GoesOn (C.sight c.old) (C.sight c.new) }
    ensures next { result ≡ Tried.Applied → so_far.new.next ≡ so_far.old.next + 1 }
    ensures board { result ≡ Tried.Applied → name_at (C.sight c.new).roots 7 ≡ Some board_name }
    ensures unchanged { result ≢ Tried.Applied → so_far.new ≡ so_far.old }
    ensures told { so_far.new.told ≡ so_far.old.told }
    ensures full { result ≡ Tried.Full → (C.sight c.new).room ≡ 0 }
    ensures changed { result ≡ Tried.Changed
        → IsChanged (C.sight c.new) (book_stamp (C.sight c.old)) }
    ensures tends { (C.sight c.new).tends ≡ (C.sight c.old).tends }
    ensures moves { (C.sight c.new).moves ≡ (C.sight c.old).moves }
    ensures hindered { result ≡ Tried.Full
        → IsHindered 1 orders.now so_far.old.next (C.sight c.old) (C.sight c.new) }
    ensures overtaken { result ≡ Tried.Changed → WasOvertaken (C.sight c.old) (C.sight c.new) }
{
    let at = fetch_book(c);
    let order = &orders[so_far.next as usize];
    match build(alloc, c, &at, order, admitted) {
        Ok(attempt) => store(c, orders, so_far, at.stamp, attempt),
        Err(refused) => Tried::from(refused),
    }
}

/// Applies the next order, which is admitted or not.
pub(crate) fn apply<C: Worker<BookUsage>>(
    alloc: Global,
    c: &mut C,
    orders: &[Order],
    so_far: &mut Progress,
    admitted: bool,
) -> Result<(), Halt>
    requires work { IsAtWork (C.sight c.old) orders.now so_far.old }
    requires more { so_far.old.next < length orders.now }
    requires settled { so_far.old.told ≡ so_far.old.next }
    requires admits { IfSome (slice_get orders.now so_far.old.next)
        (λ order. admitted ≡ admits (C.sight c.old).usage.limits order) }
    ensures work { IsAtWork (C.sight c.new) orders.now so_far.new }
    ensures goes { GoesOn (C.sight c.old) (C.sight c.new) }
    ensures next { OnOk result (so_far.new.next ≡ so_far.old.next + 1) }
    ensures board { OnOk result (name_at (C.sight c.new).roots 7 ≡ Some board_name) }
    ensures unchanged { OnErr result (so_far.new ≡ so_far.old) }
    ensures told { so_far.new.told ≡ so_far.old.told }
    ensures full { IfErr result (λ halt. IfFull halt (WasFull (C.sight c.old))) }
    ensures up { IfErr result (λ halt. IfFull halt (IsUsedUp (C.sight c.new))) }
    ensures tends { (C.sight c.old).tends ≤ (C.sight c.new).tends }
    ensures moves { (C.sight c.new).moves ≤ (C.sight c.old).moves + 8 }
    ensures hindered { IfErr result (λ halt. IfFull halt (λ used free.
        IsHindered 1 orders.now so_far.old.next (C.sight c.old) (C.sight c.new))) }
{
    let mut tended = false;
    loop {
        match attempt(alloc, c, orders, so_far, admitted) {
            Tried::Applied => return Ok(()),
            Tried::Changed => {}
            Tried::Full => meet_full(c, &mut tended)?,
            Tried::Memory => return Err(Halt::Memory),
        }
    }
}
