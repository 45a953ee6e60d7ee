//! How a caller tells the board how many of its orders are applied.
ghost use Rattle.std.specs.Prelude.{◌≡◌, ◌⊎◌, ◌+◌, ◌<◌, ◌≤◌, Some, OnOk, OnErr, IsErr, IfErr};
ghost use Rattle.hm_model.specs.Sight.{name_at};
ghost use Rattle.hm_agreement.specs.Cells.{board_name};
ghost use Rattle.hm_desk.specs.Stalling.{IfFull, IsUsedUp, WasFull};
ghost use Rattle.hm_desk.specs.Hindered.{FetchesCommon, IsHindered, Settles, TakesFew};
ghost use Rattle.hm_desk.specs.Working.{GoesOn, GoesQuietly, IsAtDesk, IsAtWork};

use crate::applying::COMMON;
use crate::halt::{Halt, meet_full};
use crate::progress::Progress;
use hm_cellbook::BookUsage;
use hm_model::{Full, Root, Worker};
use hm_orders::Order;

/// Where the board is named.
const BOARD: Root = Root(7);

/// Names the board, which is the common object's reference 3.
fn fetch_board<C: Worker<BookUsage>>(c: &mut C)
    requires desk { IsAtDesk (C.sight c.old) }
    ensures desk { IsAtDesk (C.sight c.new) }
    ensures quiet { GoesQuietly (C.sight c.old) (C.sight c.new) }
    ensures board { name_at (C.sight c.new).roots 7 ≡ Some board_name }
    ensures tends { (C.sight c.new).tends ≡ (C.sight c.old).tends }
    ensures moves { (C.sight c.new).moves ≡ (C.sight c.old).moves }
    ensures entry { FetchesCommon (C.sight c.old) (C.sight c.new) }
{
    c.fetch_ref(COMMON, 3, BOARD);
}

/// Stores the owed number on the board.
fn store_owed<C: Worker<BookUsage>>(
    c: &mut C,
    orders: &[Order],
    so_far: &mut Progress,
) -> Result<(), Full>
    requires work { IsAtWork (C.sight c.old) orders.now so_far.old }
    requires owed { so_far.old.told + 1 ≡ so_far.old.next }
    requires board { name_at (C.sight c.old).roots 7 ≡ Some board_name }
    ensures work { IsAtWork (C.sight c.new) orders.now so_far.new }
    ensures goes { GoesOn (C.sight c.old) (C.sight c.new) }
    ensures next { so_far.new.next ≡ so_far.old.next }
    ensures told { OnOk result (so_far.new.told ≡ so_far.new.next) }
    ensures full { IsErr result → (C.sight c.new).room ≡ 0 }
    ensures unchanged { OnErr result (so_far.new ≡ so_far.old) }
    ensures same { OnErr result (C.sight c.new ≡ C.sight c.old) }
    ensures tends { (C.sight c.new).tends ≡ (C.sight c.old).tends }
    ensures moves { (C.sight c.new).moves ≡ (C.sight c.old).moves }
    ensures few { OnOk result (TakesFew 1 (C.sight c.old) (C.sight c.new)) }
{
    // The files are numbered one above their callers.
    let number = orders[0].file - 1;
    c.store_number(BOARD, number, so_far.next)?;
    so_far.told = so_far.next;
    Ok(())
}

/// Tells the board the owed number.
pub(crate) fn tell<C: Worker<BookUsage>>(
    c: &mut C,
    orders: &[Order],
    so_far: &mut Progress,
) -> Result<(), Halt>
    requires work { IsAtWork (C.sight c.old) orders.now so_far.old }
    requires owed { so_far.old.told + 1 ≡ so_far.old.next }
    requires board { name_at (C.sight c.old).roots 7 ≡ Some board_name }
    ensures work { IsAtWork (C.sight c.new) orders.now so_far.new }
    ensures goes { GoesOn (C.sight c.old) (C.sight c.new) }
    ensures next { so_far.new.next ≡ so_far.old.next }
    ensures told { OnOk result (so_far.new.told ≡ so_far.new.next) }
    ensures full { IfErr result (λ halt. IfFull halt (WasFull (C.sight c.old))) }
    ensures up { IfErr result (λ halt. IfFull halt (IsUsedUp (C.sight c.new))) }
    ensures empty { IsErr result → (C.sight c.old).room ≡ 0 }
    ensures tends { (C.sight c.old).tends ≤ (C.sight c.new).tends }
    ensures moves { (C.sight c.new).moves ≤ (C.sight c.old).moves + 8 }
    ensures tended { OnErr result ((C.sight c.old).tends < (C.sight c.new).tends) }
    ensures few { OnOk result
        (((C.sight c.old).room ≡ 0) ⊎ TakesFew 1 (C.sight c.old) (C.sight c.new)) }
{
    let mut tended = false;
    loop {
        match store_owed(c, orders, so_far) {
            Ok(()) => return Ok(()),
            Err(Full) => meet_full(c, &mut tended)?,
        }
    }
}

/// The same, where it is owed a number. It may not be named then.
pub(crate) fn settle<C: Worker<BookUsage>>(
    c: &mut C,
    orders: &[Order],
    so_far: &mut Progress,
) -> Result<(), Halt>
    requires work { IsAtWork (C.sight c.old) orders.now so_far.old }
    ensures work { IsAtWork (C.sight c.new) orders.now so_far.new }
    ensures goes { GoesOn (C.sight c.old) (C.sight c.new) }
    ensures next { so_far.new.next ≡ so_far.old.next }
    ensures told { OnOk result (so_far.new.told ≡ so_far.new.next) }
    ensures full { IfErr result (λ halt. IfFull halt (WasFull (C.sight c.old))) }
    ensures up { IfErr result (λ halt. IfFull halt (IsUsedUp (C.sight c.new))) }
    ensures tends { (C.sight c.old).tends ≤ (C.sight c.new).tends }
    ensures moves { (C.sight c.new).moves ≤ (C.sight c.old).moves + 8 }
    ensures hindered { OnErr result
        (IsHindered 0 orders.now so_far.old.next (C.sight c.old) (C.sight c.new)) }
    ensures settled { OnOk result
        (IsHindered 0 orders.now so_far.old.next (C.sight c.old) (C.sight c.new)
        ⊎ Settles (C.sight c.old) (C.sight c.new)) }
{
    if so_far.told == so_far.next {
        return Ok(());
    }
    fetch_board(c);
    tell(c, orders, so_far)
}
