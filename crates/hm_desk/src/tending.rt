//! How a caller tends the heap between its orders and at want of room.
ghost use Rattle.std.specs.Prelude.{◌+◌, ◌<◌, ◌≤◌};
ghost use Rattle.hm_model.specs.Tending.{KeepsNames};

use hm_cellbook::BookUsage;
use hm_model::{Tended, Worker};

/// How often one tending may move the collector's cycle on.
const MOST_MOVES: u32 = 8;

/// Tends until the caller freed versions. Where there is nothing more to be done before that, the answer is false.
pub(crate) fn make_room<C: Worker<BookUsage>>(c: &mut C) -> bool
    ensures same { KeepsNames (C.sight c.old) (C.sight c.new) }
    ensures tends { (C.sight c.old).tends < (C.sight c.new).tends }
    ensures moves { (C.sight c.new).moves ≤ (C.sight c.old).moves + 8 }
{
    let mut moves = 0;
    while moves < MOST_MOVES {
        match c.tend() {
            Tended::Freed { .. } => return true,
            Tended::Nothing | Tended::Waits { .. } | Tended::NoRoom | Tended::Spent => return false,
            Tended::Advanced => moves += 1,
            _ => {}
        }
    }
    false
}

/// Tends after an order, until there is nothing more to be done or a piece was looked at.
pub(crate) fn tend_after<C: Worker<BookUsage>>(c: &mut C)
    ensures same { KeepsNames (C.sight c.old) (C.sight c.new) }
    ensures tends { (C.sight c.old).tends < (C.sight c.new).tends }
    ensures moves { (C.sight c.new).moves ≤ (C.sight c.old).moves + 8 }
{
    let mut moves = 0;
    while moves < MOST_MOVES {
        match c.tend() {
            Tended::Nothing
            | Tended::Looked
            | Tended::Waits { .. }
            | Tended::NoRoom
            | Tended::Spent => return,
            Tended::Advanced => moves += 1,
            _ => {}
        }
    }
}
