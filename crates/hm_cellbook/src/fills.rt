//! Trading with the orders of the opposite side, best first.
ghost use Rattle.std.specs.Prelude.{◌≡◌, ◌+◌, ◌*◌, ◌<◌, ◌≤◌, [], nat_le, if◌then◌else◌, ℕ, List, Err, IfOk, IsOk, OnOk, length, option_and_then, Contains};
ghost use Rattle.hm_orders.specs.Orders.{IsTradingSide};
ghost use Rattle.hm_model.specs.Building.{Builds};
ghost use Rattle.hm_list.specs.Places.{AreUnset, SameOutside};
ghost use Rattle.hm_book.specs.declared.book.Resting.{Resting};
ghost use Rattle.hm_book.specs.Trading.{after_fill, best_opposite, if_crossed, trades};
ghost use Rattle.hm_agreement.specs.Cells.{id_of};
ghost use Rattle.hm_cellbook.specs.Fetched.{book_allowed, book_lawful};
ghost use Rattle.hm_cellbook.specs.Working.{Begins, BeginsOn, HasTraded, IsSpotOf, IsWorking, WorksOn};

use crate::attempt::AttemptRefused;
use crate::pairs::{
    Spot, TOP, id_key, ids_place, opposite, pair_on, place_of, resting_in, spot_of,
};
use crate::usage::BookUsage;
use hm_book::{Resting, crosses};
use hm_list::{Key, first, put, remove};
use hm_model::Caller;
use hm_orders::{Fill, Order};
use std::alloc::Global;

/// What trading has made of an order.
#[derive(Drop)]
pub(crate) struct Trading {
    pub fills: Vec<Fill>,
    /// What is left of the order.
    pub left: u32,
    /// How many orders rest.
    pub resting: u64,
}

/// The resting order, if the order crosses it.
fn if_crossed(order: &Order, resting: Resting) -> Option<Resting>
    ensures { result ≡ if_crossed order.now resting }
{
    if crosses(order, &resting) {
        Some(resting)
    } else {
        None
    }
}

/// The best opposite order, if the order crosses it.
fn next_maker<C: Caller<BookUsage>>(c: &mut C, order: &Order) -> Option<Resting>
    requires working { IsWorking (C.sight c.old) }
    requires trading { IsTradingSide order.now.side }
    ensures maker { (book : List Resting) → WorksOn (C.sight c.old) book
        → result ≡ option_and_then (if_crossed order.now) (best_opposite order.now.side book) }
    ensures works { (book : List Resting) → WorksOn (C.sight c.old) book
        → WorksOn (C.sight c.new) book }
    ensures builds { Builds book_lawful book_allowed (C.sight c.old) (C.sight c.new) 0 }
    ensures others { SameOutside (C.sight c.old) (C.sight c.new) 11 17 }
    ensures unset { AreUnset (C.sight c.new) 11 17 }
{
    let side = opposite(order.side);
    let pair = first(c, place_of(side), TOP)?;
    if_crossed(order, resting_in(side, pair))
}

/// Puts what is left of a maker into its side.
fn put_back<C: Caller<BookUsage>>(
    alloc: Global,
    c: &mut C,
    maker: &Resting,
    quantity: u32,
) -> Result<(), AttemptRefused>
    requires working { IsWorking (C.sight c.old) }
    requires trading { IsTradingSide maker.now.side }
    requires less { quantity < maker.now.quantity }
    ensures taken { (book : List Resting) → WorksOn (C.sight c.old) book → Contains book maker.now
        → OnOk result (WorksOn (C.sight c.new) (after_fill maker.now.root quantity book)) }
    ensures builds { (book : List Resting) → WorksOn (C.sight c.old) book
        → Builds book_lawful book_allowed (C.sight c.old) (C.sight c.new) (2 * (length book + 9)) }
    ensures others { SameOutside (C.sight c.old) (C.sight c.new) 8 17 }
    ensures unset { AreUnset (C.sight c.new) 11 17 }
    ensures full { result ≡ Err AttemptRefused.Full → (C.sight c.new).room ≡ 0 }
{
    let kept = Resting {
        quantity: maker.quantity - quantity,
        ..*maker
    };
    put(alloc, c, place_of(kept.side), pair_on(&kept), TOP)?;
    Ok(())
}

/// Takes the order with this spot, and this key among the resting ids, out of the book.
pub(crate) fn take_out<C: Caller<BookUsage>>(
    alloc: Global,
    c: &mut C,
    spot: Spot,
    id: Key,
) -> Result<(), AttemptRefused>
    requires working { IsWorking (C.sight c.old) }
    requires trading { IsTradingSide spot.side }
    ensures taken { (book : List Resting) (maker : Resting) (quantity : ℕ)
        → WorksOn (C.sight c.old) book → Contains book maker → IsSpotOf spot maker
        → id ≡ (id_of maker).key → maker.quantity ≤ quantity
        → OnOk result (WorksOn (C.sight c.new) (after_fill maker.root quantity book)) }
    ensures builds { (book : List Resting) → WorksOn (C.sight c.old) book
        → Builds book_lawful book_allowed (C.sight c.old) (C.sight c.new) (2 * (length book + 9)) }
    ensures others { SameOutside (C.sight c.old) (C.sight c.new) 8 17 }
    ensures unset { AreUnset (C.sight c.new) 11 17 }
    ensures full { result ≡ Err AttemptRefused.Full → (C.sight c.new).room ≡ 0 }
{
    remove(alloc, c, place_of(spot.side), spot.key, TOP)?;
    remove(alloc, c, ids_place(), id, TOP)?;
    Ok(())
}

/// Takes so much from a maker, which keeps what is left or, where that is nothing, is taken out. Answers how many
/// orders were taken out.
fn take_from<C: Caller<BookUsage>>(
    alloc: Global,
    c: &mut C,
    maker: &Resting,
    quantity: u32,
) -> Result<u64, AttemptRefused>
    requires working { IsWorking (C.sight c.old) }
    requires trading { IsTradingSide maker.now.side }
    ensures taken { (book : List Resting) → WorksOn (C.sight c.old) book → Contains book maker.now
        → OnOk result (WorksOn (C.sight c.new) (after_fill maker.now.root quantity book)) }
    ensures out { IfOk result (λ n. n ≡ (if nat_le maker.now.quantity quantity then 1 else 0)) }
    ensures builds { (book : List Resting) → WorksOn (C.sight c.old) book
        → Builds book_lawful book_allowed (C.sight c.old) (C.sight c.new) (2 * (length book + 9)) }
    ensures others { SameOutside (C.sight c.old) (C.sight c.new) 8 17 }
    ensures unset { AreUnset (C.sight c.new) 11 17 }
    ensures full { result ≡ Err AttemptRefused.Full → (C.sight c.new).room ≡ 0 }
{
    if maker.quantity <= quantity {
        take_out(alloc, c, spot_of(maker), id_key(maker.file, maker.id))?;
        return Ok(1);
    }
    put_back(alloc, c, maker, quantity)?;
    Ok(0)
}

/// Trades an order with the best opposite orders that it crosses, while quantity is left. So many fills were made
/// before, and so many orders rest.
pub(crate) fn trade<C: Caller<BookUsage>>(
    alloc: Global,
    c: &mut C,
    order: &Order,
    root: u64,
    made: u64,
    resting: u64,
) -> Result<Trading, AttemptRefused>
    requires begins { Begins (C.sight c.old) root resting }
    requires trading { IsTradingSide order.now.side }
    requires unset { AreUnset (C.sight c.old) 11 17 }
    requires numbers { made + resting < 18446744073709551615 }
    ensures traded { IfOk result (λ t. (book : List Resting)
        → BeginsOn (C.sight c.old) root resting book → HasTraded (C.sight c.new)
        (trades (length book) order.now root (made + 1) order.now.quantity book)
        t.fills.items t.left t.resting) }
    ensures builds { (book : List Resting) → BeginsOn (C.sight c.old) root resting book
        → Builds book_lawful book_allowed (C.sight c.old) (C.sight c.new) (2 * length
        (trades (length book) order.now root (made + 1) order.now.quantity book).fills
        * (length book + 9)) }
    ensures answered { (book : List Resting) → BeginsOn (C.sight c.old) root resting book
        → (trades (length book) order.now root (made + 1) order.now.quantity book).fills ≡ []
        → IsOk result }
    ensures same { IfOk result (λ t. t.fills.items ≡ []
        → SameOutside (C.sight c.old) (C.sight c.new) 11 17) }
    ensures others { SameOutside (C.sight c.old) (C.sight c.new) 8 17 }
    ensures unset { AreUnset (C.sight c.new) 11 17 }
    ensures full { result ≡ Err AttemptRefused.Full → (C.sight c.new).room ≡ 0 }
{
    let mut fills = Vec::new(alloc);
    let mut left = order.quantity;
    let mut remaining = resting;
    while left > 0 {
        let Some(maker) = next_maker(c, order) else {
            break;
        };
        let quantity = left.min(maker.quantity);
        fills.push(Fill {
            number: made + 1 + fills.len() as u64,
            taker: root,
            maker: maker.root,
            price: maker.price,
            quantity,
        })?;
        remaining -= take_from(alloc, c, &maker, quantity)?;
        left -= quantity;
    }
    Ok(Trading {
        fills,
        left,
        resting: remaining,
    })
}
