//! With which resting orders an order trades, and with which first.
ghost use Rattle.std.specs.Prelude.{◌≡◌};
ghost use Rattle.std.specs.Ordering.{is_lt};
ghost use Rattle.hm_book.specs.Trading.{crosses, goes_before, opposes, reaches};
ghost use Rattle.hm_book.specs.Queue.{can_trade};

use crate::book::Resting;
use hm_orders::{Kind, Order, Side};
use std::cmp::Ordering;

/// Whether two sides trade with one another.
pub(crate) fn opposes(side: Side, other: Side) -> bool
    ensures { result ≡ opposes side other }
{
    matches!(
        (side, other),
        (Side::Buy, Side::Sell) | (Side::Sell, Side::Buy)
    )
}

/// Whether an order with a limit reaches a resting price.
fn reaches(side: Side, price: u32, resting: u32) -> bool
    ensures { result ≡ reaches side price resting }
{
    match side {
        Side::Buy => resting <= price,
        Side::Sell => price <= resting,
        Side::Neither => false,
    }
}

/// Whether an order crosses a resting one, which is taken to be of the other side: whether its limit reaches the
/// resting price. An order without a limit crosses every other, and a cancel none.
pub fn crosses(order: &Order, resting: &Resting) -> bool
    ensures { result ≡ crosses order.now resting.now }
{
    match order.kind {
        Kind::Limit | Kind::Immediate => reaches(order.side, order.price, resting.price),
        Kind::Market => true,
        Kind::Cancel => false,
    }
}

/// Whether the order can trade with the resting one.
pub(crate) fn can_trade(order: &Order, resting: &Resting) -> bool
    ensures { result ≡ can_trade order.now resting.now }
{
    opposes(order.side, resting.side) && crosses(order, resting)
}

/// `Less` where an order on this side trades with `a` before `b`: by price, then by root number.
pub(crate) fn priority(side: Side, a: &Resting, b: &Resting) -> Ordering
    ensures { is_lt result ≡ goes_before side a.now b.now }
{
    let by_price = match side {
        Side::Buy => a.price.cmp(&b.price),
        Side::Sell => b.price.cmp(&a.price),
        Side::Neither => Ordering::Equal,
    };
    by_price.then(a.root.cmp(&b.root))
}
