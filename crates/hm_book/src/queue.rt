//! The queue of an order: the resting orders with which it can trade, best first.
//!
//! The queue is collected in one pass over the book and sorted. The order then takes from one maker after another, so
//! each maker but the last is used up. These, and no other orders of their side, go before the last maker, so one more
//! pass takes the fills out of the book.
ghost use Rattle.std.specs.Prelude.{◌≡◌, ◌+◌, ◌<◌, ◌≤◌, ◌^◌, length, vec_len, vec_capacity, AllPairs, IfOk};
ghost use Rattle.std.specs.List.{retain_mut};
ghost use Rattle.hm_book.specs.Queue.{book_after_all, can_trade, fills_along, left_along, stays, stays_as, AreFillsAlong, IsQueue};

use crate::book::{Memory, Resting};
use crate::priority::{can_trade, opposes, priority};
use hm_orders::{Fill, Order, Side};
use std::alloc::Global;

/// The resting orders with which the order can trade, best first.
pub(crate) fn queue_of(
    alloc: Global,
    resting: &[Resting],
    order: &Order,
) -> Result<Vec<Resting>, Memory>
    requires { AllPairs (λ a b. a.root < b.root) resting.now }
    ensures queue { IfOk result
        (λ queue. IsQueue order.now.side (can_trade order.now) resting.now queue.items) }
    ensures few { IfOk result (λ queue. length queue.items ≤ length resting.now) }
{
    let mut queue: Vec<Resting> = resting
        .iter()
        .copied()
        .filter(|maker| can_trade(order, maker))
        .collect(alloc)?;
    queue.sort_unstable_by(|a, b| priority(order.side, a, b));
    Ok(queue)
}

/// The fills of an order along its queue, numbered from `first` on, and the quantity that is left of it.
pub(crate) fn fills_along(
    alloc: Global,
    queue: &[Resting],
    order: &Order,
    taker: u64,
    first: u64,
) -> Result<(Vec<Fill>, u32), Memory>
    requires { first + length queue.now < 2 ^ 64 }
    ensures fills { IfOk result
        (λ made. made.0.items ≡ fills_along first taker order.now.quantity queue.now) }
    ensures left { IfOk result (λ made. made.1 ≡ left_along order.now.quantity queue.now) }
{
    let mut fills = Vec::new(alloc);
    let mut number = first;
    let mut left = order.quantity;
    for maker in queue {
        if left == 0 {
            break;
        }
        let quantity = left.min(maker.quantity);
        fills.push(Fill {
            number,
            taker,
            maker: maker.root,
            price: maker.price,
            quantity,
        })?;
        number += 1;
        left -= quantity;
    }
    Ok((fills, left))
}

/// Takes so much from the last maker. `false` where nothing is left of it, or the order was used up before it.
fn keep(resting: &mut Resting, side: Side, last: &Resting, quantity: u32) -> bool
    ensures stays { result ≡ stays side last.now quantity resting.old }
    ensures left { resting.new ≡ stays_as last.now quantity resting.old }
{
    if resting.root == last.root {
        resting.quantity = resting.quantity.saturating_sub(quantity);
        return resting.quantity > 0;
    }
    let used_up = opposes(side, resting.side) && priority(side, resting, last).is_lt();
    !used_up
}

/// Takes so much from the last maker, and all of each order on its side that goes before it.
fn take_up_to(resting: &mut Vec<Resting>, side: Side, last: &Resting, quantity: u32)
    ensures items { resting.new.items ≡ retain_mut
        (stays side last.now quantity) (stays_as last.now quantity) resting.old.items }
    ensures len { vec_len resting.new ≤ vec_len resting.old }
    ensures capacity { vec_capacity resting.new ≡ vec_capacity resting.old }
{
    resting.retain_mut(|maker| keep(maker, side, last, quantity));
}

/// Takes the fills of an order along its queue out of the book.
pub(crate) fn take_fills(
    resting: &mut Vec<Resting>,
    order: &Order,
    queue: &[Resting],
    fills: &[Fill],
)
    requires rising { AllPairs (λ a b. a.root < b.root) resting.old.items }
    requires queue { IsQueue order.now.side (can_trade order.now) resting.old.items queue.now }
    requires fills { AreFillsAlong queue.now fills.now }
    ensures items { resting.new.items ≡ book_after_all fills.now resting.old.items }
    ensures len { vec_len resting.new ≤ vec_len resting.old }
    ensures capacity { vec_capacity resting.new ≡ vec_capacity resting.old }
{
    if let Some(fill) = fills.last() {
        take_up_to(resting, order.side, &queue[fills.len() - 1], fill.quantity);
    }
}
