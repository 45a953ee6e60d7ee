//! What an order does to the resting orders.
ghost use Rattle.std.specs.Prelude.{◌≡◌, ◌+◌, ◌<◌, [], length, position, AllPairs, IsFalse, IsOk, IfOk, OnOk, OnErr};
ghost use Rattle.hm_book.specs.Effect.{came_to_trade, cancel_effect, effect_of, has_name, keeps_rest, rest_of, rests, trade_effect};

use crate::book::{Memory, Resting};
use crate::limits::Limits;
use crate::queue::{fills_along, queue_of, take_fills};
use hm_orders::{Fate, Fill, Kind, Order};
use std::alloc::Global;

/// What became of an order, and its fills.
#[derive(Drop)]
pub(crate) struct Outcome {
    pub fate: Fate,
    pub fills: Vec<Fill>,
}

/// The outcome of an order that makes no fill.
fn no_fill(alloc: Global, fate: Fate) -> Outcome
    ensures fate { result.fate ≡ fate }
    ensures fills { result.fills.items ≡ [] }
{
    Outcome {
        fate,
        fills: Vec::new(alloc),
    }
}

/// Whether the resting order is of the order's file and has its id.
fn has_name_of(resting: &Resting, order: &Order) -> bool
    ensures { result ≡ has_name order.now.file order.now.id resting.now }
{
    resting.file == order.file && resting.id == order.id
}

/// Whether an order of its file with its id rests.
fn rests(resting: &[Resting], order: &Order) -> bool
    ensures { result ≡ rests order.now.file order.now.id resting.now }
{
    resting.iter().any(|other| has_name_of(other, order))
}

/// The place of the order of its file with its id among those that rest.
fn place_of(resting: &[Resting], order: &Order) -> Option<usize>
    ensures { result ≡ position (has_name order.now.file order.now.id) resting.now }
{
    resting.iter().position(|other| has_name_of(other, order))
}

/// Takes out the resting order of its file with its id, if there is one.
fn cancel(resting: &mut Vec<Resting>, order: &Order) -> Fate
    ensures fate { result ≡ (cancel_effect order.now resting.old.items).fate }
    ensures book { resting.new.items ≡ (cancel_effect order.now resting.old.items).book }
{
    match place_of(resting, order) {
        Some(place) => {
            resting.remove(place);
            Fate::Cancelled
        }
        None => Fate::Unknown,
    }
}

/// What is left of an order with this root number, as it rests.
pub fn rest_of(order: &Order, root: u64, left: u32) -> Resting
    ensures { result ≡ rest_of order.now root left }
{
    Resting {
        side: order.side,
        price: order.price,
        root,
        file: order.file,
        row: order.row,
        id: order.id,
        quantity: left,
    }
}

/// Whether what is left of an order of this kind rests. Else it is thrown away.
fn keeps_rest(kind: Kind) -> bool
    ensures { result ≡ keeps_rest kind }
{
    matches!(kind, Kind::Limit)
}

/// Trades an order, and lets what is left of it rest or throws it away, by its kind. So many fills were made before.
/// After `Memory` the resting orders are as before.
fn trade(
    alloc: Global,
    resting: &mut Vec<Resting>,
    order: &Order,
    root: u64,
    made: u64,
) -> Result<Outcome, Memory>
    requires fresh { IsFalse (rests order.now.file order.now.id resting.old.items) }
    requires rising { AllPairs (λ a b. a.root < b.root) resting.old.items }
    requires numbers { made + length resting.old.items < root }
    ensures fate { IfOk result (λ outcome.
        outcome.fate ≡ (trade_effect order.now root made resting.old.items).fate) }
    ensures fills { IfOk result (λ outcome.
        outcome.fills.items ≡ (trade_effect order.now root made resting.old.items).fills) }
    ensures book { OnOk result
        (resting.new.items ≡ (trade_effect order.now root made resting.old.items).book) }
    ensures memory { OnErr result (resting.new.items ≡ resting.old.items) }
{
    let queue = queue_of(alloc, resting, order)?;
    let (fills, left) = fills_along(alloc, &queue, order, root, made + 1)?;
    if left == 0 {
        take_fills(resting, order, &queue, &fills);
        return Ok(Outcome {
            fate: Fate::Filled,
            fills,
        });
    }
    if !keeps_rest(order.kind) {
        take_fills(resting, order, &queue, &fills);
        return Ok(Outcome {
            fate: Fate::Dropped,
            fills,
        });
    }
    // The room for the rest is taken before the fills are, since nothing may change where there is no memory.
    resting.reserve(1)?;
    take_fills(resting, order, &queue, &fills);
    resting.push_reserved(rest_of(order, root, left));
    Ok(Outcome {
        fate: Fate::Rested,
        fills,
    })
}

/// Carries out an order under the limits, by the first case that applies. So many fills were made before. After
/// `Memory` the resting orders are as before.
pub(crate) fn carry_out(
    alloc: Global,
    limits: &Limits,
    resting: &mut Vec<Resting>,
    order: &Order,
    root: u64,
    made: u64,
) -> Result<Outcome, Memory>
    requires rising { AllPairs (λ a b. a.root < b.root) resting.old.items }
    requires numbers { made + length resting.old.items < root }
    ensures fate { IfOk result (λ outcome.
        outcome.fate ≡ (effect_of limits.now order.now root made resting.old.items).fate) }
    ensures fills { IfOk result (λ outcome.
        outcome.fills.items ≡ (effect_of limits.now order.now root made resting.old.items).fills) }
    ensures book { OnOk result
        (resting.new.items ≡ (effect_of limits.now order.now root made resting.old.items).book) }
    ensures memory { OnErr result (resting.new.items ≡ resting.old.items) }
    ensures free { IsFalse
        (came_to_trade (effect_of limits.now order.now root made resting.old.items).fate)
        → IsOk result }
{
    if !limits.admits(order) {
        return Ok(no_fill(alloc, Fate::Denied));
    }
    if order.kind == Kind::Cancel {
        return Ok(no_fill(alloc, cancel(resting, order)));
    }
    if rests(resting, order) {
        return Ok(no_fill(alloc, Fate::Repeated));
    }
    trade(alloc, resting, order, root, made)
}
