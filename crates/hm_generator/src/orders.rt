//! The orders of a file, made from a number.
ghost use Rattle.std.specs.Prelude.{◌≡◌, ◌≤◌, ◌<◌, length, IfOk};
ghost use Rattle.hm_orders.specs.Orders.{AreRowsOf};
ghost use Rattle.hm_generator.specs.Generated.{cancel_at, order_from, orders_made, side_from, trade_from};

use crate::generator::Generator;
use hm_edge::Memory;
use hm_orders::{Kind, Order, Side};
use std::alloc::Global;

/// The most orders that are made: as many as an order file may have rows.
pub const MOST_ORDERS: u64 = 1_000_000;

/// How many rows below its order a cancel stands. It is odd, so that the order of an even row cancels that of an odd.
const CANCELLED_AFTER: u64 = 63;

/// Makes the orders of rows 1 to `count` of file 1 from a number.
///
/// State 0 is `number`. Behind a state x comes (6364136223846793005 · x + 1442695040888963407) mod 2^64, and row r
/// draws h, which is state r divided by 2^32, rounded down. Row r holds
///
/// - where r is odd, a limit order,
/// - where r is even and below 64, an immediate order,
/// - where r is even and 64 or more, a cancel of the order with id r - 63.
///
/// An order that trades has id r. It buys where h is even, else it sells; its price is 1000 + (h / 2) mod 16 and its
/// quantity 1 + (h / 32) mod 8, divisions rounded down. A cancel has no side, and price and quantity 0.
///
/// # Errors
///
/// [`Memory`] where it ran out.
pub fn generate_orders(alloc: Global, number: u64, count: u64) -> Result<Vec<Order>, Memory>
    requires { count ≤ MOST_ORDERS }
    ensures orders { IfOk result (λ orders. orders.items ≡ orders_made number count) }
    ensures rows { IfOk result (λ orders. AreRowsOf 1 orders.items) }
    ensures count { IfOk result (λ orders. length orders.items ≡ count) }
{
    let mut generator = Generator { state: number };
    let mut orders = Vec::with_capacity(alloc, count as usize)?;
    for row in 1..=count {
        orders.push(order_from(row, generator.next()))?;
    }
    Ok(orders)
}

/// The order of a row that drew `drawn`.
fn order_from(row: u64, drawn: u32) -> Order
    requires { row ≤ MOST_ORDERS }
    ensures { result ≡ order_from row drawn }
{
    if row % 2 == 1 {
        trade(Kind::Limit, row, drawn)
    } else if row <= CANCELLED_AFTER {
        trade(Kind::Immediate, row, drawn)
    } else {
        cancel(row)
    }
}

/// The order of a row that trades.
fn trade(kind: Kind, row: u64, drawn: u32) -> Order
    requires { row ≤ MOST_ORDERS }
    ensures { result ≡ trade_from kind row drawn }
{
    Order {
        file: 1,
        row,
        kind,
        id: row as u32,
        side: side(drawn),
        price: 1000 + drawn / 2 % 16,
        quantity: 1 + drawn / 32 % 8,
    }
}

/// The side of an order that trades.
fn side(drawn: u32) -> Side
    ensures { result ≡ side_from drawn }
{
    if drawn.is_multiple_of(2) {
        Side::Buy
    } else {
        Side::Sell
    }
}

/// The cancel of a row from 64 on.
fn cancel(row: u64) -> Order
    requires later { CANCELLED_AFTER < row }
    requires fits { row ≤ MOST_ORDERS }
    ensures { result ≡ cancel_at row }
{
    Order {
        file: 1,
        row,
        kind: Kind::Cancel,
        id: (row - CANCELLED_AFTER) as u32,
        side: Side::Neither,
        price: 0,
        quantity: 0,
    }
}
