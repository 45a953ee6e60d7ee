//! Orders applied one after another, and what became of each.
ghost use Rattle.std.specs.Prelude.{IsTrue};
ghost use Rattle.hm_orders.specs.Orders.{IsWellFormed};

use super::*;
use hm_orders::Fate::{Cancelled, Denied, Dropped, Filled, Repeated, Rested, Unknown};
use hm_orders::Kind::{Cancel, Immediate, Limit, Market};
use hm_orders::Side::{Buy, Neither, Sell};
use hm_orders::{Fate, Fill, Kind};
use std::process::Abort;
use std::test::Fail;

/// The number, the taker, the maker, the price and the quantity of a fill.
type Trade = (u64, u64, u64, u32, u32);

/// The kind, the id, the side, the price and the quantity of an order, as its file's row has them.
type Row = (Kind, u32, Side, u32, u32);

/// The file of an order and its row, and then its fate and its fills.
type Case = (u32, Row, Fate, &'static [Trade]);

fn trade_of(fill: &Fill) -> Trade {
    (
        fill.number,
        fill.taker,
        fill.maker,
        fill.price,
        fill.quantity,
    )
}

fn order_of(file: u32, row: &Row) -> Order {
    let (kind, id, side, price, quantity) = *row;
    Order {
        file,
        row: 1,
        kind,
        id,
        side,
        price,
        quantity,
    }
}

/// Whether a row of an order file can give the order.
fn is_well_formed(order: Order) -> bool
    ensures { IsTrue result → IsWellFormed order }
{
    match (order.kind, order.side) {
        (Limit | Immediate, Buy | Sell) => order.price > 0 && order.quantity > 0,
        (Market, Buy | Sell) => order.price == 0 && order.quantity > 0,
        (Cancel, Neither) => order.price == 0 && order.quantity == 0,
        _ => false,
    }
}

/// Applies the orders to an empty book, and asserts what becomes of each and how many rest in the end.
fn play(
    rt: &impl Abort,
    alloc: Global,
    name: &str,
    limits: &Limits,
    cases: &[Case],
    resting: u64,
) -> Result<(), Memory> {
    let mut book = Book::new(alloc);
    for (file, row, fate, fills) in cases {
        let order = order_of(*file, row);
        assert!(rt; is_well_formed(order), "{name}");
        assert!(rt; book.applied < 100, "{name}");
        let done = book.apply(limits, &order)?;
        assert_eq!(rt; done.fate, *fate, "{name}");
        assert_eq!(rt; done.fills.items().len(), fills.len(), "{name}");
        for (fill, trade) in done.fills.items().iter().zip(fills.iter()) {
            assert_eq!(rt; trade_of(fill), *trade, "{name}");
        }
    }
    assert_eq!(rt; book.resting(), resting, "{name}");
    Ok(())
}

#[test]
fn orders_trade_by_price_and_then_by_time(rt: HostRuntime) -> Result<(), Fail> {
    let scenarios: [(&str, &[Case], u64); 5] = [
        (
            "a part of the maker stays, and the price is its own",
            &[
                (1, (Limit, 1, Buy, 10, 5), Rested, &[]),
                (1, (Limit, 2, Sell, 9, 3), Filled, &[(1, 2, 1, 10, 3)]),
            ],
            1,
        ),
        (
            "at one price the earlier order is first",
            &[
                (1, (Limit, 1, Buy, 10, 4), Rested, &[]),
                (1, (Limit, 2, Buy, 10, 6), Rested, &[]),
                (
                    1,
                    (Limit, 3, Sell, 10, 10),
                    Filled,
                    &[(1, 3, 1, 10, 4), (2, 3, 2, 10, 6)],
                ),
            ],
            0,
        ),
        (
            "an id that rests is repeated, and free again once its order is filled",
            &[
                (1, (Limit, 1, Buy, 10, 5), Rested, &[]),
                (1, (Limit, 1, Buy, 11, 2), Repeated, &[]),
                (1, (Limit, 2, Sell, 10, 5), Filled, &[(1, 3, 1, 10, 5)]),
                (1, (Limit, 1, Buy, 9, 1), Rested, &[]),
            ],
            1,
        ),
        (
            "a sell takes the higher price first, and its rest rests",
            &[
                (1, (Limit, 1, Buy, 10, 3), Rested, &[]),
                (1, (Limit, 2, Buy, 12, 2), Rested, &[]),
                (
                    1,
                    (Limit, 3, Sell, 10, 6),
                    Rested,
                    &[(1, 3, 2, 12, 2), (2, 3, 1, 10, 3)],
                ),
            ],
            1,
        ),
        (
            "a maker keeps what is left of it for the next order",
            &[
                (1, (Limit, 1, Sell, 7, 5), Rested, &[]),
                (1, (Limit, 2, Buy, 8, 2), Filled, &[(1, 2, 1, 7, 2)]),
                (1, (Limit, 3, Buy, 7, 3), Filled, &[(2, 3, 1, 7, 3)]),
            ],
            0,
        ),
    ];
    for (name, cases, resting) in scenarios {
        play(&rt, rt.alloc(), name, &Limits::NONE, cases, resting)?;
    }
    Ok(())
}

#[test]
fn an_order_that_is_not_a_limit_order_never_rests(rt: HostRuntime) -> Result<(), Fail> {
    let scenarios: [(&str, &[Case], u64); 3] = [
        (
            "what is left of a market order is thrown away",
            &[
                (1, (Limit, 1, Buy, 10, 5), Rested, &[]),
                (1, (Market, 2, Sell, 0, 9), Dropped, &[(1, 2, 1, 10, 5)]),
            ],
            0,
        ),
        (
            "a cancel takes out what it names once",
            &[
                (1, (Limit, 1, Buy, 10, 5), Rested, &[]),
                (1, (Cancel, 1, Neither, 0, 0), Cancelled, &[]),
                (1, (Cancel, 1, Neither, 0, 0), Unknown, &[]),
            ],
            0,
        ),
        (
            "a cancel names orders of its own file",
            &[
                (1, (Limit, 1, Buy, 10, 5), Rested, &[]),
                (2, (Cancel, 1, Neither, 0, 0), Unknown, &[]),
            ],
            1,
        ),
    ];
    for (name, cases, resting) in scenarios {
        play(&rt, rt.alloc(), name, &Limits::NONE, cases, resting)?;
    }
    Ok(())
}

#[test]
fn limits_deny_what_is_too_much_or_out_of_range(rt: HostRuntime) -> Result<(), Fail> {
    let limits = Limits {
        max_quantity: 100,
        low: 5,
        high: 20,
    };
    let cases: [Case; 7] = [
        (1, (Limit, 1, Buy, 10, 5), Rested, &[]),
        (1, (Limit, 2, Buy, 9, 101), Denied, &[]),
        (1, (Immediate, 3, Sell, 9, 8), Dropped, &[(1, 3, 1, 10, 5)]),
        (1, (Market, 4, Buy, 0, 2), Dropped, &[]),
        (1, (Limit, 5, Sell, 21, 1), Denied, &[]),
        (1, (Limit, 6, Sell, 12, 4), Rested, &[]),
        (1, (Cancel, 6, Neither, 0, 0), Cancelled, &[]),
    ];
    play(&rt, rt.alloc(), "limits", &limits, &cases, 0)?;
    Ok(())
}
