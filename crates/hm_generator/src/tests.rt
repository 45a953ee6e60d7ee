//! That the rule's numbers are those that were meant, and that a call succeeds where memory is ample.
use crate::generator::Generator;
use crate::orders::{MOST_ORDERS, generate_orders};
use hm_orders::{Kind, Order, Side};
use std::test::Fail;

fn order(row: u64, kind: Kind, id: u32, side: Side, price: u32, quantity: u32) -> Order {
    Order {
        file: 1,
        row,
        kind,
        id,
        side,
        price,
        quantity,
    }
}

#[test]
fn seven_is_followed_by_these_states(rt: HostRuntime) {
    let mut generator = Generator { state: 7 };
    for (state, drawn) in [
        (9_098_160_460_397_411_210, 2_118_330_556),
        (17_628_806_926_561_717_905, 4_104_526_463),
    ] {
        assert_eq!(rt; generator.next(), drawn);
        assert_eq!(rt; generator.state, state);
    }
}

// The rows are those that scripts/generate_file writes.
#[test]
fn seven_makes_these_orders(rt: HostRuntime) -> Result<(), Fail> {
    let orders = generate_orders(rt.alloc(), 7, 70)?;
    assert_eq!(rt; orders.len(), 70);
    for want in [
        order(1, Kind::Limit, 1, Side::Buy, 1014, 6),
        order(2, Kind::Immediate, 2, Side::Sell, 1015, 4),
        order(62, Kind::Immediate, 62, Side::Buy, 1005, 7),
        order(63, Kind::Limit, 63, Side::Buy, 1003, 4),
        order(64, Kind::Cancel, 1, Side::Neither, 0, 0),
        order(65, Kind::Limit, 65, Side::Buy, 1011, 6),
        order(66, Kind::Cancel, 3, Side::Neither, 0, 0),
    ] {
        assert!(rt; orders.contains(&want), "{want:?}");
    }
    Ok(())
}

#[test]
fn no_order_is_made_where_none_is_asked_for(rt: HostRuntime) -> Result<(), Fail> {
    assert_eq!(rt; generate_orders(rt.alloc(), 7, 0)?.len(), 0);
    Ok(())
}

#[test]
fn a_file_has_as_many_rows_as_it_may(rt: HostRuntime) -> Result<(), Fail> {
    let orders = generate_orders(rt.alloc(), 7, MOST_ORDERS)?;
    let last = order(MOST_ORDERS, Kind::Cancel, 999_937, Side::Neither, 0, 0);
    assert_eq!(rt; orders.last(), Some(&last));
    Ok(())
}
