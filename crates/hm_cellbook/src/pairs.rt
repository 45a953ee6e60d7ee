//! The two sides of a book: at which place each has its list, and which pairs.
ghost use Rattle.std.specs.Prelude.{◌≡◌};
ghost use Rattle.hm_orders.specs.declared.order.Side.{Side};
ghost use Rattle.hm_list.specs.declared.key.Pair.{Pair};
ghost use Rattle.hm_book.specs.declared.book.Resting.{Resting};
ghost use Rattle.hm_agreement.specs.Cells.{id_of, side_number};
ghost use Rattle.hm_cellbook.specs.Sides.{opposite, pair_on};
ghost use Rattle.hm_cellbook.specs.Working.{ids_place, place_of, IsLoadOf, IsPairOf, IsSpotOf};

use hm_book::Resting;
use hm_list::{Key, Pair};
use hm_model::Root;
use hm_orders::Side;

/// The first of the places that walks take as their own.
pub(crate) const TOP: Root = Root(11);

/// The first place behind them.
pub(crate) const END: Root = Root(17);

/// The side with which a side trades.
pub(crate) fn opposite(side: Side) -> Side
    ensures { result ≡ opposite side }
{
    match side {
        Side::Buy => Side::Sell,
        Side::Sell => Side::Buy,
        Side::Neither => Side::Neither,
    }
}

/// The place of a side's list.
pub(crate) fn place_of(side: Side) -> Root
    ensures { result ≡ place_of side }
{
    match side {
        Side::Buy => Root(8),
        Side::Sell | Side::Neither => Root(9),
    }
}

/// The place of the list of resting ids.
pub(crate) fn ids_place() -> Root
    ensures { result ≡ ids_place }
{
    Root(10)
}

/// Where an order rests: its side, and its key there.
#[derive(Clone, Copy)]
pub(crate) struct Spot {
    pub side: Side,
    pub key: Key,
}

/// The spot of a resting order with this price and this root number on this side.
fn spot_at(side: Side, price: u32, root: u64) -> Spot
    ensures side { result.side ≡ side }
    ensures key { (r : Resting) → r.price ≡ price → r.root ≡ root
        → result.key ≡ (pair_on side r).key }
{
    let first = match side {
        Side::Buy => u32::MAX - price,
        Side::Sell | Side::Neither => price,
    };
    Spot {
        side,
        key: Key {
            a: u64::from(first),
            b: root,
        },
    }
}

/// The spot of a resting order.
pub(crate) fn spot_of(resting: &Resting) -> Spot
    ensures { IsSpotOf result resting.now }
{
    spot_at(resting.side, resting.price, resting.root)
}

/// The pair of a resting order on its side.
pub(crate) fn pair_on(resting: &Resting) -> Pair
    ensures { result ≡ pair_on resting.now.side resting.now }
{
    Pair {
        key: spot_of(resting).key,
        load: [
            u64::from(resting.price),
            u64::from(resting.file),
            resting.row,
            u64::from(resting.id),
            u64::from(resting.quantity),
            0,
        ],
    }
}

/// The number of a side in cells.
pub(crate) fn side_number(side: Side) -> u64
    ensures { result ≡ side_number side }
{
    match side {
        Side::Neither => 0,
        Side::Buy => 1,
        Side::Sell => 2,
    }
}

/// The side that has this number in cells.
fn side_of(number: u64) -> Side
    ensures { (side : Side) → number ≡ side_number side → result ≡ side }
{
    match number {
        1 => Side::Buy,
        2 => Side::Sell,
        _ => Side::Neither,
    }
}

/// The key of a resting order among the resting ids.
pub(crate) fn id_key(file: u32, id: u32) -> Key
    ensures { result ≡ record { a = file; b = id } }
{
    Key {
        a: u64::from(file),
        b: u64::from(id),
    }
}

/// The pair of a resting order among the resting ids.
pub(crate) fn id_of(resting: &Resting) -> Pair
    ensures { result ≡ id_of resting.now }
{
    Pair {
        key: id_key(resting.file, resting.id),
        load: [
            side_number(resting.side),
            u64::from(resting.price),
            resting.root,
            0,
            0,
            0,
        ],
    }
}

/// The spot of the resting order that a load among the resting ids tells of.
pub(crate) fn spot_in(load: [u64; 6]) -> Spot
    requires { (r : Resting) × IsLoadOf load r }
    ensures { (r : Resting) → IsLoadOf load r → IsSpotOf result r }
{
    let [side, price, root, _, _, _] = load;
    spot_at(side_of(side), price as u32, root)
}

/// The resting order that a pair of its side shows.
pub(crate) fn resting_in(side: Side, pair: Pair) -> Resting
    requires { (r : Resting) × IsPairOf side pair r }
    ensures { (r : Resting) → IsPairOf side pair r → result ≡ r }
{
    let [price, file, row, id, quantity, _] = pair.load;
    Resting {
        side,
        price: price as u32,
        root: pair.key.b,
        file: file as u32,
        row,
        id: id as u32,
        quantity: quantity as u32,
    }
}
