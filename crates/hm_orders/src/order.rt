//! What a row of an order file asks for.

/// What an order does.
#[derive(Clone, Copy, Debug, PartialEq, Eq)]
pub enum Kind {
    /// `L`: trades up to its price, and what is left rests.
    Limit,
    /// `I`: trades up to its price, and what is left is thrown away.
    Immediate,
    /// `M`: trades at any price, and what is left is thrown away.
    Market,
    /// `C`: takes out a resting order of its file by its id.
    Cancel,
}

/// The side of an order.
#[derive(Clone, Copy, Debug, PartialEq, Eq)]
pub enum Side {
    /// `B`.
    Buy,
    /// `S`.
    Sell,
    /// A cancel has no side.
    Neither,
}

/// One row of an order file.
#[derive(Clone, Copy, Debug, PartialEq, Eq)]
pub struct Order {
    /// The file's place among the files of a replay, from 1.
    pub file: u32,
    /// The row's place in its file, from 1.
    pub row: u64,
    pub kind: Kind,
    /// The name that the file gives the order.
    pub id: u32,
    pub side: Side,
    /// The limit, from 1; 0 for a market order and a cancel.
    pub price: u32,
    /// From 1; 0 for a cancel.
    pub quantity: u32,
}
