//! Which orders a book admits.
ghost use Rattle.std.specs.Prelude.{◌≡◌};
ghost use Rattle.hm_book.specs.Limits.{admits};

use hm_orders::{Kind, Order};

/// Bounds on the orders that a book admits.
#[derive(Clone, Copy, Debug, PartialEq, Eq)]
pub struct Limits {
    /// The greatest quantity of an order.
    pub max_quantity: u32,
    /// The least price of an order that has one.
    pub low: u32,
    /// The greatest price of an order that has one.
    pub high: u32,
}

impl Limits {
    /// The limits that admit every order that a row of an order file can give, by the law
    /// [`no_limits_admit_every_order`](crate::no_limits_admit_every_order).
    pub const NONE: Limits = Limits {
        max_quantity: u32::MAX,
        low: 1,
        high: u32::MAX,
    };

    /// Whether the limits admit the order: its quantity is at most `max_quantity`, and its price, if it has a limit,
    /// from `low` to `high`. A cancel is always admitted.
    pub fn admits(&self, order: &Order) -> bool
        ensures { result ≡ admits self.now order.now }
    {
        let has_quantity = order.quantity <= self.max_quantity;
        let has_price = self.low <= order.price && order.price <= self.high;
        match order.kind {
            Kind::Limit | Kind::Immediate => has_quantity && has_price,
            Kind::Market => has_quantity,
            Kind::Cancel => true,
        }
    }
}
