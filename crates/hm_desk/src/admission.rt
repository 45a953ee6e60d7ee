//! What tells a desk whether limits admit an order.
ghost use Rattle.std.specs.Prelude.{◌≡◌};
ghost use Rattle.hm_book.specs.declared.limits.Limits.{Limits};
ghost use Rattle.hm_book.specs.Limits.{admits};

use hm_orders::Order;

/// Tells of each order whether limits admit it. Every closure that takes an order and answers a `bool` is one; of which
/// limits it tells is what its contract says.
pub trait Admission: Drop {
    ghost use Rattle.hm_book.specs.declared.limits.Limits.{Limits};

    /// It may be asked of every order, and answers whether these limits admit it.
    ghost tells: { Limits → Self → Type 0 };

    /// Whether the limits admit the order.
    fn admits(&self, order: &Order) -> bool
        requires { (limits : Limits) × tells limits self.now }
        ensures { (limits : Limits) → tells limits self.now → result ≡ admits limits order.now };
}

impl<F: Fn(&Order) -> bool + Drop> Admission for F {
    ghost use Rattle.hm_desk.specs.Admission.{TellsLimits};

    ghost tells = { TellsLimits F.Fn };

    fn admits(&self, order: &Order) -> bool {
        self(order)
    }
}
