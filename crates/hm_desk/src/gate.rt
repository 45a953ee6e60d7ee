//! Where a caller may be held up before an order.

/// A caller passes its gate before each of its orders. A gate has no part in any result: tests hold callers up there,
/// to see that they run side by side.
pub trait Gate {
    /// Called by a caller before the order with this row. It has to return.
    fn pass(&self, caller: u32, number: u64);
}

/// A gate that holds nobody up.
#[derive(Clone, Copy, Debug, PartialEq, Eq)]
pub struct NoGate;

impl Gate for NoGate {
    fn pass(&self, _caller: u32, _number: u64) {}
}
