//! Orders that are made from a number, so that a long file is told by two numbers: this one, and how many orders.
//!
//! The number is the first state of a generator of 64 bits, and each row draws the upper half of the next state. What
//! a row holds follows from its place and from what it draws:
//!
//! ```text
//! row                  order
//! odd                  limit, by what is drawn
//! even, below 64       immediate, by what is drawn
//! even, from 64 on     cancel of the order 63 rows above, which is a limit order
//! ```
//!
//! So every limit order is cancelled 63 rows below. That at most 32 orders rest at any time, however long the file is,
//! follows from the rules of a book, and is tested (scripts/tests/test_generating.py) and not proved. The whole rule
//! stands at [`generate_orders`] and, as a definition that its contract cites, in `specs/Generated.antt`.
#![tactic(auto)]

mod generator;
mod laws;
mod orders;
#[cfg(test)]
mod tests;

pub use laws::{a_limit_order_is_cancelled_63_rows_below, a_shorter_file_is_the_front_of_a_longer};
pub use orders::{MOST_ORDERS, generate_orders};
