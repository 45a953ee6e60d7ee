//! The order book: resting orders, and what an order that comes does to them.
//!
//! An order is a limit, an immediate or a market order, which trade, or a cancel. [`Limits`] may deny an order.
//!
//! The book is plain: a list of resting orders in order of root numbers, the numbers that are given to orders in the
//! order of applying them. `specs/Trading.antt` and `specs/Effect.antt` say what one order does, and `specs/Run.antt`
//! what a list of orders does and which report tells it. `src/laws.rt` has laws of these definitions.
#![tactic(auto)]

mod book;
mod laws;
mod limits;
mod priority;
mod queue;
mod trading;

pub use book::{Book, Memory, Resting};
pub use laws::{
    a_book_stays_sound, a_report_of_an_interleaving_counts_its_files, a_report_tells_of_each_order,
    an_order_trades_along_its_queue, best_opposite_is_best, no_limits_admit_every_order,
};
pub use limits::Limits;
pub use priority::crosses;
pub use trading::rest_of;
