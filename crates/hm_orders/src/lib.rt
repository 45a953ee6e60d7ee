//! Orders, the files that hold them, and the report that tells what became of them.
//!
//! An order file is CSV with commas, double quotes and no header row; blank lines are no rows, and a byte order mark at
//! the start is left out. A row is `kind,id,side,price,quantity`:
//!
//! ```text
//! L,7,B,10,5    limit: order 7 buys 5 at 10 or less, and what is left rests
//! I,8,S,9,2     immediate: order 8 sells 2 at 9 or more, and what is left is thrown away
//! M,9,B,,4      market: order 9 buys 4 at any price
//! C,7,,,        cancel: takes out what rests of order 7
//! ```
//!
//! [`read_orders`] reads an order file, [`write_report`] writes a report and [`write_summary`] its end, [`merge`] puts what became of the orders of
//! several files into one list. Both formats stand in docs/FORMATS.md and, as definitions that the contracts cite, in
//! `specs/Rows.antt` and `specs/ReportText.antt`; what it is to have the orders of several files in one list stands in
//! `specs/Interleaving.antt`.
#![tactic(auto)]

mod field;
mod lines;
mod merging;
mod order;
mod read;
mod report;
mod row;
mod rows;
#[cfg(test)]
mod tests;
mod write;

pub use merging::merge;
pub use order::{Kind, Order, Side};
pub use read::{Part, ReadRefused, TextRefused, read_orders};
pub use report::{Board, Done, DoneList, Fate, Fill, Fills, Report};
pub use write::{WriteRefused, write_report, write_summary};
