//! Applying an order to a book in cells of a shared store.
//!
//! The common object of the store names three sorted lists of cells: the bids, the asks and the resting ids. Its
//! numbers hold the last order and its root number, and the numbers of resting orders and of fills. [`cell_apply`]
//! takes what a fetch of root place 0, the common object, answered, and an order of any kind. It builds the lists that
//! the order leaves beside the old ones, so that whoever still names those reads what they held, and stores to no
//! object. The book is changed where its caller stores the [`Attempt`] into the common object by one conditional store,
//! which fails where the book has changed since the fetch. [`BookUsage`] is what the callers of the store agree to.
//!
//! | Root places | Name |
//! |---|---|
//! | 0 | the common object |
//! | 4 to 7 | what the common object was fetched to name: bids, asks, resting ids, board |
//! | 8 to 10 | the bids, asks and resting ids that the attempt works on |
//! | 11 to 16 | what a walk along a list takes, and leaves unset |
//!
//! `proofs/Attempts.antt` has what a loop over attempts needs: that the common object was fetched, that an attempt may
//! be stored, and which book the store then shows.
#![tactic(auto)]

mod attempt;
mod fills;
mod outcome;
mod pairs;
mod usage;

pub use attempt::{Attempt, AttemptRefused, cell_apply};
pub use usage::{BookUsage, Lengths};
