//! Sorted lists of cells in a shared store: keys, and six numbers under each.
//!
//! A *cell* is an object that is never stored to once it is made. Its numbers 0 and 1 are a [`Key`], its numbers 2 to 7
//! the *load* under that key, and its numbers 8 and 9 are 0. Its reference 0 names the next cell, and its other
//! references are none. A list is a root place that is unset, or that names the first of its cells.
//!
//! A list is changed by making its front anew, from back to front, so that whoever still names the old list reads what
//! it held. Each call walks with six root places of its own, from `top` on, and leaves them unset.
#![tactic(auto)]

mod change;
mod key;
mod places;
mod walk;

pub use change::{put, remove};
pub use key::{Key, Pair, Refused};
pub use places::{clear_places, set_place};
pub use walk::{find, first};
