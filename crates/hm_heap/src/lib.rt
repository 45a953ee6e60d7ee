//! The shared heap, and the callers that work on it side by side.
//!
//! A *heap* is the cells of `hm_cells` with all that is kept beside them. It is made with a *pass* for each caller, in
//! order of number. A pass with its heap is a *mutator*: a caller as `hm_model` has it, to be moved to a thread of its
//! own. Whoever works over any [`Worker`](hm_model::Worker) works over mutators.
//!
//! ```text
//!   Heap::make ---> heap, passes 0 .. n - 1
//!                     |          |
//!                     |   Mutator::new, one for each pass
//!                     |          |
//!                     |   calls on n threads, beside one another
//!                     |          |
//!                     |   Mutator::into_pass
//!                     |          |
//!                   close(heap, passes 0 .. n - 1) ---> the whole history, the stage, and each caller's counts
//! ```
//!
//! Each call of a mutator is one call below, and nothing besides:
//!
//! | Call | Is | Steps of the heap |
//! |---|---|---|
//! | `is_set`, `copy_root`, `clear_root`, `used`, `free` | that of the pass | none |
//! | `create`, `fetch`, `fetch_number`, `fetch_ref`, `store_number`, `store_ref`, `store_if` | that of `hm_ops` | as many as there |
//! | `tend` | a load of the stage, and one call of `hm_cycle` or `hm_scan` by what is found, or none | that load, and as many as there |
//!
//! Nothing but [`Heap::make`] takes memory: closing finds there all that it needs.
//!
//! Contracts see of a heap what they see of its cells, and of a mutator its heap and its pass (`specs/Mutators.antt`).
//! A caller that stays the same caller of the same heap, as every call leaves it, has a pass of that heap still
//! ([`a_caller_stays_with_its_heap`]), so the passes of all callers close the heap ([`all_callers_close_their_heap`]).
#![tactic(auto)]

mod heap;
mod laws;
mod mutator;
mod tending;
#[cfg(test)]
mod tests;

pub use heap::{Heap, close};
pub use laws::{a_caller_stays_with_its_heap, all_callers_close_their_heap};
pub use mutator::Mutator;
