//! One caller's work on the orders of its file, beside other callers of a heap with a book in cells.
//!
//! [`Desk::work`] applies the orders one after another, from where the last call left off ([`Progress`]), over any
//! [`Worker`](hm_model::Worker). What holds of it holds whatever other callers do meanwhile that the usage of the book
//! allows. A call goes so:
//!
//! | Step | What the caller does |
//! |---|---|
//! | owed number | If the board was not told the last order, it is told first. |
//! | gate | The caller passes its [`Gate`] before each order, which tests use to hold it up. |
//! | admission | It asks the desk's closure whether the limits admit the order ([`Admission`]). |
//! | attempt | It fetches the common object, builds what the order leaves, and stores that by a conditional store. |
//! | board | It stores how many of its orders are applied. |
//! | tending | It does the collector's work until nothing more is to be done, or it moved the cycle on eight times. |
//!
//! Where the common object has changed since it was fetched, the caller attempts the order again. Each time the stamp
//! is greater, and there is a greatest, so the attempts end.
//!
//! Where its room is 0 at an attempt or at the board, it tends until versions were freed and tries again, once for each
//! order and once for each number that the board is owed. Where that frees none, or the room is 0 again, the answer is
//! [`Worked::Stalled`]: the next call goes on from there. The memory that the [`Done`](hm_orders::Done) of an order
//! takes is taken before its conditional store, so that after [`Worked::Memory`] the order under way is not applied.
//! A call that applies no order stalls only where the caller was hindered, as `specs/Hindered.antt` has it: it was
//! copying or had no room at the start, the order cost more than its room, or another caller was ahead of it.
//!
//! Root place 0 names the common object, and a call leaves all other places unset. While it runs it uses places 4 to 16,
//! as `hm_cellbook` has it.
//!
//! What became of the caller's orders is what the book of one thread makes of them, in the order of all orders that the
//! history spells: `specs/Progress.antt` has it. `proofs/Fresh.antt` has what stands before the first call.
#![tactic(auto)]

mod admission;
mod applying;
mod desk;
mod gate;
mod halt;
mod progress;
mod telling;
mod tending;

pub use admission::Admission;
pub use desk::{Desk, Worked};
pub use gate::{Gate, NoGate};
pub use progress::Progress;

#[cfg(test)]
mod tests;
