//! The program's work as one call over a shelf and two sinks: read the words and the files, replay their orders, write.
//!
//! [`run`] is the call that the program makes. Each file has a caller of its own on one shared heap, which keeps the
//! book in cells, and all callers work side by side:
//!
//! ```text
//!   words --> what they ask for --> load: all files are read, then their rows, or orders are made from a number
//!               |
//!             replay: a heap with an empty book, and a job for each file
//!               |         job 0: a mutator, its orders    --.
//!               |         job 1: ..                         |-- each applies its orders at a desk
//!               |         ..                              --'
//!               |     the passes are given back, and the heap is closed: one history
//!               |
//!             conclude: what became of the orders of each file, merged by root number
//!               |
//!             the report is written, or a summary of it
//! ```
//!
//! What a job's caller notes is tied to what it has seen (`hm_desk`), what it has seen begins the history of the closed
//! heap (`hm_cells`), and that history spells an interleaving of the files, with the book of one thread
//! (`hm_agreement`). `specs/Headline.antt` says what that comes to. Whatever goes wrong on the way is a [`Refused`],
//! which has a status of its own and one line of text.
#![tactic(auto)]

mod conclusion;
mod job;
mod load;
mod outcome;
mod refusal;
mod replay;
mod report;
mod task;

pub use conclusion::FullAt;
pub use outcome::{Outcome, run, tell};
pub use refusal::Refused;
