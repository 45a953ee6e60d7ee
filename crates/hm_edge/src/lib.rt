//! The program's edge: where bytes come from and where they go.
//!
//! A [`Shelf`] gives the bytes of a name, a [`Sink`] takes bytes. Each has two forms: one in memory,
//! which tells its bytes, so that a contract can name them, and an adapter over files or a stream,
//! which tells nothing of content. All count their faults, so that a caller can see that an answer of
//! failure is not made up.
//!
//! ```text
//!            tells its bytes     over the system
//!   Shelf    MemoryShelf         FileShelf
//!   Sink     MemorySink          StreamSink
//! ```
#![tactic(auto)]

mod file_shelf;
mod memory;
mod memory_shelf;
mod memory_sink;
mod shelf;
mod sink;
mod stream_sink;
#[cfg(test)]
mod tests;

pub use file_shelf::FileShelf;
pub use memory::Memory;
pub use memory_shelf::MemoryShelf;
pub use memory_sink::{MemorySink, SinkFail};
pub use shelf::{Shelf, ShelfRefused};
pub use sink::{Finish, Sink, SinkFailed};
pub use stream_sink::{STREAM_CAPACITY, StreamSink};
