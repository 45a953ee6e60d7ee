//! The heap of one thread: objects in a table, found by index, and a history that is carried and never stored.
#![tactic(auto)]

mod call;
mod caller;
mod diary;
mod heap;
mod object;
mod objects;
mod roots;
#[cfg(test)]
mod tests;

pub use caller::PlainCaller;
pub use heap::{Memory, PlainHeap};
