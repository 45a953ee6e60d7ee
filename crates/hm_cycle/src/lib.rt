//! The calls of the collecting cycle: what a caller does to the stage, and to its own roles and reply.
//!
//! The stage is one word that all callers see. It goes on by exchanges alone, each over the replies of all callers:
//!
//! ```text
//!            begin                 advance                 advance
//!   Idle ------------> Join -------------------> First --------------> Second
//!    ^     any caller       every reply Joined     ^    every reply      |  |
//!    |                                             |       Clean         |  |
//!    |                                             '---------------------'  |
//!    |                                               advance: one is Dirty  |
//!    '----------------------------------------------------------------------'
//!                advance: every reply Clean; one more cycle is done
//! ```
//!
//! | Call | What it does |
//! |---|---|
//! | [`see`] | loads the stage |
//! | [`begin`] | loads the stage, and exchanges an Idle for a Join |
//! | [`join`] | gives up the caller's regions to from-space, takes a Free one, and replies Joined |
//! | [`reply`] | replies Clean to a First; Clean or Dirty, by the mark, to a Second |
//! | [`advance`] | loads all replies, and moves the stage on where all are there |
//! | [`reuse`] | frees what the caller gave up in a cycle that is done |
//!
//! A region becomes Free in [`join`] and [`reuse`] alone, and only where more cycles are done than when its owner joined.
//! No call makes an entry or takes memory, and all leave the names at all root places (`specs/Standing.antt`).
#![tactic(auto)]

mod replying;
mod roles;
mod stage;
#[cfg(test)]
mod tests;

pub use replying::reply;
pub use roles::{join, reuse};
pub use stage::{Begun, Moved, advance, begin, see};
