//! A caller's scan of its own part of a heap.
//!
//! In the First of a cycle each caller scans before it replies. What it names of from-space it then names no more:
//!
//! ```text
//!   own roles word,      root places         links and references        loads of its reply,
//!   masks it lacks       0 .. 255            of own To and Old           until nothing idle is held
//! +----------------+   +--------------+   +-------------------------+   +----------------------+
//! | mark away,     |-->| each names   |-->| each names the current  |-->| nothing of           |--> Clean
//! | cursor 0       |   | the current  |   | version, in order of    |   | from-space is held   |
//! +----------------+   | version      |   | publishing              |   +----------------------+
//!                      +--------------+   +-------------------------+
//!                             |                        |
//!                             '--- a copy lacks room --'--> NoRoom
//! ```
//!
//! The current version of an object is copied out where it is of from-space too. A copy is published behind all that
//! the caller published before, so the cursor comes to its words as well. It rises by one at each word, and copies are
//! no more than the room, so each scan returns.
//!
//! A scan makes no entry, and root places go on naming the same objects. It takes no memory or lock, and never waits.
#![tactic(auto)]

mod scanning;

pub use scanning::{Scanned, scan};
