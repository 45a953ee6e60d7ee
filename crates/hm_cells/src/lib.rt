//! The Table whose words all callers of a shared heap share, and their passes.
//!
//! The words are those of `hm_shape`'s map, with n callers:
//!
//! ```text
//!   0       1 .. n       n + 1 .. 2n   2n + 1 ..
//! +-------+------------+-------------+-----------+-----------+-- -
//! | stage | replies of | roles of    | version 0 | version 1 | ...
//! |       | callers    | callers     |           |           |
//! |       | 0 .. n - 1 | 0 .. n - 1  | 16 words  | 16 words  |
//! +-------+------------+-------------+-----------+-----------+-- -
//! ```
//!
//! Each call on a *pass* is one step of the machine of `hm_moves`, by one load, store or exchange of one word:
//!
//! | Call | Word moved | What it may make |
//! |---|---|---|
//! | [`load_field`] | a load of word 1 to 15 of a version | none |
//! | [`load_link`] | a load of a link | where it finds 0, the wanted Fetch, or StoreIf that answers Changed |
//! | [`store_own`] | a store of a word of the caller's next version | none |
//! | [`publish`] | a store of 0 into the link of that version | a Create; the version is published |
//! | [`link_store`] | an exchange of a link, from 0 | where it finds 0, the wanted Store, or StoreIf that answers Stored; the version is published |
//! | [`link_copy`] | an exchange of a link, from 0 | none; where it finds 0, the version is published |
//! | [`shorten`] | a store of a link or a reference of an own version | none |
//! | [`load_stage`], [`move_stage`] | a load, an exchange of the stage | none |
//! | [`load_reply`], [`store_reply`] | a load of a reply, a store of one's own | none |
//! | [`load_roles`], [`store_roles`] | a load of roles, a store of one's own | none |
//! | [`split`] | none | a note, with a copy of what was seen |
//! | [`meet`] | none | the longer of two histories is seen |
//!
//! The rule of the Table is that its words and the views of all seats show a good state of the machine
//! (`specs/Shows.antt`), so contents, chains and ranks are as the machine keeps them, what is reached is not given out
//! again, and the history is lawful.
//! No running call has a history, a name, a rank or a list of held versions: contracts alone see them, in the
//! views of seats. Nothing but [`Cells::make`] takes memory.
//!
//! [`Cells::close`] takes all passes, joins their seats and closes the Table. What is left, [`Closed`], has the whole
//! history, each caller's counts, and the fact that the rule held to the end (`specs/Closing.antt`).
//!
//! A caller *holds* versions, which it may look into. Those that a call finds or publishes are *in hand*
//! until they are released. Each call lets go of the first held version that neither a root place nor the
//! hand names.
#![tactic(auto)]

mod closing;
mod grip;
mod knowledge;
mod making;
mod notes;
mod own;
mod pass;
mod plan;
mod roles;
mod steps;
mod table;
#[cfg(test)]
mod tests;
mod ticks;
mod want;

pub use closing::{Closed, Counts};
pub use making::Memory;
pub use notes::{Note, meet, split};
pub use pass::{Pass, a_pass_is_sound};
pub use roles::{load_roles, store_roles};
pub use steps::{link_copy, link_store, load_field, load_link, publish, shorten, store_own};
pub use table::Cells;
pub use ticks::{load_reply, load_stage, move_stage, store_reply};
pub use want::{Want, WantField};
