//! The object calls of a caller, as several steps each.
//!
//! A call walks along links from the version at its root place, until a load of a link finds 0. There the object
//! is as the plain store has it, and the entry of a fetch is made at that load. The root place names the version
//! that the walk has come to. What a version holds is loaded afterwards, since nothing of it changes. A create
//! writes the words of the caller's next version, and publishes it.
//!
//! A store of one field walks in the same way. It writes a changed copy of the last version as the caller's next
//! version, with the stamp raised, and exchanges the link for it: that is where its entry is made. Where another
//! version was linked meanwhile, the exchange finds that, and the store goes on from it and writes its copy anew in
//! the same place.
//!
//! ```text
//!              the exchange finds another version
//!     .---------------------------------------------------.
//!     v                                                   |
//!   version --- look: no link ---> copy_changed ---> link it --- from 0 ---> done
//!     ^    |
//!     '----'  look: another version
//! ```
//!
//! A conditional store loads the stamp of each version that it comes to. At the given stamp it writes a copy with all
//! fields replaced, without a look at the link, and exchanges the link in the same way. At another stamp it loads the
//! link, and answers `Changed` where that is 0.
//!
//! A create, a store and a conditional store take one version each. Where all places of the To region are used, such a
//! call first turns: that region becomes Old, and a Free one becomes To. A caller keeps one Free region for its next
//! join, and one more where it has not joined a cycle. Where no others are Free, the call answers `Full`, before it
//! takes a step. [`turn`] does the same by itself, and shows nothing to others but the counts of places and regions.
//!
//! A fetch by a caller that knows the roles of all callers in a cycle copies out of from-space what it has read, if that
//! is there and it has room: [`copy_out`]. That is a version more of the object, with the same contents and stamp, and
//! makes no entry. [`bring_out`] is the search behind it, from any version that is kept, and [`settle`] puts the version
//! that it finds at a root place.
//!
//! Each call returns, since ranks rise along links, and no rank reaches a limit that the heap's shape gives
//! (`specs/Walking.antt`).
//!
//! Each call begins and ends with nothing in hand and at most 400 versions held. No call takes memory or a lock,
//! or waits.
#![tactic(auto)]

mod bringing;
mod copying;
mod creating;
mod fetching;
mod linking;
mod loading;
mod placing;
#[cfg(test)]
mod racing;
mod reading;
mod replacing;
#[cfg(test)]
mod side_by_side;
mod storing;
#[cfg(test)]
mod tests;
mod turning;
mod walking;
mod writing;

pub use bringing::{Brought, Copied, bring_out, copy_out};
pub use creating::create;
pub use fetching::{fetch, fetch_number, fetch_ref};
pub use placing::settle;
pub use replacing::store_if;
pub use storing::{store_number, store_ref};
pub use turning::{NoFree, turn};
