//! The shape of a heap, the numbers of its versions, and what its words mean.
//!
//! A heap is one Table of 64-bit words. [`Shape`] has the map of the Table, and [`Version`] numbers the copies of
//! objects that lie in it. [`Stage`], [`Reply`] and [`Roles`] are what the callers of a heap tell one another, each
//! packed into one word. Packing and unpacking are inverse: `unpack` gives back what was packed, and answers `None`
//! exactly where no value packs to the word. `specs/Words.antt` has the map and the packings, `specs/Versions.antt` the
//! numbering of versions.
#![tactic(auto)]

mod reply;
mod roles;
mod shape;
mod stage;
#[cfg(test)]
mod tests;
mod version;

pub use reply::{REPLIES_END, Reply, ReplyKind};
pub use roles::{ROLES_END, Role, Roles};
pub use shape::{
    LEAST_VERSIONS, MOST_CALLERS, MOST_VERSIONS, REGIONS, STAGE_AT, Shape, ShapeRefused,
};
pub use stage::{DONE_END, Phase, Stage};
pub use version::{FIRST_NUMBER, FIRST_REFERENCE, LINK, STAMP, VERSION_WORDS, Version};
