//! Root places, and what calls on them answer.

/// A root place of a caller, below 256: a root of the collector, in the field's word.
#[derive(Clone, Copy, Debug, PartialEq, Eq)]
pub struct Root(pub u32);

/// What a whole fetch answers. The references themselves are named by root places.
#[derive(Clone, Copy, Debug, PartialEq, Eq)]
pub struct Snapshot {
    /// How often the object had been stored to.
    pub stamp: u64,
    pub numbers: [u64; 10],
    /// Whether reference `i` names an object.
    pub set: [bool; 4],
}

/// The caller's room is 0: it has no version left to give out.
#[derive(Clone, Copy, Debug, PartialEq, Eq)]
pub struct Full;

/// Why a conditional store stored nothing.
#[derive(Clone, Copy, Debug, PartialEq, Eq)]
pub enum StoreIfRefused {
    /// The caller's room is 0. The object was not looked at.
    Full,
    /// The object had this stamp and not the given one.
    Changed { stamp: u64 },
}
