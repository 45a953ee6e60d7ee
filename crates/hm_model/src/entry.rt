//! Entries: the calls that a history consists of.

use crate::object::{Contents, Field, Name};

/// How a conditional store ended.
#[derive(Clone, Copy, Debug, PartialEq, Eq)]
pub enum Tried {
    /// The object had the given stamp and was stored to.
    Stored,
    /// The object had this other stamp and stays as it was.
    Changed { stamp: u64 },
}

/// One call of one caller, as the plain store sees it.
#[derive(Clone, Copy, Debug, PartialEq, Eq)]
pub enum Entry {
    /// Made a new object.
    Create {
        caller: u32,
        name: Name,
        refs: [Option<Name>; 4],
        numbers: [u64; 10],
    },
    /// Read what an object holds.
    Fetch {
        caller: u32,
        name: Name,
        answer: Contents,
    },
    /// Replaced one field of an object.
    Store {
        caller: u32,
        name: Name,
        field: Field,
    },
    /// Replaced all fields of an object, unless it had another stamp.
    StoreIf {
        caller: u32,
        name: Name,
        stamp: u64,
        refs: [Option<Name>; 4],
        numbers: [u64; 10],
        answer: Tried,
    },
}
