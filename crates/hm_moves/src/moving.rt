//! What a caller may do to one word of the Table, with the versions as they are known.
use crate::part::{Known, Seen};
use hm_model::Entry;
use hm_shape::{Reply, Roles};

/// A load of one word of a version.
#[derive(Clone, Copy, Debug, PartialEq, Eq)]
pub enum Look {
    /// The stamp of a version.
    LoadStamp { at: Known },
    /// Reference `i` of a version, below 4.
    LoadReference { at: Known, i: u64 },
    /// Number `i` of a version, below 10.
    LoadNumber { at: Known, i: u64 },
    /// The link of a version. Where it is 0, the wanted entry is made.
    LoadLink { at: Known, want: Option<Entry> },
}

/// A step by which a caller's next version is written or published.
#[derive(Clone, Copy, Debug, PartialEq, Eq)]
pub enum Build {
    /// A store of word `i` of the caller's next version, below 16.
    StoreOwn {
        i: u64,
        word: u64,
    },
    /// A store of 0 in the link of the caller's next version, which publishes it as the first of a new object.
    Publish {
        fresh: Known,
    },
    /// An exchange of the link of a version from 0 to the caller's next version, which then publishes it: with an
    /// entry as what that makes of the version, without one as a copy.
    LinkStore {
        at: Known,
        fresh: Known,
        entry: Option<Entry>,
    },
    /// A store in word `i` of an own version, its link or a reference, of the name of a later version of the object
    /// that the word names.
    Shorten {
        at: Known,
        i: u64,
        target: Known,
    },
}

/// A step on the stage, or on a caller's reply to it.
#[derive(Clone, Copy, Debug, PartialEq, Eq)]
pub enum Tick {
    /// A load of the stage.
    LoadStage,
    /// An exchange of the stage from the one that the caller has seen to the next one.
    MoveStage { from: Seen, to: Seen },
    /// A load of a caller's reply.
    LoadReply { of: u32 },
    /// A store of the caller's own reply, to the stage that it has seen.
    StoreReply { reply: Reply },
}

/// A step on the roles of a caller's regions.
#[derive(Clone, Copy, Debug, PartialEq, Eq)]
pub enum Shift {
    /// A load of a caller's roles.
    LoadRoles { of: u32 },
    /// A store of the caller's own roles by which it joins: what it wrote into becomes From, and this region To.
    Join { region: u32, roles: Roles },
    /// A store by which a full To region becomes Old, and this region To.
    Turn { region: u32, roles: Roles },
    /// A store by which the caller's From regions become Free, of a cycle that is done.
    Reuse { roles: Roles },
}

/// One load, store or exchange of one word, by a caller. What a group does not touch is the same for all of it.
#[derive(Clone, Copy, Debug, PartialEq, Eq)]
pub enum Act {
    Looks(Look),
    Builds(Build),
    Ticks(Tick),
    Shifts(Shift),
}

/// What a caller does, and the held version that it lets go of.
#[derive(Clone, Copy, Debug, PartialEq, Eq)]
pub struct Move {
    pub act: Act,
    /// Whether a load is one of a scan. It is so only while the caller has seen a First and not replied to it.
    pub scan: bool,
    pub let_go: Option<Known>,
}
