//! Steps of the machine, and why one is refused.
ghost use Rattle.std.specs.Prelude.{◌≡◌};

use hm_model::Entry;
use hm_shape::{ReplyKind, Roles, Stage, Version};

/// What a step does. A version is given by its number.
#[derive(Clone, Copy, Debug, PartialEq, Eq)]
pub enum StepKind {
    /// A load of word `i` of a version, from 1 to 15. `scan` tells a load of a scan: it counts as one while the caller
    /// has seen a First and has not replied to it, and as one of an object call otherwise.
    LoadField {
        v: Version,
        i: u32,
        scan: bool,
    },
    /// A load of the link of a version. Where it finds 0, the entry is made: a Fetch, or a StoreIf that answers
    /// Changed.
    LoadLink {
        v: Version,
        entry: Option<Entry>,
        scan: bool,
    },
    /// A store of word `i` of the caller's next version, from 0 to 15.
    StoreOwn {
        i: u32,
        word: u64,
    },
    /// A store of 0 in the link of the caller's next version, which publishes it by this Create.
    Publish {
        entry: Entry,
    },
    /// An exchange of the link of a version from 0 to the caller's next version, which then publishes it by this
    /// Store, or StoreIf that answers Stored.
    LinkStore {
        v: Version,
        entry: Entry,
    },
    /// A note with a copy of what was seen is split off the caller's seat.
    Split,
    /// The caller's seat is joined with another, and has then seen the longer of the two histories.
    Meet {
        other: Other,
    },
    /// A load of the stage.
    LoadStage,
    /// An exchange of the stage from the one that the caller has seen to this one.
    MoveStage {
        to: Stage,
    },
    /// A load of the reply of caller `p`.
    LoadReply {
        p: u32,
    },
    /// A store of the caller's reply to the stage that it has seen.
    StoreReply {
        kind: ReplyKind,
    },
    /// A load of the roles of caller `p`.
    LoadRoles {
        p: u32,
    },
    /// A store of the caller's own roles: a join, a turn, or a reuse.
    StoreRoles {
        roles: Roles,
    },
    /// An exchange of the link of a version of from-space, from 0 to the caller's next version, which is then published
    /// as a copy of it.
    LinkCopy {
        v: Version,
    },
    /// A store in word `i` of a version of the caller's own, in To or Old: 0 for its link, 2 to 5 for its references. The
    /// word then names `u`, a later version of the object that it names.
    Shorten {
        v: Version,
        i: u32,
        u: Version,
    },
}

impl StepKind {
    ghost use Rattle.hm_core.specs.Stepping.{scan_of};

    // Whether it is given as a load of a scan.
    pub(crate) fn is_scan(&self) -> bool
        ensures { result ≡ scan_of self.now }
    {
        match *self {
            StepKind::LoadField { scan, .. } | StepKind::LoadLink { scan, .. } => scan,
            _ => false,
        }
    }
}

/// The seat that a caller meets.
#[derive(Clone, Copy, Debug, PartialEq, Eq)]
pub enum Other {
    /// A note, by its number: notes are numbered from 0 in the order in which they were split off.
    Note(u64),
    /// The seat of another caller, which takes no later step.
    Caller(u32),
}

/// One step of one caller.
#[derive(Clone, Copy, Debug, PartialEq, Eq)]
pub struct Step {
    pub caller: u32,
    pub kind: StepKind,
    /// A version that the caller stops holding at this step.
    pub let_go: Option<Version>,
}

/// Why a step is refused. The reasons are tested in this order, and the first that holds is answered.
#[derive(Clone, Copy, Debug, PartialEq, Eq)]
pub enum StepRefused {
    /// There is no such caller, or its seat was joined, or the seat that it meets is none that it may meet.
    Caller,
    /// A version is not held where it must be, or may not be looked into.
    Held,
    /// The caller holds as many versions as it may, and the step may find or publish one more.
    Holds,
    /// No place is left for the caller's next version, or the word's number is out of its range.
    Place,
    /// A word of the caller's next version is not written.
    Words,
    /// The written words or the answer do not fit the entry, or the version that the step looks into.
    Change,
    /// The stage may not be moved so, by the replies that the caller has loaded since it saw the stage.
    Stage,
    /// The caller may not reply so to the stage that it has seen.
    Reply,
    /// The roles are those of no join, turn or reuse that the caller may make.
    Roles,
    /// The version is not a later one of the object that the word names, or is of from-space; or the version that is to
    /// be copied is not known as from-space.
    Later,
    /// There was no memory.
    Memory,
}
