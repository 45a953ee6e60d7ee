//! What a call on a pass does, as it is told to the Table.
use crate::want::Want;
use hm_shape::{ReplyKind, Roles, Stage, Version};

/// What a call does by its one step. Contracts alone look at it: which word it moves, and how, is said beside it.
#[derive(Clone, Copy)]
pub(crate) enum Plan {
    LoadField { v: Version, i: u32, scan: bool },
    LoadLink { v: Version, want: Want, scan: bool },
    StoreOwn { i: u32, word: u64 },
    Publish,
    LinkStore { v: Version, want: Want },
    LinkCopy { v: Version },
    Shorten { v: Version, i: u32, u: Version },
    LoadStage,
    MoveStage { to: Stage },
    LoadReply { of: u32 },
    StoreReply { kind: ReplyKind },
    LoadRoles { of: u32 },
    StoreRoles { roles: Roles },
}
