//! The entry that a step is to make, as it is given to it.
use hm_model::Root;

/// Which entry a step on a link makes. The answer is the one that the plain store gives at that point.
#[derive(Clone, Copy, Debug, PartialEq, Eq)]
pub enum Want {
    Nothing,
    Fetch,
    Store {
        field: WantField,
    },
    StoreIf {
        stamp: u64,
        refs: [Option<Root>; 4],
        numbers: [u64; 10],
    },
}

/// One field of an object, and a value for it.
#[derive(Clone, Copy, Debug, PartialEq, Eq)]
pub enum WantField {
    /// Number `i`, below 10.
    Number { i: u32, value: u64 },
    /// Reference `i`, below 4, and the root place that names its value.
    Refer { i: u32, value: Option<Root> },
}
