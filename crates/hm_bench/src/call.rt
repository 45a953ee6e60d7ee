//! The calls that are measured.

/// An object call.
#[derive(Clone, Copy, Debug, PartialEq, Eq)]
pub(crate) enum Call {
    /// A create of an object without references.
    Create,
    /// A fetch of the whole common object.
    Fetch,
    /// A store of one number of the common object.
    Store,
}

/// How many creates or stores a caller makes on a fresh heap: a region has no more than 65,536 versions.
const VERSIONS: u32 = 65_000;

/// How many fetches, which take no version.
const FETCHES: u32 = 1_000_000;

impl Call {
    /// The call's name on a line of figures.
    pub fn name(self) -> &'static str {
        match self {
            Call::Create => "create",
            Call::Fetch => "fetch",
            Call::Store => "store",
        }
    }

    /// The call of this name.
    pub fn named(name: &str) -> Option<Call> {
        [Call::Create, Call::Fetch, Call::Store]
            .into_iter()
            .find(|call| call.name() == name)
    }

    /// How many calls each caller makes in a run.
    pub fn count(self) -> u32 {
        match self {
            Call::Fetch => FETCHES,
            Call::Create | Call::Store => VERSIONS,
        }
    }
}
