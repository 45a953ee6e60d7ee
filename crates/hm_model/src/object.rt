//! Objects: their names, what they hold, and those that a heap starts with.
ghost use Rattle.std.specs.Prelude.{◌≡◌};

/// The name of an object. Contracts alone see names: no running call answers or prints one.
#[derive(Clone, Copy, Debug, PartialEq, Eq)]
pub struct Name {
    /// The number of the caller that made the object.
    pub maker: u32,
    /// How many objects that caller had made before.
    pub count: u64,
}

/// What an object holds.
#[derive(Clone, Copy, Debug, PartialEq, Eq)]
pub struct Contents {
    /// How often the object was stored to.
    pub stamp: u64,
    /// The objects that it refers to.
    pub refs: [Option<Name>; 4],
    /// Its numbers, which may mean anything.
    pub numbers: [u64; 10],
}

/// One field of an object, and a value for it.
#[derive(Clone, Copy, Debug, PartialEq, Eq)]
pub enum Field {
    /// Number `i`, below 10.
    Number { i: u32, value: u64 },
    /// Reference `i`, below 4.
    Refer { i: u32, value: Option<Name> },
}

/// The objects that a heap starts with. Caller 0 makes them, the side objects first.
#[derive(Clone, Copy, Debug, PartialEq, Eq)]
pub struct Start {
    /// The numbers of the common object, which every caller finds at root place 0.
    pub numbers: [u64; 10],
    /// The numbers of each side object that is given. Reference `i` of the common object names side object `i`.
    pub sides: [Option<[u64; 10]>; 4],
}

impl Start {
    ghost use Rattle.hm_model.specs.History.{starting_count, IsSizedStart};

    /// How many objects a heap starts with: the side objects that are given, and the common object.
    pub fn objects(self) -> u32
        ensures count { result ≡ starting_count self }
        ensures sized { IsSizedStart self }
    {
        let [a, b, c, d] = self.sides;
        let given = |side: Option<[u64; 10]>| u32::from(side.is_some());
        given(a) + given(b) + given(c) + given(d) + 1
    }
}

#[cfg(test)]
mod tests {
    use super::*;

    #[test]
    fn a_heap_starts_with_the_given_side_objects_and_one_more(rt: HostRuntime) {
        let side = Some([7; 10]);
        for (sides, want) in [
            ([None; 4], 1),
            ([None, None, None, side], 2),
            ([side, None, side, None], 3),
            ([side; 4], 5),
        ] {
            let start = Start {
                numbers: [0; 10],
                sides,
            };
            assert_eq!(rt; start.objects(), want);
        }
    }
}
