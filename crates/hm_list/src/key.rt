//! Keys in their order, and pairs.
ghost use Rattle.std.specs.Prelude.{◌≡◌};
ghost use Rattle.hm_list.specs.Pairs.{is_less, is_same};

/// A key. Keys are compared by `a`, and where that is the same by `b`.
#[derive(Clone, Copy, Debug, PartialEq, Eq)]
pub struct Key {
    pub a: u64,
    pub b: u64,
}

/// A key and the six numbers under it.
#[derive(Clone, Copy, Debug, PartialEq, Eq)]
pub struct Pair {
    pub key: Key,
    pub load: [u64; 6],
}

/// Why a list was not changed.
#[derive(Clone, Copy, Debug, PartialEq, Eq)]
pub enum Refused {
    /// The caller's room is 0.
    Full,
    /// There was no memory for what the walk passed.
    Memory,
}

/// Whether the first key comes before the second.
pub(crate) fn is_key_less(x: Key, y: Key) -> bool
    ensures { result ≡ is_less x y }
{
    x.a < y.a || x.a == y.a && x.b < y.b
}

/// Whether the keys are one key.
pub(crate) fn is_key_same(x: Key, y: Key) -> bool
    ensures { result ≡ is_same x y }
{
    x.a == y.a && x.b == y.b
}
