//! Usages: what the callers of one heap agree to do with it.

/// An agreement of all callers of a heap. It has no running call: contracts alone read it.
pub trait Usage: Drop {
    ghost use Rattle.hm_model.specs.declared.entry.Entry.{Entry};
    ghost use Rattle.hm_model.specs.Store.{PlainStore};
    ghost use Rattle.hm_model.specs.Lawful.{UsageLaws};

    /// Which plain stores are lawful.
    ghost lawful: { Self → PlainStore → Type 0 };

    /// Which entries are allowed. It is asked only of an entry that stands in a lawful store, with its answer.
    ghost allowed: { Self → PlainStore → Entry → Type 0 };

    /// An allowed entry leaves a lawful store. An entry that changes nothing is always allowed.
    ghost laws: { (u : Self) → UsageLaws (lawful u) (allowed u) };
}

/// A usage some of whose objects, the nodes, are never stored to once they are made.
pub trait NodeUsage: Usage {
    ghost use Rattle.hm_model.specs.declared.object.Name.{Name};
    ghost use Rattle.hm_model.specs.Store.{PlainStore};
    ghost use Rattle.hm_model.specs.Lawful.{NodeLaws};

    /// Which names of a lawful store are nodes.
    ghost node: { Self → PlainStore → Name → Type 0 };

    /// Every Create is allowed and makes a node. Nodes stay nodes, and no allowed entry stores into one.
    ghost node_laws: { (u : Self) → NodeLaws (Self.lawful u) (Self.allowed u) (node u) };
}

/// Every store is lawful, and every entry is allowed.
#[derive(Clone, Copy, Debug, PartialEq, Eq)]
pub struct AnyUsage;

impl Usage for AnyUsage {
    ghost lawful = { λ _ _. Unit {0} };

    ghost allowed = { λ _ _ _. Unit {0} };

    ghost laws = { λ _. record {
      leaves = λ _ _ _. tt;
      fetch = λ _ _ _ _ _ _. tt;
      changed = λ _ _ _ _ _ _ _ _ _. tt;
    } };
}
