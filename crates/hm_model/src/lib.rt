//! What a heap of shared objects is, and what its callers may rely on.
//!
//! A *heap* holds *objects*, all of one size: four references, each to an object or to none, and ten numbers. An
//! object is created once and then fetched and stored to. It has a *stamp*, which counts the stores. A heap starts
//! with a common object, which every caller finds at its root place 0, and up to four side objects ([`Start`]).
//!
//! A *caller* is a mutator thread's handle. It names objects by 256 *root places*, its roots in the field's word, and
//! by nothing else: what an object refers to is first fetched into a root place. A call on an object makes one *entry*
//! ([`Entry`]): who made it, on which object, and with which answer. A heap's *history* is the list of all entries of
//! all callers, one after another. No running call stores it or prints a name: contracts alone see them.
//!
//! What an entry means is said by the *plain store*, a map from names to what the objects hold:
//!
//! | Entry | May come next where | Leaves |
//! |---|---|---|
//! | Create | its name is its caller's next one, and what it names is there | one object more, with stamp 0 |
//! | Fetch | its answer is what the object holds | the same store |
//! | Store | its object and what it names are there | one field replaced, the stamp raised by one |
//! | StoreIf, Stored | its stamp is as given; what it names is there | all fields replaced, the stamp raised by one |
//! | StoreIf, Changed | its stamp is another, the answer; what it names is there | the same store |
//!
//! A history is *legal* where it begins with the entries that make the starting objects, and each entry may come next
//! in the store that those before it leave. A *usage* ([`Usage`]) says besides which stores are lawful and which
//! entries are allowed, so that callers who know nothing of one another can keep an invariant together.
//!
//! Contracts see a caller as one record, its `Sight` (`specs/Sight.antt`): the history that it has seen, its own
//! entries, the names at its root places, its room, and some counts. Each call of [`Caller`] that makes an entry ends
//! with that entry as the last that the caller has seen, behind whatever others made meanwhile. So a caller reads back
//! what it stored ([`store_and_fetch`]), and knows nothing of when others see it.
//!
//! An object is kept in *versions*, its copies in a version chain. A create and a store take a version each of their
//! caller's *room*, and are refused as [`Full`] where there is none; a fetch takes one at most, while it is copying.
//! A [`Worker`] is a caller that does a bounded piece of the collector's work when it is told to: [`Worker::tend`].
//!
//! No clause speaks of what another caller has seen.
#![tactic(auto)]

mod caller;
mod entry;
mod object;
mod read_back;
mod root;
mod usage;
mod worker;

pub use caller::Caller;
pub use entry::{Entry, Tried};
pub use object::{Contents, Field, Name, Start};
pub use read_back::store_and_fetch;
pub use root::{Full, Root, Snapshot, StoreIfRefused};
pub use usage::{AnyUsage, NodeUsage, Usage};
pub use worker::{Tended, Worker};
