//! Stores of one field.
ghost use Rattle.std.specs.Prelude.{◌≡◌, ◌<◌, ◌↔◌, IfSome, IsErr, OnErr, OnOk};
ghost use Rattle.hm_model.specs.declared.object.Field.TheVariants.{Number};
ghost use Rattle.hm_model.specs.Sight.{Continues, IsSet, MayEnter};
ghost use Rattle.hm_model.specs.Calls.{MayStore, Stores, refer_to};
ghost use Rattle.hm_moves.specs.Allowed.{HasRoom};
ghost use Rattle.hm_cells.specs.declared.want.Want.TheVariants.{Store};
ghost use Rattle.hm_cells.specs.Calls.{MayChange, field_of, stored};
ghost use Rattle.hm_cells.specs.Facts.{known_at, sight_of};
ghost use Rattle.hm_ops.specs.Resting.{IsAtPlace, IsResting, Keeps};
ghost use Rattle.hm_ops.specs.Storing.{Steps};

use crate::copying::copy_changed;
use crate::linking::{link, look};
use crate::turning::make_place;
use hm_cells::{Cells, Pass, Want, WantField};
use hm_model::{Full, Root, Usage};
use hm_shape::Version;

/// Replaces number `i`, below 10, of the object that a place names, and raises its stamp by one. Where the caller's
/// room is 0 it answers `Full`, and nothing changes: no step is taken.
pub fn store_number<U: Usage>(
    cells: &Cells<U>,
    pass: &mut Pass<U>,
    at: Root,
    i: u32,
    value: u64,
) -> Result<(), Full>
    requires rests { IsResting pass.old cells.now }
    requires at { IsSet (sight_of pass.old) at }
    requires field { i < 10 }
    requires allowed { MayStore U.lawful U.allowed (sight_of pass.old) at (Number i value) }
    ensures stored { OnOk result (Stores U.lawful U.allowed
        (sight_of pass.old) (sight_of pass.new) at (Number i value)) }
    ensures full { IsErr result ↔ ((sight_of pass.old).room ≡ 0) }
    ensures unchanged { OnErr result (pass.new ≡ pass.old) }
    ensures same { Continues U.lawful U.allowed (sight_of pass.old) (sight_of pass.new) }
    ensures keeps { Keeps U.lawful U.allowed pass.new cells.now }
{
    store(cells, pass, at, WantField::Number { i, value })
}

/// Replaces reference `i`, below 4, of the object that a place names, by what a place names, or by none, and raises its
/// stamp by one. Where the caller's room is 0 it answers `Full`, and nothing changes: no step is taken.
pub fn store_ref<U: Usage>(
    cells: &Cells<U>,
    pass: &mut Pass<U>,
    at: Root,
    i: u32,
    value: Option<Root>,
) -> Result<(), Full>
    requires rests { IsResting pass.old cells.now }
    requires at { IsSet (sight_of pass.old) at }
    requires field { i < 4 }
    requires value { IfSome value (IsSet (sight_of pass.old)) }
    requires allowed { MayStore U.lawful U.allowed (sight_of pass.old) at
        (refer_to (sight_of pass.old) i value) }
    ensures stored { OnOk result (Stores U.lawful U.allowed
        (sight_of pass.old) (sight_of pass.new) at (refer_to (sight_of pass.old) i value)) }
    ensures full { IsErr result ↔ ((sight_of pass.old).room ≡ 0) }
    ensures unchanged { OnErr result (pass.new ≡ pass.old) }
    ensures same { Continues U.lawful U.allowed (sight_of pass.old) (sight_of pass.new) }
    ensures keeps { Keeps U.lawful U.allowed pass.new cells.now }
{
    store(cells, pass, at, WantField::Refer { i, value })
}

// Replaces one field of the object that a place names.
fn store<U: Usage>(
    cells: &Cells<U>,
    pass: &mut Pass<U>,
    at: Root,
    field: WantField,
) -> Result<(), Full>
    requires rests { IsResting pass.old cells.now }
    requires at { IsSet (sight_of pass.old) at }
    requires field { MayChange pass.old field }
    requires allowed { MayStore U.lawful U.allowed (sight_of pass.old) at
        (field_of pass.old field) }
    ensures stored { OnOk result (Stores U.lawful U.allowed
        (sight_of pass.old) (sight_of pass.new) at (field_of pass.old field)) }
    ensures full { IsErr result ↔ ((sight_of pass.old).room ≡ 0) }
    ensures unchanged { OnErr result (pass.new ≡ pass.old) }
    ensures same { Continues U.lawful U.allowed (sight_of pass.old) (sight_of pass.new) }
    ensures keeps { Keeps U.lawful U.allowed pass.new cells.now }
{
    // Asked before the first step, so that Full changes nothing.
    if pass.room() == 0 {
        return Err(Full);
    }
    make_place(cells, pass);
    store_placed(cells, pass, at, field);
    Ok(())
}

// Replaces one field of the object that a place names, where the To region has a place.
fn store_placed<U: Usage>(cells: &Cells<U>, pass: &mut Pass<U>, at: Root, field: WantField)
    requires keeps { Keeps U.lawful U.allowed pass.old cells.now }
    requires room { HasRoom pass.old.part }
    requires at { IsSet (sight_of pass.old) at }
    requires field { MayChange pass.old field }
    requires allowed { MayStore U.lawful U.allowed (sight_of pass.old) at
        (field_of pass.old field) }
    ensures stored { Stores U.lawful U.allowed
        (sight_of pass.old) (sight_of pass.new) at (field_of pass.old field) }
    ensures same { Continues U.lawful U.allowed (sight_of pass.old) (sight_of pass.new) }
    ensures keeps { Keeps U.lawful U.allowed pass.new cells.now }
{
    let mut v = pass.root(at).unwrap();
    while let Some(next) = try_store(cells, pass, at, v, field) {
        v = next;
    }
}

// An attempt at a store, on the version at a root place. Where there is another version behind it, before the copy is
// written or after, that is answered.
fn try_store<U: Usage>(
    cells: &Cells<U>,
    pass: &mut Pass<U>,
    at: Root,
    v: Version,
    field: WantField,
) -> Option<Version>
    requires keeps { Keeps U.lawful U.allowed pass.old cells.now }
    requires at { IsSet (sight_of pass.old) at }
    requires place { IsAtPlace pass.old at.0 v }
    requires room { HasRoom pass.old.part }
    requires field { MayChange pass.old field }
    requires allowed { MayEnter U.lawful U.allowed (sight_of pass.old)
        (stored pass.old (known_at pass.old v) (Store field)) }
    ensures { Steps U.lawful U.allowed cells.now pass.old at v
        (stored pass.old (known_at pass.old v) (Store field)) 1 result pass.new }
{
    // A copy is sixteen stores, so it is written only where no link is there yet. The exchange asks again.
    if let Some(next) = look(cells, pass, at, v, Want::Nothing) {
        return Some(next);
    }
    // A copy of the version that it is hung on. Where another came between, the exchange finds that, and the next
    // attempt copies that one: hung there, this copy would undo what the other caller stored.
    copy_changed(cells, pass, v, field);
    link(cells, pass, at, v, Want::Store { field })
}
