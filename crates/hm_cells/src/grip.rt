//! What of a pass changes without a step: its root places and its hand, which keep versions from being let go, and which
//! scan of it ended clean.
//!
//! The hand is for contracts alone, and so is the count of tends. They are carried in the view of a seat and never
//! stored, and change by a load of a word that is always 0.
ghost use Rattle.std.specs.Prelude.{◌≡◌};

use crate::knowledge::{Holding, Opening};
use atomic_table::{Play, Seat, Table, TableRule};
use hm_model::{Root, Usage};
use hm_shape::Version;
use std::alloc::{AllocError, Global};
use std::marker::{Brand, Model, PhantomData};

/// How many root places a caller has.
pub(crate) const ROOTS: usize = 256;

/// The hand may have any versions.
pub(crate) struct Freely;

impl<U> TableRule<(), Holding<U>, Opening<U>> for Freely {
    ghost use Rattle.std.specs.Prelude.{[]};
    ghost use Rattle.hm_cells.specs.Grips.{site_of};

    ghost holds = { λ _ _. Unit {0} };

    ghost first = { λ o. record { site = site_of o; hand = []; tends = 0 } };
}

/// The versions in hand after a step. Each call picks them.
pub(crate) trait Handing {
    ghost use Rattle.std.specs.Prelude.{List};
    ghost use Rattle.hm_shape.specs.declared.version.Version.{Version};

    ghost picked: { List Version };
}

impl Handing for Brand {
    ghost use Rattle.std.specs.Prelude.{[]};

    ghost picked = { [] };
}

/// A step at which the hand changes.
pub(crate) struct Hands<J>(PhantomData<J>);

impl<J: Handing, U> Play<(), Holding<U>> for Hands<J> {
    ghost use Rattle.std.specs.Prelude.{◌≡◌};
    ghost use Rattle.hm_cells.specs.Grips.{handing};

    ghost then = { λ _ m _ w. (w.0 ≡ handing m.0 J.picked) × (w.1 ≡ m.1) };
}

/// A step at which the caller tends.
pub(crate) struct Tends;

impl<U> Play<(), Holding<U>> for Tends {
    ghost use Rattle.std.specs.Prelude.{◌≡◌};
    ghost use Rattle.hm_cells.specs.Grips.{tended};

    ghost then = { λ _ m _ w. (w.0 ≡ tended m.0) × (w.1 ≡ m.1) };
}

/// Contracts see of a grip what its seat knows, its root places, and the First in which a scan ended clean.
#[derive(Drop)]
pub(crate) struct Grip<U> {
    table: Table<(), Holding<U>, Opening<U>, Freely, Global>,
    seat: Seat<(), Holding<U>>,
    roots: [Option<Version>; 256],
    scanned: Option<u32>,
}

impl<U> Model for Grip<U> {
    ghost use Rattle.std.specs.Prelude.{◌≡◌, ◌<◌};
    ghost use Rattle.hm_cells.specs.Grips.{Gripped};

    ghost Value = { Gripped U };

    ghost view = { λ g. record {
      site = g.seat.me.0.site;
      roots = g.roots;
      hand = g.seat.me.0.hand;
      scanned = g.scanned;
      tends = g.seat.me.0.tends;
    } };

    ghost invariant = { λ g. (g.seat.table_id ≡ g.table.shared.table_id)
        × (0 < g.table.shared.table_id.words) };
}

impl<U> Grip<U> {
    ghost use Rattle.std.specs.Prelude.{◌<◌, ◌+◌, ◌++◌, List, [], Option, None, replicate, slice_index_or, slice_set, length, IfOk};
    ghost use Rattle.std.specs.Option.{option_to_list};
    ghost use Rattle.hm_shape.specs.declared.version.Version.{Version};
    ghost use Rattle.hm_cells.specs.Facts.{without_first};
    ghost use Rattle.hm_cells.specs.Grips.{site_of};

    /// A grip with nothing in hand and no place set, whose caller has not tended.
    pub fn open(alloc: Global, opening: &Opening<U>) -> Result<Grip<U>, AllocError>
        ensures { IfOk result (λ g. g ≡ record {
          site = site_of opening.now;
          roots = replicate 256 None;
          hand = [];
          scanned = None;
          tends = 0;
        }) }
    {
        let (table, seat) = Table::of_words(alloc, &[0], opening)?;
        Ok(Grip {
            table,
            seat,
            roots: [None; ROOTS],
            scanned: None,
        })
    }

    /// The version at a place, if it is set.
    pub fn root(&self, r: Root) -> Option<Version>
        requires { r.0 < 256 }
        ensures { result ≡ slice_index_or self.now.roots r.0 None }
    {
        self.roots[r.0 as usize]
    }

    /// The place then names this version, or none.
    pub fn set(&mut self, r: Root, version: Option<Version>)
        requires { r.0 < 256 }
        ensures { self.new ≡ record self.old {
          roots = slice_set self.old.roots r.0 version;
        } }
    {
        self.roots[r.0 as usize] = version;
    }

    /// The number of the First in which a scan ended clean; None where there is none.
    pub fn scanned(&self) -> Option<u32>
        ensures { result ≡ self.now.scanned }
    {
        self.scanned
    }

    /// A scan ended clean in the First of this number, or none did.
    pub fn note_scan(&mut self, scanned: Option<u32>)
        ensures { self.new ≡ record self.old { scanned = scanned } }
    {
        self.scanned = scanned;
    }

    /// The version, if one is given, is in hand from then on.
    pub fn take(&mut self, version: Option<Version>)
        ensures { self.new ≡ record self.old { hand = self.old.hand ++ option_to_list version } }
    {
        if version.is_some() {
            self.step::<Brand>(version);
        }
    }

    /// The version is no longer in hand, or once less.
    pub fn release(&mut self, version: Version)
        ensures { self.new ≡ record self.old { hand = without_first version self.old.hand } }
    {
        self.step::<Brand>(Some(version));
    }

    /// Counts a tend. The count is never stored.
    pub fn tend(&mut self)
        ensures { self.new ≡ record self.old { tends = self.old.tends + 1 } }
    {
        let table = &self.table;
        table.shared.load::<Tends>(&mut self.seat, 0);
    }

    fn step<J: Handing>(&mut self, _version: Option<Version>)
        ensures { self.new ≡ record self.old { hand = J.picked } }
    {
        let table = &self.table;
        table.shared.load::<Hands<J>>(&mut self.seat, 0);
    }
}
