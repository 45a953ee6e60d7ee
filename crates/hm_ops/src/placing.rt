//! Versions in hand that are settled at root places.
ghost use Rattle.std.specs.Prelude.{◌<◌};
ghost use Rattle.hm_ops.specs.Placing.{IsInHand, Settles};

use hm_cells::Pass;
use hm_model::{Root, Usage};
use hm_shape::Version;

/// A root place then names this version, which is in hand, and is released.
pub fn settle<U: Usage>(pass: &mut Pass<U>, into: Root, v: Version)
    requires place { into.0 < 256 }
    requires hand { IsInHand pass.old v }
    ensures { Settles pass.old into v pass.new }
{
    // The place first: what neither a place nor the hand names is let go of at the next step.
    pass.set_root(into, v);
    pass.release(v);
}
