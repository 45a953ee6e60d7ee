//! Laws of callers that stay with their heap.
ghost use Rattle.std.specs.Prelude.{◌≡◌, List};
ghost use Rattle.hm_model.specs.Sight.{IsSameCaller};
ghost use Rattle.hm_cells.specs.Closing.{AreAll};
ghost use Rattle.hm_cells.specs.Facts.{Facts, Fits, Made};
ghost use Rattle.hm_heap.specs.Tending.{working_sight};
ghost use Rattle.hm_heap.specs.Mutators.{AreSameCallers};

/// A pass whose caller is the same caller of the same heap as before is a pass of that heap still, with its number.
pub fn a_caller_stays_with_its_heap<U>()
    ensures fits { (m : Made U) (s t : Facts U)
        → IsSameCaller (working_sight s) (working_sight t) → Fits s m → Fits t m }
    ensures number { (s t : Facts U)
        → IsSameCaller (working_sight s) (working_sight t) → t.part.number ≡ s.part.number }
{}

/// Passes in order of number, whose callers are one by one the same as those of all passes of a heap, are all its
/// passes: the heap may be closed with them.
pub fn all_callers_close_their_heap<U>()
    ensures { (m : Made U) (old new : List (Facts U))
        → AreAll m old → AreSameCallers old new → AreAll m new }
{}
