//! The laws of the pure machine: what every list of moves keeps.
ghost use Rattle.std.specs.Prelude.{◌≡◌, ◌≢◌, ℕ, ◌≤◌, Some, slice_index};
ghost use Rattle.hm_shape.specs.declared.version.Version.{Version};
ghost use Rattle.hm_model.specs.History.{IsSizedStart, opening_of, starting_count, store_of};
ghost use Rattle.hm_moves.specs.declared.moving.Move.{Move};
ghost use Rattle.hm_moves.specs.declared.part.Known.{Known};
ghost use Rattle.hm_moves.specs.declared.part.Part.{Part};
ghost use Rattle.hm_moves.specs.declared.part.Site.{Site};
ghost use Rattle.hm_moves.specs.declared.part.View.{View};
ghost use Rattle.hm_moves.specs.Acts.{finds, publishes, word_of};
ghost use Rattle.hm_moves.specs.After.{view_after};
ghost use Rattle.hm_moves.specs.Told.{Told};
ghost use Rattle.hm_moves.specs.Allowed.{Enabled, IsLawfulMove};
ghost use Rattle.hm_moves.specs.Collecting.{Reached};
ghost use Rattle.hm_moves.specs.Ends.{ChainsEnd};
ghost use Rattle.hm_moves.specs.Fresh.{IsFreshCore};
ghost use Rattle.hm_moves.specs.Good.{Carries, Core, Good, applied};
ghost use Rattle.hm_moves.specs.Safe.{IsSafe, Leads};

use hm_model::Usage;

/// A fresh machine is good, and so is every machine that a good one leads to, by moves of all kinds, by letting go, by
/// splits and by meetings.
pub fn every_list_of_moves_keeps_a_machine_good<U: Usage>()
    ensures fresh { (g : Site U) (c : Core U) → IsSizedStart g.start
        → starting_count g.start ≤ g.shape.versions → IsFreshCore g c
        → U.lawful g.usage (store_of (opening_of g.start)) → Good U.lawful U.allowed g c }
    ensures always { (g : Site U) (c d : Core U)
        → Good U.lawful U.allowed g c → Leads U.lawful U.allowed c d → Good U.lawful U.allowed g d }
{}

/// A good machine keeps the safety rule and the rule of the cycle, and behind each of its published versions the chain
/// ends.
pub fn a_good_machine_is_safe<U: Usage>()
    ensures safe { (g : Site U) (c : Core U) → Good U.lawful U.allowed g c → IsSafe g c }
    ensures ends { (g : Site U) (c : Core U) → Good U.lawful U.allowed g c → ChainsEnd g.shape c.heap }
{}

/// No version that a held version reaches is given out again: whichever move a caller makes, the version that it
/// publishes is not one of them.
pub fn what_is_reached_is_not_given_out_again<U: Usage>()
    ensures given { (g : Site U) (c : Core U) (id place : ℕ) (v : View U) (p : Part U) (m : Move)
        (w : Version) (k : Known) → Good U.lawful U.allowed g c → Carries c.views id place v p
        → IsLawfulMove U.lawful U.allowed c.heap p m → Reached g.shape c w
        → publishes m.act (slice_index c.heap.words (word_of p m.act)) ≡ Some k
        → k.version ≢ w }
{}

/// What a move tells its caller, who does not see the machine, is so, and a move that is enabled by what the caller has
/// seen and knows itself is lawful by the whole machine.
pub fn a_move_tells_the_truth<U: Usage>()
    ensures enabled { (g : Site U) (c : Core U) (id place : ℕ) (v : View U) (p : Part U) (m : Move)
        → Good U.lawful U.allowed g c → Carries c.views id place v p
        → Enabled U.lawful U.allowed v.seen p m → IsLawfulMove U.lawful U.allowed c.heap p m }
    ensures told { (g : Site U) (c : Core U) (id place : ℕ) (v : View U) (p : Part U) (m : Move)
        → Good U.lawful U.allowed g c → Carries c.views id place v p
        → IsLawfulMove U.lawful U.allowed c.heap p m
        → Told U.lawful U.allowed g m v place p (slice_index c.heap.words (word_of p m.act))
        (view_after v place c.heap.history p m (slice_index c.heap.words (word_of p m.act))
        (finds c.heap.index m.act (slice_index c.heap.words (word_of p m.act)))) }
{}
