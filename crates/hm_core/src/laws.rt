//! What holds after every list of steps.
ghost use Rattle.std.specs.Prelude.{◌≡◌, ◌≤◌, IfOk, OnErr, OnOk};
ghost use Rattle.hm_model.specs.History.{starting_count};
ghost use Rattle.hm_core.specs.Running.{any_store, any_entry, core_of, site_of};
ghost use Rattle.hm_moves.specs.Ends.{ChainsEnd};
ghost use Rattle.hm_core.specs.Taking.{IsAdmitted};
ghost use Rattle.hm_core.specs.Playing.{Answers, Plays, PlaysFresh, Stops, StopsFresh};
ghost use Rattle.hm_moves.specs.Safe.{ComesFromFresh, IsSafe, Leads};

use crate::machine::{Machine, Memory};
use crate::step::{Step, StepRefused};
use hm_model::Start;
use hm_shape::Shape;
use std::alloc::Global;

impl Machine {
    /// Takes steps one after another. A step that is refused changes nothing, and the list goes on with the next one.
    /// Where memory runs out at a step, whose conditions all hold, those before it were answered, and nothing else was
    /// done.
    ///
    /// Behind each published version its chain ends, after at most as many links as the heap has versions, once more for
    /// each cycle that is done.
    pub fn apply_all(&mut self, steps: &[Step]) -> Result<(), Memory>
        ensures played { OnOk result (Plays self.old steps.now self.new) }
        ensures memory { OnErr result (Stops self.old steps.now self.new) }
        ensures leads { Leads any_store any_entry (core_of self.old) (core_of self.new) }
        ensures safe { IsSafe (site_of self.new) (core_of self.new) }
        ensures ends { ChainsEnd self.new.shape (core_of self.new).heap }
        ensures site { site_of self.new ≡ site_of self.old }
    {
        let played = self.play(steps);
        let _store = self.store();
        played
    }

    // Answers steps one after another, as long as there is memory.
    fn play(&mut self, steps: &[Step]) -> Result<(), Memory>
        ensures played { OnOk result (Plays self.old steps.now self.new) }
        ensures memory { OnErr result (Stops self.old steps.now self.new) }
        ensures leads { Leads any_store any_entry (core_of self.old) (core_of self.new) }
        ensures site { site_of self.new ≡ site_of self.old }
    {
        for step in steps {
            self.answer(step)?;
        }
        Ok(())
    }

    // Takes or refuses one step.
    fn answer(&mut self, step: &Step) -> Result<(), Memory>
        ensures answered { OnOk result (Answers self.old step.now self.new) }
        ensures unchanged { OnErr result (self.new ≡ self.old) }
        ensures memory { OnErr result (IsAdmitted self.old step.now) }
        ensures leads { Leads any_store any_entry (core_of self.old) (core_of self.new) }
        ensures site { site_of self.new ≡ site_of self.old }
    {
        match self.apply(step) {
            Err(StepRefused::Memory) => Err(Memory),
            _ => Ok(()),
        }
    }
}

/// The machine after a list of steps, from a fresh one on. A step that is refused changes nothing. Where memory runs
/// out at a step, whose conditions all hold, it is the machine after those before it, with `Memory` beside it. The start
/// has at most as many objects as a region has versions. Answers `Memory` where there is none for the machine itself.
pub fn machine_after(
    alloc: Global,
    shape: Shape,
    start: Start,
    steps: &[Step],
) -> Result<(Machine, Result<(), Memory>), Memory>
    requires { starting_count start ≤ shape.versions }
    ensures played { IfOk result (λ after. OnOk after.1 (PlaysFresh steps.now after.0)) }
    ensures memory { IfOk result (λ after. OnErr after.1 (StopsFresh steps.now after.0)) }
    ensures safe { IfOk result (λ after. IsSafe (site_of after.0) (core_of after.0)) }
    ensures ends { IfOk result (λ after. ChainsEnd after.0.shape (core_of after.0).heap) }
    ensures led { IfOk result (λ after.
        ComesFromFresh any_store any_entry (site_of after.0) (core_of after.0)) }
    ensures shape { IfOk result (λ after. after.0.shape ≡ shape) }
    ensures start { IfOk result (λ after. after.0.start ≡ start) }
{
    let mut machine = Machine::new(alloc, shape, start)?;
    let played = machine.apply_all(steps);
    Ok((machine, played))
}
