//! Flows: information comes in to one context.
ghost use Rattle.std.specs.Prelude.{true, refl};
ghost use Rattle.verdicts.specs.Activities.{Flow as Flows};
ghost use Rattle.verdicts.specs.Searches.{flowing};
ghost use Rattle.judge.specs.KindLaws.{flow_laws};

use crate::activity::Activity;
use crate::movement::Link;

/// Transfers back alone.
pub struct Flow;

impl Activity for Flow {
    const PHASES: usize = 1;

    const BACKWARDS: bool = true;

    ghost PHASES = { 1 };

    ghost BACKWARDS = { true };

    ghost kind = { flowing };

    ghost activities = { Flows };

    ghost counted = { refl };

    ghost lawful = { flow_laws };

    fn link(_phase: usize) -> Link {
        Link::Getting
    }
}
