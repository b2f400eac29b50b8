//! Pulls: information comes in to where transitions lead.
ghost use Rattle.std.specs.Prelude.{true, refl};
ghost use Rattle.verdicts.specs.Activities.{Pull as Pulls};
ghost use Rattle.verdicts.specs.Searches.{pulling};
ghost use Rattle.judge.specs.KindLaws.{pull_laws};

use crate::activity::Activity;
use crate::movement::Link;

/// Transitions, and then transfers back.
pub struct Pull;

impl Activity for Pull {
    const PHASES: usize = 2;

    const BACKWARDS: bool = true;

    ghost PHASES = { 2 };

    ghost BACKWARDS = { true };

    ghost kind = { pulling };

    ghost activities = { Pulls };

    ghost counted = { refl };

    ghost lawful = { pull_laws };

    fn link(phase: usize) -> Link {
        if phase == 0 {
            Link::Becoming
        } else {
            Link::Getting
        }
    }
}
