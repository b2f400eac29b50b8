//! Pushes: information goes out from where transitions lead.
ghost use Rattle.std.specs.Prelude.{false, refl};
ghost use Rattle.verdicts.specs.Activities.{Push as Pushes};
ghost use Rattle.verdicts.specs.Searches.{pushing};
ghost use Rattle.judge.specs.KindLaws.{push_laws};

use crate::activity::Activity;
use crate::movement::Link;

/// Transitions, and then transfers onwards.
pub struct Push;

impl Activity for Push {
    const PHASES: usize = 2;

    const BACKWARDS: bool = false;

    ghost PHASES = { 2 };

    ghost BACKWARDS = { false };

    ghost kind = { pushing };

    ghost activities = { Pushes };

    ghost counted = { refl };

    ghost lawful = { push_laws };

    fn link(phase: usize) -> Link {
        if phase == 0 {
            Link::Becoming
        } else {
            Link::Giving
        }
    }
}
